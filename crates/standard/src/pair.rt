// Two resources: the first of them that has a match serves.
ghost use Rattle.std.specs.Prelude.{◌≡◌, if◌then◌else◌};
ghost use Rattle.resource.specs.CallEffects.{finds, New};
ghost use Rattle.standard.specs.PairMeaning.{has_match};
ghost use Rattle.standard.specs.PairLaws.{pair_lawful};
ghost use Rattle.standard.specs.LayerMeanings.{pair_meaning};

use resource::{ApduBuf, Readiness, RefusalByte, Resource};
use wire::Apdu;

/// Two resources as one: the first of them that has a match for an identifier serves, whatever the versions.
/// Its list is the first's, then those of the second that match none of these.
#[derive(Drop)]
pub struct Pair<A, B> {
    first: A,
    second: B,
}

impl<A: Resource, B: Resource> Pair<A, B> {
    /// The pair of these two; of two new resources it is new.
    pub fn new(first: A, second: B) -> Pair<A, B>
        ensures first { result.first ≡ first }
        ensures second { result.second ≡ second }
        ensures begins { New A.Resource.meaning first → New B.Resource.meaning second → New (pair_meaning A.Resource.meaning B.Resource.meaning) result }
    {
        Pair { first, second }
    }

    // Whether the first has a match.
    #[tactic(auto, using(crate::specs::PairLists::pair_finds))]
    fn is_first(&self, identifier: u32) -> bool
        ensures matched { result ≡ has_match (A.Resource.meaning.listed (A.Resource.meaning.made self.now.first)) identifier }
        ensures serves { finds (pair_meaning A.Resource.meaning B.Resource.meaning) self.now identifier ≡ (if result then finds A.Resource.meaning self.now.first identifier else finds B.Resource.meaning self.now.second identifier) }
    {
        self.first.find(identifier).is_some()
    }
}

// A call that names an identifier goes to the first where that has a match, and else to the second.
impl<A: Resource, B: Resource> Resource for Pair<A, B> {
    ghost meaning = { pair_meaning A.Resource.meaning B.Resource.meaning };

    ghost laws = { pair_lawful (λ p. p.first) (λ p. p.second) A.Resource.meaning B.Resource.meaning A.Resource.laws B.Resource.laws };

    fn find(&self, identifier: u32) -> Option<u32> {
        if self.is_first(identifier) {
            self.first.find(identifier)
        } else {
            self.second.find(identifier)
        }
    }

    fn ready(&self, slot: u8, identifier: u32) -> Readiness {
        if self.is_first(identifier) {
            self.first.ready(slot, identifier)
        } else {
            self.second.ready(slot, identifier)
        }
    }

    fn greeting(&self, identifier: u32) -> Option<ApduBuf> {
        if self.is_first(identifier) {
            self.first.greeting(identifier)
        } else {
            self.second.greeting(identifier)
        }
    }

    fn count(&self, slot: u8) -> usize {
        self.first
            .count(slot)
            .saturating_add(self.second.count(slot))
    }

    fn opened(&mut self, slot: u8, identifier: u32, number: u8) {
        if self.is_first(identifier) {
            self.first.opened(slot, identifier, number);
        } else {
            self.second.opened(slot, identifier, number);
        }
    }

    fn closed(&mut self, slot: u8, identifier: u32, number: u8) {
        if self.is_first(identifier) {
            self.first.closed(slot, identifier, number);
        } else {
            self.second.closed(slot, identifier, number);
        }
    }

    fn object(
        &mut self,
        slot: u8,
        identifier: u32,
        number: u8,
        apdu: Apdu<&[u8]>,
    ) -> Result<Option<ApduBuf>, RefusalByte> {
        if self.is_first(identifier) {
            self.first.object(slot, identifier, number, apdu)
        } else {
            self.second.object(slot, identifier, number, apdu)
        }
    }

    fn gone(&mut self, slot: u8) {
        self.first.gone(slot);
        self.second.gone(slot);
    }

    fn clock(&mut self, time: [u8; 5]) {
        self.first.clock(time);
        self.second.clock(time);
    }
}
