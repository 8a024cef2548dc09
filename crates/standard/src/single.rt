// Resources of one identifier that are always ready: what they have in common. A handler says what each of them adds.
ghost use Rattle.std.specs.Prelude.{◌≡◌};
ghost use Rattle.std.specs.Option.{option_map};
ghost use Rattle.resource.specs.Meaning.{outcome};
ghost use Rattle.resource.specs.CallEffects.{New};
ghost use Rattle.resource.specs.InterfaceViews.{buffer_bytes, reaction_of, apdu_value};
ghost use Rattle.standard.specs.Handling.{Handling, OtherNotesStay, NothingNoted};
ghost use Rattle.standard.specs.SingleShares.{single_meaning, single_meaning_lawful, key_numbers, key_if_nameable, holds_key};

use crate::session_set::SessionSet;
use resource::identifier::matches;
use resource::{ApduBuf, Readiness, RefusalByte, Resource, SessionNumber, SlotNumber};
use wire::Apdu;

/// What a resource of one identifier adds to `SingleResource`: its identifier, its greeting, and how it answers objects.
/// It notes something for each slot, and a call on one slot leaves the notes of the others.
pub trait Handler {
    ghost handling: { Handling Self };

    /// The identifier of the resource.
    fn identifier(&self) -> u32
        ensures { result ≡ handling.rules.identifier };

    /// The object that is sent first in a session, or none.
    fn greeting(&self) -> Option<ApduBuf>
        ensures { option_map buffer_bytes result ≡ handling.rules.greeting };

    /// A session of this number, which was not held, opens for a slot.
    fn begin(&mut self, slot: SlotNumber, number: SessionNumber)
        ensures note { handling.note self.new slot.number ≡ handling.rules.begins number.number (handling.note self.old slot.number) }
        ensures aside { OtherNotesStay handling slot.number self.old self.new };

    /// An object came in a held session: the reply to it, or none. `time` is the time last told, if any.
    /// Where it is refused, what is noted stays.
    fn react(
        &mut self,
        time: Option<[u8; 5]>,
        slot: SlotNumber,
        number: SessionNumber,
        apdu: Apdu<&[u8]>,
    ) -> Result<Option<ApduBuf>, RefusalByte>
        ensures note { outcome (reaction_of result) (handling.note self.new slot.number) ≡ handling.rules.reacts (handling.made self.old) time number.number (apdu_value apdu.entry) (handling.note self.old slot.number) }
        ensures aside { OtherNotesStay handling slot.number self.old self.new };

    /// What was noted for a slot is forgotten.
    fn forget(&mut self, slot: SlotNumber)
        ensures note { handling.note self.new slot.number ≡ handling.rules.start }
        ensures aside { OtherNotesStay handling slot.number self.old self.new };
}

// The slot and the number of what may be a session of the resource.
#[derive(Clone, Copy)]
struct SessionKey {
    slot: SlotNumber,
    number: SessionNumber,
}

/// A resource of one identifier that is always ready: its handler, the time last told, and the sessions held for each slot.
#[derive(Drop)]
pub struct SingleResource<K> {
    handler: K,
    time: Option<[u8; 5]>,
    held: [SessionSet; 4],
}

impl<K: Handler> SingleResource<K> {
    /// The resource of this handler; it is new where the handler noted nothing so far.
    pub fn new(handler: K) -> SingleResource<K>
        ensures handler { result.handler ≡ handler }
        ensures begins { NothingNoted K.Handler.handling handler → New (single_meaning K.Handler.handling) result }
    {
        SingleResource {
            handler,
            time: None,
            held: [SessionSet::empty(); 4],
        }
    }

    /// The handler, with what it notes.
    pub fn handler(&self) -> &K
        ensures { result.now ≡ self.now.handler }
    {
        &self.handler
    }

    // The key of these, where they may name a session of the resource.
    fn session_key(&self, slot: u8, identifier: u32, number: u8) -> Option<SessionKey>
        ensures { option_map key_numbers result ≡ key_if_nameable K.Handler.handling slot identifier number }
    {
        if identifier != self.handler.identifier() {
            return None;
        }
        Some(SessionKey {
            slot: SlotNumber::new(slot)?,
            number: SessionNumber::new(number)?,
        })
    }

    // Whether the session of this key is held.
    fn holds(&self, key: SessionKey) -> bool
        ensures { result ≡ holds_key K.Handler.handling self.now key }
    {
        self.held[key.slot.get() as usize].contains(key.number.get())
    }
}

impl<K: Handler> Resource for SingleResource<K> {
    ghost meaning = { single_meaning K.Handler.handling };

    ghost laws = { single_meaning_lawful K.Handler.handling };

    fn find(&self, identifier: u32) -> Option<u32> {
        let own = self.handler.identifier();
        matches(own, identifier).then_some(own)
    }

    fn ready(&self, slot: u8, identifier: u32) -> Readiness {
        if SlotNumber::new(slot).is_some() && identifier == self.handler.identifier() {
            Readiness::Ready
        } else {
            Readiness::Unavailable
        }
    }

    fn greeting(&self, identifier: u32) -> Option<ApduBuf> {
        if identifier == self.handler.identifier() {
            self.handler.greeting()
        } else {
            None
        }
    }

    fn count(&self, slot: u8) -> usize {
        self.held.get(slot as usize).map_or(0, |set| set.len())
    }

    fn opened(&mut self, slot: u8, identifier: u32, number: u8) {
        if let Some(key) = self.session_key(slot, identifier, number)
            && !self.holds(key)
        {
            self.held[key.slot.get() as usize].insert(key.number);
            self.handler.begin(key.slot, key.number);
        }
    }

    fn closed(&mut self, slot: u8, identifier: u32, number: u8) {
        if let Some(key) = self.session_key(slot, identifier, number)
            && self.holds(key)
        {
            self.held[key.slot.get() as usize].remove(key.number);
        }
    }

    fn object(
        &mut self,
        slot: u8,
        identifier: u32,
        number: u8,
        apdu: Apdu<&[u8]>,
    ) -> Result<Option<ApduBuf>, RefusalByte> {
        match self.session_key(slot, identifier, number) {
            Some(key) if self.holds(key) => {
                self.handler.react(self.time, key.slot, key.number, apdu)
            }
            _ => Ok(None),
        }
    }

    fn gone(&mut self, slot: u8) {
        if let Some(slot) = SlotNumber::new(slot) {
            self.held[slot.get() as usize] = SessionSet::empty();
            self.handler.forget(slot);
        }
    }

    fn clock(&mut self, time: [u8; 5]) {
        self.time = Some(time);
    }
}
