// A resource with a limit to its sessions in a slot: where it holds as many, there is no room.
ghost use Rattle.std.specs.Prelude.{◌≡◌};
ghost use Rattle.resource.specs.CallEffects.{New};
ghost use Rattle.standard.specs.QuotaMeaning.{clamped_limit};
ghost use Rattle.standard.specs.QuotaLaws.{quota_lawful};
ghost use Rattle.standard.specs.LayerMeanings.{quota_meaning};

use resource::{ApduBuf, Readiness, RefusalByte, Resource};
use wire::Apdu;

/// A resource with a limit to the sessions of a slot: where the resource below is ready but holds as many, over all identifiers,
/// `Busy` is answered. All else is as below it.
#[derive(Drop)]
pub struct Quota<R> {
    limit: u8,
    below: R,
}

impl<R: Resource> Quota<R> {
    /// A quota over this resource; over a new one it is new. The limit is taken as 1 if lower and as 16 if higher.
    pub fn new(limit: u8, below: R) -> Quota<R>
        ensures limit { result.limit ≡ limit }
        ensures below { result.below ≡ below }
        ensures begins { New R.Resource.meaning below → New (quota_meaning R.Resource.meaning) result }
    {
        Quota { limit, below }
    }

    fn effective_limit(&self) -> usize
        ensures { result ≡ clamped_limit self.now.limit }
    {
        16.min(1.max(self.limit as usize))
    }
}

impl<R: Resource> Resource for Quota<R> {
    ghost meaning = { quota_meaning R.Resource.meaning };

    ghost laws = { quota_lawful (λ q. q.limit) (λ q. q.below) R.Resource.meaning R.Resource.laws };

    fn find(&self, identifier: u32) -> Option<u32> {
        self.below.find(identifier)
    }

    fn ready(&self, slot: u8, identifier: u32) -> Readiness {
        match self.below.ready(slot, identifier) {
            Readiness::Ready if self.below.count(slot) >= self.effective_limit() => Readiness::Busy,
            below => below,
        }
    }

    fn greeting(&self, identifier: u32) -> Option<ApduBuf> {
        self.below.greeting(identifier)
    }

    fn count(&self, slot: u8) -> usize {
        self.below.count(slot)
    }

    fn opened(&mut self, slot: u8, identifier: u32, number: u8) {
        self.below.opened(slot, identifier, number);
    }

    fn closed(&mut self, slot: u8, identifier: u32, number: u8) {
        self.below.closed(slot, identifier, number);
    }

    fn object(
        &mut self,
        slot: u8,
        identifier: u32,
        number: u8,
        apdu: Apdu<&[u8]>,
    ) -> Result<Option<ApduBuf>, RefusalByte> {
        self.below.object(slot, identifier, number, apdu)
    }

    fn gone(&mut self, slot: u8) {
        self.below.gone(slot);
    }

    fn clock(&mut self, time: [u8; 5]) {
        self.below.clock(time);
    }
}
