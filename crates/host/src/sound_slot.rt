// A slot: its record, which is always sound, and every call on it.
ghost use Rattle.std.specs.Prelude.{◌≡◌, ◌≤◌, length, Ok, IfOk};
ghost use Rattle.protocol.specs.SlotRecord.{new_slot};
ghost use Rattle.protocol.specs.Sound.{Sound};
ghost use Rattle.protocol.specs.SlotCalls.{plug as plug_call, pull as pull_call, end as end_call, next as next_call, feed as feed_call, expire as expire_call, done};
ghost use Rattle.slot.specs.RecordViews.{slot_of};
ghost use Rattle.slot.specs.Refinement.{RefinesCall, plain_answer};
ghost use Rattle.slot.specs.FeedAnswers.{feed_answer};
ghost use Rattle.slot.specs.WrittenCommands.{written_answer, buffer_after, HandedTurnIs};

use protocol::Refusal;
use resource::{ConnectionId, Resource, SlotNumber};
use slot::{Record, SlotContext, WrittenCommand};

// A slot, whose record is always sound: each session is on an Active connection, and nothing is owed where the turn is out.
#[derive(Clone, Copy)]
pub struct Slot {
    contents: Record,
    ghost sound: { ∥ Sound (slot_of contents) ∥₁ },
}

impl Slot {
    // A slot of a new host.
    pub(crate) fn new() -> Slot
        ensures { slot_of result.contents ≡ new_slot }
    {
        Slot {
            contents: Record::new(),
        }
    }

    pub(crate) fn contents(&self) -> &Record
        ensures { result.now ≡ self.now.contents }
    {
        &self.contents
    }

    pub(crate) fn plug<R: Resource>(
        &mut self,
        resource: &mut R,
        at: SlotNumber,
        size: u16,
    ) -> Result<(), Refusal>
        ensures { RefinesCall R.Resource.meaning at.number (plug_call size) (plain_answer result) self.old.contents resource.old self.new.contents resource.new }
    {
        SlotContext::new(&mut self.contents, resource, at.get()).plug(size)
    }

    pub(crate) fn pull<R: Resource>(
        &mut self,
        resource: &mut R,
        at: SlotNumber,
    ) -> Result<(), Refusal>
        ensures { RefinesCall R.Resource.meaning at.number pull_call (plain_answer result) self.old.contents resource.old self.new.contents resource.new }
    {
        SlotContext::new(&mut self.contents, resource, at.get()).pull()
    }

    pub(crate) fn end<R: Resource>(
        &mut self,
        resource: &mut R,
        at: SlotNumber,
        connection: u8,
    ) -> Result<(), Refusal>
        ensures { RefinesCall R.Resource.meaning at.number (end_call connection) (plain_answer result) self.old.contents resource.old self.new.contents resource.new }
    {
        SlotContext::new(&mut self.contents, resource, at.get()).end(connection)
    }

    pub(crate) fn next<R: Resource>(
        &mut self,
        resource: &R,
        at: SlotNumber,
        connection: u8,
        out: &mut [u8],
    ) -> Result<WrittenCommand, Refusal>
        ensures did { RefinesCall R.Resource.meaning at.number (next_call connection (length out.old)) (written_answer result out.new) self.old.contents resource.now self.new.contents resource.now }
        ensures bytes { out.new ≡ buffer_after (written_answer result out.new) out.old }
        ensures inside { IfOk result (λ sent. sent.length ≤ length out.new) }
        ensures whose { HandedTurnIs connection result }
    {
        slot::next(&mut self.contents, resource, at.get(), connection, out)
    }

    // True where the turn comes back for further fragments, false where it is spent.
    pub(crate) fn feed<R: Resource>(
        &mut self,
        resource: &mut R,
        at: SlotNumber,
        c: ConnectionId,
        lpdu: &[u8],
    ) -> Result<bool, Refusal>
        ensures { RefinesCall R.Resource.meaning at.number (feed_call c.number lpdu.now) (feed_answer result) self.old.contents resource.old self.new.contents resource.new }
    {
        let mut context = SlotContext::new(&mut self.contents, resource, at.get());
        slot::feed(&mut context, c, lpdu)
    }

    pub(crate) fn expire<R: Resource>(&mut self, resource: &mut R, at: SlotNumber, c: ConnectionId)
        ensures { RefinesCall R.Resource.meaning at.number (expire_call c.number) (Ok done) self.old.contents resource.old self.new.contents resource.new }
    {
        SlotContext::new(&mut self.contents, resource, at.get()).expire(c);
    }
}
