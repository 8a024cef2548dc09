// A host and the turns that are out, and every call on both.
ghost use Rattle.std.specs.Prelude.{◌≡◌, ℕ, ◌<◌, List, length, Some, None, slice_set};
ghost use Rattle.protocol.specs.SlotCalls.{next as next_call, feed as feed_call, expire as expire_call};
ghost use Rattle.protocol.specs.Runs.{at as at_slot};
ghost use Rattle.slot.specs.Refinement.{plain_answer};
ghost use Rattle.host.specs.Calls.{lent};
ghost use Rattle.host.specs.TurnTables.{turn_index, turn_at};
ghost use Rattle.host.specs.PlayerRefinement.{call_of, player_answer, TurnsMatch, PlayerRefinesCall};

use crate::call::{Answer, Call};
use crate::turn::host::Host;
use crate::turn::{FeedOutcome, NextCommand, Turn};
use crate::turns::TurnTable;
use protocol::Refusal;
use resource::Resource;

pub(crate) struct PlayerState<R> {
    pub(crate) host: Host<R>,
    pub(crate) held: TurnTable,
}

impl<R: Resource + Drop> PlayerState<R> {
    // The turns still out expire, and the host is let go.
    pub(crate) fn finish(self) {
        let PlayerState { mut host, held } = self;
        held.expire_all(&mut host);
    }
}

impl<R: Resource> PlayerState<R> {
    // Any call.
    pub(crate) fn call(&mut self, call: Call<&[u8]>, out: &mut [u8]) -> Result<Answer, Refusal>
        requires { TurnsMatch self.old }
        ensures played { PlayerRefinesCall R.Resource.meaning (call_of (lent call.entry) (length out.old)) result out.old out.new self.old.host self.new.host }
        ensures tied { TurnsMatch self.new }
    {
        match call {
            Call::Clock { time } => done(self.host.clock(time)),
            Call::Plug { slot, size } => done(self.host.plug(slot, size)),
            Call::Pull { slot } => done(self.host.pull(slot)),
            Call::End { slot, connection } => done(self.host.end(slot, connection)),
            Call::Next { slot, connection } => self.next(slot, connection, out),
            Call::Feed {
                slot,
                connection,
                lpdu,
            } => self.feed(slot, connection, lpdu),
            Call::Expire { slot, connection } => self.expire(slot, connection),
        }
    }

    // A turn is held, where none is held for its slot and connection.
    fn keep(&mut self, turn: Turn)
        requires { turn_at self.old.held.turns turn.slot.number turn.connection.number ≡ None }
        ensures host { self.new.host ≡ self.old.host }
        ensures held { self.new.held.turns ≡ slice_set self.old.held.turns (turn_index turn.slot.number turn.connection.number) (Some turn) }
        ensures inside { turn_index turn.slot.number turn.connection.number < length self.old.held.turns }
    {
        if let Some(old) = self.held.put(turn) {
            self.host.expire(old);
        }
    }

    fn next(&mut self, slot: u8, connection: u8, out: &mut [u8]) -> Result<Answer, Refusal>
        requires { TurnsMatch self.old }
        ensures played { PlayerRefinesCall R.Resource.meaning (at_slot slot (next_call connection (length out.old))) result out.old out.new self.old.host self.new.host }
        ensures tied { TurnsMatch self.new }
    {
        let NextCommand { length, turn } = self.host.next(slot, connection, out)?;
        let Some(turn) = turn else {
            return Ok(Answer::Sent(length, false));
        };
        self.keep(turn);
        Ok(Answer::Sent(length, true))
    }

    fn feed(&mut self, slot: u8, connection: u8, lpdu: &[u8]) -> Result<Answer, Refusal>
        requires { TurnsMatch self.old }
        ensures played { (out : List ℕ) → PlayerRefinesCall R.Resource.meaning (at_slot slot (feed_call connection lpdu.now)) result out out self.old.host self.new.host }
        ensures tied { TurnsMatch self.new }
    {
        let turn = self.held.take(slot, connection)?;
        match self.host.feed(turn, lpdu) {
            FeedOutcome::Done => Ok(Answer::Done),
            FeedOutcome::More(turn) => {
                self.keep(turn);
                Ok(Answer::More)
            }
            FeedOutcome::Refused(turn, e) => {
                self.keep(turn);
                Err(e)
            }
        }
    }

    fn expire(&mut self, slot: u8, connection: u8) -> Result<Answer, Refusal>
        requires { TurnsMatch self.old }
        ensures played { (out : List ℕ) → PlayerRefinesCall R.Resource.meaning (at_slot slot (expire_call connection)) result out out self.old.host self.new.host }
        ensures tied { TurnsMatch self.new }
    {
        let turn = self.held.take(slot, connection)?;
        self.host.expire(turn);
        Ok(Answer::Done)
    }
}

// A call that tells no more than that it is served.
fn done(r: Result<(), Refusal>) -> Result<Answer, Refusal>
    ensures { result ≡ player_answer (plain_answer r) }
{
    r.map(|()| Answer::Done)
}
