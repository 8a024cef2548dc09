// The turns that are out, one for each slot and connection at most.
ghost use Rattle.std.specs.Prelude.{◌≡◌, ◌<◌, ◌≤◌, length, replicate, None};
ghost use Rattle.host.specs.TurnTables.{turn_index, take_turn, put_turn};

use crate::turn::Turn;
use crate::turn::host::Host;
use protocol::Refusal;
use resource::{ConnectionId, Resource, SlotNumber};
use std::array;

pub(crate) struct TurnTable {
    turns: [Option<Turn>; 8],
}

// Where the turn of a slot and a connection is held.
fn place(slot: u8, connection: u8) -> usize
    requires slot { slot < 4 }
    requires low { 1 ≤ connection }
    requires high { connection ≤ 2 }
    ensures value { result ≡ turn_index slot connection }
    ensures inside { result < 8 }
{
    slot as usize * 2 + connection as usize - 1
}

impl TurnTable {
    pub(crate) fn empty() -> TurnTable
        ensures { result.turns ≡ replicate 8 None }
    {
        TurnTable {
            turns: array::from_fn(|_| None),
        }
    }

    // The turn of a slot and a connection.
    pub(crate) fn take(&mut self, slot: u8, connection: u8) -> Result<Turn, Refusal>
        ensures { take_turn slot connection self.old.turns ≡ (result, self.new.turns) }
    {
        let slot = SlotNumber::new(slot).ok_or(Refusal::Slot)?;
        let connection = ConnectionId::new(connection).ok_or(Refusal::Connection)?;
        self.turns[place(slot.get(), connection.get())]
            .take()
            .ok_or(Refusal::Turn)
    }

    // Holds a turn, and hands back the one that was held for its slot and connection.
    pub(crate) fn put(&mut self, turn: Turn) -> Option<Turn>
        ensures put { put_turn turn self.old.turns ≡ (result, self.new.turns) }
        ensures inside { turn_index turn.slot.number turn.connection.number < length self.old.turns }
    {
        self.turns[place(turn.slot(), turn.connection())].replace(turn)
    }

    // Every turn that is held expires.
    pub(crate) fn expire_all<R: Resource>(self, host: &mut Host<R>) {
        let TurnTable { turns } = self;
        let [a, b, c, d, e, f, g, h] = turns;
        expire(host, a);
        expire(host, b);
        expire(host, c);
        expire(host, d);
        expire(host, e);
        expire(host, f);
        expire(host, g);
        expire(host, h);
    }
}

fn expire<R: Resource>(host: &mut Host<R>, turn: Option<Turn>) {
    if let Some(turn) = turn {
        host.expire(turn);
    }
}
