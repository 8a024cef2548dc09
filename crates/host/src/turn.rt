// Turns, and the answers that carry them.
ghost use Rattle.std.specs.Prelude.{◌≡◌};

use protocol::{Refusal, State};
use resource::{ConnectionId, SlotNumber};

pub mod host;

/// A turn: a command was written to a slot's connection, and the module's answer, or an expiry, is to come in.
/// It can neither be copied nor let go: `Host::next` makes it, and a `Host::feed` that spends it or `Host::expire` ends it.
pub struct Turn {
    slot: SlotNumber,
    connection: ConnectionId,
}

impl Turn {
    /// The slot that it names, from 0 to 3.
    pub fn slot(&self) -> u8
        ensures { result ≡ self.now.slot.number }
    {
        self.slot.get()
    }

    /// The connection that it names, 1 or 2.
    pub fn connection(&self) -> u8
        ensures { result ≡ self.now.connection.number }
    {
        self.connection.get()
    }

    fn spend(self) {
        let Turn {
            slot: _,
            connection: _,
        } = self;
    }
}

/// What comes of an LPDU. The caller has to feed or expire a turn that comes back.
pub enum FeedOutcome {
    /// The fragment is kept, and the turn comes back for further ones.
    More(Turn),
    /// The TPDU was whole and is taken; the turn is spent.
    Done,
    /// The LPDU is refused: nothing has changed, and the turn comes back.
    Refused(Turn, Refusal),
}

/// The command that `Host::next` wrote.
pub struct NextCommand {
    /// How many bytes its LPDUs have, at the front of the buffer.
    pub length: usize,
    /// The turn that is handed out: none where 85 was written.
    pub turn: Option<Turn>,
}

/// What is read of a connection.
#[derive(Clone, Copy)]
pub struct ConnectionStatus {
    pub state: State,
    /// Whether its turn is out.
    pub out: bool,
}
