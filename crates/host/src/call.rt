// The calls of a player, and their answers.
ghost use Rattle.std.specs.Prelude.{◌≡◌, Some};
ghost use Rattle.host.specs.Calls.{lent, owned, text};

use protocol::{COMMAND_LIMIT, Refusal};
use std::fmt;

/// A call of the host, by slot and connection. `B` is how the LPDU of a feed is held: lent, or as a vector of its own.
/// The out buffer of a next lies beside the call. It prints as its name, with the slot and the connection that it names.
#[derive(Clone, Copy, Drop)]
pub enum Call<B> {
    /// `Host::clock`: a day number of two bytes, then hour, minute and second in two decimal digits each.
    Clock { time: [u8; 5] },
    /// `Host::plug`: a module is in the slot, with this agreed size in bytes.
    Plug { slot: u8, size: u16 },
    /// `Host::pull`: the module of the slot is gone.
    Pull { slot: u8 },
    /// `Host::end`: the connection is to be deleted.
    End { slot: u8, connection: u8 },
    /// `Host::next`: the command that is due is written.
    Next { slot: u8, connection: u8 },
    /// `Host::feed`, with the turn that is held: an LPDU of the module comes in.
    Feed { slot: u8, connection: u8, lpdu: B },
    /// `Host::expire`, with the turn that is held: no answer of the module comes in.
    Expire { slot: u8, connection: u8 },
}

impl Call<Vec<u8>> {
    /// The same call, with its LPDU lent.
    pub fn as_deref(&self) -> Call<&[u8]>
        ensures { lent result ≡ owned self.now }
    {
        match *self {
            Call::Clock { time } => Call::Clock { time },
            Call::Plug { slot, size } => Call::Plug { slot, size },
            Call::Pull { slot } => Call::Pull { slot },
            Call::End { slot, connection } => Call::End { slot, connection },
            Call::Next { slot, connection } => Call::Next { slot, connection },
            Call::Feed {
                slot,
                connection,
                ref lpdu,
            } => Call::Feed {
                slot,
                connection,
                lpdu: lpdu.as_slice(),
            },
            Call::Expire { slot, connection } => Call::Expire { slot, connection },
        }
    }
}

// The call's name, and the slot and the connection that it names.
impl<B> fmt::Display for Call<B> {
    ghost output = { λ c. Some (text c) };

    fn fmt<W: fmt::Write>(&self, f: &mut fmt::Formatter<W>) -> fmt::Result {
        match self {
            Call::Clock { .. } => f.write_str("clock"),
            Call::Plug { slot, .. } => write!(f, "plug {slot}"),
            Call::Pull { slot } => write!(f, "pull {slot}"),
            Call::End { slot, connection } => write!(f, "end {slot} {connection}"),
            Call::Next { slot, connection } => write!(f, "next {slot} {connection}"),
            Call::Feed {
                slot,
                connection,
                ..
            } => write!(f, "feed {slot} {connection}"),
            Call::Expire { slot, connection } => write!(f, "expire {slot} {connection}"),
        }
    }
}

/// The answer to a call that is served.
#[derive(Clone, Copy)]
pub enum Answer {
    /// The call tells no more.
    Done,
    /// A feed waits for further fragments, and its turn is still out.
    More,
    /// A next wrote so many bytes, and handed out a turn or not.
    Sent(usize, bool),
}

/// A call of a list, with the out buffer of a next, which has room for every command; and, once it is played, its answer.
#[derive(Clone, Copy)]
pub struct CallAndAnswer<'a> {
    pub call: Call<&'a [u8]>,
    /// The buffer of a next: what it wrote is at the front, and the bytes past it keep their values.
    /// No other call changes it.
    pub out: [u8; COMMAND_LIMIT],
    /// None until the call is played.
    pub answer: Option<Result<Answer, Refusal>>,
}
