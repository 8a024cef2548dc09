// Why a call to the host is not served.
ghost use Rattle.std.specs.Prelude.{◌≡◌, Some};
ghost use Rattle.std.specs.Fmt.{WritesOnOk};
ghost use Rattle.protocol.specs.declared.refusal.Refusal.TheVariants.{Link, Transport, Session, Apdu, Resource};
ghost use Rattle.protocol.specs.RefusalNumbers.{refusal_number};
ghost use Rattle.protocol.specs.RefusalText.{byte_word, refusal_text};

use resource::RefusalByte;
use std::error::Error;
use std::fmt;
use wire::{ApplicationFault, LinkFault, SessionFault, TransportFault};

/// Why a call is not served. A refused call changes nothing. A host tests the refusals in the order in which they stand here,
/// that of their numbers; a player refuses a feed or an expiry without a turn with 5 before all but 1 and 2. The fault of a
/// unit and the byte of the resource are carried whole.
#[derive(Clone, Copy, PartialEq, Eq, Debug)]
pub enum Refusal {
    /// 1: the slot is above 3.
    Slot,
    /// 2: the connection is neither 1 nor 2.
    Connection,
    /// 3: the agreed size is below 16 bytes.
    Size,
    /// 4: plug meets a slot that has a module, or pull, end, next or feed a slot that has none.
    Presence,
    /// 5: the turn of the connection is out (end, next), or is not (feed; of a player, expire too).
    Turn,
    /// 6: the connection is Idle, Creating or Deleting (next), or not Active (end), or none of Creating, Active and Deleting
    /// (feed).
    State,
    /// 7: the room is less than all LPDUs of the command. An exact fit is served.
    Room,
    /// 8: a digit of the time is above 9, its hour above 23, or its minute or second above 59.
    Clock,
    /// 9: the LPDU has under 3 bytes, or more than the agreed size, or another connection, or a mark other than 00 and 80.
    Link(LinkFault),
    /// 10: the fragments kept and this one exceed 1,024 bytes, headers not counted.
    Fragments,
    /// 11: the TPDU is malformed.
    Transport(TransportFault),
    /// 12: the state does not take the object of the TPDU, or a status alone.
    Object,
    /// 13: the data kept and these exceed 2,048 bytes.
    Data,
    /// 14: the SPDU is malformed.
    Session(SessionFault),
    /// 15: the session that a 90 names is not open on this connection.
    NotOpen,
    /// 16: the APDU is malformed.
    Apdu(ApplicationFault),
    /// 17: the resource refuses the object, with this byte.
    Resource(u8),
}

impl Refusal {
    /// The number of the refusal, from 1 to 17.
    pub fn number(self) -> u8
        ensures { result ≡ refusal_number self }
    {
        match self {
            Refusal::Slot => 1,
            Refusal::Connection => 2,
            Refusal::Size => 3,
            Refusal::Presence => 4,
            Refusal::Turn => 5,
            Refusal::State => 6,
            Refusal::Room => 7,
            Refusal::Clock => 8,
            Refusal::Link(_) => 9,
            Refusal::Fragments => 10,
            Refusal::Transport(_) => 11,
            Refusal::Object => 12,
            Refusal::Data => 13,
            Refusal::Session(_) => 14,
            Refusal::NotOpen => 15,
            Refusal::Apdu(_) => 16,
            Refusal::Resource(_) => 17,
        }
    }
}

/// Writes a space and the byte in two hexadecimal digits, in capitals.
#[tactic(auto, using(std::proofs::lemmas::Fmt::hex_byte))]
pub fn write_byte<W: fmt::Write>(f: &mut fmt::Formatter<W>, byte: u8) -> fmt::Result
    ensures { WritesOnOk W.write_str_gives f.old result (byte_word byte) f.new }
{
    write!(f, " {byte:02X}")
}

// `refused` and its number, then the name of the fault or the two digits of the byte that it carries.
impl fmt::Display for Refusal {
    ghost output = { λ refusal. Some (refusal_text refusal) };

    fn fmt<W: fmt::Write>(&self, f: &mut fmt::Formatter<W>) -> fmt::Result {
        let number = self.number();
        write!(f, "refused {number}")?;
        match *self {
            Refusal::Link(fault) => write!(f, " {fault}"),
            Refusal::Transport(TransportFault(fault))
            | Refusal::Session(SessionFault(fault))
            | Refusal::Apdu(ApplicationFault(fault)) => write!(f, " {fault}"),
            Refusal::Resource(byte) => write_byte(f, byte),
            _ => Ok(()),
        }
    }
}

impl Error for Refusal {}

impl From<LinkFault> for Refusal {
    ghost from_gives = { λ e r. r ≡ Link e };

    fn from(e: LinkFault) -> Refusal {
        Refusal::Link(e)
    }
}

impl From<TransportFault> for Refusal {
    ghost from_gives = { λ e r. r ≡ Transport e };

    fn from(e: TransportFault) -> Refusal {
        Refusal::Transport(e)
    }
}

impl From<SessionFault> for Refusal {
    ghost from_gives = { λ e r. r ≡ Session e };

    fn from(e: SessionFault) -> Refusal {
        Refusal::Session(e)
    }
}

impl From<ApplicationFault> for Refusal {
    ghost from_gives = { λ e r. r ≡ Apdu e };

    fn from(e: ApplicationFault) -> Refusal {
        Refusal::Apdu(e)
    }
}

impl From<RefusalByte> for Refusal {
    ghost from_gives = { λ e r. r ≡ Resource e.0 };

    fn from(e: RefusalByte) -> Refusal {
        Refusal::Resource(e.0)
    }
}
