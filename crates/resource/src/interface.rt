// What a host asks of a resource: a trait with a meaning, and the laws that every meaning keeps.
ghost use Rattle.std.specs.Prelude.{◌≡◌, ℕ, ◌-◌, ◌^◌, ◌<◌, min};
ghost use Rattle.resource.specs.Meaning.{Meaning, outcome};
ghost use Rattle.resource.specs.Lawful.{Lawful};
ghost use Rattle.resource.specs.CallEffects.{finds, readiness, greets, counts, after_opened, after_closed, after_object, after_gone, after_clock, OthersStay};
ghost use Rattle.std.specs.Option.{option_map};
ghost use Rattle.resource.specs.InterfaceViews.{buffer_bytes, reaction_of, apdu_value, status_byte};

use crate::apdu_buf::ApduBuf;
use wire::Apdu;

/// Whether a session may be opened, by the status byte that tells it.
#[derive(Clone, Copy, PartialEq, Eq, Debug)]
pub enum Readiness {
    Ready = 0x00,
    Unavailable = 0xF1,
    Busy = 0xF3,
}

impl From<Readiness> for u8 {
    ghost from_gives = { λ r byte. byte ≡ status_byte r };

    fn from(readiness: Readiness) -> u8 {
        readiness as u8
    }
}

/// The byte by which a resource refuses an object. Refusal 17 of the host carries it.
#[derive(Clone, Copy, PartialEq, Eq, Debug)]
pub struct RefusalByte(pub u8);

/// What a host asks of a resource: a list of identifiers that never changes, and for each of the slots 0 to 3 a *share*: all that
/// it keeps for the slot, with the time last told and the sessions held (numbers from 1 to 16, each with a listed identifier).
/// A *beginning* is a share that holds no session and rests on the time last told alone. A call on one slot leaves what the
/// resource is made of and every other slot's share as they are; only the clock touches all.
pub trait Resource {
    ghost meaning: { Meaning Self };

    ghost laws: { Lawful meaning };

    /// The listed identifier that matches this one, or none.
    fn find(&self, identifier: u32) -> Option<u32>
        ensures { result ≡ finds meaning self.now identifier };

    /// Whether a session with this listed identifier may be opened for a slot.
    /// `Unavailable` where the slot is above 3 or the identifier is not listed.
    fn ready(&self, slot: u8, identifier: u32) -> Readiness
        ensures { status_byte result ≡ readiness meaning self.now slot identifier };

    /// The object that is sent first in a session of this identifier, or none; none where it is not listed.
    fn greeting(&self, identifier: u32) -> Option<ApduBuf>
        ensures { option_map buffer_bytes result ≡ greets meaning self.now identifier };

    /// How many sessions are held for a slot, or as many as 64 bits tell; 0 where the slot is above 3.
    fn count(&self, slot: u8) -> usize
        ensures { result ≡ min (counts meaning self.now slot) (2 ^ 64 - 1) };

    /// A session of this slot, identifier and number opens. What is held, or names no session, changes nothing.
    fn opened(&mut self, slot: u8, identifier: u32, number: u8)
        ensures share { meaning.share self.new slot ≡ after_opened meaning self.old slot identifier number }
        ensures kept { OthersStay meaning slot self.old self.new };

    /// A session of this slot, identifier and number closes. What is not held changes nothing.
    fn closed(&mut self, slot: u8, identifier: u32, number: u8)
        ensures share { meaning.share self.new slot ≡ after_closed meaning self.old slot identifier number }
        ensures kept { OthersStay meaning slot self.old self.new };

    /// An object came in a session: the reply to it, or none; none where the session is not held.
    /// The sessions held stay. Where it is refused, nothing changes.
    fn object(
        &mut self,
        slot: u8,
        identifier: u32,
        number: u8,
        apdu: Apdu<&[u8]>,
    ) -> Result<Option<ApduBuf>, RefusalByte>
        ensures answer { outcome (reaction_of result) (meaning.share self.new slot) ≡ after_object meaning self.old slot identifier number (apdu_value apdu.entry) }
        ensures kept { OthersStay meaning slot self.old self.new };

    /// The module of a slot is gone: its share is put back to its beginning, and the time stays. Above slot 3 nothing changes.
    fn gone(&mut self, slot: u8)
        ensures share { meaning.share self.new slot ≡ after_gone meaning self.old slot }
        ensures kept { OthersStay meaning slot self.old self.new };

    /// The time, in five bytes, is told for every slot. The sessions held stay, and a beginning becomes that of the new time.
    fn clock(&mut self, time: [u8; 5])
        ensures shares { (slot : ℕ) → slot < 4 → meaning.share self.new slot ≡ after_clock meaning self.old slot time }
        ensures made { meaning.made self.new ≡ meaning.made self.old };
}
