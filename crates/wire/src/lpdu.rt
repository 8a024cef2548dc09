// Link units (LPDUs).
ghost use Rattle.std.specs.Prelude.{◌≡◌, ◌+◌, ◌≤◌, true, ◌∷◌, length, Ok, nat_le};
ghost use Rattle.wire.specs.Writing.{write_front};
ghost use Rattle.wire.specs.LpduWriting.{write_lpdus_front, cut_bytes, behind};
ghost use Rattle.wire.specs.Reading.{start};
ghost use Rattle.wire.specs.LpduReading.{fragment as fragment_of};
ghost use Rattle.wire.specs.CursorViews.{position_of};
ghost use Rattle.wire.specs.LpduViews.{link_fragment};

use crate::cursor::{Cursor, Part};
use crate::fault::LinkFault;
use crate::writer::{WriteFault, write_two_pieces};

/// The marks of an LPDU, its second byte: the last of its TPDU, or more of it follows.
pub const LAST: u8 = 0x00;

pub const MORE: u8 = 0x80;

/// What an LPDU carries: a fragment of a TPDU, and its mark. `B` is how the bytes are held.
#[derive(Clone, Copy)]
pub struct Fragment<B> {
    /// The mark of the wire: `80` where more of the TPDU follows, `00` at its last LPDU.
    pub more: bool,
    pub bytes: B,
}

/// Reads one LPDU.
#[derive(Clone, Copy)]
pub struct LpduReader<'a> {
    cursor: Cursor<'a>,
}

impl<'a> LpduReader<'a> {
    /// A reader of the bytes of one LPDU.
    pub fn new(bytes: &'a [u8]) -> LpduReader<'a>
        ensures { position_of result.cursor ≡ start bytes.now }
    {
        LpduReader {
            cursor: Cursor::new(bytes),
        }
    }

    /// The fragment of an LPDU of at most `size` bytes, header included, on the connection `id`; it is a part of the bytes given.
    /// Refused with the first of `Short`, `Long`, `Connection` and `Mark` that applies.
    pub fn fragment(mut self, size: u16, id: u8) -> Result<Fragment<Part<'a>>, LinkFault>
        ensures { link_fragment result ≡ fragment_of size id (position_of self.entry.cursor) }
    {
        let n = self.cursor.left.len();
        if n < 3 {
            return Err(LinkFault::Short);
        }
        if n > usize::from(size) {
            return Err(LinkFault::Long);
        }
        if self.cursor.byte()? != id {
            return Err(LinkFault::Connection);
        }
        let more = match self.cursor.byte()? {
            LAST => false,
            MORE => true,
            _ => return Err(LinkFault::Mark),
        };
        Ok(Fragment {
            more,
            bytes: self.cursor.rest(),
        })
    }
}

// Whether the LPDUs of a TPDU, with at most so many of its bytes in each, fit into so much room.
#[tactic(auto, using(crate::proofs::LpduCuts::room_by_count))]
fn fits(id: u8, most: usize, tpdu: &[u8], room: usize) -> bool
    requires bytes { 1 ≤ length tpdu.now }
    requires most { 1 ≤ most }
    ensures { result ≡ nat_le (length (cut_bytes id most tpdu.now)) room }
{
    let n = tpdu.len();
    n <= room && n.div_ceil(most) <= (room - n) / 2
}

// Writes one LPDU into the slice, from offset `at` on.
fn put_lpdu(id: u8, mark: u8, fragment: &[u8], out: &mut [u8], at: usize)
    requires { at + length (id ∷ mark ∷ fragment.now) ≤ length out.old }
    ensures { out.new ≡ behind at (id ∷ mark ∷ fragment.now) out.old }
{
    let (_, here) = out.split_at_mut(at);
    let _ = write_two_pieces(&[id, mark], fragment, here);
}

// Writes the LPDUs, with at most so many bytes of the TPDU in each, and counts their bytes.
fn put_lpdus(id: u8, most: usize, tpdu: &[u8], out: &mut [u8]) -> usize
    requires bytes { 1 ≤ length tpdu.now }
    requires most { 1 ≤ most }
    requires room { true ≡ nat_le (length (cut_bytes id most tpdu.now)) (length out.old) }
    ensures { write_front (cut_bytes id most tpdu.now) out.old ≡ (Ok result, out.new) }
{
    let mut left = tpdu;
    // how many bytes are written so far
    let mut at = 0;
    while left.len() > most {
        let (fragment, rest) = left.split_at(most);
        put_lpdu(id, MORE, fragment, out, at);
        left = rest;
        at += most + 2;
    }
    put_lpdu(id, LAST, left, out, at);
    at + 2 + left.len()
}

/// Writes a TPDU to the front of `out` as LPDUs on the connection `id`, all but the last of `size` bytes, header included.
/// It answers how many bytes these are, 0 for an empty TPDU; the bytes past them keep their values.
/// Refused with `Size` where the size is below 3, then with `Room` where `out` is too short; nothing is written then.
pub fn write_lpdus(id: u8, size: u16, tpdu: &[u8], out: &mut [u8]) -> Result<usize, WriteFault>
    ensures { write_lpdus_front id size tpdu.now out.old ≡ (result, out.new) }
{
    if size < 3 {
        return Err(WriteFault::Size);
    }
    if tpdu.is_empty() {
        return Ok(0);
    }
    let most = usize::from(size) - 2;
    if !fits(id, most, tpdu, out.len()) {
        return Err(WriteFault::Room);
    }
    Ok(put_lpdus(id, most, tpdu, out))
}
