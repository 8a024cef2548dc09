// Writing units into a caller's slice: all of the bytes, or none of them.
ghost use Rattle.std.specs.Prelude.{◌≡◌, true, ◌++◌, length, drop, nat_le};
ghost use Rattle.std.specs.List.{flat_map};
ghost use Rattle.wire.specs.Writing.{write_front, length_bytes, two_byte_length, write_object_front};

use arrayvec::ArrayVec;

/// Why nothing was written.
#[derive(Clone, Copy, PartialEq, Eq, Debug)]
pub enum WriteFault {
    /// Two bytes cannot tell the length.
    Length,
    /// The agreed size is below 3, which leaves no room for a fragment.
    Size,
    /// The slice is too short.
    Room,
}

// Whether the pieces, one after another, fit into so much room.
fn fits(pieces: &[&[u8]], room: usize) -> bool
    ensures { result ≡ nat_le (length (flat_map (λ x. x.now) pieces.now)) room }
{
    let mut left = room;
    for piece in pieces {
        if piece.len() > left {
            return false;
        }
        left -= piece.len();
    }
    true
}

// Copies the pieces one after another to the front of a slice, and counts their bytes.
fn copy(pieces: &[&[u8]], out: &mut [u8]) -> usize
    requires { true ≡ nat_le (length (flat_map (λ x. x.now) pieces.now)) (length out.old) }
    ensures count { result ≡ length (flat_map (λ x. x.now) pieces.now) }
    ensures bytes { out.new ≡ flat_map (λ x. x.now) pieces.now ++ drop (length (flat_map (λ x. x.now) pieces.now)) out.old }
{
    // how many bytes are written so far
    let mut at = 0;
    for piece in pieces {
        let end = at + piece.len();
        out[at..end].copy_from_slice(piece);
        at = end;
    }
    at
}

/// Writes the pieces one after another to the front of `out`, and answers how many bytes they are; the bytes past them
/// keep their values. Refused with `Room` where `out` is too short; nothing is written then.
pub fn write_pieces(pieces: &[&[u8]], out: &mut [u8]) -> Result<usize, WriteFault>
    ensures { write_front (flat_map (λ x. x.now) pieces.now) out.old ≡ (result, out.new) }
{
    if !fits(pieces, out.len()) {
        return Err(WriteFault::Room);
    }
    Ok(copy(pieces, out))
}

/// Writes `head` and `body`, one behind the other, as `write_pieces` does.
pub fn write_two_pieces(head: &[u8], body: &[u8], out: &mut [u8]) -> Result<usize, WriteFault>
    ensures { write_front (head.now ++ body.now) out.old ≡ (result, out.new) }
{
    write_pieces(&[head, body], out)
}

// The length field of a length, in its shortest form.
fn length_field(n: u16) -> ArrayVec<u8, 3>
    ensures { result.items ≡ length_bytes n }
{
    let [high, low] = n.to_be_bytes();
    let mut field = ArrayVec::new();
    if n >= 0x100 {
        field.push(0x82);
        field.push(high);
    } else if n >= 0x80 {
        field.push(0x81);
    }
    field.push(low);
    field
}

/// Writes a length field in its shortest form, as `write_pieces` does.
pub fn write_length(n: u16, out: &mut [u8]) -> Result<usize, WriteFault>
    ensures { write_front (length_bytes n) out.old ≡ (result, out.new) }
{
    write_pieces(&[length_field(n).as_slice()], out)
}

// How many bytes two parts have together, where two bytes can tell it.
fn total(head: &[u8], body: &[u8]) -> Option<u16>
    ensures { result ≡ two_byte_length (length (head.now ++ body.now)) }
{
    u16::try_from(head.len().checked_add(body.len())?).ok()
}

/// Writes a tag of one byte, a length field and that many bytes, which are given in two parts, as `write_pieces` does.
/// Refused with `Length` where these are over 65,535 bytes, then with `Room`; nothing is written then.
pub fn write_object(tag: u8, head: &[u8], body: &[u8], out: &mut [u8]) -> Result<usize, WriteFault>
    ensures { write_object_front tag (head.now ++ body.now) out.old ≡ (result, out.new) }
{
    let length = length_field(total(head, body).ok_or(WriteFault::Length)?);
    write_pieces(&[&[tag], length.as_slice(), head, body], out)
}
