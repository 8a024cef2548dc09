// What a resource sends: one application object of at most 124 bytes.
ghost use Rattle.std.specs.Prelude.{◌≡◌, ◌≤◌, length, if◌then◌else◌, Some, None};
ghost use Rattle.resource.specs.ShortApdu.{object_limit, is_short_apdu, IsShortApdu, used_bytes};
ghost use Rattle.std.specs.Option.{option_map};

use wire::ApduReader;

/// The most bytes of an application object that a resource sends, tag and length included.
const OBJECT_LIMIT: usize = 124;

// An array of 124 bytes, of which the first `length` are used.
#[derive(Clone, Copy)]
pub struct ApduBytes {
    pub bytes: [u8; OBJECT_LIMIT],
    pub length: u8,
}

impl ApduBytes {
    fn copy_of(from: &[u8]) -> ApduBytes
        requires { length from.now ≤ object_limit }
        ensures bytes { used_bytes result ≡ from.now }
        ensures length { result.length ≤ object_limit }
    {
        let mut bytes = [0; OBJECT_LIMIT];
        bytes[..from.len()].copy_from_slice(from);
        ApduBytes {
            bytes,
            length: from.len() as u8,
        }
    }
}

fn fits_buffer(bytes: &[u8]) -> bool
    ensures { result ≡ is_short_apdu bytes.now }
{
    bytes.len() <= OBJECT_LIMIT && ApduReader::new(bytes).object().is_ok()
}

/// The bytes of one application object of at most 124 bytes; it can hold nothing else.
#[derive(Clone, Copy)]
pub struct ApduBuf {
    held: ApduBytes,
    ghost object: { IsShortApdu (used_bytes held) },
    ghost within: { held.length ≤ object_limit },
}

impl ApduBuf {
    /// These bytes, if they are one application object of at most 124 bytes, else none.
    pub fn new(bytes: &[u8]) -> Option<ApduBuf>
        ensures { option_map (λ p. used_bytes p.held) result ≡ (if is_short_apdu bytes.now then Some bytes.now else None) }
    {
        if !fits_buffer(bytes) {
            return None;
        }
        Some(ApduBuf {
            held: ApduBytes::copy_of(bytes),
        })
    }

    /// The bytes of the object, tag and length included.
    pub fn bytes(&self) -> &[u8]
        ensures { result.now ≡ used_bytes self.now.held }
    {
        &self.held.bytes[..self.held.length as usize]
    }
}
