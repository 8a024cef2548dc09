// The most bytes of an LPDU.
ghost use Rattle.std.specs.Prelude.{◌≡◌, ◌≤◌, if◌then◌else◌, Some, None, nat_lt};
ghost use Rattle.std.specs.Option.{option_map};
ghost use Rattle.protocol.specs.Limits.{least_size};

// The least size that may be agreed.
const LEAST: u16 = 16;

/// The most bytes of an LPDU, its header included, that a host and a module agreed on: at least 16.
#[derive(Clone, Copy)]
pub struct AgreedSize {
    bytes: u16,
    ghost least: { least_size ≤ bytes },
}

impl AgreedSize {
    /// The size of so many bytes, or none where they are below 16.
    pub fn new(bytes: u16) -> Option<AgreedSize>
        ensures { option_map (λ s. s.bytes) result ≡ (if nat_lt bytes least_size then None else Some bytes) }
    {
        if bytes < LEAST {
            None
        } else {
            Some(AgreedSize { bytes })
        }
    }

    /// The size in bytes.
    pub fn get(self) -> u16
        ensures { result ≡ self.bytes }
    {
        self.bytes
    }
}
