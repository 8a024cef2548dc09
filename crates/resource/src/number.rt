// Numbers that are known to lie within their limits: of a slot, of a connection and of a session.
ghost use Rattle.std.specs.Prelude.{◌≡◌, ◌≤◌, ◌-◌, ◌&&◌, if◌then◌else◌, Some, None, nat_le};
ghost use Rattle.std.specs.Option.{option_map};

/// A number from `LOW` to `HIGH`.
#[derive(Clone, Copy)]
pub struct BoundedNumber<const LOW: u8, const HIGH: u8> {
    number: u8,
    ghost low: { LOW ≤ number },
    ghost high: { number ≤ HIGH },
}

impl<const LOW: u8, const HIGH: u8> BoundedNumber<LOW, HIGH> {
    /// The number, if it is within the limits, else none.
    pub fn new(number: u8) -> Option<BoundedNumber<LOW, HIGH>>
        ensures { option_map (λ n. n.number) result ≡ (if nat_le LOW number && nat_le number HIGH then Some number else None) }
    {
        if LOW <= number && number <= HIGH {
            Some(BoundedNumber { number })
        } else {
            None
        }
    }

    /// The number itself.
    pub fn get(self) -> u8
        ensures { result ≡ self.entry.number }
    {
        self.number
    }
}

/// The number of one of the four slots, 0 to 3.
pub type SlotNumber = BoundedNumber<0, 3>;

/// The number of one of the two connections of a slot, 1 or 2.
pub type ConnectionId = BoundedNumber<1, 2>;

/// The number of a session, 1 to 16.
pub type SessionNumber = BoundedNumber<1, 16>;

impl BoundedNumber<1, 2> {
    /// The other connection of the slot.
    pub fn other(self) -> ConnectionId
        ensures { result.number ≡ 3 - self.number }
    {
        BoundedNumber {
            number: 3 - self.get(),
        }
    }
}
