// What is kept of a unit until it is whole: a TPDU's fragments, or an SPDU's data over several TPDUs.
ghost use Rattle.std.specs.Prelude.{◌≡◌};
ghost use Rattle.recording.specs.declared.joiner.JoinError.TheVariants.{Memory};
ghost use Rattle.recording.specs.Joining.{empty_unit, after_add, memory_ran_out, unit_bytes};
ghost use Rattle.recording.specs.JoinerViews.{state_of};

use std::alloc::{AllocError, Global};

/// Why a part was not added to a unit.
#[derive(Clone, Copy, PartialEq, Eq, Debug)]
pub enum JoinError {
    /// The unit goes past its limit, or did before, and is dropped.
    Limit,
    /// There is no memory for the part; what was kept stays.
    Memory,
}

impl From<AllocError> for JoinError {
    ghost from_gives = { λ _ r. r ≡ Memory };

    fn from(_e: AllocError) -> JoinError {
        JoinError::Memory
    }
}

/// The bytes of a unit so far, at most as many as its limit. Once a unit is dropped, so is all that is added to it.
#[derive(Drop)]
pub struct PartialUnit {
    heap: Global,
    limit: usize,
    unit: Option<Vec<u8>>,
}

impl PartialUnit {
    /// Nothing of a unit yet, with a limit in bytes.
    pub fn new(heap: Global, limit: usize) -> PartialUnit
        ensures { state_of result ≡ empty_unit limit }
    {
        PartialUnit {
            heap,
            limit,
            unit: Some(Vec::new(heap)),
        }
    }

    /// Adds one part more of the unit. Refused with `Limit` where the unit goes past its limit or did before, which drops it,
    /// and then with `Memory` where memory runs out, which leaves what was kept.
    pub fn add(&mut self, part: &[u8]) -> Result<(), JoinError>
        ensures { after_add (memory_ran_out result) part.now (state_of self.old) ≡ (result, state_of self.new) }
    {
        match &mut self.unit {
            Some(bytes) if part.len() <= self.limit.saturating_sub(bytes.len()) => {
                bytes.extend_from_slice(part)?;
                Ok(())
            }
            _ => {
                self.unit = None;
                Err(JoinError::Limit)
            }
        }
    }

    /// What there is of the unit: nothing of one that was dropped.
    pub fn bytes(&self) -> &[u8]
        ensures { result.now ≡ unit_bytes (state_of self.now) }
    {
        self.unit.as_ref().map_or(&[], |bytes| bytes.as_slice())
    }

    /// The unit ends, and the next begins with nothing.
    pub fn clear(&mut self)
        ensures { state_of self.new ≡ empty_unit self.old.limit }
    {
        self.unit.get_or_insert(Vec::new(self.heap)).clear();
    }
}
