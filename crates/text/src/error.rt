// Why a line is not read.
ghost use Rattle.std.specs.Prelude.{◌≡◌};
ghost use Rattle.text.specs.declared.error.LineError.TheVariants.{Memory};

use std::alloc::AllocFailed;

/// Why a line is not read: what is wrong with it, or that there is no memory for what it says.
#[derive(Clone, Copy, PartialEq, Eq, Debug)]
pub enum LineError<R> {
    Bad(R),
    Memory,
}

impl<R, T: Drop> From<AllocFailed<T>> for LineError<R> {
    ghost from_gives = { λ _ e. e ≡ Memory };

    fn from(_e: AllocFailed<T>) -> LineError<R> {
        LineError::Memory
    }
}
