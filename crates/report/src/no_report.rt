ghost use Rattle.std.specs.Prelude.{◌≡◌};
ghost use Rattle.report.specs.declared.no_report.NoReport.TheVariants.{NoInput, NoMemory};

use crate::kinds::NoKind;
use std::alloc::AllocError;
use thiserror::Error;

/// Why there is no text of answers.
#[derive(Clone, Copy, PartialEq, Eq, Debug, Error)]
pub enum NoReport {
    /// The bytes are no input: their length, their kind or one of their levels is none.
    #[error("the bytes are no input")]
    NoInput,
    /// There is no memory left.
    #[error(transparent)]
    NoMemory(AllocError),
}

// Bytes of which the first names no kind are no input.
impl From<NoKind> for NoReport {
    ghost from_gives = { λ _ why. why ≡ NoInput };

    fn from(_kind: NoKind) -> NoReport {
        NoReport::NoInput
    }
}

// Where an allocation fails, there is no memory left.
impl From<AllocError> for NoReport {
    ghost from_gives = { λ error why. why ≡ NoMemory error };

    fn from(error: AllocError) -> NoReport {
        NoReport::NoMemory(error)
    }
}
