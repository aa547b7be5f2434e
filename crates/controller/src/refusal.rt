ghost use Rattle.std.specs.Prelude.{◌≡◌};
ghost use Rattle.controller.specs.Answers.{refusal_number};

use thiserror::Error;

/// Why a call was refused. A refused call changes nothing.
#[derive(Clone, Copy, PartialEq, Eq, Debug, Error)]
pub enum Refusal {
    /// There is no variable of that number.
    #[error("there is no variable of that number")]
    NoVariable,
    /// The code is no level of the lattice.
    #[error("the code is no level of the lattice")]
    NoLevel,
    /// The buffer is shorter than the sheet.
    #[error("the buffer is shorter than the sheet")]
    ShortBuffer,
}

/// The number that the refused call answers: 1 to 3, in the order of the enum.
impl From<Refusal> for u8 {
    ghost from_gives = { λ refusal number. number ≡ refusal_number refusal };

    fn from(refusal: Refusal) -> u8 {
        match refusal {
            Refusal::NoVariable => 1,
            Refusal::NoLevel => 2,
            Refusal::ShortBuffer => 3,
        }
    }
}
