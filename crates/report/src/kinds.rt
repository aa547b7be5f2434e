ghost use Rattle.std.specs.Prelude.{◌≡◌, IfOk, string_bytes};
ghost use Rattle.report.specs.Report.{input_text};
ghost use Rattle.report.specs.Views.{ReadsKind, IsTextUnlessNoMemory};

use crate::input::Input;
use crate::no_report::NoReport;
use crate::text::bad_input;
use lattice::{Flip, Ladder, Lattice, Owners, Pair};
use std::alloc::{AllocError, Global};

// The kinds of lattice that an input can name.
#[derive(Clone, Copy)]
enum Kind {
    Ladder,
    Owners,
    Pair,
}

/// What a byte that names no kind is read as.
#[derive(Clone, Copy)]
pub struct NoKind;

impl TryFrom<u8> for Kind {
    type Error = NoKind;

    ghost try_from_gives = { ReadsKind };

    fn try_from(byte: u8) -> Result<Kind, NoKind> {
        match byte {
            0 => Ok(Kind::Ladder),
            1 => Ok(Kind::Owners),
            2 => Ok(Kind::Pair),
            _ => Err(NoKind),
        }
    }
}

/// A text that is made of an input, over the lattice that the input names.
pub trait Text {
    ghost use Rattle.std.specs.Prelude.{ℕ, Bool, List};
    ghost use Rattle.lattice.specs.Order.{Order};

    ghost fits: { List ℕ → Bool };

    ghost over: { Order → List ℕ → List ℕ };

    /// Whether the length is one that such an input may have.
    fn fits(input: &Input) -> bool
        ensures { result ≡ fits input.now.bytes.now };

    /// The text over a lattice.
    fn over<L: Lattice + Drop>(heap: Global, lattice: L, input: &Input) -> Result<String, NoReport>
        ensures { IsTextUnlessNoMemory result
            (over (L.Lattice.order lattice) input.now.bytes.now) };
}

// The text of an input over the lattice that it names.
fn text_on<T: Text>(heap: Global, input: &Input) -> Result<String, NoReport>
    ensures { IsTextUnlessNoMemory result
        (input_text T.Text.fits T.Text.over input.now.bytes.now) }
{
    if !T::fits(input) {
        return Err(NoReport::NoInput);
    }
    match Kind::try_from(input.byte(0))? {
        Kind::Ladder => T::over(heap, Ladder::new(16), input),
        Kind::Owners => T::over(heap, Owners::new(4), input),
        Kind::Pair => T::over(
            heap,
            Pair::new(Ladder::new(4), Flip::new(Ladder::new(4))),
            input,
        ),
    }
}

/// The same, and the line of no input where the bytes are none.
pub fn text_of<T: Text>(heap: Global, bytes: &[u8]) -> Result<String, AllocError>
    ensures { IfOk result (λ t.
        string_bytes t ≡ input_text T.Text.fits T.Text.over bytes.now) }
{
    match text_on::<T>(heap, &Input { bytes }) {
        Ok(text) => Ok(text),
        Err(NoReport::NoInput) => bad_input(heap),
        Err(NoReport::NoMemory(error)) => Err(error),
    }
}
