ghost use Rattle.std.specs.Prelude.{◌≡◌};
ghost use Rattle.controller.specs.Sheet.{line as line_of};

use crate::VARIABLES;

/// The bytes of one variable on a sheet: its number, and its value with the lower byte first.
pub const LINE: usize = 5;

/// The bytes of a sheet that holds every variable.
pub const SHEET: usize = LINE * VARIABLES;

// The bytes of one variable.
pub(crate) fn line(variable: u8, value: i32) -> [u8; LINE]
    ensures { result ≡ line_of variable value }
{
    let [b0, b1, b2, b3] = value.to_le_bytes();
    [variable, b0, b1, b2, b3]
}

/// A sheet: the lines of the variables that are open to an observer, in the order of their numbers.
#[derive(Debug, PartialEq, Eq, Drop)]
pub struct Sheet {
    /// Five bytes for each variable.
    pub bytes: Vec<u8>,
}

impl Sheet {
    ghost use Rattle.controller.specs.Views.{sheet_count};

    /// How many variables it holds.
    pub fn count(&self) -> usize
        ensures counts_whole_lines { result ≡ sheet_count self.now }
    {
        self.bytes.len() / LINE
    }
}
