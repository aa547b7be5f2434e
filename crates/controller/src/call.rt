/// A call on a controller, with its arguments.
#[derive(Clone, Copy, Debug, PartialEq, Eq)]
pub enum Call<'a> {
    /// `Setup::grade`: a level for a variable.
    Grade {
        /// The variable's number, 0 to 31 where there is one.
        variable: u8,
        /// The level's code.
        level: u16,
    },
    /// `Setup::seal`.
    Seal,
    /// `Ready::mount`, with a job's bytes.
    Mount(&'a [u8]),
    /// `Ready::set`: a value for a variable.
    Set {
        /// The variable's number, 0 to 31 where there is one.
        variable: u8,
        /// The value.
        value: i32,
    },
    /// `Ready::read`, with a variable's number.
    Read(u8),
    /// `Ready::show`: an observer's sheet.
    Show {
        /// The code of the observer's level.
        observer: u16,
        /// How many bytes the buffer has.
        length: usize,
    },
    /// `Ready::start`.
    Start,
    /// `Running::advance`, with a budget in steps.
    Advance(u32),
    /// `Running::end`.
    End,
    /// `Ready::unseal`.
    Unseal,
}
