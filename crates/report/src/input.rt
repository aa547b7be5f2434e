ghost use Rattle.std.specs.Prelude.{◌≡◌, ℕ, ◌+◌, ◌<◌, ◌^◌, drop, slice_index};
ghost use Rattle.report.specs.Input.{level as level_of, value as value_of, observer as observer_of, budget as budget_of, each, fits as fits_of, has_levels as has_levels_of, job as job_of, job_behind_levels as job_behind_levels_of};

use controller::VARIABLES;
use std::array;

/// The bytes of a bench input: which lattice, what each variable's level and value are, who observes, how far the run
/// may go, and the job. An input for a cause ends after the levels, and then comes the job. Every method can be called
/// whatever the bytes are; they mean something where `fits` says so, or `has_levels`.
#[derive(Clone, Copy)]
pub struct Input<'a> {
    /// All bytes. The first is the number of a kind of lattice.
    pub bytes: &'a [u8],
}

impl<'a> Input<'a> {
    /// The fewest bytes of an input: one whose job has none.
    pub const SHORTEST: usize = 199;

    /// The most bytes of an input: one with the longest job, which has 4,356.
    pub const LONGEST: usize = 4555;

    /// The fewest bytes of an input for a cause: the kind and the levels.
    pub const LEVELS_END: usize = 65;

    /// Whether the length is one that an input may have.
    pub fn fits(&self) -> bool
        ensures true_from_shortest_to_longest { result ≡ fits_of self.now.bytes.now }
    {
        (Self::SHORTEST..=Self::LONGEST).contains(&self.bytes.len())
    }

    /// Whether the length is one that an input for a cause may have.
    pub fn has_levels(&self) -> bool
        ensures true_from_the_levels_end { result ≡ has_levels_of self.now.bytes.now }
    {
        Self::LEVELS_END <= self.bytes.len()
    }

    /// The byte at a place, counted from 0.
    pub fn byte(&self, at: usize) -> u8
        ensures byte_or_0_past_the_end { result ≡ slice_index self.now.bytes.now at }
    {
        self.bytes.get(at).copied().unwrap_or(0)
    }

    // So many bytes from a place on.
    fn field<const N: usize>(&self, at: usize) -> [u8; N]
        requires { at + N < 2 ^ 64 }
        ensures { (k : ℕ) → k < N → slice_index result k ≡ slice_index self.now.bytes.now (at + k) }
    {
        array::from_fn(|k| self.byte(at + k))
    }

    /// The level by which a variable is graded; it may be none of the lattice's.
    pub fn level(&self, variable: u8) -> u16
        ensures level_is_two_bytes { result ≡ level_of self.now.bytes.now variable }
    {
        u16::from_le_bytes(self.field(1 + 2 * usize::from(variable)))
    }

    /// The levels of all variables.
    pub fn levels(&self) -> [u16; VARIABLES]
        ensures has_the_level_of_each_variable { result ≡ each (level_of self.now.bytes.now) }
    {
        array::from_fn(|variable| self.level(variable as u8))
    }

    /// The value to which a variable is set.
    pub fn value(&self, variable: u8) -> i32
        ensures value_is_four_bytes { result ≡ value_of self.now.bytes.now variable }
    {
        i32::from_le_bytes(self.field(65 + 4 * usize::from(variable)))
    }

    /// The observer's level; it may be none of the lattice's.
    pub fn observer(&self) -> u16
        ensures observer_is_two_bytes { result ≡ observer_of self.now.bytes.now }
    {
        u16::from_le_bytes(self.field(193))
    }

    /// The most steps that the run may take.
    pub fn budget(&self) -> u32
        ensures budget_is_four_bytes { result ≡ budget_of self.now.bytes.now }
    {
        u32::from_le_bytes(self.field(195))
    }

    // All bytes from a place on; none where the input ends before it.
    fn rest(&self, at: usize) -> &'a [u8]
        ensures rest_is_all_behind { result.now ≡ drop at self.now.bytes.now }
    {
        self.bytes.get(at..).unwrap_or(&[])
    }

    /// The job; no bytes where the input ends before it.
    pub fn job(&self) -> &'a [u8]
        ensures job_is_the_rest { result.now ≡ job_of self.now.bytes.now }
    {
        self.rest(Self::SHORTEST)
    }

    /// The job of an input for a cause.
    pub fn job_behind_levels(&self) -> &'a [u8]
        ensures job_is_all_behind_the_levels { result.now
            ≡ job_behind_levels_of self.now.bytes.now }
    {
        self.rest(Self::LEVELS_END)
    }
}
