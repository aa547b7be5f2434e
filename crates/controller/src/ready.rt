ghost use Rattle.std.specs.Prelude.{◌≡◌, ◌*◌, ◌≤◌, length, IfOk, IfErr};
ghost use Rattle.std.specs.Result.{result_err};
ghost use Rattle.checker.specs.Faults.{mount_answer};
ghost use Rattle.checker.specs.Verdict.{first_fault};
ghost use Rattle.controller.specs.Answers.{done_answer, read_answer, shown_answer};
ghost use Rattle.controller.specs.State.{Safe, set_outcome, read_outcome, mount_outcome, unsealed_state, started_state};
ghost use Rattle.controller.specs.Sheet.{open_count, sheet_in_front, show_outcome};

use crate::VARIABLES;
use crate::grades::Grades;
use crate::refusal::Refusal;
use crate::running::Running;
use crate::setup::Setup;
use crate::sheet::{LINE, line};
use crate::variable::index_of;
use checker::{MountFault, check};
use lattice::Lattice;
use push::{Program, Run};
use std::marker::Model;

/// A sealed controller: its levels stay; jobs can be mounted and started, values written, read and shown.
#[derive(Drop)]
pub struct Ready<L: Lattice> {
    pub(crate) grades: Grades<L>,
    pub(crate) values: [i32; VARIABLES],
    pub(crate) program: Program,
}

impl<L: Lattice> Model for Ready<L> {
    ghost use Rattle.std.specs.Prelude.{◌≡◌, length};
    ghost use Rattle.controller.specs.State.{ReadyState, ThirtyTwoLevels};

    ghost Value = { ReadyState L };

    ghost view = { λ s. record {
      lattice = s.grades.lattice;
      levels = s.grades.levels;
      values = s.values;
      program = s.program;
    } };

    ghost invariant = { λ s. ThirtyTwoLevels (L.Lattice.order s.grades.lattice) s.grades.levels
        × (length s.values ≡ 32) };
}

impl<L: Lattice> Ready<L> {
    /// Takes a job: an accepted one replaces the mounted program. The fault of a refused one is its first, handed up whole.
    pub fn mount(&mut self, bytes: &[u8]) -> Result<(), MountFault>
        ensures mounts_or_refuses { (mount_answer result, self.new)
            ≡ mount_outcome L.Lattice.order self.old bytes.now }
        ensures fault_is_the_first { result_err result
            ≡ first_fault (L.Lattice.order self.old.lattice) self.old.levels bytes.now }
        ensures refused_changes_nothing { IfErr result (λ _. self.new ≡ self.old) }
        ensures accepted_is_safe { IfOk result (λ _.
            Safe (L.Lattice.order self.new.lattice) self.new.levels self.new.program) }
    {
        let grades = &self.grades;
        self.program = check(&grades.lattice, &grades.levels, bytes)?;
        Ok(())
    }

    /// Writes the value of one of the variables 0 to 31.
    pub fn set(&mut self, variable: u8, value: i32) -> Result<(), Refusal>
        ensures sets_or_refuses { (done_answer result, self.new)
            ≡ set_outcome self.old variable value }
        ensures refused_changes_nothing { IfErr result (λ _. self.new ≡ self.old) }
    {
        let index = index_of(variable)?;
        self.values[index] = value;
        Ok(())
    }

    /// The value of one of the variables 0 to 31.
    pub fn read(&self, variable: u8) -> Result<i32, Refusal>
        ensures reads_or_refuses { read_answer result ≡ read_outcome self.now variable }
    {
        self.values
            .get(usize::from(variable))
            .copied()
            .ok_or(Refusal::NoVariable)
    }

    /// Writes an observer's sheet to the front of the buffer, and answers how many variables it holds.
    #[tactic(auto, using(crate::proofs::SheetFacts::open_counted))]
    pub fn show(&self, observer: u16, buffer: &mut [u8]) -> Result<usize, Refusal>
        ensures shows_or_refuses { (shown_answer result, buffer.new)
            ≡ show_outcome L.Lattice.order self.now observer buffer.old }
        ensures refused_changes_nothing { IfErr result (λ _. buffer.new ≡ buffer.old) }
    {
        if !self.grades.lattice.is_level(observer) {
            return Err(Refusal::NoLevel);
        }
        let count = self.grades.count_open(observer);
        if buffer.len() < LINE * count {
            return Err(Refusal::ShortBuffer);
        }
        self.write_open(observer, buffer);
        Ok(count)
    }

    // Writes the lines of the open variables, in rising order, to the front of the buffer.
    #[tactic(auto, using(crate::proofs::SheetFacts::room, crate::proofs::SheetFacts::open_none, crate::proofs::SheetFacts::lines_none))]
    fn write_open(&self, observer: u16, buffer: &mut [u8])
        requires { 5 * open_count (L.Lattice.order self.now.lattice) self.now.levels observer
            ≤ length buffer.old }
        ensures { buffer.new
            ≡ sheet_in_front (L.Lattice.order self.now.lattice) self.now.levels
            self.now.values observer buffer.old }
    {
        // By a place in the buffer: where the slice of what is left is moved on, a proof knows its length alone.
        let mut at = 0;
        for (variable, (value, level)) in self.values.iter().zip(&self.grades.levels).enumerate() {
            if self.grades.is_open(*level, observer) {
                buffer[at..at + LINE].copy_from_slice(&line(variable as u8, *value));
                at += LINE;
            }
        }
    }

    /// Gives up the values and the program and keeps the levels, so that variables can be graded again.
    pub fn unseal(self) -> Setup<L>
        ensures keeps_levels_alone { result ≡ unsealed_state self }
    {
        let Ready { grades, .. } = self;
        Setup { grades }
    }

    /// Remembers the values, and begins a run at label 0 with an empty stack.
    pub fn start(self) -> Running<L>
        ensures begins_and_remembers { result ≡ started_state self }
    {
        Running {
            grades: self.grades,
            remembered: self.values,
            run: Run::begin(self.program, self.values),
        }
    }
}
