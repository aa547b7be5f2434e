ghost use Rattle.std.specs.Prelude.{◌≡◌};
ghost use Rattle.push.specs.Run.{CountedSteps};
ghost use Rattle.controller.specs.Answers.{advance_answer, ending_number};
ghost use Rattle.controller.specs.State.{advance_outcome, end_outcome};

use crate::VARIABLES;
use crate::ending::Ending;
use crate::grades::Grades;
use crate::ready::Ready;
use lattice::Lattice;
use push::{Run, Status};
use std::marker::Model;

/// A controller with a run under way. It holds the values that were there before, should the run not halt.
#[derive(Drop)]
pub struct Running<L: Lattice> {
    pub(crate) grades: Grades<L>,
    pub(crate) remembered: [i32; VARIABLES],
    pub(crate) run: Run,
}

impl<L: Lattice> Model for Running<L> {
    ghost use Rattle.std.specs.Prelude.{◌≡◌, length};
    ghost use Rattle.controller.specs.State.{RunningState, ThirtyTwoLevels};

    ghost Value = { RunningState L };

    ghost view = { λ s. record {
      lattice = s.grades.lattice;
      levels = s.grades.levels;
      remembered = s.remembered;
      program = s.run.program;
      run = s.run.state;
    } };

    ghost invariant = { λ s. ThirtyTwoLevels (L.Lattice.order s.grades.lattice) s.grades.levels
        × (length s.remembered ≡ 32) };
}

impl<L: Lattice> Running<L> {
    /// Makes steps until the run stops or `budget` are made, and answers the status and how many.
    pub fn advance(&mut self, budget: u32) -> (Status, u32)
        ensures advances_the_run { (advance_answer result, self.new)
            ≡ advance_outcome self.old budget }
        ensures counted_steps_are_the_machines { CountedSteps
            self.old.program budget result.1 self.old.run self.new.run }
    {
        self.run.advance(budget)
    }

    /// Keeps the values of a run that has halted, and brings back the remembered ones of any other.
    pub fn end(self) -> (Ready<L>, Ending)
        ensures keeps_halted_values_or_brings_back { (ending_number result.1, result.0)
            ≡ end_outcome self }
    {
        let (status, program, reached) = self.run.finish();
        let (values, ending) = match status {
            Status::Halted => (reached, Ending::Halted),
            Status::Going | Status::Faulted => (self.remembered, Ending::Unfinished),
        };
        let ready = Ready {
            grades: self.grades,
            values,
            program,
        };
        (ready, ending)
    }
}
