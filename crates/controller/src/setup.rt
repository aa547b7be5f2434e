ghost use Rattle.std.specs.Prelude.{◌≡◌, IfErr};
ghost use Rattle.controller.specs.Answers.{done_answer};
ghost use Rattle.controller.specs.State.{new_state, grade_outcome, sealed_state};

use crate::VARIABLES;
use crate::grades::Grades;
use crate::ready::Ready;
use crate::refusal::Refusal;
use crate::variable::index_of;
use lattice::Lattice;
use push::Program;
use std::marker::Model;

/// A controller whose variables are being given their levels. It holds no values and no program.
#[derive(Drop)]
pub struct Setup<L: Lattice> {
    pub(crate) grades: Grades<L>,
}

impl<L: Lattice> Model for Setup<L> {
    ghost use Rattle.controller.specs.State.{SetupState, ThirtyTwoLevels};

    ghost Value = { SetupState L };

    ghost view = { λ s. record { lattice = s.grades.lattice; levels = s.grades.levels } };

    ghost invariant = { λ s. ThirtyTwoLevels (L.Lattice.order s.grades.lattice) s.grades.levels };
}

impl<L: Lattice> Setup<L> {
    /// A new controller over a lattice, with every variable at the highest level.
    pub fn new(lattice: L) -> Self
        ensures begins_with_highest_levels { result ≡ new_state L.Lattice.order lattice }
    {
        let levels = [lattice.highest(); VARIABLES];
        Setup {
            grades: Grades { lattice, levels },
        }
    }

    /// Gives one of the variables 0 to 31 a level.
    pub fn grade(&mut self, variable: u8, level: u16) -> Result<(), Refusal>
        ensures grades_or_refuses { (done_answer result, self.new)
            ≡ grade_outcome L.Lattice.order self.old variable level }
        ensures refused_changes_nothing { IfErr result (λ _. self.new ≡ self.old) }
    {
        let index = index_of(variable)?;
        if !self.grades.lattice.is_level(level) {
            return Err(Refusal::NoLevel);
        }
        self.grades.levels[index] = level;
        Ok(())
    }

    /// Fixes the levels. Every value is 0 then, and the program is empty.
    pub fn seal(self) -> Ready<L>
        ensures keeps_levels_and_empties_the_rest { result ≡ sealed_state self }
    {
        Ready {
            grades: self.grades,
            values: [0; VARIABLES],
            program: Program::empty(),
        }
    }
}
