ghost use Rattle.std.specs.Prelude.{◌≡◌, ◌+◌, ◌<◌, ◌≤◌, Some, length, map, slice_index, slice_index_or};
ghost use Rattle.std.specs.Result.{result_err};
ghost use Rattle.job.specs.declared.claim.Place.TheVariants.{IntegerAt};
ghost use Rattle.job.specs.Views.{claim_says};
ghost use Rattle.push.specs.Language.{kinds_after};
ghost use Rattle.job.specs.Records.{kind as kind_of};
ghost use Rattle.checker.specs.Leaving.{joined_one as joined_one_of, joined_two as joined_two_of, raised_to, level_at, fits_under as fits_under_of, all_fit_under};
ghost use Rattle.checker.specs.Keeping.{pushed_by, kept as kept_of};
ghost use Rattle.checker.specs.Rules.{lowered_variable as lowered_variable_of, takes as takes_of, first_refusing as first_refusing_of, rule_at, label_rule};

use crate::fault::Rule;
use crate::job_check::JobCheck;
use job::{Claim, Place};
use lattice::Lattice;
use push::{Instruction, StackKinds};

// A label under check, whose claimed stack does not fault: its claim and its instruction, in a job, and the kinds of the
// stack that leaves. From these it follows what leaves the label, and whether the label may have such a claim.
#[derive(Drop)]
struct LabelCheck<'a, L> {
    check: &'a JobCheck<'a, L>,
    claim: Claim,
    instruction: Instruction,
    leaving: StackKinds,
    // So the depth of `leaving` is that of what leaves.
    ghost leaving_is: { kinds_after instruction (map kind_of (claim_says check.now.job claim).stack) ≡ Some leaving },
}

impl<L: Lattice> LabelCheck<'_, L> {
    ghost use Rattle.checker.specs.Views.{levels_of, job_of, order_of, claimed_of, leaves_of};

    // The level of a variable; 0 for one that there is not.
    fn variable_level(&self, variable: u8) -> u16
        ensures { result ≡ slice_index (levels_of self.now.check.now) variable }
    {
        self.check
            .levels
            .get(usize::from(variable))
            .copied()
            .unwrap_or(0)
    }

    // A claimed stack place, the top being 0; an integer of level 0 below the bottom.
    fn claimed_place(&self, place: u16) -> Place
        ensures { result ≡ slice_index_or (claimed_of self.now).stack place (IntegerAt 0) }
    {
        self.check.job.stack_place(self.claim, place)
    }

    // The level of a claimed stack place.
    fn level_at(&self, place: u16) -> u16
        ensures { result ≡ level_at (claimed_of self.now).stack place }
    {
        self.claimed_place(place).level()
    }

    // The level of a result of one operand.
    fn joined_one(&self) -> u16
        ensures { result ≡ joined_one_of (order_of L.Lattice.order self.now) (claimed_of self.now) }
    {
        let operand = self.level_at(0);
        self.check.lattice.join(operand, self.claim.surrounding)
    }

    // The level of a result of two operands.
    fn joined_two(&self) -> u16
        ensures { result ≡ joined_two_of (order_of L.Lattice.order self.now) (claimed_of self.now) }
    {
        let operands = self.check.lattice.join(self.level_at(0), self.level_at(1));
        self.check.lattice.join(operands, self.claim.surrounding)
    }

    // A place raised by a level.
    fn raised(&self, level: u16, place: Place) -> Place
        ensures { result ≡ raised_to (order_of L.Lattice.order self.now) level place }
    {
        match place {
            Place::IntegerAt(own) => Place::IntegerAt(self.check.lattice.join(level, own)),
            Place::BooleanAt(own) => Place::BooleanAt(self.check.lattice.join(level, own)),
        }
    }

    // A claimed place, raised by the surrounding level.
    fn surrounded_place(&self, place: u16) -> Place
        ensures { result
            ≡ raised_to (order_of L.Lattice.order self.now) (claimed_of self.now).surrounding
            (slice_index_or (claimed_of self.now).stack place (IntegerAt 0)) }
    {
        self.raised(self.claim.surrounding, self.claimed_place(place))
    }

    // How many places leave.
    fn depth(&self) -> u16
        ensures value { result ≡ length (leaves_of L.Lattice.order self.now) }
        ensures bound { result ≤ 8 }
    {
        u16::from(self.leaving.depth())
    }

    // How many places the instruction pushes, and how many it pops.
    fn pushed_and_popped(&self) -> (u16, u16)
        ensures pushed { result.0 ≡ pushed_by self.now.instruction }
        ensures popped { length (leaves_of L.Lattice.order self.now) + result.1
            ≡ length (claimed_of self.now).stack + result.0 }
        ensures bound { result.1 ≤ 2 }
    {
        match self.instruction {
            Instruction::Load(_) | Instruction::Push(_) | Instruction::Copy => (1, 0),
            Instruction::Add | Instruction::Sub | Instruction::Eq | Instruction::Less => (1, 2),
            Instruction::Not => (1, 1),
            Instruction::Goto(_) => (0, 0),
            Instruction::Store(_) | Instruction::GotoF { .. } | Instruction::Drop => (0, 1),
            Instruction::Swap => (2, 2),
        }
    }

    // A place that the instruction pushes, the top being 0; an integer of level 0 where it pushes none.
    fn pushed_place(&self, place: u16) -> Place
        requires { place < pushed_by self.now.instruction }
        ensures { result ≡ slice_index_or (leaves_of L.Lattice.order self.now) place (IntegerAt 0) }
    {
        match self.instruction {
            Instruction::Load(variable) => {
                let level = self.variable_level(variable);
                Place::IntegerAt(self.check.lattice.join(level, self.claim.surrounding))
            }
            Instruction::Push(_) => Place::IntegerAt(self.claim.surrounding),
            Instruction::Add | Instruction::Sub => Place::IntegerAt(self.joined_two()),
            Instruction::Eq | Instruction::Less => Place::BooleanAt(self.joined_two()),
            Instruction::Not => Place::BooleanAt(self.joined_one()),
            Instruction::Copy => self.surrounded_place(0),
            Instruction::Swap => self.surrounded_place(1 - place),
            Instruction::Store(_)
            | Instruction::Goto(_)
            | Instruction::GotoF { .. }
            | Instruction::Drop => Place::IntegerAt(0),
        }
    }

    // What becomes of a claimed place that the instruction keeps: a branch raises it by the level of what it pops.
    fn kept(&self, place: Place) -> Place
        ensures { result
            ≡ kept_of (order_of L.Lattice.order self.now) (claimed_of self.now)
            self.now.instruction place }
    {
        if let Instruction::GotoF { .. } = self.instruction {
            self.raised(self.level_at(0), place)
        } else {
            place
        }
    }

    // Whether a leaving place has the claimed kind, and a level at most the claimed one.
    fn fits_under(&self, leaving: Place, claimed: Place) -> bool
        ensures { result ≡ fits_under_of (order_of L.Lattice.order self.now) leaving claimed }
    {
        leaving.kind() == claimed.kind()
            && self.check.lattice.at_most(leaving.level(), claimed.level())
    }

    // A place that leaves, the top being 0, of the label's claim, where so many are pushed and so many popped.
    fn place(&self, claim: Claim, place: u16, pushed: u16, popped: u16) -> Place
        requires own_claim { claim ≡ self.now.claim }
        requires within { place < length (leaves_of L.Lattice.order self.now) }
        requires pushed { pushed ≡ pushed_by self.now.instruction }
        requires popped { length (leaves_of L.Lattice.order self.now) + popped
            ≡ length (claimed_of self.now).stack + pushed }
        requires few { (length (leaves_of L.Lattice.order self.now) ≤ 8) × (popped ≤ 2) }
        ensures { result ≡ slice_index_or (leaves_of L.Lattice.order self.now) place (IntegerAt 0) }
    {
        if place < pushed {
            self.pushed_place(place)
        } else {
            self.kept(self.check.job.stack_place(claim, place + popped - pushed))
        }
    }

    // Whether all that leaves fits under a claimed stack.
    fn all_fit_under(&self, next: Claim) -> bool
        ensures { result
            ≡ all_fit_under (order_of L.Lattice.order self.now) (leaves_of L.Lattice.order self.now)
            (claim_says self.now.check.now.job next).stack }
    {
        let depth = self.depth();
        if depth != u16::from(next.depth) {
            return false;
        }
        // A copy, taken before the loop: its fields then stay in registers.
        let claim = self.claim;
        let (pushed, popped) = self.pushed_and_popped();
        // Not by `all`: of its closure a proof does not know that the place is within the depth.
        for place in 0..depth {
            let left = self.place(claim, place, pushed, popped);
            if !self.fits_under(left, self.check.job.stack_place(next, place)) {
                return false;
            }
        }
        true
    }

    // The variable into which a store would lower what it stores.
    fn lowered_variable(&self) -> Option<u8>
        ensures { result
            ≡ lowered_variable_of (order_of L.Lattice.order self.now)
            (levels_of self.now.check.now) (claimed_of self.now) self.now.instruction }
    {
        match self.instruction {
            Instruction::Store(variable) => {
                let level = self.variable_level(variable);
                let is_upward = self.check.lattice.at_most(self.joined_one(), level);
                (!is_upward).then_some(variable)
            }
            _ => None,
        }
    }

    // Whether a label takes what leaves: the exit an empty stack, another by its claim.
    fn is_taken_by(&self, label: u16) -> bool
        ensures { result
            ≡ takes_of (order_of L.Lattice.order self.now) (job_of self.now.check.now)
            (leaves_of L.Lattice.order self.now) label }
    {
        if usize::from(label) == self.check.program.len() {
            return self.depth() == 0;
        }
        // Not by `is_some_and`: of a closure that calls `all_fit_under` the search for a proof finds nothing.
        match self.check.job.claim(label) {
            Some(next) => self.all_fit_under(next),
            None => false,
        }
    }

    // The first successor of the label that does not take what leaves it.
    fn first_refusing(&self, label: u8) -> Option<u16>
        ensures { result
            ≡ first_refusing_of (order_of L.Lattice.order self.now)
            (levels_of self.now.check.now) (job_of self.now.check.now)
            label (claimed_of self.now) self.now.instruction }
    {
        // Not by `find`: of a closure that is lent its item, a proof does not know that it stays as it was.
        let [next, target] = self.instruction.successors(label);
        if let Some(next) = next
            && !self.is_taken_by(next)
        {
            return Some(next);
        }
        if let Some(target) = target
            && !self.is_taken_by(target)
        {
            return Some(target);
        }
        None
    }
}

impl<L: Lattice> JobCheck<'_, L> {
    ghost use Rattle.checker.specs.Views.{levels_of, job_of};

    // The first rule that a claimed label breaks.
    fn check_claim(&self, label: u8, claim: Claim, instruction: Instruction) -> Result<(), Rule>
        ensures { result_err result
            ≡ rule_at (L.Lattice.order self.now.lattice.now) (levels_of self.now) (job_of self.now)
            label (claim_says self.now.job claim) instruction }
    {
        let at = u16::from(label);
        let kinds = self.job.stack_kinds(claim);
        let Some(leaving) = kinds.and_then(|kinds| kinds.after(instruction)) else {
            return Err(Rule::Stack { label: at });
        };
        let label_check = LabelCheck {
            check: self,
            claim,
            instruction,
            leaving,
        };
        if let Some(variable) = label_check.lowered_variable() {
            return Err(Rule::Store {
                label: at,
                variable,
            });
        }
        match label_check.first_refusing(label) {
            Some(successor) => Err(Rule::Successor {
                label: at,
                successor,
            }),
            None => Ok(()),
        }
    }

    // The first rule that a label breaks, if it has a claim.
    pub(crate) fn check_label(&self, label: u8) -> Result<(), Rule>
        ensures { result_err result
            ≡ label_rule (L.Lattice.order self.now.lattice.now) (levels_of self.now)
            (job_of self.now) label }
    {
        let claim = self.job.claim(u16::from(label));
        let instruction = self.program.fetch(usize::from(label));
        match (claim, instruction) {
            (Some(claim), Some(instruction)) => self.check_claim(label, claim, instruction),
            _ => Ok(()),
        }
    }
}
