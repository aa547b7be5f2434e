ghost use Rattle.std.specs.Prelude.{◌≡◌, ◌<◌};
ghost use Rattle.std.specs.Result.{result_err};
ghost use Rattle.checker.specs.Region.{region as region_of};
ghost use Rattle.checker.specs.Rules.{exit as exit_of};
ghost use Rattle.checker.specs.Surrounding.{SurroundingOf, AllInside};
ghost use Rattle.checker.specs.RegionList.{IsTheRegion, IsLowest, too_low_in};
ghost use Rattle.checker.specs.Verdict.{claim_at_least, region_rule, branch_rule, entry_rule};

use crate::fault::Rule;
use crate::job_check::JobCheck;
use crate::region::Region;
use crate::surrounding::SurroundingLevels;
use lattice::Lattice;
use push::Instruction;

impl<L: Lattice> JobCheck<'_, L> {
    ghost use Rattle.checker.specs.Views.{job_of};

    // The rule that label 0 breaks if it does not claim the empty stack that a run begins with. No instructions break none.
    pub(crate) fn check_entry(&self) -> Result<(), Rule>
        ensures { result_err result ≡ entry_rule (job_of self.now) }
    {
        if self.program.len() == 0 {
            return Ok(());
        }
        match self.job.claim(0) {
            Some(claim) if claim.depth == 0 => Ok(()),
            _ => Err(Rule::Entry),
        }
    }

    // Whether a label claims a surrounding level that is at least a branch's guard.
    fn is_at_least(&self, surrounding: &SurroundingLevels, guard: u16, label: u8) -> bool
        requires holds_surrounding { SurroundingOf (job_of self.now) surrounding.now }
        requires inside { label < exit_of (job_of self.now) }
        ensures { result
            ≡ claim_at_least (L.Lattice.order self.now.lattice.now) guard
            ((job_of self.now).claim label) }
    {
        surrounding[usize::from(label)].is_some_and(|level| self.lattice.at_most(guard, level))
    }

    // The lowest label of a region whose surrounding level is not at least the guard.
    fn lowest_too_low(
        &self,
        surrounding: &SurroundingLevels,
        guard: u16,
        region: &Region,
    ) -> Option<u8>
        requires holds_surrounding { SurroundingOf (job_of self.now) surrounding.now }
        requires inside { AllInside (job_of self.now) region.now.labels }
        ensures { IsLowest (too_low_in (L.Lattice.order self.now.lattice.now) (job_of self.now)
            guard region.now.labels) result }
    {
        let mut lowest = None;
        for &label in region.labels() {
            let is_lower = lowest.is_none_or(|low: u8| label < low);
            if is_lower && !self.is_at_least(surrounding, guard, label) {
                lowest = Some(label);
            }
        }
        lowest
    }

    // The rule that a branch breaks if the exit is in its region, or a label whose surrounding level is below the guard:
    // the level of the boolean that the branch pops.
    fn check_region(
        &self,
        surrounding: &SurroundingLevels,
        label: u8,
        guard: u16,
        region: &Region,
    ) -> Result<(), Rule>
        requires holds_surrounding { SurroundingOf (job_of self.now) surrounding.now }
        requires is_the_region { IsTheRegion self.now.program.now label region.now }
        ensures { result_err result
            ≡ region_rule (L.Lattice.order self.now.lattice.now) (job_of self.now) label guard
            (region_of self.now.program.now region.now.junction label) }
    {
        let label = u16::from(label);
        let exit = self.program.len();
        if region.has(exit as u8) {
            return Err(Rule::RegionExit {
                label,
                exit: exit as u16,
            });
        }
        match self.lowest_too_low(surrounding, guard, region) {
            Some(inside) => {
                let inside = u16::from(inside);
                Err(Rule::RegionLevel { label, inside })
            }
            None => Ok(()),
        }
    }

    // The first rule of regions that a label breaks, if it is a branch with a claim.
    pub(crate) fn check_branch(
        &self,
        surrounding: &SurroundingLevels,
        label: u8,
    ) -> Result<(), Rule>
        requires { SurroundingOf (job_of self.now) surrounding.now }
        ensures { result_err result
            ≡ branch_rule (L.Lattice.order self.now.lattice.now) (job_of self.now) label }
    {
        let instruction = self.program.fetch(usize::from(label));
        let Some(Instruction::GotoF { junction, .. }) = instruction else {
            return Ok(());
        };
        let Some(claim) = self.job.claim(u16::from(label)) else {
            return Ok(());
        };
        let guard = self.job.stack_place(claim, 0).level();
        let region = Region::of_branch(self.program, junction, label);
        self.check_region(surrounding, label, guard, &region)
    }
}
