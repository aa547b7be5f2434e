ghost use Rattle.checker.specs.Surrounding.{SurroundingOf};

use crate::job_check::JobCheck;
use lattice::Lattice;
use push::INSTRUCTIONS;

// The surrounding level of each label that has a claim.
pub(crate) type SurroundingLevels = [Option<u16>; INSTRUCTIONS];

impl<L: Lattice> JobCheck<'_, L> {
    ghost use Rattle.checker.specs.Views.{job_of};

    // The surrounding levels of the job, read once for all its branches.
    pub(crate) fn surrounding_levels(&self) -> SurroundingLevels
        ensures { SurroundingOf (job_of self.now) result }
    {
        let mut levels = [None; INSTRUCTIONS];
        for label in 0..self.program.len() as u8 {
            let claim = self.job.claim(u16::from(label));
            levels[usize::from(label)] = claim.map(|claim| claim.surrounding);
        }
        levels
    }
}
