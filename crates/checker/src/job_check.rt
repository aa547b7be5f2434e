ghost use Rattle.checker.specs.RegionList.{LabelsWithin};

use job::Job;
use push::Program;

// A job under check, with the lattice and the levels of the variables over which it is checked.
#[derive(Drop)]
pub(crate) struct JobCheck<'a, L> {
    pub(crate) lattice: &'a L,
    pub(crate) levels: &'a [u16],
    pub(crate) job: Job<'a>,
    pub(crate) program: &'a Program,
    // So a region has room for its labels.
    ghost labels_are_within: { LabelsWithin program.now },
}
