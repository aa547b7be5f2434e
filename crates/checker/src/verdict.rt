ghost use Rattle.std.specs.Prelude.{◌≡◌, ◌≤◌, [], length, IfOk};
ghost use Rattle.std.specs.Result.{result_err};
ghost use Rattle.job.specs.First.{first_below};
ghost use Rattle.job.specs.Layout.{opening};
ghost use Rattle.job.specs.Views.{sizes};
ghost use Rattle.checker.specs.Faults.{mount_answer};
ghost use Rattle.checker.specs.Rules.{label_rule, exit};
ghost use Rattle.checker.specs.Verdict.{instruction_fault, claim_record_fault, branch_rule, broken_rule, code_below, first_fault, decoded_code, verdict as verdict_of};
ghost use Rattle.checker.specs.Leaving.{LeavesTheKindsAfter};
ghost use Rattle.checker.specs.Region.{MarksAreTheRegion};
ghost use Rattle.checker.specs.RegionList.{LabelsWithin};
ghost use Rattle.checker.specs.WellClaimed.{Judged};
ghost use Rattle.checker.specs.Flow.{AcceptedJobsNeverFault, AcceptedJobsKeepClosed};

use crate::fault::{MountFault, Rule};
use crate::job_check::JobCheck;
use job::{Job, RecordFault};
use lattice::Lattice;
use push::Program;

// Decodes the instructions of a job.
fn decode(job: &Job) -> Result<Program, RecordFault>
    requires { (sizes job.now).instructions ≤ 128 }
    ensures answers_the_first_fault { result_err result
        ≡ first_below (instruction_fault job.now.bytes.now (sizes job.now))
        (sizes job.now).instructions }
    ensures program_is_what_the_records_say { IfOk result
        (λ p. p ≡ code_below job.now.bytes.now (sizes job.now) (sizes job.now).instructions) }
    ensures labels_are_within { IfOk result (λ p. LabelsWithin p) }
{
    let mut program = Program::empty();
    for label in 0..job.exit() {
        let instruction = job.instruction(label)?;
        program.add(instruction).unwrap();
    }
    Ok(program)
}

// Sees that every claim record of a job is like its description.
#[tactic(auto, using(crate::proofs::FirstFacts::first_none, crate::proofs::FirstFacts::first_more, crate::proofs::FirstFacts::first_found))]
fn check_records<L: Lattice>(lattice: &L, job: &Job) -> Result<(), RecordFault>
    ensures { result_err result
        ≡ first_below (claim_record_fault (L.Lattice.order lattice.now) job.now.bytes.now (sizes job.now))
        (sizes job.now).instructions }
{
    let span = lattice.span();
    for label in 0..job.exit() {
        job.check_claim_record(span, label)?;
    }
    Ok(())
}

impl<L: Lattice> JobCheck<'_, L> {
    ghost use Rattle.checker.specs.Views.{levels_of, job_of};

    // The first label that breaks a rule of stacks, stores and successors.
    #[tactic(auto, using(crate::proofs::FirstFacts::first_none, crate::proofs::FirstFacts::first_more, crate::proofs::FirstFacts::first_found))]
    fn check_labels(&self) -> Result<(), Rule>
        ensures { result_err result
            ≡ first_below (label_rule (L.Lattice.order self.now.lattice.now) (levels_of self.now)
            (job_of self.now)) (exit (job_of self.now)) }
    {
        for label in 0..self.program.len() as u8 {
            self.check_label(label)?;
        }
        Ok(())
    }

    // The first branch that breaks a rule of regions.
    #[tactic(auto, using(crate::proofs::FirstFacts::first_none, crate::proofs::FirstFacts::first_more, crate::proofs::FirstFacts::first_found))]
    fn check_branches(&self) -> Result<(), Rule>
        ensures { result_err result
            ≡ first_below (branch_rule (L.Lattice.order self.now.lattice.now) (job_of self.now))
            (exit (job_of self.now)) }
    {
        let surrounding = self.surrounding_levels();
        for label in 0..self.program.len() as u8 {
            self.check_branch(&surrounding, label)?;
        }
        Ok(())
    }

    // The first rule of claims that the job breaks.
    fn check_claims(&self) -> Result<(), Rule>
        ensures { result_err result
            ≡ broken_rule (L.Lattice.order self.now.lattice.now) (levels_of self.now)
            (job_of self.now) }
    {
        self.check_entry()?;
        self.check_labels()?;
        self.check_branches()
    }
}

// The first fault of a job, or its program.
fn verdict_on_bytes<L: Lattice>(
    lattice: &L,
    levels: &[u16],
    bytes: &[u8],
) -> Result<Program, MountFault>
    ensures fault_is_the_first { result_err result
        ≡ first_fault (L.Lattice.order lattice.now) levels.now bytes.now }
    ensures program_is_what_the_bytes_say { IfOk result
        (λ p. p ≡ decoded_code bytes.now (opening bytes.now)) }
{
    let job = Job::read(bytes)?;
    let program = decode(&job)?;
    check_records(lattice, &job)?;
    let check = JobCheck {
        lattice,
        levels,
        job,
        program: &program,
    };
    check.check_claims()?;
    Ok(program)
}

/// Checks a job over a lattice and the levels of the 32 variables: its program where every rule holds, or the first fault.
/// First come the bytes and the records, then the entry, then the rules of labels, label by label, then those of branches.
pub fn check<L: Lattice>(lattice: &L, levels: &[u16], bytes: &[u8]) -> Result<Program, MountFault>
    ensures answers_the_verdict { mount_answer result
        ≡ verdict_of (L.Lattice.order lattice.now) levels.now bytes.now }
    ensures fault_is_the_first { result_err result
        ≡ first_fault (L.Lattice.order lattice.now) levels.now bytes.now }
    ensures program_is_what_the_bytes_say { IfOk result
        (λ p. p ≡ decoded_code bytes.now (opening bytes.now)) }
    ensures accepts_exactly_the_mountable { Judged
        (L.Lattice.order lattice.now) levels.now bytes.now }
    ensures marks_are_the_region { MarksAreTheRegion }
    ensures what_leaves_has_the_kinds_after { LeavesTheKindsAfter }
    ensures accepted_jobs_never_fault { AcceptedJobsNeverFault
        (L.Lattice.order lattice.now) levels.now bytes.now }
    ensures accepted_jobs_keep_closed { AcceptedJobsKeepClosed
        (L.Lattice.order lattice.now) levels.now bytes.now }
{
    verdict_on_bytes(lattice, levels, bytes)
}
