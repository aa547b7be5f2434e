//! The verdict on a job and a run of it for C. Numbers and bytes alone cross: a slice comes as a pointer to bytes and
//! their count, which the caller vouches for. C declares the two functions as
//!
//! ```c
//! uint32_t nextabur_mount(const uint8_t *job, size_t length);
//! uint64_t nextabur_run(const uint8_t *job, size_t length, uint32_t budget);
//! ```
#![tactic(auto)]

ghost use Rattle.std.specs.Prelude.{◌≡◌, IfOk};
ghost use Rattle.push.specs.Run.{begun, run};
ghost use Rattle.checker.specs.Faults.{mount_answer as mount_answer_of};
ghost use Rattle.boundary.specs.Answers.{verdict_on, code_in, zeros, mount_number, end_number, run_number};

use checker::{MountFault, check, mount_answer};
use lattice::Ladder;
use push::{Program, Run, VARIABLES};

// The verdict over a ladder of 16 with every variable at level 0, and the program where it is accepted.
fn check_over_ladder(job: &[u8]) -> Result<Program, MountFault>
    ensures answers_the_verdict { mount_answer_of result ≡ verdict_on job.now }
    ensures program_is_what_the_bytes_say { IfOk result (λ p. p ≡ code_in job.now) }
{
    check(&Ladder::new(16), &[0; VARIABLES], job)
}

// Runs a program from values that are all 0: the status's number × 2^32 + the steps that were made.
fn run_from_zeros(program: Program, budget: u32) -> u64
    ensures { result ≡ end_number (run program budget (begun program zeros)) }
{
    let mut run = Run::begin(program, [0; VARIABLES]);
    let (status, steps) = run.advance(budget);
    u64::from(u8::from(status)) * 0x1_0000_0000 + u64::from(steps)
}

/// The verdict on a job over a ladder of 16 with every variable at level 0, as number × 65,536 + label: 0 where the job
/// is accepted, and else the number of the first broken rule and the label where it is broken.
#[unsafe(no_mangle)]
pub extern "C" fn nextabur_mount(job: &[u8]) -> u32
    ensures answers_the_verdict { result ≡ mount_number (verdict_on job.now) }
{
    let (number, label) = mount_answer(&check_over_ladder(job));
    u32::from(number) * 0x1_0000 + u32::from(label)
}

/// Runs a job that mount accepts, by at most `budget` steps from values that are all 0, as status × 2^32 + steps made:
/// status 0 where the budget was used up, 1 where the run halted. A job that mount refuses is not run and gives
/// 3 × 2^32.
#[unsafe(no_mangle)]
pub extern "C" fn nextabur_run(job: &[u8], budget: u32) -> u64
    ensures answers_the_end_of_the_run { result ≡ run_number job.now budget }
{
    check_over_ladder(job).map_or(3 * 0x1_0000_0000, |program| run_from_zeros(program, budget))
}
