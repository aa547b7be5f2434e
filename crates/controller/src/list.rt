ghost use Rattle.std.specs.Prelude.{◌≡◌, ℕ, map, IfOk};
ghost use Rattle.controller.specs.Calls.{AnswersOf, TranscriptFollowsTheRules};
ghost use Rattle.controller.specs.Theorem.{stack_faults, NoStackFaults, ShownTheSameIfAlike, ClosedValuesStayClosed};
ghost use Rattle.controller.specs.Views.{call_of, answer_of, Transcribes};

use crate::answer::Answer;
use crate::call::Call;
use crate::phase::Phase;
use crate::setup::Setup;
use lattice::Lattice;
use std::alloc::{AllocError, Global};

// Performs a list of calls on a new controller.
fn perform<L: Lattice + Drop>(
    heap: Global,
    lattice: L,
    calls: &[Call],
) -> Result<Vec<Answer>, AllocError>
    ensures { IfOk result (λ answers. Transcribes (L.Lattice.order lattice) calls.now answers.items) }
{
    let mut phase = Phase::Setup(Setup::new(lattice));
    let mut answers = Vec::new(heap);
    for (position, call) in calls.iter().enumerate() {
        let Some((next, answer)) = phase.call(heap, *call)? else {
            answers.push(Answer::NotAllowed(position))?;
            return Ok(answers);
        };
        phase = next;
        answers.push(answer)?;
    }
    Ok(answers)
}

/// Makes a controller over a lattice, performs the calls on it in order, and answers for each. A call that its state does
/// not allow ends the list there. An error says that memory was wanting.
pub fn transcript<L: Lattice + Drop>(
    heap: Global,
    lattice: L,
    calls: &[Call],
) -> Result<Vec<Answer>, AllocError>
    ensures answers_are_the_transcript { IfOk result (λ answers.
        Transcribes (L.Lattice.order lattice) calls.now answers.items) }
    ensures answers_are_by_the_rules { IfOk result (λ answers.
        AnswersOf (L.Lattice.order lattice) (map call_of calls.now) (map answer_of answers.items)) }
    ensures transcript_follows_the_rules { TranscriptFollowsTheRules (L.Lattice.order lattice) }
    ensures no_stack_faults { NoStackFaults (L.Lattice.order lattice) }
    ensures closed_values_stay_closed { ClosedValuesStayClosed
        (L.Lattice.order lattice) (map call_of calls.now) }
{
    perform(heap, lattice, calls)
}

// Performs both lists. `two_transcripts` adds the theorem: a wrong list is then refused here, at the clause that it
// breaks, and not somewhere in the theorem's proof.
fn perform_both<L: Lattice>(
    heap: Global,
    lattice: &L,
    calls: &[Call],
    others: &[Call],
) -> Result<(Vec<Answer>, Vec<Answer>), AllocError>
    ensures { IfOk result (λ both.
        Transcribes (L.Lattice.order lattice.now) calls.now both.0.items
        × Transcribes (L.Lattice.order lattice.now) others.now both.1.items) }
{
    let answers = perform(heap, lattice, calls)?;
    let other_answers = perform(heap, lattice, others)?;
    Ok((answers, other_answers))
}

/// Performs two lists of calls, each on a controller of its own over the lattice, and answers the transcripts of both. An
/// error says that memory was wanting.
pub fn two_transcripts<L: Lattice>(
    heap: Global,
    lattice: &L,
    calls: &[Call],
    others: &[Call],
) -> Result<(Vec<Answer>, Vec<Answer>), AllocError>
    ensures answers_are_the_transcripts { IfOk result (λ both.
        Transcribes (L.Lattice.order lattice.now) calls.now both.0.items
        × Transcribes (L.Lattice.order lattice.now) others.now both.1.items) }
    ensures answers_are_by_the_rules { IfOk result (λ both.
        AnswersOf (L.Lattice.order lattice.now) (map call_of calls.now)
        (map answer_of both.0.items)
        × AnswersOf (L.Lattice.order lattice.now) (map call_of others.now)
        (map answer_of both.1.items)) }
    ensures no_stack_faults { IfOk result (λ both.
        (stack_faults (map answer_of both.0.items) ≡ 0)
        × (stack_faults (map answer_of both.1.items) ≡ 0)) }
    ensures closed_values_stay_closed { IfOk result (λ both. (observer : ℕ) →
        ShownTheSameIfAlike (L.Lattice.order lattice.now) (map call_of calls.now) (map call_of others.now)
        (map answer_of both.0.items) (map answer_of both.1.items) observer) }
{
    perform_both(heap, lattice, calls, others)
}
