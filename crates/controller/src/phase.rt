ghost use Rattle.std.specs.Prelude.{◌≡◌, replicate, IfOk};
ghost use Rattle.controller.specs.Sheet.{show_outcome};
ghost use Rattle.controller.specs.Lists.{sheet_shown, setup_call, ready_call, running_call, outcome};
ghost use Rattle.controller.specs.Views.{setup_of, ready_of, running_of, call_of, sheet_answer, state_of, outcome_of};

use crate::answer::Answer;
use crate::call::Call;
use crate::ready::Ready;
use crate::refusal::Refusal;
use crate::running::Running;
use crate::setup::Setup;
use crate::sheet::{LINE, SHEET, Sheet};
use lattice::Lattice;
use std::alloc::{AllocError, Global};

// A controller in whichever state it is.
#[derive(Drop)]
pub(crate) enum Phase<L: Lattice> {
    Setup(Setup<L>),
    Ready(Ready<L>),
    Running(Running<L>),
}

// The state after a call, and its answer; none where the state does not allow the call.
type Performed<L> = Option<(Phase<L>, Answer)>;

// Performs a call in setup; none where setup does not allow it.
fn call_in_setup<L: Lattice + Drop>(mut setup: Setup<L>, call: Call) -> Performed<L>
    ensures { outcome_of L.Lattice.order result
        ≡ setup_call (setup_of L.Lattice.order setup) (call_of call.entry) }
{
    match call {
        Call::Grade { variable, level } => {
            let answer = setup.grade(variable, level);
            Some((Phase::Setup(setup), Answer::Graded(answer)))
        }
        Call::Seal => Some((Phase::Ready(setup.seal()), Answer::Sealed)),
        _ => None,
    }
}

// Performs a call while a run is under way; none where that does not allow it.
fn call_while_running<L: Lattice + Drop>(mut running: Running<L>, call: Call) -> Performed<L>
    ensures { outcome_of L.Lattice.order result
        ≡ running_call (running_of L.Lattice.order running) (call_of call.entry) }
{
    match call {
        Call::Advance(budget) => {
            let (status, steps) = running.advance(budget);
            Some((Phase::Running(running), Answer::Advanced(status, steps)))
        }
        Call::End => {
            let (ready, ending) = running.end();
            Some((Phase::Ready(ready), Answer::Ended(ending)))
        }
        _ => None,
    }
}

// Shows an observer's sheet as into a buffer of so many bytes, by way of one that any sheet fits.
fn show_within<L: Lattice>(
    heap: Global,
    ready: &Ready<L>,
    observer: u16,
    length: usize,
) -> Result<Result<Sheet, Refusal>, AllocError>
    ensures { IfOk result (λ answer. sheet_answer answer
        ≡ sheet_shown (show_outcome L.Lattice.order ready.now observer (replicate length 0))) }
{
    let mut room = [0; SHEET];
    let buffer = &mut room[..length.min(SHEET)];
    match ready.show(observer, buffer) {
        Ok(count) => {
            let bytes = Vec::from_slice(heap, &buffer[..LINE * count])?;
            Ok(Ok(Sheet { bytes }))
        }
        // A refusal is a value of the list here: `?` is for want of memory.
        Err(refusal) => Ok(Err(refusal)),
    }
}

// Performs a call when ready; none where that does not allow it.
fn call_when_ready<L: Lattice + Drop>(
    heap: Global,
    mut ready: Ready<L>,
    call: Call,
) -> Result<Performed<L>, AllocError>
    ensures { IfOk result (λ step. outcome_of L.Lattice.order step
        ≡ ready_call (ready_of L.Lattice.order ready) (call_of call.entry)) }
{
    let answer = match call {
        Call::Mount(job) => Answer::Mounted(ready.mount(job)),
        Call::Set { variable, value } => Answer::WasSet(ready.set(variable, value)),
        Call::Read(variable) => Answer::WasRead(ready.read(variable)),
        Call::Show { observer, length } => {
            Answer::Shown(show_within(heap, &ready, observer, length)?)
        }
        Call::Start => return Ok(Some((Phase::Running(ready.start()), Answer::Started))),
        Call::Unseal => return Ok(Some((Phase::Setup(ready.unseal()), Answer::Unsealed))),
        _ => return Ok(None),
    };
    Ok(Some((Phase::Ready(ready), answer)))
}

impl<L: Lattice + Drop> Phase<L> {
    // Performs a call; none where the state does not allow it.
    pub(crate) fn call(self, heap: Global, call: Call) -> Result<Performed<L>, AllocError>
        ensures { IfOk result (λ step. outcome_of L.Lattice.order step
            ≡ outcome (state_of L.Lattice.order self) (call_of call.entry)) }
    {
        match self {
            Phase::Setup(setup) => Ok(call_in_setup(setup, call)),
            Phase::Ready(ready) => call_when_ready(heap, ready, call),
            Phase::Running(running) => Ok(call_while_running(running, call)),
        }
    }
}
