use crate::ending::Ending;
use crate::refusal::Refusal;
use crate::sheet::Sheet;
use checker::MountFault;
use push::Status;

/// What a call in a list answers.
#[derive(Debug, PartialEq, Eq, Drop)]
pub enum Answer {
    /// To `Call::Grade`.
    Graded(Result<(), Refusal>),
    /// To `Call::Seal`.
    Sealed,
    /// To `Call::Mount`: of a refused job the whole fault, which holds the cause.
    Mounted(Result<(), MountFault>),
    /// To `Call::Set`.
    WasSet(Result<(), Refusal>),
    /// To `Call::Read`: the variable's value.
    WasRead(Result<i32, Refusal>),
    /// To `Call::Show`.
    Shown(Result<Sheet, Refusal>),
    /// To `Call::Start`.
    Started,
    /// To `Call::Advance`: the status then, and how many steps were made.
    Advanced(Status, u32),
    /// To `Call::End`.
    Ended(Ending),
    /// To `Call::Unseal`.
    Unsealed,
    /// To a call that the state does not allow: its position in the list, the first being 0. The list ends here.
    NotAllowed(usize),
}
