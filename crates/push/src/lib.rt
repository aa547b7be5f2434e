//! PUSH, a small stack language, and the machine that runs it: its thirteen instructions, with what they make of the kinds
//! of a stack and the labels that they go to; programs of them; and a run of a program, which makes steps until its budget
//! is used up, or it comes to the exit, or no rule of the machine applies. Levels and claims are for the crates above.
#![tactic(auto)]

mod instruction;
mod kind;
mod number;
mod program;
mod run;
mod stack;
mod stack_kinds;
mod status;
mod value;

pub use instruction::Instruction;
pub use kind::Kind;
pub use program::{Program, ProgramFull};
pub use run::Run;
pub use stack_kinds::StackKinds;
pub use status::Status;

/// How many places the stack has.
pub const STACK_PLACES: usize = 8;

/// The most instructions that a program has.
pub const INSTRUCTIONS: usize = 128;

/// How many variables there are, numbered from 0.
pub const VARIABLES: usize = 32;
