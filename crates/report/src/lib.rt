//! From the bytes of a bench input to a list of calls on a controller, and from the transcript of that list to the text
//! of a report; and from the bytes of an input for a cause to the line of what mount answers, with the cause of a
//! refusal. The program `bench` prints a report, and `conformance` compares texts of both sorts with expected ones.
#![tactic(auto)]

mod calls;
mod cause;
mod input;
mod kinds;
mod no_report;
mod text;
mod transcript;

pub use cause::cause_report;
pub use input::Input;
pub use transcript::report;
