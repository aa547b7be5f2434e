//! The controller: variables with levels and values, its states as types (`Setup`, `Ready`, `Running`), and the sheet that
//! an observer may see. A mount that refuses hands up the job's first fault whole, and so does its answer in a list: number,
//! label and cause. `transcript` and `two_transcripts` perform lists of calls, and their contracts hold the theorem.
#![tactic(auto)]

mod answer;
mod call;
mod ending;
mod grades;
mod list;
mod phase;
mod ready;
mod refusal;
mod running;
mod setup;
mod sheet;
mod variable;

pub use answer::Answer;
pub use call::Call;
pub use ending::Ending;
pub use list::{transcript, two_transcripts};
pub use push::VARIABLES;
pub use ready::Ready;
pub use refusal::Refusal;
pub use running::Running;
pub use setup::Setup;
pub use sheet::{LINE, SHEET, Sheet};
