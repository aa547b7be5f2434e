//! The bytes of a job, which stay the caller's. `Job::read` sees that the opening fits the length; then each record
//! is a part of the bytes, at a place that the opening's two sizes give, and is read only when it is asked for: the
//! instruction at a label, the claim of a label, a stack place of a claim, the kinds of its stack. What is unlike
//! its description is a fault: the reader's, with its byte place, inside the record's, with its field. What the
//! instructions and the claims mean is said in `push` and `checker`.
#![tactic(auto)]

mod claim;
mod claim_record;
mod fault;
mod field;
mod instruction;
mod instruction_fields;
mod part;
mod reader;

pub use claim::{Claim, Place};
pub use fault::{ReadFault, RecordFault};
pub use field::{ClaimField, Field, InstructionField};
pub use reader::Job;
