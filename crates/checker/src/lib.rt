//! The rules of claims over any lattice, and the verdict on a job. `check` reads a job's bytes, decodes its instructions,
//! and asks the rules: that label 0 claims the empty stack; of each claimed label that its instruction runs on the claimed
//! stack, that a store does not lower what it stores, and that each successor takes what leaves; of each branch that all
//! labels of its region, to which it can come before its junction, are surrounded by at least the level of its boolean.
//! What acceptance is worth when the job runs is promised on `check` too: it never faults, and closed values stay closed.
#![tactic(auto)]

mod branches;
mod fault;
mod job_check;
mod label_check;
mod region;
mod surrounding;
mod verdict;

pub use fault::{MountFault, Rule, mount_answer};
pub use verdict::check;
