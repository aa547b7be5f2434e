//! Lattices of security levels: six questions about a finite order, one meaning and one law for all who answer them, and
//! the kinds that suppliers use: a ladder of grades, sets of owners, a lattice upside down, and two side by side. A level
//! is a number; nothing above this crate looks into a kind.
#![tactic(auto)]

mod flip;
mod ladder;
mod lattice;
mod lent;
mod meaning;
mod owners;
mod pair;

pub use flip::Flip;
pub use ladder::Ladder;
pub use lattice::Lattice;
pub use meaning::kinds_mean_what_they_say;
pub use owners::Owners;
pub use pair::Pair;
