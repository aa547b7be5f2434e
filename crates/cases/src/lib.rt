//! The worked cases: one statement over the definitions of every layer, and the lattices' cases asked of the code too.
#![tactic(auto)]

ghost use Rattle.std.specs.Prelude.{◌≡◌, true, false};
ghost use Rattle.cases.specs.Worked.{WorkedCases};

use lattice::{Flip, Ladder, Lattice, Owners, Pair};

/// Computes nothing: its promise is the worked cases of every layer.
pub fn worked_cases()
    ensures worked_cases_hold { WorkedCases }
{}

/// With 4 owners: whether 5 is at most 9, the join of 5 and 3, their meet.
pub fn four_owners() -> (bool, u16, u16)
    ensures answers_as_worked { result ≡ (false, 7, 1) }
{
    let owners = Owners::new(4);
    (owners.at_most(5, 9), owners.join(5, 3), owners.meet(5, 3))
}

/// In the pair of a ladder of 4 and the flip of a ladder of 4: whether 6 is at most 9, lowest, highest.
pub fn ladder_and_flip() -> (bool, u16, u16)
    ensures answers_as_worked { result ≡ (true, 3, 12) }
{
    let pair = Pair::new(Ladder::new(4), Flip::new(Ladder::new(4)));
    (pair.at_most(6, 9), pair.lowest(), pair.highest())
}

/// The spans of 16 owners paired with a ladder of 2, and with a ladder of 1.
pub fn widest_pairs() -> (u32, u32)
    ensures answers_as_worked { result ≡ (0, 65536) }
{
    let too_wide = Pair::new(Owners::new(16), Ladder::new(2));
    let just_fits = Pair::new(Owners::new(16), Ladder::new(1));
    (too_wide.span(), just_fits.span())
}
