ghost use Rattle.std.specs.Prelude.{◌≡◌, ℕ, ◌&&◌, ◌==◌, bit_and};
ghost use Rattle.lattice.specs.Kinds.{owners as owners_order, owners_span, levels};
ghost use Rattle.lattice.specs.OwnersLaws.{owners_laws};

use crate::lattice::Lattice;

/// Sets of owners: bit i of a code stands for owner i, and a set is at most each set that holds all its owners.
#[derive(Clone, Copy, Debug, PartialEq, Eq)]
pub struct Owners {
    count: u8,
}

impl Owners {
    /// From 0 to 16 owners; with more there are no levels.
    pub fn new(count: u8) -> Self
        ensures meaning { ⟦<Owners as Lattice>⟧.order result ≡ owners_order count }
        ensures span { (⟦<Owners as Lattice>⟧.order result).span ≡ owners_span count }
        ensures at_most { (a b : ℕ) →
            (⟦<Owners as Lattice>⟧.order result).at_most a b
            ≡ (levels (owners_span count) a b && bit_and a b == a) }
    {
        Owners { count }
    }
}

impl Lattice for Owners {
    ghost order = { λ s. owners_order s.count };

    ghost lawful = { λ s. owners_laws s.count };

    fn span(&self) -> u32 {
        // A code has 16 bits.
        if self.count > 16 { 0 } else { 1 << self.count }
    }

    fn at_most(&self, a: u16, b: u16) -> bool {
        self.both_levels(a, b).is_some_and(|(a, b)| a & b == a)
    }

    fn join(&self, a: u16, b: u16) -> u16 {
        self.both_levels(a, b).map_or(0, |(a, b)| a | b)
    }

    fn meet(&self, a: u16, b: u16) -> u16 {
        self.both_levels(a, b).map_or(0, |(a, b)| a & b)
    }

    fn lowest(&self) -> u16 {
        0
    }

    fn highest(&self) -> u16 {
        self.span().saturating_sub(1) as u16
    }
}
