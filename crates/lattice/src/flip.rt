ghost use Rattle.std.specs.Prelude.{◌≡◌, ℕ};
ghost use Rattle.lattice.specs.Kinds.{flip as flip_order};
ghost use Rattle.lattice.specs.FlipLaws.{flip_laws};

use crate::lattice::Lattice;

/// A lattice upside down.
#[derive(Clone, Debug, PartialEq, Eq, Drop)]
pub struct Flip<L> {
    below: L,
}

impl<L: Lattice> Flip<L> {
    /// Any lattice, a flip among them: its levels, each at most those that were at most it.
    pub fn new(below: L) -> Self
        ensures meaning { ⟦<Flip<L> as Lattice>⟧.order result ≡ flip_order (L.Lattice.order below) }
        ensures span { (⟦<Flip<L> as Lattice>⟧.order result).span ≡ (L.Lattice.order below).span }
        ensures at_most { (a b : ℕ) →
            (⟦<Flip<L> as Lattice>⟧.order result).at_most a b
            ≡ (L.Lattice.order below).at_most b a }
    {
        Flip { below }
    }
}

impl<L: Lattice> Lattice for Flip<L> {
    ghost order = { λ s. flip_order (L.Lattice.order s.below) };

    ghost lawful = { λ s. flip_laws _ (L.Lattice.lawful s.below) };

    fn span(&self) -> u32 {
        self.below.span()
    }

    fn at_most(&self, a: u16, b: u16) -> bool {
        self.below.at_most(b, a)
    }

    fn join(&self, a: u16, b: u16) -> u16 {
        self.below.meet(a, b)
    }

    fn meet(&self, a: u16, b: u16) -> u16 {
        self.below.join(a, b)
    }

    fn lowest(&self) -> u16 {
        self.below.highest()
    }

    fn highest(&self) -> u16 {
        self.below.lowest()
    }
}
