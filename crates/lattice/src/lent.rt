use crate::lattice::Lattice;

/// A lattice that is lent is the lattice itself, so that several controllers can stand on one.
impl<L: Lattice> Lattice for &L {
    ghost order = { λ s. L.Lattice.order s.now };

    ghost lawful = { λ s. L.Lattice.lawful s.now };

    fn span(&self) -> u32 {
        (**self).span()
    }

    fn at_most(&self, a: u16, b: u16) -> bool {
        (**self).at_most(a, b)
    }

    fn join(&self, a: u16, b: u16) -> u16 {
        (**self).join(a, b)
    }

    fn meet(&self, a: u16, b: u16) -> u16 {
        (**self).meet(a, b)
    }

    fn lowest(&self) -> u16 {
        (**self).lowest()
    }

    fn highest(&self) -> u16 {
        (**self).highest()
    }
}
