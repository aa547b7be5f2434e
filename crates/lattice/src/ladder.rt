ghost use Rattle.std.specs.Prelude.{◌≡◌, ℕ, ◌&&◌, nat_le};
ghost use Rattle.lattice.specs.Kinds.{ladder as ladder_order, levels};
ghost use Rattle.lattice.specs.LadderLaws.{ladder_laws};

use crate::lattice::Lattice;

/// Grades in the order of the numbers.
#[derive(Clone, Copy, Debug, PartialEq, Eq)]
pub struct Ladder {
    grades: u16,
}

impl Ladder {
    /// From 0 to 65,535 grades; with none there are no levels.
    pub fn new(grades: u16) -> Self
        ensures meaning { ⟦<Ladder as Lattice>⟧.order result ≡ ladder_order grades }
        ensures span { (⟦<Ladder as Lattice>⟧.order result).span ≡ grades }
        ensures at_most { (a b : ℕ) →
            (⟦<Ladder as Lattice>⟧.order result).at_most a b ≡ (levels grades a b && nat_le a b) }
    {
        Ladder { grades }
    }
}

impl Lattice for Ladder {
    ghost order = { λ s. ladder_order s.grades };

    ghost lawful = { λ s. ladder_laws s.grades };

    fn span(&self) -> u32 {
        u32::from(self.grades)
    }

    // Two numbers are levels exactly if the larger is.
    fn at_most(&self, a: u16, b: u16) -> bool {
        a <= b && self.is_level(b)
    }

    fn join(&self, a: u16, b: u16) -> u16 {
        let larger = a.max(b);
        if self.is_level(larger) { larger } else { 0 }
    }

    fn meet(&self, a: u16, b: u16) -> u16 {
        let larger = a.max(b);
        if self.is_level(larger) { a.min(b) } else { 0 }
    }

    fn lowest(&self) -> u16 {
        0
    }

    fn highest(&self) -> u16 {
        self.grades.saturating_sub(1)
    }
}
