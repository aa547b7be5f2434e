ghost use Rattle.std.specs.Prelude.{◌≡◌, count_by};

use crate::VARIABLES;
use lattice::Lattice;

// A lattice, and the level of each variable. That each is a level of the lattice is an invariant of the states that hold
// this.
#[derive(Drop)]
pub(crate) struct Grades<L> {
    pub(crate) lattice: L,
    pub(crate) levels: [u16; VARIABLES],
}

impl<L: Lattice> Grades<L> {
    // Whether a variable of this level is open to an observer.
    pub(crate) fn is_open(&self, level: u16, observer: u16) -> bool
        ensures { result ≡ (L.Lattice.order self.now.lattice).at_most level observer }
    {
        self.lattice.at_most(level, observer)
    }

    // How many variables are open to an observer.
    pub(crate) fn count_open(&self, observer: u16) -> usize
        ensures { result
            ≡ count_by
            (λ level. (L.Lattice.order self.now.lattice).at_most level observer)
            self.now.levels }
    {
        self.levels
            .iter()
            .filter(|level| self.is_open(**level, observer))
            .count()
    }
}
