ghost use Rattle.std.specs.Prelude.{◌≡◌, Some, None, nat_lt, if◌then◌else◌};
ghost use Rattle.lattice.specs.Order.{Order, Laws};
ghost use Rattle.lattice.specs.Kinds.{levels};

/// A finite lattice of security levels. Its levels are the codes below its span.
pub trait Lattice {
    ghost order: { Self → Order };

    /// How many levels there are, at most 65,536.
    fn span(&self) -> u32
        ensures { result ≡ (order self.now).span };

    /// Whether `a` is at most `b`; no where one of them is no level.
    fn at_most(&self, a: u16, b: u16) -> bool
        ensures { result ≡ (order self.now).at_most a b };

    /// The least level that both are at most; 0 where one of them is no level.
    fn join(&self, a: u16, b: u16) -> u16
        ensures { result ≡ (order self.now).join a b };

    /// The greatest level that is at most both; 0 where one of them is no level.
    fn meet(&self, a: u16, b: u16) -> u16
        ensures { result ≡ (order self.now).meet a b };

    /// The level that is at most every other; 0 where there are no levels.
    fn lowest(&self) -> u16
        ensures { result ≡ (order self.now).lowest };

    /// The level that every other is at most; 0 where there are no levels.
    fn highest(&self) -> u16
        ensures { result ≡ (order self.now).highest };

    /// Whether a code is a level.
    fn is_level(&self, code: u16) -> bool
        ensures levels_are_the_codes_below_the_span { result ≡ nat_lt code (order self.now).span }
    {
        u32::from(code) < self.span()
    }

    /// Two codes, where both are levels.
    fn both_levels(&self, a: u16, b: u16) -> Option<(u16, u16)>
        ensures some_where_both_are_levels { result
            ≡ (if levels (order self.now).span a b then Some (a, b) else None) }
    {
        (self.is_level(a) && self.is_level(b)).then_some((a, b))
    }

    ghost lawful: { (s : Self) → Laws (order s) };
}
