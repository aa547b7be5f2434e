ghost use Rattle.std.specs.Prelude.{◌≡◌, ℕ, Some, ◌*◌, ◌<◌, ◌≤◌, ◌&&◌, MatchBool, nat_lt, if◌then◌else◌};
ghost use Rattle.lattice.specs.Order.{Order};
ghost use Rattle.lattice.specs.Kinds.{pair as pair_order, pair_span, pair_at_most, code as code_of, parts_of, PartsAreLevels, KeepsLevels, IsPartByPart, levels};
ghost use Rattle.lattice.specs.PairLaws.{pair_laws};

use crate::lattice::Lattice;

/// Two lattices side by side. A code is first × (span of the second) + second.
#[derive(Clone, Debug, PartialEq, Eq, Drop)]
pub struct Pair<A, B> {
    first: A,
    second: B,
}

impl<A: Lattice, B: Lattice> Pair<A, B> {
    /// Any two lattices. Where the product of their spans passes 65,536 there are no levels.
    pub fn new(first: A, second: B) -> Self
        ensures meaning { ⟦<Pair<A, B> as Lattice>⟧.order result
            ≡ pair_order (A.Lattice.order first) (B.Lattice.order second) }
        ensures span { (⟦<Pair<A, B> as Lattice>⟧.order result).span
            ≡ pair_span (A.Lattice.order first) (B.Lattice.order second) }
        ensures at_most { let o : Order = A.Lattice.order first in
            let p : Order = B.Lattice.order second in
            (a b : ℕ) →
            (⟦<Pair<A, B> as Lattice>⟧.order result).at_most a b
            ≡ (levels (pair_span o p) a b && pair_at_most o p a b) }
    {
        Pair { first, second }
    }

    // The two parts of a level; none of a code that is no level.
    #[tactic(auto, using(crate::specs::PairLaws::first_part))]
    fn parts(&self, code: u16) -> Option<(u16, u16)>
        ensures are_those_of_the_code { result
            ≡ parts_of (A.Lattice.order self.now.first) (B.Lattice.order self.now.second) code }
        ensures are_levels { PartsAreLevels
            (A.Lattice.order self.now.first) (B.Lattice.order self.now.second) result }
    {
        self.is_level(code).then(|| {
            let row = self.second.span();
            let code = u32::from(code);
            ((code / row) as u16, (code % row) as u16)
        })
    }

    // The level of two parts.
    fn compose(&self, first: u16, second: u16) -> u16
        requires { let o : Order = A.Lattice.order self.now.first in
            let p : Order = B.Lattice.order self.now.second in
            PartsAreLevels o p (Some (first, second)) }
        ensures { result ≡ code_of (B.Lattice.order self.now.second) first second }
    {
        (u32::from(first) * self.second.span() + u32::from(second)) as u16
    }

    // The level of two parts' answers, where both codes are levels; else 0.
    fn part_by_part<F: FnOnce(u16, u16) -> u16, G: FnOnce(u16, u16) -> u16>(
        &self,
        a: u16,
        b: u16,
        first: F,
        second: G,
    ) -> u16
        requires first_callable { F.IsAlwaysCallable first }
        requires second_callable { G.IsAlwaysCallable second }
        requires first_level { KeepsLevels (A.Lattice.order self.now.first) (F.post first) }
        requires second_level { KeepsLevels (B.Lattice.order self.now.second) (G.post second) }
        ensures { let o : Order = A.Lattice.order self.now.first in
            let p : Order = B.Lattice.order self.now.second in
            MatchBool (levels (pair_span o p) a b)
            (IsPartByPart p (F.post first) (G.post second) a b result)
            (result ≡ 0) }
    {
        // Not by `map_or`: in its closure it is not proved that the parts are levels, as `compose` requires.
        let Some(((a1, a2), (b1, b2))) = self.parts(a).zip(self.parts(b)) else {
            return 0;
        };
        self.compose(first(a1, b1), second(a2, b2))
    }

    // The level of two parts that are ends; 0 where there are no levels.
    fn end(&self, first: u16, second: u16) -> u16
        requires first_level { let o : Order = A.Lattice.order self.now.first in
            0 < o.span → first < o.span }
        requires second_level { let p : Order = B.Lattice.order self.now.second in
            0 < p.span → second < p.span }
        ensures { let o : Order = A.Lattice.order self.now.first in
            let p : Order = B.Lattice.order self.now.second in
            result ≡ (if nat_lt 0 (pair_span o p) then code_of p first second else 0) }
    {
        if self.span() == 0 {
            0
        } else {
            self.compose(first, second)
        }
    }
}

impl<A: Lattice, B: Lattice> Lattice for Pair<A, B> {
    ghost order = { λ s. pair_order (A.Lattice.order s.first) (B.Lattice.order s.second) };

    ghost lawful = { λ s. pair_laws _ _ (A.Lattice.lawful s.first) (B.Lattice.lawful s.second) };

    fn span(&self) -> u32 {
        self.first
            .span()
            .checked_mul(self.second.span())
            .filter(|span| *span <= 65536)
            .unwrap_or(0)
    }

    fn at_most(&self, a: u16, b: u16) -> bool {
        self.parts(a).zip(self.parts(b)).is_some_and(|((a1, a2), (b1, b2))| {
            self.first.at_most(a1, b1) && self.second.at_most(a2, b2)
        })
    }

    fn join(&self, a: u16, b: u16) -> u16 {
        self.part_by_part(
            a,
            b,
            |a1, b1| self.first.join(a1, b1),
            |a2, b2| self.second.join(a2, b2),
        )
    }

    fn meet(&self, a: u16, b: u16) -> u16 {
        self.part_by_part(
            a,
            b,
            |a1, b1| self.first.meet(a1, b1),
            |a2, b2| self.second.meet(a2, b2),
        )
    }

    fn lowest(&self) -> u16 {
        self.end(self.first.lowest(), self.second.lowest())
    }

    fn highest(&self) -> u16 {
        self.end(self.first.highest(), self.second.highest())
    }
}
