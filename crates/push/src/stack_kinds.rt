use crate::STACK_PLACES;
use crate::instruction::Instruction;
use crate::kind::Kind;
use std::marker::Model;

/// The depth of a stack, 0 to 8, and the kind of each of its places.
#[derive(Clone, Copy, Debug)]
pub struct StackKinds {
    depth: u8,
    // Bit 0 is 1 where the top is a boolean, and so on down. The bits past the bottom are 0.
    booleans: u8,
}

// In a clause it is the list of the kinds, top first.
impl Model for StackKinds {
    ghost use Rattle.std.specs.Prelude.{◌<◌, ◌≤◌, ◌^◌, List, length};
    ghost use Rattle.push.specs.declared.kind.Kind.{Kind};
    ghost use Rattle.push.specs.StackBits.{kinds_in, bits_of, kinds_length, bits_back};

    ghost Value = { List Kind };

    ghost view = { λ s. kinds_in s.depth s.booleans };

    ghost invariant = { λ s. (s.depth ≤ 8) × (s.booleans < 2 ^ s.depth) };

    ghost inverse = { λ ks. record { depth = length ks; booleans = bits_of ks } };

    ghost inverse_ok = { λ s h i. record {
      depth = kinds_length s.depth s.booleans i;
      booleans = bits_back s.depth s.booleans h.1 i;
    } };
}

impl StackKinds {
    ghost use Rattle.std.specs.Prelude.{◌≡◌, ◌≤◌, [], length};
    ghost use Rattle.push.specs.Language.{one_more, kinds_after};
    ghost use Rattle.push.specs.StackKinds.{popped, popped_two};

    /// The kinds of the empty stack.
    pub fn empty() -> Self
        ensures has_no_places { result ≡ [] }
    {
        StackKinds {
            depth: 0,
            booleans: 0,
        }
    }

    /// How many places there are, 0 to 8.
    pub fn depth(self) -> u8
        ensures counts_the_places { result ≡ length self }
        ensures at_most_8 { result ≤ 8 }
    {
        self.depth
    }

    /// The kinds with one more on top; none where there are 8 already.
    pub fn push(self, kind: Kind) -> Option<Self>
        ensures is_one_more_on_top { result ≡ one_more kind self }
    {
        if usize::from(self.depth) >= STACK_PLACES {
            return None;
        }
        Some(StackKinds {
            depth: self.depth + 1,
            booleans: self.booleans * 2 + u8::from(kind == Kind::Boolean),
        })
    }

    /// The kinds after an instruction; none where a stack of these kinds faults at it.
    pub fn after(self, instruction: Instruction) -> Option<Self>
        ensures is_the_kinds_after { result ≡ kinds_after instruction self }
    {
        match (instruction, self.pop(), self.pop_two()) {
            (Instruction::Load(_) | Instruction::Push(_), ..) => self.push(Kind::Integer),
            (Instruction::Store(_), Some((Kind::Integer, rest)), _) => Some(rest),
            (Instruction::Add | Instruction::Sub, _, Some((Kind::Integer, Kind::Integer, rest))) =>
                rest.push(Kind::Integer),
            (Instruction::Eq | Instruction::Less, _, Some((Kind::Integer, Kind::Integer, rest))) =>
                rest.push(Kind::Boolean),
            (Instruction::Not, Some((Kind::Boolean, _)), _) | (Instruction::Goto(_), ..) => {
                Some(self)
            }
            (Instruction::GotoF { .. }, Some((Kind::Boolean, rest)), _) => Some(rest),
            (Instruction::Copy, Some((top, _)), _) => self.push(top),
            (Instruction::Swap, _, Some((top, under, rest))) => rest.push(top)?.push(under),
            (Instruction::Drop, Some((_, rest)), _) => Some(rest),
            _ => None,
        }
    }

    // The top, and those under it.
    fn pop(self) -> Option<(Kind, Self)>
        ensures top_and_rest { result ≡ popped self }
        ensures at_most_8 { length self ≤ 8 }
    {
        if self.depth == 0 {
            return None;
        }
        let top = if self.booleans % 2 == 0 {
            Kind::Integer
        } else {
            Kind::Boolean
        };
        let rest = StackKinds {
            depth: self.depth - 1,
            booleans: self.booleans / 2,
        };
        Some((top, rest))
    }

    // The top, the one under it, and those under both.
    fn pop_two(self) -> Option<(Kind, Kind, Self)>
        ensures { result ≡ popped_two self }
    {
        let (top, rest) = self.pop()?;
        let (under, rest) = rest.pop()?;
        Some((top, under, rest))
    }
}
