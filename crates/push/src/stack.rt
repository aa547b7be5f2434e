use crate::STACK_PLACES;
use crate::value::Value;
use std::marker::Model;

// A stack of at most 8 places that grows down: the top is items[top], and 8 is the top of the empty one. An array, since a
// device has no heap for a `Vec`.
// `top` stands before `items` and is written after them: a compiled run then keeps it in a register.
#[derive(Drop)]
pub struct Stack {
    top: usize,
    items: [Value; STACK_PLACES],
}

// In a clause a stack is the list of its places, top first.
impl Model for Stack {
    ghost use Rattle.std.specs.Prelude.{◌≡◌, ◌≤◌, List, length, drop};
    ghost use Rattle.push.specs.declared.value.Value as value;

    ghost Value = { List value.Value };

    ghost view = { λ s. drop s.top s.items };

    ghost invariant = { λ s. (length s.items ≡ 8) × (s.top ≤ 8) };
}

impl Stack {
    ghost use Rattle.std.specs.Prelude.{◌≡◌, ◌+◌, ◌<◌, ◌≤◌, ◌↔◌, [], ◌∷◌, length, drop, IsTrue};

    pub(crate) fn empty() -> Self
        ensures { result ≡ [] }
    {
        Stack {
            top: STACK_PLACES,
            items: [Value::Flag(false); STACK_PLACES],
        }
    }

    // Whether one more place is free.
    pub(crate) fn has_room(&self) -> bool
        ensures { IsTrue result ↔ (length self.now < 8) }
    {
        self.top > 0
    }

    // The places that are in use, top first.
    pub(crate) fn places(&self) -> &[Value]
        ensures places { result.now ≡ self.now }
        ensures at_most_8 { length self.now ≤ 8 }
    {
        &self.items[self.top..]
    }

    // Pops so many places and pushes a value.
    pub(crate) fn put(&mut self, popped: usize, value: Value)
        requires { (popped ≤ length self.old) × (length self.old < 8 + popped) }
        ensures { self.new ≡ value ∷ drop popped self.old }
    {
        // The sum is below STACK_PLACES. With the remainder the compiler knows it too, and keeps the run's other fields in registers.
        let top = (self.top + popped - 1) % STACK_PLACES;
        self.items[top] = value;
        self.top = top;
    }

    // Pops the top.
    pub(crate) fn pop(&mut self)
        requires { 1 ≤ length self.old }
        ensures { self.new ≡ drop 1 self.old }
    {
        self.top += 1;
    }
}
