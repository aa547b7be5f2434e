ghost use Rattle.std.specs.Prelude.{◌≡◌, map, IfOk};
ghost use Rattle.controller.specs.Lists.{grade as grade_of, set as set_of};
ghost use Rattle.controller.specs.Views.{call_of};
ghost use Rattle.report.specs.Input.{level, value, calls as calls_of};

use crate::input::Input;
use controller::{Call, SHEET, VARIABLES};
use std::alloc::{AllocError, Global};

// The call that grades a variable by the level that the input gives it. A function, as `set` is: the borrow checker
// does not cover a closure that makes a `Call` itself, whose lifetime it cannot name.
fn grade<'x>(input: &Input<'x>, variable: u8) -> Call<'x>
    ensures { call_of result ≡ grade_of variable (level input.now.bytes.now variable) }
{
    Call::Grade {
        variable,
        level: input.level(variable),
    }
}

// The call that sets a variable to the value that the input gives it.
fn set<'x>(input: &Input<'x>, variable: u8) -> Call<'x>
    ensures { call_of result ≡ set_of variable (value input.now.bytes.now variable) }
{
    Call::Set {
        variable,
        value: input.value(variable),
    }
}

/// The calls that are made for an input: those that grade, seal, mount and set, and then those of one run and a show.
pub fn calls<'x>(heap: Global, input: &Input<'x>) -> Result<Vec<Call<'x>>, AllocError>
    ensures { IfOk result (λ calls. map call_of calls.items ≡ calls_of input.now.bytes.now) }
{
    let run = [
        Call::Start,
        Call::Advance(input.budget()),
        Call::End,
        Call::Show {
            observer: input.observer(),
            length: SHEET,
        },
    ];
    (0..VARIABLES as u8)
        .map(|variable| grade(input, variable))
        .chain([Call::Seal, Call::Mount(input.job())])
        .chain((0..VARIABLES as u8).map(|variable| set(input, variable)))
        .chain(run)
        .collect(heap)
}
