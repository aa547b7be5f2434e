ghost use Rattle.std.specs.Prelude.{◌≡◌, IfOk, string_bytes};
ghost use Rattle.conformance.specs.Views.{answer_to};

use report::{cause_report, report};
use std::alloc::{AllocError, Global};

/// What is asked of each case of a table: which text of its input it expects.
#[derive(Clone, Copy)]
pub enum Question {
    /// The report.
    Report,
    /// The line of what mount answers, with the cause of a refusal.
    Cause,
}

impl Question {
    /// The text of an input.
    pub fn answer(self, heap: Global, input: &[u8]) -> Result<String, AllocError>
        ensures is_the_text_asked { IfOk result (λ t. string_bytes t ≡ answer_to self input.now) }
    {
        match self {
            Question::Report => report(heap, input),
            Question::Cause => cause_report(heap, input),
        }
    }
}
