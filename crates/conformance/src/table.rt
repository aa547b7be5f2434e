ghost use Rattle.std.specs.Prelude.{◌≡◌, IfOk};
ghost use Rattle.conformance.specs.Table.{next_case};
ghost use Rattle.conformance.specs.Findings.{agrees};
ghost use Rattle.conformance.specs.Views.{answer_to, case_bytes, case_read};

use crate::question::Question;
use std::alloc::{AllocError, Global};

/// An input and the text that is expected of it.
#[derive(Clone, Copy)]
pub struct Case<'a> {
    /// The bytes of which the text is made; they may be no input.
    pub input: &'a [u8],
    /// Every byte of the text.
    pub expected: &'a [u8],
}

impl Case<'_> {
    /// Whether the text that is asked of the input is the expected one, byte for byte.
    pub fn agrees(&self, heap: Global, question: Question) -> Result<bool, AllocError>
        ensures true_where_as_expected { IfOk result (λ same.
            same ≡ agrees (answer_to question) (case_bytes self.now)) }
    {
        let given = question.answer(heap, self.input)?;
        Ok(given.as_bytes() == self.expected)
    }
}

/// The first case of a table and the bytes after it; none where the table ends before the case does.
pub fn next_case(table: &[u8]) -> Option<(Case<'_>, &[u8])>
    ensures first_case_and_the_rest { case_read result ≡ next_case table.now }
{
    let (&[i0, i1, e0, e1], rest) = table.split_first_chunk::<4>()?;
    let (input, rest) = rest.split_at_checked(usize::from(u16::from_le_bytes([i0, i1])))?;
    let (expected, rest) = rest.split_at_checked(usize::from(u16::from_le_bytes([e0, e1])))?;
    Some((Case { input, expected }, rest))
}
