use crate::question::Question;
use crate::table::{Case, next_case};
use std::alloc::{AllocError, Global};

/// What a run over the cases of a table found.
#[derive(Clone, Copy)]
pub struct Tally<'a> {
    /// How many cases were run.
    pub run: usize,
    /// How many of them agreed.
    pub agreed: usize,
    /// The first that differs, with its number, counted from 0.
    pub differs: Option<(usize, Case<'a>)>,
    /// How many bytes stand after the last whole case; any show a damaged table.
    pub left: usize,
}

impl<'a> Tally<'a> {
    ghost use Rattle.std.specs.Prelude.{◌≡◌, ◌+◌, ◌^◌, ◌<◌, ◌≤◌, length, IfOk, OnOk};
    ghost use Rattle.conformance.specs.Table.{cases, left_over};
    ghost use Rattle.conformance.specs.Findings.{agrees, findings_of, with_case};
    ghost use Rattle.conformance.specs.Summary.{is_clean as is_clean_of};
    ghost use Rattle.conformance.specs.Views.{answer_to, case_bytes, findings_in};

    // Runs one case more.
    fn note(&mut self, heap: Global, question: Question, case: Case<'a>) -> Result<(), AllocError>
        requires room_for_one_more_run { self.old.run + 1 < 2 ^ 64 }
        requires room_for_one_more_agreed { self.old.agreed + 1 < 2 ^ 64 }
        ensures { OnOk result (findings_in self.new
            ≡ with_case (findings_in self.old) (case_bytes case.entry)
            (agrees (answer_to question) (case_bytes case.entry))) }
    {
        let number = self.run;
        self.run += 1;
        if case.agrees(heap, question)? {
            self.agreed += 1;
        } else {
            self.differs = self.differs.or(Some((number, case)));
        }
        Ok(())
    }

    /// Runs the cases of a table in their order.
    pub fn count(heap: Global, question: Question, table: &'a [u8]) -> Result<Tally<'a>, AllocError>
        ensures all_cases_are_run { IfOk result (λ t.
            findings_in t ≡ findings_of (answer_to question) (cases table.now)) }
        ensures left_is_past_the_cases { IfOk result (λ t. t.left ≡ length (left_over table.now)) }
        ensures agreed_were_run { IfOk result (λ t. t.agreed ≤ t.run) }
    {
        let mut tally = Tally {
            run: 0,
            agreed: 0,
            differs: None,
            left: 0,
        };
        // A loop and no iterator: the bytes after the last case are wanted too.
        let mut rest = table;
        while let Some((case, after)) = next_case(rest) {
            tally.note(heap, question, case)?;
            rest = after;
        }
        tally.left = rest.len();
        Ok(tally)
    }

    /// Whether every case agreed and no byte is left over.
    pub fn is_clean(&self) -> bool
        ensures true_where_all_agree { result ≡ is_clean_of (findings_in self.now) self.now.left }
    {
        self.agreed == self.run && self.left == 0
    }
}
