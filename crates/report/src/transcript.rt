ghost use Rattle.std.specs.Prelude.{◌≡◌, IfOk, string_bytes};
ghost use Rattle.report.specs.Input.{fits as fits_of};
ghost use Rattle.report.specs.Report.{transcript_text, report as report_of};
ghost use Rattle.report.specs.Outcomes.{ReportIsTheOutcomes};

use crate::calls::calls;
use crate::input::Input;
use crate::kinds::{Text, text_of};
use crate::no_report::NoReport;
use crate::text::answers_text;
use controller::transcript;
use lattice::Lattice;
use std::alloc::{AllocError, Global};

// The text of the transcript of an input's calls.
struct TranscriptText;

impl Text for TranscriptText {
    ghost fits = { fits_of };

    ghost over = { transcript_text };

    fn fits(input: &Input) -> bool {
        input.fits()
    }

    fn over<L: Lattice + Drop>(
        heap: Global,
        lattice: L,
        input: &Input,
    ) -> Result<String, NoReport> {
        let calls = calls(heap, input)?;
        let answers = transcript(heap, lattice, calls.as_slice())?;
        answers_text(heap, answers.as_slice())
    }
}

/// The report on the bytes of a bench input: one run of its job, and then what its observer may see. Bytes that are
/// no input have the report `input`, one line; an error is want of memory alone.
#[tactic(auto, using(crate::proofs::OutcomeFacts::report_is_the_outcomes))]
pub fn report(heap: Global, bytes: &[u8]) -> Result<String, AllocError>
    ensures text_is_the_report { IfOk result (λ t. string_bytes t ≡ report_of bytes.now) }
    ensures report_is_the_outcomes { ReportIsTheOutcomes bytes.now }
{
    text_of::<TranscriptText>(heap, bytes)
}
