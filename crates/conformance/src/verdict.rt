ghost use Rattle.std.specs.Prelude.{◌≡◌, ◌&&◌, true, [], ◌++◌, IfOk, OnOk};
ghost use Rattle.conformance.specs.Table.{cases, left_over};
ghost use Rattle.conformance.specs.Findings.{Conforms, CausesConform};
ghost use Rattle.conformance.specs.Summary.{counts_text, shown_text, difference_text, left_text, summary_text, passes_by, summary_by, summary as summary_of, passes, causes_summary, causes_pass, both_summaries};
ghost use Rattle.conformance.specs.Views.{answer_to, difference, findings_in};

use crate::question::Question;
use crate::table::Case;
use crate::tally::Tally;
use std::alloc::{AllocError, Global};
use std::io;
use std::io::Write;

/// What is said of a table, or of both. A flag and no enum: either verdict has a text, and both are printed alike.
#[derive(Drop)]
pub struct Verdict {
    /// Whether every case agreed with no byte left over.
    pub passed: bool,
    /// The summary in words, as it is printed; it holds bytes of the table, which may be no text.
    pub text: Vec<u8>,
}

// Writes how many cases were run and how many agreed.
fn write_counts(summary: &mut Vec<u8>, run: usize, agreed: usize) -> io::Result<()>
    ensures { OnOk result (summary.new.items ≡ summary.old.items ++ counts_text run agreed) }
{
    write!(summary, "{run} cases run\n{agreed} agreed\n")
}

// Writes a text under its name and length.
fn write_text(summary: &mut Vec<u8>, name: &str, text: &[u8]) -> io::Result<()>
    ensures { OnOk result (summary.new.items ≡ summary.old.items ++ shown_text name.now text.now) }
{
    let length = text.len();
    writeln!(summary, "{name}, {length} bytes:")?;
    summary.write_all(text)
}

// Writes the first case that differs: its number, the expected text and the given one.
fn write_difference(
    summary: &mut Vec<u8>,
    question: Question,
    differs: Option<(usize, Case)>,
) -> io::Result<()>
    ensures { OnOk result (summary.new.items
        ≡ summary.old.items ++ difference_text (answer_to question) (difference differs.entry)) }
{
    let Some((number, case)) = differs else {
        return writeln!(summary, "none differs");
    };
    let given = question.answer(*summary.allocator(), case.input)?;
    writeln!(summary, "first that differs: case {number}")?;
    write_text(summary, "expected", case.expected)?;
    write_text(summary, "given", given.as_bytes())
}

// Writes the line of a damaged table, which ends in the middle of a case; none where no byte is left over.
fn write_left(summary: &mut Vec<u8>, left: usize) -> io::Result<()>
    ensures { OnOk result (summary.new.items ≡ summary.old.items ++ left_text left) }
{
    if left == 0 {
        return Ok(());
    }
    writeln!(
        summary,
        "damaged table: {left} bytes after the last whole case"
    )
}

// Writes the summary of what a run over a table found.
fn write_summary(summary: &mut Vec<u8>, question: Question, tally: &Tally) -> io::Result<()>
    ensures { OnOk result (summary.new.items ≡ summary.old.items
        ++ summary_text (answer_to question) (findings_in tally.now) tally.now.left) }
{
    write_counts(summary, tally.run, tally.agreed)?;
    write_difference(summary, question, tally.differs)?;
    write_left(summary, tally.left)
}

// The verdict on a table where this is asked of its cases.
fn verdict_on(heap: Global, question: Question, table: &[u8]) -> Result<Verdict, AllocError>
    ensures passed_where_the_table_passes { IfOk result (λ v.
        v.passed ≡ passes_by (answer_to question) table.now) }
    ensures text_is_the_summary { IfOk result (λ v.
        v.text.items ≡ summary_by (answer_to question) table.now) }
{
    let tally = Tally::count(heap, question, table)?;
    let mut text = Vec::new(heap);
    // Text is made and written in memory here, which fails only where memory is not found.
    write_summary(&mut text, question, &tally).map_err(|_| AllocError)?;
    Ok(Verdict {
        passed: tally.is_clean(),
        text,
    })
}

/// The verdict on a table of reports: every case is run, and the first that differs is shown. An error is want of
/// memory alone.
#[tactic(auto, using(crate::proofs::Agreement::passes_conforms))]
pub fn run_cases(heap: Global, table: &[u8]) -> Result<Verdict, AllocError>
    ensures passed_where_the_table_passes { IfOk result (λ v. v.passed ≡ passes table.now) }
    ensures passed_conforms { IfOk result (λ v.
        (v.passed ≡ true → Conforms (cases table.now) × (left_over table.now ≡ []))) }
    ensures text_is_the_summary { IfOk result (λ v. v.text.items ≡ summary_of table.now) }
{
    verdict_on(heap, Question::Report, table)
}

/// The same of a table of causes.
#[tactic(auto, using(crate::proofs::Agreement::passes_conforms))]
pub fn run_causes(heap: Global, table: &[u8]) -> Result<Verdict, AllocError>
    ensures passed_where_the_table_passes { IfOk result (λ v. v.passed ≡ causes_pass table.now) }
    ensures passed_conforms { IfOk result (λ v.
        (v.passed ≡ true → CausesConform (cases table.now) × (left_over table.now ≡ []))) }
    ensures text_is_the_summary { IfOk result (λ v. v.text.items ≡ causes_summary table.now) }
{
    verdict_on(heap, Question::Cause, table)
}

/// The verdict on both tables: passed where both are, with each summary under its table's name. An error is want of
/// memory alone.
pub fn run_tables(heap: Global, reports: &[u8], causes: &[u8]) -> Result<Verdict, AllocError>
    ensures passed_where_both_pass { IfOk result (λ v.
        v.passed ≡ (passes reports.now && causes_pass causes.now)) }
    ensures text_is_both_summaries { IfOk result (λ v.
        v.text.items ≡ both_summaries reports.now causes.now) }
{
    let reports = run_cases(heap, reports)?;
    let causes = run_causes(heap, causes)?;
    let mut text = Vec::new(heap);
    text.extend_from_slice(b"reports:\n")?;
    text.extend_from_slice(reports.text.as_slice())?;
    text.extend_from_slice(b"causes:\n")?;
    text.extend_from_slice(causes.text.as_slice())?;
    Ok(Verdict {
        passed: reports.passed && causes.passed,
        text,
    })
}
