ghost use Rattle.std.specs.Prelude.{◌≡◌, ◌/◌, ◌++◌, length, map, IfOk, string_bytes, OnOk};
ghost use Rattle.checker.specs.Faults.{mount_answer as mount_answer_of};
ghost use Rattle.controller.specs.Views.{answer_of};
ghost use Rattle.report.specs.Views.{IsTextUnlessNoMemory};
ghost use Rattle.report.specs.Report.{bad_input as bad_input_text, sheet_text, mount_line, answer_lines, is_refused as is_refused_of, answers_text as answers_text_of};

use crate::no_report::NoReport;
use checker::{MountFault, mount_answer};
use controller::{Answer, LINE};
use std::alloc::{AllocError, Global};

/// The line of what is no input.
pub fn bad_input(heap: Global) -> Result<String, AllocError>
    ensures { IfOk result (λ t. string_bytes t ≡ bad_input_text) }
{
    String::from_str(heap, "input\n")
}

// Appends the text of a sheet: how many lines it has, and for each its variable and value, in decimal.
fn push_sheet(text: &mut String, sheet: &[u8]) -> Result<(), AllocError>
    ensures { OnOk result (string_bytes text.new
        ≡ string_bytes text.old ++ sheet_text (length sheet.now / 5) sheet.now) }
{
    let (lines, _) = sheet.as_chunks::<LINE>();
    writeln!(text, "sheet {}", lines.len())?;
    for &[variable, b0, b1, b2, b3] in lines {
        let value = i32::from_le_bytes([b0, b1, b2, b3]);
        writeln!(text, "{variable} {value}")?;
    }
    Ok(())
}

// Appends the line of a mount's answer.
fn push_mount(text: &mut String, answer: &Result<(), MountFault>) -> Result<(), AllocError>
    ensures { OnOk result (string_bytes text.new
        ≡ string_bytes text.old ++ mount_line (mount_answer_of answer.now)) }
{
    let (number, label) = mount_answer(answer);
    writeln!(text, "mount {number} {label}")
}

// Appends the lines of an answer.
fn push_answer(text: &mut String, answer: &Answer) -> Result<(), AllocError>
    ensures { OnOk result (string_bytes text.new
        ≡ string_bytes text.old ++ answer_lines (answer_of answer.now)) }
{
    match answer {
        Answer::Mounted(mounted) => push_mount(text, mounted),
        Answer::Advanced(status, steps) => {
            let number = u8::from(*status);
            writeln!(text, "run {number} {steps}")
        }
        Answer::Ended(ending) => {
            let number = u8::from(*ending);
            writeln!(text, "end {number}")
        }
        Answer::Shown(Ok(sheet)) => push_sheet(text, sheet.bytes.as_slice()),
        _ => Ok(()),
    }
}

// Whether a grade or a show was refused.
fn is_refused(answer: &Answer) -> bool
    ensures { result ≡ is_refused_of (answer_of answer.now) }
{
    matches!(answer, Answer::Graded(Err(_)) | Answer::Shown(Err(_)))
}

/// The text of a list of answers. Where a grade or a show was refused, a level or the observer was none, so there was
/// no input.
pub fn answers_text(heap: Global, answers: &[Answer]) -> Result<String, NoReport>
    ensures { IsTextUnlessNoMemory result (answers_text_of (map answer_of answers.now)) }
{
    if answers.iter().any(is_refused) {
        return Err(NoReport::NoInput);
    }
    let mut text = String::new(heap);
    for answer in answers {
        push_answer(&mut text, answer)?;
    }
    Ok(text)
}
