ghost use Rattle.std.specs.Prelude.{◌≡◌, ◌++◌, IfOk, OnOk, string_bytes};
ghost use Rattle.checker.specs.Faults.{field_cause, rule_cause, fault_answer, mount_answer as mount_answer_of};
ghost use Rattle.job.specs.Faults.{read_place};
ghost use Rattle.report.specs.Input.{has_levels};
ghost use Rattle.report.specs.Cause.{instruction_field_text, claim_field_text, cause_text, answer_line as answer_line_of, verdict_line, cause_report as cause_report_of};

use crate::input::Input;
use crate::kinds::{Text, text_of};
use crate::no_report::NoReport;
use checker::{MountFault, Rule, check, mount_answer};
use job::{ClaimField, Field, InstructionField, RecordFault};
use lattice::Lattice;
use std::alloc::{AllocError, Global};

// Appends the name of a field of an instruction record.
fn push_instruction_field(text: &mut String, field: InstructionField) -> Result<(), AllocError>
    ensures { OnOk result (string_bytes text.new
        ≡ string_bytes text.old ++ instruction_field_text field) }
{
    match field {
        InstructionField::Operation => write!(text, " operation"),
        InstructionField::Junction => write!(text, " junction"),
        InstructionField::Operand => write!(text, " operand"),
    }
}

// Appends the name of a field of a claim record, with its stack place where it has one.
fn push_claim_field(text: &mut String, field: ClaimField) -> Result<(), AllocError>
    ensures { OnOk result (string_bytes text.new
        ≡ string_bytes text.old ++ claim_field_text field) }
{
    match field {
        ClaimField::Mark => write!(text, " mark"),
        ClaimField::Depth => write!(text, " depth"),
        ClaimField::Surrounding => write!(text, " surrounding"),
        ClaimField::Kind(stack_place) => write!(text, " kind {stack_place}"),
        ClaimField::Level(stack_place) => write!(text, " level {stack_place}"),
    }
}

// Appends the byte place of a field, and of a record's field the name.
fn push_field(text: &mut String, field: Field, place: usize) -> Result<(), AllocError>
    ensures { OnOk result (string_bytes text.new
        ≡ string_bytes text.old ++ cause_text (field_cause field place)) }
{
    write!(text, " place {place}")?;
    match field {
        Field::Instruction(_, field) => push_instruction_field(text, field),
        Field::Claim(_, field) => push_claim_field(text, field),
        Field::Opening | Field::Instructions | Field::Places | Field::Length => Ok(()),
    }
}

// Appends what a fault of the bytes names.
fn push_record(text: &mut String, fault: RecordFault) -> Result<(), AllocError>
    ensures { OnOk result (string_bytes text.new
        ≡ string_bytes text.old ++ cause_text (field_cause fault.field (read_place fault.fault))) }
{
    push_field(text, fault.field, fault.fault.place())
}

// Appends what a broken rule names; two of them name nothing.
fn push_rule(text: &mut String, rule: Rule) -> Result<(), AllocError>
    ensures { OnOk result (string_bytes text.new
        ≡ string_bytes text.old ++ cause_text (rule_cause rule)) }
{
    match rule {
        Rule::Entry | Rule::Stack { .. } => Ok(()),
        Rule::Store { variable, .. } => write!(text, " variable {variable}"),
        Rule::Successor { successor, .. } => write!(text, " successor {successor}"),
        Rule::RegionExit { exit, .. } => write!(text, " exit {exit}"),
        Rule::RegionLevel { inside, .. } => write!(text, " region {inside}"),
    }
}

// Appends the cause of a refusal.
fn push_cause(text: &mut String, fault: MountFault) -> Result<(), AllocError>
    ensures { OnOk result (string_bytes text.new
        ≡ string_bytes text.old ++ cause_text (fault_answer fault).2) }
{
    match fault {
        MountFault::Record(fault) => push_record(text, fault),
        MountFault::Claims(rule) => push_rule(text, rule),
    }
}

// The line of what mount answers: number and label, and behind them the cause of a refusal.
fn answer_line<T>(heap: Global, answer: &Result<T, MountFault>) -> Result<String, AllocError>
    ensures { IfOk result (λ t. string_bytes t ≡ answer_line_of (mount_answer_of answer.now)) }
{
    let mut text = String::new(heap);
    let (number, label) = mount_answer(answer);
    write!(text, "{number} {label}")?;
    if let Err(fault) = answer {
        push_cause(&mut text, *fault)?;
    }
    writeln!(text)?;
    Ok(text)
}

// The line of the verdict on an input's job.
struct CauseLine;

impl Text for CauseLine {
    ghost fits = { has_levels };

    ghost over = { verdict_line };

    fn fits(input: &Input) -> bool {
        input.has_levels()
    }

    // No grade is made here: a code that is no level of the lattice is handed on as it is.
    fn over<L: Lattice + Drop>(
        heap: Global,
        lattice: L,
        input: &Input,
    ) -> Result<String, NoReport> {
        let verdict = check(&lattice, &input.levels(), input.job_behind_levels());
        Ok(answer_line(heap, &verdict)?)
    }
}

/// What mount answers to the job of an input for a cause, in one line: number and label, and what a refusal names. A
/// code that is no level of the lattice is one that mount never meets, since grade refuses it; the line is that of the
/// verdict over the codes as they are. Bytes that are no such input have the line `input`; an error is want of memory
/// alone.
pub fn cause_report(heap: Global, bytes: &[u8]) -> Result<String, AllocError>
    ensures text_is_the_cause_line { IfOk result (λ t. string_bytes t ≡ cause_report_of bytes.now) }
{
    text_of::<CauseLine>(heap, bytes)
}
