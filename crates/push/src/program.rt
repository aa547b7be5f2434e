use crate::INSTRUCTIONS;
use crate::instruction::Instruction;
use arrayvec::ArrayVec;
use std::marker::Model;
use thiserror::Error;

/// A list of at most 128 instructions; an instruction's position in it is its label. It owns them, so that a run needs
/// nothing else.
#[derive(Drop)]
pub struct Program {
    instructions: ArrayVec<Instruction, INSTRUCTIONS>,
}

/// Why an instruction was not added: there are 128 already.
#[derive(Clone, Copy, PartialEq, Eq, Debug, Error)]
#[error("there are 128 instructions already")]
pub struct ProgramFull;

// In a clause a program is the list of its instructions.
impl Model for Program {
    ghost use Rattle.std.specs.Prelude.{◌≤◌, List, length};
    ghost use Rattle.push.specs.declared.instruction.Instruction.{Instruction};

    ghost Value = { List Instruction };

    ghost view = { λ p. p.instructions.items };

    ghost invariant = { λ p. length p.instructions.items ≤ 128 };
}

impl Program {
    ghost use Rattle.std.specs.Prelude.{◌≡◌, ◌<◌, ◌≤◌, ◌↔◌, [], ◌∷◌, ◌++◌, length, IsOk, OnOk, OnErr, OnSome};
    ghost use Rattle.std.specs.Option.{option_copied};
    ghost use Rattle.push.specs.Code.{fetch as fetch_of};

    /// The program without instructions: a run of it has halted from the start.
    pub fn empty() -> Self
        ensures has_no_instructions { result ≡ [] }
    {
        Program {
            instructions: ArrayVec::new(),
        }
    }

    /// How many instructions there are; this is the exit's label.
    pub fn len(&self) -> usize
        ensures counts_the_instructions { result ≡ length self.now }
        ensures at_most_128 { result ≤ 128 }
    {
        self.instructions.len()
    }

    /// Adds an instruction at the end. Its variable and its labels may be any; whether a job may hold it is the checker's
    /// to say.
    pub fn add(&mut self, instruction: Instruction) -> Result<(), ProgramFull>
        ensures ok_exactly_below_128 { IsOk result ↔ (length self.old < 128) }
        ensures added_at_the_end { OnOk result (self.new ≡ self.old ++ instruction ∷ []) }
        ensures refused_changes_nothing { OnErr result (self.new ≡ self.old) }
    {
        if self.instructions.is_full() {
            return Err(ProgramFull);
        }
        self.instructions.push(instruction);
        Ok(())
    }

    /// The instruction at a label; none at the exit and past it.
    pub fn fetch(&self, label: usize) -> Option<Instruction>
        ensures is_the_instruction_at_the_label { result ≡ fetch_of self.now label }
        ensures only_below_128 { OnSome result (label < 128) }
    {
        self.look(label).copied()
    }

    // The same, lent and not copied: a step then reads no more of it than it needs.
    pub(crate) fn look(&self, label: usize) -> Option<&Instruction>
        ensures is_the_instruction_at_the_label { option_copied result ≡ fetch_of self.now label }
        ensures only_below_128 { OnSome result (label < 128) }
    {
        self.instructions.as_slice().get(label)
    }
}
