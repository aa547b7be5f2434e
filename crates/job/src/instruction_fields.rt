ghost use Rattle.std.specs.Prelude.{◌<◌, ◌^◌};

use crate::fault::ReadFault;
use crate::field::InstructionField;
use push::{Instruction, VARIABLES};

// A field of an instruction record, and what the reader finds wrong with it.
pub(crate) type Misread = (InstructionField, ReadFault);

// The fields of an instruction record that stands at a byte place.
#[derive(Clone, Copy)]
pub(crate) struct InstructionFields {
    pub(crate) place: usize,
    pub(crate) operation: u8,
    pub(crate) junction: u8,
    pub(crate) operand: i32,
    ghost fits: { place < 2 ^ 32 },
}

impl InstructionFields {
    ghost use Rattle.std.specs.Prelude.{◌≡◌, ◌+◌, pos};
    ghost use Rattle.job.specs.declared.fault.ReadFault.TheVariants.{NotBelow, NoOperation};
    ghost use Rattle.job.specs.declared.field.InstructionField.TheVariants.{Operation, Junction, Operand};
    ghost use Rattle.job.specs.Records.{decoded};
    ghost use Rattle.job.specs.Views.{fields_of};

    // That there is no such operation.
    fn no_operation(self) -> Misread
        ensures { result ≡ (Operation, NoOperation self.place self.operation) }
    {
        let fault = ReadFault::NoOperation {
            place: self.place,
            found: self.operation,
        };
        (InstructionField::Operation, fault)
    }

    // That the junction byte is not below a limit.
    fn junction_not_below(self, limit: u32) -> Misread
        ensures { result ≡ (Junction, NotBelow (self.place + 1) (pos self.junction) limit) }
    {
        let fault = ReadFault::NotBelow {
            place: self.place + InstructionField::Junction.offset(),
            found: i32::from(self.junction),
            limit,
        };
        (InstructionField::Junction, fault)
    }

    // That the operand is not from 0 to below a limit.
    fn operand_not_below(self, limit: u32) -> Misread
        ensures { result ≡ (Operand, NotBelow (self.place + 2) self.operand limit) }
    {
        let fault = ReadFault::NotBelow {
            place: self.place + InstructionField::Operand.offset(),
            found: self.operand,
            limit,
        };
        (InstructionField::Operand, fault)
    }

    // The instruction of these fields, where labels go up to the exit, or the first field that is unlike its description.
    pub(crate) fn decoded(self, exit: u8) -> Result<Instruction, Misread>
        ensures { result ≡ decoded exit self.place (fields_of self) }
    {
        let (junction, operand) = (self.junction, self.operand);
        let variable_limit = VARIABLES as u32;
        let variables = 0..variable_limit as i32;
        let label_limit = u32::from(exit) + 1;
        let labels = 0..label_limit as i32;
        // The format's numbers are told apart here alone. A number by itself is no kind: what stands beside it has to fit.
        match self.operation {
            0 | 14.. => Err(self.no_operation()),
            10 if junction > exit => Err(self.junction_not_below(label_limit)),
            1..=9 | 11..=13 if junction != 0 => Err(self.junction_not_below(1)),
            1 | 2 if !variables.contains(&operand) => Err(self.operand_not_below(variable_limit)),
            9 | 10 if !labels.contains(&operand) => Err(self.operand_not_below(label_limit)),
            4..=8 | 11..=13 if operand != 0 => Err(self.operand_not_below(1)),
            1 => Ok(Instruction::Load(operand as u8)),
            2 => Ok(Instruction::Store(operand as u8)),
            3 => Ok(Instruction::Push(operand)),
            4 => Ok(Instruction::Add),
            5 => Ok(Instruction::Sub),
            6 => Ok(Instruction::Eq),
            7 => Ok(Instruction::Less),
            8 => Ok(Instruction::Not),
            9 => Ok(Instruction::Goto(operand as u8)),
            10 => Ok(Instruction::GotoF {
                target: operand as u8,
                junction,
            }),
            11 => Ok(Instruction::Copy),
            12 => Ok(Instruction::Swap),
            13 => Ok(Instruction::Drop),
        }
    }
}
