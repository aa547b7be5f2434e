ghost use Rattle.std.specs.Prelude.{◌≡◌, ◌<◌, ◌^◌};
ghost use Rattle.job.specs.Layout.{instruction_place, instruction_record};
ghost use Rattle.job.specs.Records.{instruction_in, instruction_read};
ghost use Rattle.job.specs.Views.{sizes};

use crate::fault::{ReadFault, RecordFault};
use crate::field::{Field, InstructionField};
use crate::instruction_fields::{InstructionFields, Misread};
use crate::reader::Job;
use push::Instruction;

// What an instruction record at a byte place says, where labels go up to the exit.
fn instruction_in(exit: u8, place: usize, record: &[u8]) -> Result<Instruction, Misread>
    requires { place < 2 ^ 32 }
    ensures { result ≡ instruction_in exit place «record».now }
{
    let [operation, junction, b0, b1, b2, b3] = record else {
        let fault = ReadFault::TooShort {
            place,
            found: record.len(),
            needed: 6,
        };
        return Err((InstructionField::Operation, fault));
    };
    let fields = InstructionFields {
        place,
        operation: *operation,
        junction: *junction,
        operand: i32::from_le_bytes([*b0, *b1, *b2, *b3]),
    };
    fields.decoded(exit)
}

impl Job<'_> {
    /// The instruction at a label, or the first field of its record that is unlike its description.
    pub fn instruction(&self, label: u16) -> Result<Instruction, RecordFault>
        ensures instruction_is_what_the_record_says { result
            ≡ instruction_read label (instruction_in (sizes self.now).instructions
            (instruction_place label) (instruction_record self.now.bytes.now label)) }
    {
        let (place, record) = self.instruction_record(label);
        let read = instruction_in(self.instructions, place, record);
        let named = read.map_err(|(field, fault)| (Field::Instruction(label, field), fault));
        Ok(named?)
    }
}
