ghost use Rattle.std.specs.Prelude.{◌≡◌, ◌<◌, ◌^◌, IfOk};
ghost use Rattle.job.specs.Layout.{opening, instruction_place, instruction_record, claim_length, claim_place, claim_record, record_at};
ghost use Rattle.job.specs.Views.{sizes, sizes_read};

use crate::fault::{ReadFault, RecordFault};
use crate::field::Field;
use crate::part::{below, of_length, part};
use push::{INSTRUCTIONS, STACK_PLACES};

/// A job over the caller's bytes, with the two sizes that it opens with: the number of its instructions, and that of the
/// stack places of each claim record. Labels are asked of it from 0 up; at the exit and past it a record is short or empty.
#[derive(Clone, Copy)]
pub struct Job<'a> {
    pub(crate) bytes: &'a [u8],
    pub(crate) instructions: u8,
    pub(crate) places: u8,
}

impl<'a> Job<'a> {
    /// Reads a job's opening, and sees that the bytes are as many as it says.
    pub fn read(bytes: &'a [u8]) -> Result<Job<'a>, RecordFault>
        ensures sizes_are_what_the_opening_says { sizes_read result ≡ opening bytes.now }
        ensures job_is_over_these_bytes { IfOk result (λ j. j.bytes.now ≡ bytes.now) }
    {
        let [n0, n1, d0, d1, rest @ ..] = bytes else {
            let fault = ReadFault::TooShort {
                place: 0,
                found: bytes.len(),
                needed: 4,
            };
            return Err(RecordFault::from((Field::Opening, fault)));
        };
        let instructions = u16::from_le_bytes([*n0, *n1]);
        let places = u16::from_le_bytes([*d0, *d1]);
        let instructions_fit = below(0, i32::from(instructions), INSTRUCTIONS as u32 + 1);
        instructions_fit.map_err(|fault| (Field::Instructions, fault))?;
        let places_fit = below(2, i32::from(places), STACK_PLACES as u32 + 1);
        places_fit.map_err(|fault| (Field::Places, fault))?;
        let right = 4 + usize::from(instructions) * (10 + 3 * usize::from(places));
        of_length(4 + rest.len(), right).map_err(|fault| (Field::Length, fault))?;
        Ok(Job {
            bytes,
            instructions: instructions as u8,
            places: places as u8,
        })
    }

    /// How many instructions there are, 0 to 128 of a job that was read; this is the exit's label.
    pub fn exit(&self) -> u16
        ensures is_the_number_of_instructions { result ≡ (sizes self.now).instructions }
        ensures fits_a_byte { result < 256 }
    {
        u16::from(self.instructions)
    }

    /// The instruction record of a label, six bytes, with its byte place; as much of it as the job has.
    pub fn instruction_record(&self, label: u16) -> (usize, &'a [u8])
        ensures place_is_the_records { result.0 ≡ instruction_place label }
        ensures bytes_are_the_records { result.1.now ≡ instruction_record self.now.bytes.now label }
    {
        let at = 4 + 6 * usize::from(label);
        (at, part(self.bytes, at, 6))
    }

    /// The claim record of a label, with its byte place; as much of it as the job has.
    pub fn claim_record(&self, label: u16) -> (usize, &'a [u8])
        ensures place_is_the_records { result.0 ≡ claim_place (sizes self.now) label }
        ensures bytes_are_the_records { result.1.now
            ≡ claim_record self.now.bytes.now (sizes self.now) label }
    {
        let at = self.claim_place(label);
        (at, self.record_at(at))
    }

    // The byte place of a label's claim record.
    pub(crate) fn claim_place(&self, label: u16) -> usize
        ensures value { result ≡ claim_place (sizes self.now) label }
        ensures bound { result < 2 ^ 32 }
    {
        4 + 6 * usize::from(self.instructions) + usize::from(label) * self.claim_length()
    }

    // The bytes of a claim record.
    fn claim_length(&self) -> usize
        ensures value { result ≡ claim_length (sizes self.now) }
        ensures bound { result < 1024 }
    {
        4 + 3 * usize::from(self.places)
    }

    // The claim record that stands at a byte place.
    pub(crate) fn record_at(&self, place: usize) -> &'a [u8]
        ensures { result.now ≡ record_at self.now.bytes.now (sizes self.now) place }
    {
        part(self.bytes, place, self.claim_length())
    }
}
