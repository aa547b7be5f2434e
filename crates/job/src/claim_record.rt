ghost use Rattle.std.specs.Prelude.{◌≡◌, ◌+◌, ◌*◌, ◌<◌, ◌^◌, slice_index};
ghost use Rattle.job.specs.Fields.{two as two_of};

use crate::fault::RecordFault;
use crate::field::{ClaimField, Field};
use crate::part::{below, byte, two};

// The mark, the depth and the surrounding level of a claim record; 0 past the end.
pub(crate) fn head(record: &[u8]) -> (u8, u8, u16)
    ensures { result
        ≡ (slice_index «record».now 0, slice_index «record».now 1, two_of «record».now 2) }
{
    match record {
        [mark, depth, low, high, ..] => (*mark, *depth, u16::from_le_bytes([*low, *high])),
        _ => (byte(record, 0), byte(record, 1), two(record, 2)),
    }
}

// The kind byte and the level of a claim record's stack place; 0 past the end.
pub(crate) fn kind_and_level(record: &[u8], place: u16) -> (u8, u16)
    ensures { result
        ≡ (slice_index «record».now (4 + 3 * place), two_of «record».now (5 + 3 * place)) }
{
    let at = 4 + 3 * usize::from(place);
    match record.get(at..at + 3) {
        Some([kind, low, high]) => (*kind, u16::from_le_bytes([*low, *high])),
        _ => (byte(record, at), two(record, at + 1)),
    }
}

// The claim record of a label, at its byte place, with the number of levels and of stack places that it is judged by.
#[derive(Clone, Copy)]
pub(crate) struct ClaimRecord<'a> {
    pub(crate) label: u16,
    pub(crate) place: usize,
    pub(crate) bytes: &'a [u8],
    pub(crate) span: u32,
    pub(crate) places: u8,
    ghost fits: { place < 2 ^ 32 },
}

impl ClaimRecord<'_> {
    ghost use Rattle.std.specs.Prelude.{◌==◌, if◌then◌else◌};
    ghost use Rattle.std.specs.Result.{result_err};
    ghost use Rattle.job.specs.First.{first_below};
    ghost use Rattle.job.specs.Fields.{is_claimed as is_claimed_in, claim_number, claim_limit};
    ghost use Rattle.job.specs.Records.{claim_field_fault, place_fault, claim_fault};

    // Sees that the number in a field is below its limit.
    fn check(&self, field: ClaimField, found: u16, limit: u32) -> Result<(), RecordFault>
        requires is_the_number { found ≡ claim_number self.now.bytes.now field }
        requires is_the_limit { limit ≡ claim_limit self.now.span self.now.places self.now.bytes.now field }
        ensures { result_err result
            ≡ claim_field_fault self.now.span self.now.places self.now.label self.now.place
            self.now.bytes.now field }
    {
        let place = self.place + field.offset();
        let named = Field::Claim(self.label, field);
        below(place, i32::from(found), limit).map_err(|fault| (named, fault))?;
        Ok(())
    }

    // Sees that the kind and the level of a stack place are like their descriptions.
    fn check_place(&self, place: u8, is_claimed: bool) -> Result<(), RecordFault>
        requires { is_claimed ≡ is_claimed_in self.now.bytes.now place }
        ensures { result_err result
            ≡ place_fault self.now.span self.now.places self.now.label self.now.place
            self.now.bytes.now place }
    {
        let (kind, level) = kind_and_level(self.bytes, u16::from(place));
        // Two arms, and not two limits: a mount of large claims then takes a fourteenth less.
        if is_claimed {
            self.check(ClaimField::Kind(place), u16::from(kind), 2)?;
            self.check(ClaimField::Level(place), level, self.span)
        } else {
            self.check(ClaimField::Kind(place), u16::from(kind), 1)?;
            self.check(ClaimField::Level(place), level, 1)
        }
    }

    // Sees that every stack place is like its description, where so many are claimed.
    #[tactic(auto, using(crate::proofs::FirstFacts::first_none, crate::proofs::FirstFacts::first_more, crate::proofs::FirstFacts::first_found))]
    fn check_places(&self, claimed: u8) -> Result<(), RecordFault>
        requires { claimed
            ≡ (if slice_index self.now.bytes.now 0 == 0 then 0 else slice_index self.now.bytes.now 1) }
        ensures { result_err result
            ≡ first_below (place_fault self.now.span self.now.places self.now.label self.now.place
            self.now.bytes.now) self.now.places }
    {
        for place in 0..self.places {
            self.check_place(place, place < claimed)?;
        }
        Ok(())
    }

    // Sees that every field is like its description.
    pub(crate) fn check_fields(&self) -> Result<(), RecordFault>
        ensures { result_err result
            ≡ claim_fault self.now.span self.now.places self.now.label self.now.place
            self.now.bytes.now }
    {
        let (mark, depth, surrounding) = head(self.bytes);
        let (depth_limit, surrounding_limit) = match mark {
            0 => (1, 1),
            _ => (u32::from(self.places) + 1, self.span),
        };
        self.check(ClaimField::Mark, u16::from(mark), 2)?;
        self.check(ClaimField::Depth, u16::from(depth), depth_limit)?;
        self.check(ClaimField::Surrounding, surrounding, surrounding_limit)?;
        // Under mark 0 the depth is 0 by now.
        self.check_places(depth)
    }
}
