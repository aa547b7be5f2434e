ghost use Rattle.std.specs.Prelude.{◌≡◌, IfSome, if◌then◌else◌, slice_index_or};
ghost use Rattle.std.specs.Result.{result_err};
ghost use Rattle.job.specs.Faults.{record_answer};
ghost use Rattle.job.specs.Layout.{claim_place, claim_record};
ghost use Rattle.job.specs.Records.{claim_fault, like_a_claim, claim_in, place_in, stack_kinds, kind as kind_of, level as level_of};
ghost use Rattle.job.specs.declared.claim.Place.TheVariants.{IntegerAt};
ghost use Rattle.job.specs.Views.{sizes, claim_says, claimed};

use crate::claim_record::{ClaimRecord, head, kind_and_level};
use crate::fault::RecordFault;
use crate::reader::Job;
use push::{Kind, StackKinds};

/// What a label claims. The places of its stack are asked of its job, by `Job::stack_place`, and their kinds by
/// `Job::stack_kinds`.
#[derive(Clone, Copy, PartialEq, Eq, Debug)]
pub struct Claim {
    /// How many places its stack has; in a checked record at most 8.
    pub depth: u8,
    /// The level that surrounds it.
    pub surrounding: u16,
    /// The byte of the job at which its record begins.
    pub record_place: usize,
}

/// A claimed stack place: a kind and a level. In a record that has not been checked the level is any number of two bytes.
#[derive(Clone, Copy, PartialEq, Eq, Debug)]
pub enum Place {
    /// An integer of this level.
    IntegerAt(u16),
    /// A boolean of this level.
    BooleanAt(u16),
}

impl Place {
    /// What the place holds.
    pub fn kind(self) -> Kind
        ensures is_its_kind { result ≡ kind_of self }
    {
        match self {
            Place::IntegerAt(_) => Kind::Integer,
            Place::BooleanAt(_) => Kind::Boolean,
        }
    }

    /// The level of what it holds.
    pub fn level(self) -> u16
        ensures is_its_level { result ≡ level_of self }
    {
        match self {
            Place::IntegerAt(level) | Place::BooleanAt(level) => level,
        }
    }
}

// A stack place of a claim record.
fn place_in(record: &[u8], place: u16) -> Place
    ensures { result ≡ place_in «record».now place }
{
    let (kind, level) = kind_and_level(record, place);
    match kind {
        0 => Place::IntegerAt(level),
        _ => Place::BooleanAt(level),
    }
}

impl Job<'_> {
    /// Sees that a label's claim record is like its description, over a lattice of so many levels; else it names the first
    /// field that is not.
    #[tactic(auto, using(crate::proofs::ByCases::check_answer))]
    pub fn check_claim_record(&self, span: u32, label: u16) -> Result<(), RecordFault>
        ensures accepts_exactly_records_like_a_claim { record_answer result
            ≡ (if like_a_claim span (sizes self.now).places
            (claim_record self.now.bytes.now (sizes self.now) label) then 0 else 9) }
        ensures names_the_first_field_that_is_unlike { result_err result
            ≡ claim_fault span (sizes self.now).places label (claim_place (sizes self.now) label)
            (claim_record self.now.bytes.now (sizes self.now) label) }
    {
        let place = self.claim_place(label);
        let record = ClaimRecord {
            label,
            place,
            bytes: self.record_at(place),
            span,
            places: self.places,
        };
        record.check_fields()
    }

    /// The claim of a label, if it has one.
    pub fn claim(&self, label: u16) -> Option<Claim>
        ensures claim_is_what_the_record_says { claimed self.now result
            ≡ claim_in (claim_record self.now.bytes.now (sizes self.now) label) }
        ensures claim_holds_the_records_place { IfSome result
            (λ c. c.record_place ≡ claim_place (sizes self.now) label) }
    {
        let (record_place, record) = self.claim_record(label);
        let (mark, depth, surrounding) = head(record);
        match mark {
            0 => None,
            _ => Some(Claim {
                depth,
                surrounding,
                record_place,
            }),
        }
    }

    /// A stack place of a claim of this job, the top being 0; an integer of level 0 at the claim's depth and past it.
    #[tactic(auto, using(crate::proofs::Stacks::stack_within, crate::proofs::Stacks::stack_past))]
    pub fn stack_place(&self, claim: Claim, place: u16) -> Place
        ensures place_is_what_the_claim_says { result
            ≡ slice_index_or (claim_says self.now claim).stack place (IntegerAt 0) }
    {
        if place < u16::from(claim.depth) {
            place_in(self.record_at(claim.record_place), place)
        } else {
            Place::IntegerAt(0)
        }
    }

    /// The kinds of a claim's stack, which has at most 8 places where the claim's record is like its description; none
    /// where it has more than 8.
    pub fn stack_kinds(&self, claim: Claim) -> Option<StackKinds>
        ensures kinds_are_what_the_claim_says { result
            ≡ stack_kinds (claim_says self.now claim).stack }
    {
        let mut kinds = StackKinds::empty();
        for place in (0..u16::from(claim.depth)).rev() {
            kinds = kinds.push(self.stack_place(claim, place).kind())?;
        }
        Some(kinds)
    }
}
