ghost use Rattle.std.specs.Prelude.{◌≡◌};
ghost use Rattle.job.specs.Fields.{instruction_offset, claim_offset};

use thiserror::Error;

/// A field of an instruction record, in the record's order.
#[derive(Clone, Copy, PartialEq, Eq, Debug, Error)]
pub enum InstructionField {
    /// The operation, a byte.
    #[error("operation")]
    Operation,
    /// The junction, a byte.
    #[error("junction")]
    Junction,
    /// The operand, a signed number of four bytes.
    #[error("operand")]
    Operand,
}

/// A field of a claim record, in the record's order.
#[derive(Clone, Copy, PartialEq, Eq, Debug, Error)]
pub enum ClaimField {
    /// Whether the label has a claim, a byte.
    #[error("mark")]
    Mark,
    /// How many stack places are claimed, a byte.
    #[error("depth")]
    Depth,
    /// The surrounding level, two bytes.
    #[error("surrounding level")]
    Surrounding,
    /// The kind of a stack place, a byte; the top is stack place 0.
    #[error("kind of place {0}")]
    Kind(u8),
    /// The level of a stack place, two bytes.
    #[error("level of place {0}")]
    Level(u8),
}

/// What is judged of a job's bytes, in the order in which it is judged.
#[derive(Clone, Copy, PartialEq, Eq, Debug, Error)]
pub enum Field {
    /// The four bytes that a job opens with.
    #[error("opening")]
    Opening,
    /// The number of instructions, two bytes at byte place 0.
    #[error("number of instructions")]
    Instructions,
    /// The number of stack places of each claim record, two bytes at byte place 2.
    #[error("number of stack places")]
    Places,
    /// How many bytes there are.
    #[error("length")]
    Length,
    /// A field of the instruction record of a label.
    #[error("label {0}: instruction record: {1}")]
    Instruction(u16, InstructionField),
    /// A field of the claim record of a label.
    #[error("label {0}: claim record: {1}")]
    Claim(u16, ClaimField),
}

impl InstructionField {
    /// How many bytes of the record stand before it.
    pub fn offset(self) -> usize
        ensures is_its_offset { result ≡ instruction_offset self }
    {
        match self {
            InstructionField::Operation => 0,
            InstructionField::Junction => 1,
            InstructionField::Operand => 2,
        }
    }
}

impl ClaimField {
    /// How many bytes of the record stand before it.
    pub fn offset(self) -> usize
        ensures is_its_offset { result ≡ claim_offset self }
    {
        match self {
            ClaimField::Mark => 0,
            ClaimField::Depth => 1,
            ClaimField::Surrounding => 2,
            ClaimField::Kind(place) => 4 + 3 * usize::from(place),
            ClaimField::Level(place) => 5 + 3 * usize::from(place),
        }
    }
}
