ghost use Rattle.std.specs.Prelude.{◌≡◌};
ghost use Rattle.job.specs.Faults.{read_place, record_number, record_label};

use crate::field::Field;
use std::error::Error;
use std::fmt;

/// What the reader finds wrong, and the byte place of it. Byte places are counted from 0.
#[derive(Clone, Copy, PartialEq, Eq, Debug)]
pub enum ReadFault {
    /// Fewer bytes from a byte place on than have to stand there.
    TooShort {
        /// The byte place.
        place: usize,
        /// How many bytes there are from it on.
        found: usize,
        /// How many there have to be.
        needed: usize,
    },
    /// More or fewer bytes than there have to be; the byte place is that of the first byte that is missing or too much.
    WrongLength {
        /// How many bytes there are.
        found: usize,
        /// How many there have to be.
        right: usize,
    },
    /// A number that is below 0, or not below its limit.
    NotBelow {
        /// The byte place.
        place: usize,
        /// The number.
        found: i32,
        /// The limit; where it is 0 no number is right.
        limit: u32,
    },
    /// A number that no operation has.
    NoOperation {
        /// The byte place.
        place: usize,
        /// The number.
        found: u8,
    },
}

/// What is wrong with a job's bytes: the field, and what the reader found there. As a `u8` it is the number that mount
/// answers, 4 to 9.
#[derive(Clone, Copy, PartialEq, Eq, Debug)]
pub struct RecordFault {
    /// The first field that is unlike its description.
    pub field: Field,
    /// What is wrong with it.
    pub fault: ReadFault,
}

impl ReadFault {
    /// The byte place at which it was found.
    pub fn place(self) -> usize
        ensures is_its_place { result ≡ read_place self }
    {
        match self {
            ReadFault::TooShort { place, .. }
            | ReadFault::NotBelow { place, .. }
            | ReadFault::NoOperation { place, .. } => place,
            ReadFault::WrongLength { found, right } => found.min(right),
        }
    }
}

impl RecordFault {
    /// The label that mount answers: that of the record, or 0 where it is none of a record.
    pub fn label(self) -> u16
        ensures is_its_label { result ≡ record_label self }
    {
        match self.field {
            Field::Instruction(label, _) | Field::Claim(label, _) => label,
            _ => 0,
        }
    }
}

// What the reader finds wrong, in the field that it was read for.
impl From<(Field, ReadFault)> for RecordFault {
    ghost from_gives = { λ found fault. fault ≡ record { field = found.0; fault = found.1 } };

    fn from((field, fault): (Field, ReadFault)) -> RecordFault {
        RecordFault { field, fault }
    }
}

// The number that mount answers, 4 to 9.
impl From<RecordFault> for u8 {
    ghost from_gives = { λ fault number. number ≡ record_number fault };

    fn from(fault: RecordFault) -> u8 {
        match fault.field {
            Field::Opening => 4,
            Field::Instructions => 5,
            Field::Places => 6,
            Field::Length => 7,
            Field::Instruction(..) => 8,
            Field::Claim(..) => 9,
        }
    }
}

// The words of the field come before these.
impl fmt::Display for ReadFault {
    fn fmt<W: fmt::Write>(&self, f: &mut fmt::Formatter<W>) -> fmt::Result {
        match *self {
            ReadFault::TooShort {
                place,
                found,
                needed,
            } => write!(f, "at byte {place} has {found} bytes of {needed}"),
            ReadFault::WrongLength { found, right } => {
                let place = self.place();
                let which = if found < right { "missing" } else { "too much" };
                write!(
                    f,
                    "is {found} bytes, and has to be {right}: byte {place} is {which}"
                )
            }
            ReadFault::NotBelow {
                place,
                found,
                limit: 0,
            } => write!(f, "at byte {place} is {found}, and no number is right"),
            ReadFault::NotBelow {
                place,
                found,
                limit: 1,
            } => write!(f, "at byte {place} is {found}, and has to be 0"),
            ReadFault::NotBelow {
                place,
                found,
                limit,
            } => {
                let most = limit - 1;
                write!(f, "at byte {place} is {found}, and has to be 0 to {most}")
            }
            ReadFault::NoOperation { place, found } => {
                write!(
                    f,
                    "at byte {place} is {found}, and no operation has that number"
                )
            }
        }
    }
}

impl Error for ReadFault {}

impl fmt::Display for RecordFault {
    fn fmt<W: fmt::Write>(&self, f: &mut fmt::Formatter<W>) -> fmt::Result {
        write!(f, "{} {}", self.field, self.fault)
    }
}

impl Error for RecordFault {}
