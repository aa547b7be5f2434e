/// What a stack place holds.
#[derive(Clone, Copy, PartialEq, Eq, Debug)]
pub enum Kind {
    /// An integer of 32 bits.
    Integer,
    /// A boolean.
    Boolean,
}
