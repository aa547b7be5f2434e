ghost use Rattle.std.specs.Prelude.{◌≡◌};
ghost use Rattle.push.specs.Run.{status_number};

/// Where a run stands.
#[derive(Clone, Copy, PartialEq, Eq, Debug)]
pub enum Status {
    /// It is neither at the exit nor known to fault.
    Going,
    /// It is at the exit.
    Halted,
    /// No rule of the machine applies: the stack does not fit the instruction, or there is no such label or variable.
    Faulted,
}

/// The number that an advance answers for it.
impl From<Status> for u8 {
    ghost from_gives = { λ status number. number ≡ status_number status };

    fn from(status: Status) -> u8 {
        match status {
            Status::Going => 0,
            Status::Halted => 1,
            Status::Faulted => 2,
        }
    }
}
