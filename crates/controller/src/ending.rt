ghost use Rattle.std.specs.Prelude.{◌≡◌};
ghost use Rattle.controller.specs.Answers.{ending_number};

/// How a run was ended.
#[derive(Clone, Copy, PartialEq, Eq, Debug)]
pub enum Ending {
    /// It had not halted: the values from before it came back.
    Unfinished,
    /// It had halted: its values were kept.
    Halted,
}

/// The number that an end answers: 0 unfinished, 1 halted.
impl From<Ending> for u8 {
    ghost from_gives = { λ ending number. number ≡ ending_number ending };

    fn from(ending: Ending) -> u8 {
        match ending {
            Ending::Unfinished => 0,
            Ending::Halted => 1,
        }
    }
}
