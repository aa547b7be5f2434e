ghost use Rattle.std.specs.Prelude.{◌≡◌, flat_map, option_to_list};
ghost use Rattle.push.specs.Language.{falls_through, target as target_of, successors};

/// An instruction. Of a mounted job its variable is 0 to 31 and its labels are 0 to the exit; a program may hold others.
#[derive(Clone, Copy, PartialEq, Eq, Debug)]
pub enum Instruction {
    /// Pushes a variable.
    Load(u8),
    /// Pops an integer into a variable.
    Store(u8),
    /// Pushes its operand.
    Push(i32),
    /// Pops t, then u, and pushes the number of 32 bits that is nearest to u + t.
    Add,
    /// Pops t, then u, and pushes the number of 32 bits that is nearest to u - t.
    Sub,
    /// Pops two integers and pushes whether they are equal.
    Eq,
    /// Pops t, then u, and pushes whether u is less than t.
    Less,
    /// Pops a boolean and pushes its opposite.
    Not,
    /// Goes to a label.
    Goto(u8),
    /// Pops a boolean and goes to the target if it is false, and else to the next label.
    GotoF {
        /// The label that it can jump to.
        target: u8,
        /// The label where its two ways are claimed to meet again: the checker's alone, and nothing to a run.
        junction: u8,
    },
    /// Pushes the top again.
    Copy,
    /// Exchanges the top two places.
    Swap,
    /// Takes the top away.
    Drop,
}

/// The instruction goto 0: a program that is made holds it in the places that are not used yet, and no run meets it there.
impl Default for Instruction {
    ghost use Rattle.push.specs.declared.instruction.Instruction.TheVariants.{Goto};

    ghost is_default = { λ i. i ≡ Goto 0 };

    fn default() -> Self {
        Instruction::Goto(0)
    }
}

impl Instruction {
    /// Whether it can go on to the next label: all but goto can.
    pub fn falls_through(self) -> bool
        ensures all_but_goto_fall_through { result ≡ falls_through self }
    {
        !matches!(self, Instruction::Goto(_))
    }

    /// The label that it can jump to: goto and gotoF have one.
    pub fn target(self) -> Option<u8>
        ensures is_the_jumps_target { result ≡ target_of self }
    {
        match self {
            Instruction::Goto(target) | Instruction::GotoF { target, .. } => Some(target),
            _ => None,
        }
    }

    /// The labels that it can go to from its own: the next one, if it falls through, and its target, if it has one.
    pub fn successors(self, label: u8) -> [Option<u16>; 2]
        ensures lists_the_successors { flat_map option_to_list result ≡ successors self label }
    {
        let next = self.falls_through().then_some(u16::from(label) + 1);
        [next, self.target().map(u16::from)]
    }
}
