ghost use Rattle.std.specs.Prelude.{◌≡◌};
ghost use Rattle.checker.specs.Faults.{rule_number, rule_label, fault_answer, mount_answer as mount_answer_of, number_and_label};
ghost use Rattle.checker.specs.declared.fault.MountFault.TheVariants.{Record, Claims};

use job::RecordFault;
use thiserror::Error;

/// A rule of claims that is broken, the label that breaks it, and what it names. As a `u8` it is the number that mount
/// answers, 10 to 15.
#[derive(Clone, Copy, PartialEq, Eq, Debug, Error)]
pub enum Rule {
    /// Label 0 has no claim, or claims a stack that is not empty.
    #[error("label 0: no claim of the empty stack that a run begins with")]
    Entry,
    /// A stack of the claimed depth and kinds would fault.
    #[error("label {label}: the stack would fault")]
    Stack {
        /// The label, 0 to 127.
        label: u16,
    },
    /// A store would lower what it stores.
    #[error("label {label}: the store to variable {variable} would lower what it stores")]
    Store {
        /// The label, 0 to 127.
        label: u16,
        /// The variable, 0 to 31.
        variable: u8,
    },
    /// A successor does not take what leaves.
    #[error("label {label}: its successor {successor} does not take what leaves")]
    Successor {
        /// The label, 0 to 127.
        label: u16,
        /// The first successor that does not, 0 to 128; the next label comes before the target.
        successor: u16,
    },
    /// The exit is in a branch's region.
    #[error("label {label}: the exit, {exit}, is in the branch's region")]
    RegionExit {
        /// The branch's label, 0 to 127.
        label: u16,
        /// The exit, 1 to 128.
        exit: u16,
    },
    /// The surrounding level of a label in a branch's region is too low.
    #[error("label {label}: the surrounding level of label {inside}, in the branch's region, is too low")]
    RegionLevel {
        /// The branch's label, 0 to 127.
        label: u16,
        /// The lowest such label of the region, 0 to 127.
        inside: u16,
    },
}

/// Why a job is refused. As a pair it is the number and the label that mount answers.
#[derive(Clone, Copy, PartialEq, Eq, Debug, Error)]
pub enum MountFault {
    /// What is wrong with its bytes.
    #[error("{0}")]
    Record(RecordFault),
    /// The first rule of claims that is broken.
    #[error("{0}")]
    Claims(Rule),
}

impl Rule {
    /// The label that breaks it.
    pub fn label(self) -> u16
        ensures is_its_label { result ≡ rule_label self }
    {
        match self {
            Rule::Entry => 0,
            Rule::Stack { label }
            | Rule::Store { label, .. }
            | Rule::Successor { label, .. }
            | Rule::RegionExit { label, .. }
            | Rule::RegionLevel { label, .. } => label,
        }
    }
}

// The number that mount answers, 10 to 15.
impl From<Rule> for u8 {
    ghost from_gives = { λ rule number. number ≡ rule_number rule };

    fn from(rule: Rule) -> u8 {
        match rule {
            Rule::Entry => 10,
            Rule::Stack { .. } => 11,
            Rule::Store { .. } => 12,
            Rule::Successor { .. } => 13,
            Rule::RegionExit { .. } => 14,
            Rule::RegionLevel { .. } => 15,
        }
    }
}

// A job is refused where a field is unlike its description.
impl From<RecordFault> for MountFault {
    ghost from_gives = { λ fault mount_fault. mount_fault ≡ Record fault };

    fn from(fault: RecordFault) -> MountFault {
        MountFault::Record(fault)
    }
}

// A job is refused where a rule is broken.
impl From<Rule> for MountFault {
    ghost from_gives = { λ rule mount_fault. mount_fault ≡ Claims rule };

    fn from(rule: Rule) -> MountFault {
        MountFault::Claims(rule)
    }
}

// The number and the label that mount answers.
impl From<MountFault> for (u8, u16) {
    ghost from_gives = { λ fault answer. answer ≡ number_and_label (fault_answer fault) };

    fn from(fault: MountFault) -> (u8, u16) {
        match fault {
            MountFault::Record(fault) => (u8::from(fault), fault.label()),
            MountFault::Claims(rule) => (u8::from(rule), rule.label()),
        }
    }
}

/// The number and the label that mount answers: 0 and 0 where the job is accepted; the faults of its bytes as a whole have
/// label 0.
pub fn mount_answer<T>(answer: &Result<T, MountFault>) -> (u8, u16)
    ensures answers_number_and_label { result ≡ number_and_label (mount_answer_of answer.now) }
{
    answer
        .as_ref()
        .err()
        .map_or((0, 0), |fault| <(u8, u16)>::from(*fault))
}
