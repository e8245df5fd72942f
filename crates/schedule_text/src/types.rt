//! A schedule, and what can be wrong with its text.
ghost use Rattle.std.specs.Prelude.{◌≡◌};
ghost use Rattle.schedule_text.specs.declared.halt.Halt.TheVariants.{Refused};
ghost use Rattle.schedule_text.specs.Faults.{reason, fault_number, fault_line};

use crate::halt::Halt;
use catalogue::RuleName;
use protocol::types::Step;
use refusal_numbers::Reason;

/// A rule's name, the stations' opening values, and the steps in their order.
#[derive(Debug, PartialEq, Eq, Drop)]
pub struct Schedule {
    pub rule: RuleName,
    pub values: Vec<u16>,
    pub steps: Vec<Step>,
}

/// What is wrong with a text. Lines are counted from 1.
#[derive(Clone, Copy, Debug, PartialEq, Eq)]
pub enum Fault {
    /// The text has more than 65,536 bytes.
    TooLong,
    /// The first line names no rule.
    WrongRule,
    /// The second line is not `values` and 1 to 16 numbers.
    WrongValues,
    /// The line with this number, the third or a later one, is no step.
    WrongStep(usize),
    /// The text ends inside the line with this number, or lacks it.
    Unfinished(usize),
}

impl Fault {
    /// The number by which the fault is told, 16 to 20.
    pub fn number(&self) -> u8
        ensures { result ≡ fault_number self.now }
    {
        Reason::from(*self).number()
    }

    /// The line that the fault names; 0 for a text that is too long.
    pub fn line(&self) -> usize
        ensures { result ≡ fault_line self.now }
    {
        match self {
            Fault::TooLong => 0,
            Fault::WrongRule => 1,
            Fault::WrongValues => 2,
            Fault::WrongStep(line) | Fault::Unfinished(line) => *line,
        }
    }
}

impl From<Fault> for Reason {
    ghost from_gives = { λ f r. r ≡ reason f };

    fn from(fault: Fault) -> Reason {
        match fault {
            Fault::TooLong => Reason::TooLong,
            Fault::WrongRule => Reason::WrongRule,
            Fault::WrongValues => Reason::WrongValues,
            Fault::WrongStep(_) => Reason::WrongStep,
            Fault::Unfinished(_) => Reason::Unfinished,
        }
    }
}

/// Why a schedule was not read: its text has a fault, or there was no memory for it.
pub type ReadError = Halt<Fault>;

impl From<Fault> for Halt<Fault> {
    ghost from_gives = { λ f r. r ≡ Refused f };

    fn from(fault: Fault) -> Halt<Fault> {
        Halt::Refused(fault)
    }
}
