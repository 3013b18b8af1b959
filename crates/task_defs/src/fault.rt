//! Why a definition is refused: the least rule that it breaks, and the first key that shows it.
ghost use Rattle.std.specs.Prelude.{◌≡◌};
ghost use Rattle.task_defs.specs.Faults.{Tells};

use farm_text::Text;
use std::alloc::{AllocError, Global};
use std::fmt;

/// A rule that a definition breaks, and the first key, in rising order, that shows it. What is no map at all, and what is too long as a
/// whole, shows the empty text.
#[derive(Drop)]
pub struct DefFault {
    /// The rule's number, 1 to 14.
    pub rule: u8,
    pub key: Text,
}

impl DefFault {
    /// What may stand there, in words.
    fn words(&self) -> &'static str {
        match self.rule {
            1 =>
                "a definition is a map of known keys, each of its kind, none of those missing that have to stand, that nests at most 127 deep",
            2 => "a queue is two identifiers, and what is given of it must agree",
            3 => "a project is 1 to 500 of [A-Za-z0-9._/-], a scheduler 1 to 38 of [A-Za-z0-9_-]",
            4 => "a task group is a slugid",
            5 => "dependencies are at most 100 slugids, none of them twice",
            6 => "it is all-completed or all-resolved",
            7 => "routes are at most 64 texts of 1 to 249 printable characters, none of them twice",
            8 => "it is highest, very-high, high, medium, low, very-low, lowest or normal",
            9 => "it is 0 to 49",
            10 => "a moment is written as 2024-01-01T00:00:00.000Z, from 1970 to 9998",
            11 => "it is after the moment of creation, by at most five days",
            12 => "it is after the deadline",
            13 =>
                "scopes are at most 1000 texts of at most 4096 printable characters, not ending with **, none of them twice",
            _ =>
                "metadata is the texts description, name, owner and source, each tag is a text, and the whole has at most 8388608 bytes",
        }
    }
}

/// One line, as `retries: it is 0 to 49 (rule 9)`.
impl fmt::Display for DefFault {
    fn fmt<W: fmt::Write>(&self, f: &mut fmt::Formatter<W>) -> fmt::Result {
        if self.key.is_empty() {
            f.write_str("the definition")?;
        } else {
            f.write_str(self.key.as_str())?;
        }
        write!(f, ": {} (rule {})", self.words(), self.rule)
    }
}

/// Why no definition was read.
#[derive(Drop)]
pub enum DefError {
    /// The least rule that the definition breaks.
    Fault(DefFault),
    NoMemory,
}

impl DefError {
    /// This rule is broken, and this key shows it.
    pub(crate) fn at(alloc: Global, rule: u8, key: &str) -> DefError
        ensures { Tells rule key.now result }
    {
        match Text::from_str(alloc, key) {
            Ok(key) => DefError::Fault(DefFault { rule, key }),
            Err(_) => DefError::NoMemory,
        }
    }
}

impl From<AllocError> for DefError {
    ghost use Rattle.std.specs.Prelude.{◌≡◌};
    ghost use Rattle.task_defs.specs.declared.fault.DefError.{DefError};

    ghost from_gives = { λ _ error. error ≡ DefError.NoMemory };

    fn from(_error: AllocError) -> DefError {
        DefError::NoMemory
    }
}
