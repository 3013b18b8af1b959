//! Why a farm file is refused: the first rule that it breaks, and where.
ghost use Rattle.std.specs.Prelude.{◌≡◌};
ghost use Rattle.farm_files.specs.Faults.{rule_number, fault_at};

use std::alloc::AllocError;

/// The tables of a farm file.
#[derive(Clone, Copy, Debug, PartialEq, Eq)]
pub enum Table {
    /// The file as a whole.
    File,
    /// `[farm]`.
    Farm,
    /// `[[role]]`.
    Role,
    /// `[[client]]`.
    Client,
    /// `[[hook]]`.
    Hook,
}

/// The rules that a farm file keeps.
#[derive(Clone, Copy, Debug, PartialEq, Eq)]
pub enum Rule {
    /// The file is TOML.
    NotToml,
    /// Each key, and each table, is a known one.
    UnknownKey,
    /// No key is missing that has no default.
    MissingKey,
    /// Each value is of its kind: a table, a list, a text, a whole number, true or false.
    WrongKind,
    /// Each value is of its form or in its range, and there are no more rows than a table may have.
    OutOfForm,
    /// No id was used before.
    RepeatedId,
    /// The parameters of roles do not go in a cycle.
    ParameterCycle,
    /// The template of a hook is JSON of whole numbers.
    NotJson,
    /// The file is no longer than `LONGEST_FILE`.
    TooLong,
}

impl Rule {
    /// The number of a rule, from 1 to 9.
    pub fn number(self) -> u8
        ensures { result ≡ rule_number self }
    {
        match self {
            Rule::NotToml => 1,
            Rule::UnknownKey => 2,
            Rule::MissingKey => 3,
            Rule::WrongKind => 4,
            Rule::OutOfForm => 5,
            Rule::RepeatedId => 6,
            Rule::ParameterCycle => 7,
            Rule::NotJson => 8,
            Rule::TooLong => 9,
        }
    }
}

/// A rule that is broken, and where: the table, and the row of it, from 0.
#[derive(Clone, Copy, Debug, PartialEq, Eq)]
pub struct Fault {
    pub table: Table,
    pub row: u32,
    pub rule: Rule,
}

/// Why a farm file was not read.
#[derive(Clone, Copy, Debug, PartialEq, Eq)]
pub enum FileFault {
    /// The first rule that the file breaks.
    Fault(Fault),
    NoMemory,
}

impl FileFault {
    pub(crate) fn at(table: Table, row: u32, rule: Rule) -> FileFault
        ensures { result ≡ FileFault.Fault (fault_at table row rule) }
    {
        FileFault::Fault(Fault { table, row, rule })
    }
}

impl From<AllocError> for FileFault {
    ghost use Rattle.std.specs.Prelude.{◌≡◌};
    ghost use Rattle.farm_files.specs.declared.fault.FileFault.{FileFault};

    ghost from_gives = { λ _ fault. fault ≡ FileFault.NoMemory };

    fn from(_error: AllocError) -> FileFault {
        FileFault::NoMemory
    }
}

/// Why one table, or one row of a table, was not read.
#[derive(Clone, Copy, Debug, PartialEq, Eq)]
pub(crate) enum RowFault {
    /// The least rule that the row breaks.
    Breaks(Rule),
    NoMemory,
}

impl From<AllocError> for RowFault {
    ghost use Rattle.std.specs.Prelude.{◌≡◌};
    ghost use Rattle.farm_files.specs.declared.fault.RowFault.{RowFault};

    ghost from_gives = { λ _ fault. fault ≡ RowFault.NoMemory };

    fn from(_error: AllocError) -> RowFault {
        RowFault::NoMemory
    }
}

impl From<Rule> for RowFault {
    ghost use Rattle.std.specs.Prelude.{◌≡◌};
    ghost use Rattle.farm_files.specs.declared.fault.RowFault.{RowFault};

    ghost from_gives = { λ rule fault. fault ≡ RowFault.Breaks rule };

    fn from(rule: Rule) -> RowFault {
        RowFault::Breaks(rule)
    }
}
