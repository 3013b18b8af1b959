ghost use Rattle.std.specs.Prelude.{◌≡◌};

/// How a run ended. Of several causes the one with the least number stands.
#[derive(Clone, Copy, Debug, PartialEq, Eq)]
pub enum Status {
    /// The input was read to its end, to a request that closes, or to the thousandth.
    Done,
    /// The words have no reading.
    Usage,
    /// The farm file is refused by a rule.
    FarmFile,
    /// The input is refused by a rule.
    Input,
    /// The farm file cannot be opened.
    Opening,
    /// The disk cannot be opened, or a call of it failed.
    Disk,
    /// No door can be opened, or one failed.
    Door,
    /// A read failed.
    Read,
    /// A write failed.
    Write,
    /// Memory ran out.
    NoMemory,
    /// What came is no request, or the input ended inside one.
    Wire,
    /// What is on the disk is no farm.
    Damaged,
}

impl Status {
    ghost use Rattle.console_commands.specs.Status.{code_of, front_of, line_of};

    /// The status by which the program ends.
    pub fn code(self) -> u8
        ensures { result ≡ code_of self }
    {
        match self {
            Status::Done => 0,
            Status::Usage => 2,
            Status::FarmFile | Status::Input => 3,
            Status::Opening | Status::Disk | Status::Door => 4,
            Status::Read => 5,
            Status::Write => 6,
            Status::NoMemory => 7,
            Status::Wire => 8,
            Status::Damaged => 9,
        }
    }

    /// How the line begins that notes are told, where there is more to say.
    pub fn front(self) -> &'static str
        ensures { result.now ≡ front_of self }
    {
        match self {
            Status::Done | Status::Usage => "",
            Status::FarmFile => "the farm file is refused",
            Status::Input | Status::Wire => "the input is refused",
            Status::Opening => "the farm file cannot be opened",
            Status::Disk => "the disk failed",
            Status::Door => "the listener failed",
            Status::Read => "a read failed",
            Status::Write => "a write failed",
            Status::NoMemory => "memory ran out",
            Status::Damaged => "the disk is damaged",
        }
    }

    /// The line that notes are told where there is no more to say; of a run that is done there is none.
    pub fn line(self) -> &'static str
        ensures { result.now ≡ line_of self }
    {
        match self {
            Status::Done => "",
            Status::Usage => "the words ask for nothing that this program does\n",
            Status::FarmFile => "the farm file is refused\n",
            Status::Input => "the input is refused\n",
            Status::Opening => "the farm file cannot be opened\n",
            Status::Disk => "the disk failed\n",
            Status::Door => "the listener failed\n",
            Status::Read => "a read failed\n",
            Status::Write => "a write failed\n",
            Status::NoMemory => "memory ran out\n",
            Status::Wire => "the input is refused: it is no request, or ends inside one\n",
            Status::Damaged => "the disk is damaged\n",
        }
    }
}
