//! What a farm answers.
ghost use Rattle.std.specs.Prelude.{◌≡◌};

use crate::status_code::StatusCode;
use farm_text::Text;

/// What a call is answered: a status of HTTP, and a JSON text.
#[derive(Drop)]
pub struct Answer {
    pub status: StatusCode,
    pub body: Text,
}

/// The reply to a call: its answer, or what kept the farm from giving one.
#[derive(Drop)]
pub enum Reply {
    Answered(Answer),
    OutOfMemory,
    /// A call of the disk failed: the farm has halted.
    DiskFault,
    /// A call of the disk failed earlier.
    Halted,
}

/// The reply to a call, and whether a tick came before it.
#[derive(Drop)]
pub struct Asked {
    pub reply: Reply,
    pub ticked: bool,
}

/// The body of a reply for want of memory.
const NO_MEMORY: &str = "{\"code\":\"OutOfMemory\",\"details\":{},\"message\":\"no memory\"}";

/// The body of a reply where the disk failed.
const DISK_FAULT: &str = "{\"code\":\"DiskFault\",\"details\":{},\"message\":\"the disk failed\"}";

/// The body of a reply where the disk had failed.
const HALTED: &str = "{\"code\":\"Halted\",\"details\":{},\"message\":\"the disk failed earlier\"}";

impl Reply {
    ghost use Rattle.farm_asks.specs.Replies.{answer_of};

    /// The status that it tells.
    pub fn status(&self) -> StatusCode
        ensures { result ≡ (answer_of self.now).status }
    {
        match self {
            Reply::Answered(answer) => answer.status,
            Reply::OutOfMemory => StatusCode::SERVICE_UNAVAILABLE,
            Reply::DiskFault | Reply::Halted => StatusCode::INTERNAL_SERVER_ERROR,
        }
    }

    /// The JSON text that it tells. It is borrowed.
    pub fn body(&self) -> &str
        ensures { result.now ≡ (answer_of self.now).body }
    {
        match self {
            Reply::Answered(answer) => answer.body.as_str(),
            Reply::OutOfMemory => NO_MEMORY,
            Reply::DiskFault => DISK_FAULT,
            Reply::Halted => HALTED,
        }
    }
}
