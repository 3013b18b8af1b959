//! HTTP/1.1 requests from a stream of bytes (RFC 9112), however the stream is cut.
//!
//! `specs/Stream.antt` says which messages stand in a stream of bytes, and how their list ends. A `Reader` takes
//! them from a `Link` one by one. A link tells what it has left to read and what was written, where it is in
//! memory, and counts the calls that failed.
#![tactic(auto)]

mod again;
mod body;
mod head;
mod host;
mod joined;
mod laws;
mod link;
mod list;
mod memory;
mod message;
mod reader;
mod rules;
mod whole;

pub use head::{BODY_LIMIT, FIELD_LIMIT, HEAD_LIMIT};
pub use host::{HostSink, HostSource, StreamLink};
pub use joined::Joined;
pub use laws::{
    each_stream_has_an_outcome, each_stream_has_messages, messages_are_one, outcome_is_one,
    the_limits,
};
pub use link::{Link, Sink, Source};
pub use list::{ListEnd, MessageList, read_messages};
pub use memory::{MemoryLink, MemorySink, MemorySource};
pub use message::{Message, Wire};
pub use reader::Reader;
pub use whole::{ReadAllFault, read_all, read_source, write_all, write_sink};
