//! All messages of a stream.
ghost use Rattle.std.specs.Prelude.{◌≡◌, ◌≤◌, IfOk, IfErr, IfSome, MatchResult, Err, false};
ghost use Rattle.causes.specs.Causes.{Rose};
ghost use Rattle.http_wire.specs.List.{ending_of, LeavesBehind};
ghost use Rattle.http_wire.specs.Calls.{state_of, OnlyReads};
ghost use Rattle.http_wire.specs.Stream.{Messages, is_of_stream};

use crate::link::Link;
use crate::message::{Message, Wire};
use crate::reader::Reader;
use std::alloc::Global;

/// How a list of messages ends.
#[derive(Clone, Copy, Debug, PartialEq, Eq)]
pub enum ListEnd {
    /// No further message came, for this reason.
    Stopped(Wire),
    /// The last message closes.
    Closed,
    /// There is no room for more.
    Full,
}

/// The messages of a stream in order, and how their list ends.
#[derive(Drop)]
pub struct MessageList {
    pub messages: Vec<Message>,
    pub end: ListEnd,
}

/// All messages that the link gives, where there is room for so many. An `Err` is a failed read or want of memory. The link
/// is read no further than the messages need, but for the rest of a piece.
pub fn read_messages<L: Link>(alloc: Global, link: &mut L, room: usize) -> Result<MessageList, Wire>
    ensures all { IfOk result (λ list. IfSome (L.left link.old)
        (λ bytes. Messages room bytes list.messages.items (ending_of list.end))) }
    ensures other { IfErr result (λ wire. is_of_stream wire ≡ false) }
    ensures only_reads { OnlyReads (state_of L.Link link.old) (state_of L.Link link.new) result }
    ensures leaves { IfOk result (λ list. IfSome (L.left link.old) (λ bytes. LeavesBehind bytes list.messages.items (L.left link.new) list.end)) }
{
    let mut reader = match Reader::new(alloc) {
        Ok(reader) => reader,
        Err(_) => return Err(Wire::NoMemory),
    };
    let mut messages = Vec::new(alloc);
    'messages: while messages.len() < room {
        let message = match reader.next_request(alloc, link) {
            Ok(message) => message,
            Err(wire) => {
                if !is_of_stream(wire) {
                    return Err(wire);
                }
                let end = ListEnd::Stopped(wire);
                return Ok(MessageList { messages, end });
            }
        };
        let closes = message.closes;
        match messages.push(message) {
            Ok(()) => {}
            Err(_) => return Err(Wire::NoMemory),
        }
        if closes {
            let end = if messages.len() < room {
                ListEnd::Closed
            } else {
                ListEnd::Full
            };
            return Ok(MessageList { messages, end });
        }
    }
    let end = ListEnd::Full;
    Ok(MessageList { messages, end })
}

/// Whether the stream itself gives this reason.
fn is_of_stream(wire: Wire) -> bool
    ensures { result ≡ is_of_stream wire }
{
    !matches!(wire, Wire::ReadFault | Wire::NoMemory)
}
