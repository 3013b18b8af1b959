//! Connections over links in memory, with what the queue service's reference and HTTP/1.1 say of them.
ghost use Rattle.std.specs.Prelude.{◌≤◌, ◌^◌, Option, Some, None, if◌then◌else◌};
ghost use Rattle.history.specs.Histories.{Leads};
ghost use Rattle.farm_desk.specs.Home.{nowhere};
ghost use Rattle.farm_machine.specs.Law.{opened};
ghost use Rattle.farm_machine.specs.Step.{farm_rules};
ghost use Rattle.farm_server.specs.declared.served.TheConstants.{REQUESTS};

use crate::configs::config_of;
use farm_asks::question::{Call, Caller, Question};
use farm_asks::reply::Asked;
use farm_core::Bare;
use farm_desk::{Desk, Object, Solo, Spare};
use farm_machine::law::Farm;
use farm_server::{Gate, NoGate, REQUESTS, Served, When, serve_connection};
use farm_text::{ListClock, ListDraws, Moment, SlugId};
use http_wire::{Joined, MemoryLink, MemorySink, MemorySource, Wire};
use std::alloc::{AllocError, Global};
use std::test::Fail;

mod answers;
mod chains;
mod clients;
mod hooks;
mod lists;
mod one_task;
mod rows;
mod runs;
mod tasks;
mod waits;
mod work;

const PING: &[u8] = b"GET /api/queue/v1/ping HTTP/1.1\r\n\r\n";

const STATUS: &[u8] = b"GET /api/queue/v1/task/AAAAAAAAQACAAAAAAAAAAA/status HTTP/1.1\r\n\r\n";

const ALIVE: &[u8] =
    b"HTTP/1.1 200 OK\r\nContent-Length: 14\r\nContent-Type: application/json\r\n\r\n{\"alive\":true}";

const NO_TASK: &[u8] =
    b"HTTP/1.1 404 Not Found\r\nContent-Length: 119\r\nContent-Type: application/json\r\n\r\n{\"code\":\"ResourceNotFound\",\"details\":{\"kind\":\"task\",\"name\":\"AAAAAAAAQACAAAAAAAAAAA\"},\"message\":\"nothing has that name\"}";

/// What is served of an input, and which calls fail.
#[derive(Clone, Copy)]
struct Input<'a> {
    bytes: &'a [u8],
    failing_reads: &'a [u64],
    failing_writes: &'a [u64],
}

impl<'a> Input<'a> {
    fn of(bytes: &'a [u8]) -> Input<'a> {
        Input {
            bytes,
            failing_reads: &[],
            failing_writes: &[],
        }
    }
}

/// How a connection ended, and what was written.
#[derive(Drop)]
struct Output {
    served: Served,
    written: Vec<u8>,
}

/// A link with the input's bytes to read, of which the calls fail that the input names.
fn link_of(alloc: Global, input: &Input) -> Result<MemoryLink, AllocError> {
    let bytes = Vec::from_slice(alloc, input.bytes)?;
    let failing_reads = Vec::from_slice(alloc, input.failing_reads)?;
    let failing_writes = Vec::from_slice(alloc, input.failing_writes)?;
    let sink = MemorySink::new(alloc, 200_000, failing_writes)?;
    let source = MemorySource::new(bytes, failing_reads, 8_192);
    Ok(Joined { source, sink })
}

/// What was written to a link.
fn written_to(alloc: Global, link: MemoryLink) -> Result<Vec<u8>, AllocError> {
    let written = Vec::from_slice(alloc, link.sink.written());
    drop(link);
    written
}

/// Serves the input over this desk, and tells this gate.
fn serve_over<K: Desk<Question = Question, Answer = Asked, Law = Farm>, G: Gate>(
    alloc: Global,
    input: &Input,
    desk: &mut K,
    gate: &mut G,
) -> Result<Output, AllocError>
    requires { REQUESTS ≤ K.spare desk.old }
{
    let mut link = link_of(alloc, input)?;
    let mut clock = ListClock::new(Vec::new(alloc));
    let mut draws = ListDraws::new(Vec::new(alloc));
    let served = serve_connection(alloc, &mut link, desk, &mut clock, &mut draws, gate);
    drop(draws);
    drop(clock);
    let written = written_to(alloc, link)?;
    Ok(Output { served, written })
}

/// Serves the input over an empty farm.
fn serve(alloc: Global, input: &Input) -> Result<Output, Fail> {
    let mut desk = Solo::new(Bare::new(alloc, config_of(alloc, "")?));
    let output = serve_over(alloc, input, &mut desk, &mut NoGate);
    drop(desk);
    Ok(output?)
}

fn both(alloc: Global, first: &[u8], second: &[u8]) -> Result<Vec<u8>, AllocError> {
    let mut bytes = Vec::from_slice(alloc, first)?;
    bytes.extend_from_slice(second)?;
    Ok(bytes)
}

/// Whether serving the input over an empty farm ends so, with this written.
fn ends_so(alloc: Global, input: &Input, served: Served, written: &[u8]) -> Result<bool, Fail> {
    let output = serve(alloc, input)?;
    Ok(output.served == served && output.written.as_slice() == written)
}

#[test]
fn a_ping_and_a_status(rt: HostRuntime) -> Result<(), Fail> {
    let alloc = rt.alloc();
    let input = both(alloc, PING, STATUS)?;
    let replies = both(alloc, ALIVE, NO_TASK)?;
    assert!(rt; ends_so(alloc, &Input::of(&input), Served::Closed, &replies)?);
    Ok(())
}

/// Whether a ping and a status of which the write of this number fails end so.
fn writes_so(alloc: Global, failing: u64, wanted: &[u8]) -> Result<bool, Fail> {
    let bytes = both(alloc, PING, STATUS)?;
    let input = Input {
        bytes: &bytes,
        failing_reads: &[],
        failing_writes: &[failing],
    };
    ends_so(alloc, &input, Served::WriteFault, wanted)
}

/// Whether a ping and a status of which the read of this number fails end so.
fn reads_so(alloc: Global, failing: u64, wanted: &[u8]) -> Result<bool, Fail> {
    let bytes = both(alloc, PING, STATUS)?;
    let input = Input {
        bytes: &bytes,
        failing_reads: &[failing],
        failing_writes: &[],
    };
    ends_so(alloc, &input, Served::ReadFault, wanted)
}

/// Whether both are answered where the second read fails.
fn reads_both(alloc: Global) -> Result<bool, Fail> {
    let replies = both(alloc, ALIVE, NO_TASK)?;
    reads_so(alloc, 1, &replies)
}

#[test]
fn a_failed_call_ends_what_was_answered(rt: HostRuntime) -> Result<(), Fail> {
    let told = [
        writes_so(rt.alloc(), 0, b"")?,
        writes_so(rt.alloc(), 1, ALIVE)?,
        reads_so(rt.alloc(), 0, b"")?,
        reads_both(rt.alloc())?,
    ];
    assert_eq!(rt; told, [true; 4]);
    Ok(())
}

/// Whether the front of a ping and a status that ends here is served as it has to be.
fn is_cut_well(alloc: Global, input: &[u8], end: usize) -> Result<bool, Fail> {
    let served = if end == 0 || end == PING.len() {
        Served::Closed
    } else {
        Served::EndedInside
    };
    let replies = if end < PING.len() { b"" } else { ALIVE };
    match input.get(..end) {
        Some(front) => ends_so(alloc, &Input::of(front), served, replies),
        None => Ok(false),
    }
}

#[test]
fn a_stream_may_end_at_each_byte(rt: HostRuntime) -> Result<(), Fail> {
    let alloc = rt.alloc();
    let input = both(alloc, PING, STATUS)?;
    for end in 0..input.len() {
        assert!(rt; is_cut_well(alloc, &input, end)?, "cut at {end}");
    }
    Ok(())
}

#[test]
fn each_stream_ends_as_it_has_to(rt: HostRuntime) -> Result<(), Fail> {
    let rows: [(&[u8], Served, &[u8]); 6] = [
        (
            b"POST /api/queue/v1/task/x/cancel HTTP/1.1\r\nContent-Length: 1048577\r\n\r\n",
            Served::WireFault(Wire::BodyTooLarge),
            b"HTTP/1.1 413 Payload Too Large\r\nConnection: close\r\nContent-Length: 72\r\nContent-Type: application/json\r\n\r\n{\"code\":\"PayloadTooLarge\",\"details\":{},\"message\":\"the body is too long\"}",
        ),
        (
            b"POST /api/queue/v1/task/x/cancel HTTP/1.1\r\nTransfer-Encoding: chunked\r\n\r\n",
            Served::WireFault(Wire::NoLength),
            b"HTTP/1.1 411 Length Required\r\nConnection: close\r\nContent-Length: 69\r\nContent-Type: application/json\r\n\r\n{\"code\":\"LengthRequired\",\"details\":{},\"message\":\"a length is needed\"}",
        ),
        (
            b"GET\r\n\r\n",
            Served::WireFault(Wire::HeadFault),
            b"HTTP/1.1 400 Bad Request\r\nConnection: close\r\nContent-Length: 57\r\nContent-Type: application/json\r\n\r\n{\"code\":\"BadHead\",\"details\":{},\"message\":\"not a request\"}",
        ),
        (b"\r\n", Served::Closed, b""),
        (
            b"GET /api/queue/v1/task/AAAAAAAAQACAAAAAAAAAAQ/status HTTP/1.1\r\nConnection: close\r\n\r\nGET /api/queue/v1/ping HTTP/1.1\r\n\r\n",
            Served::Closed,
            b"HTTP/1.1 404 Not Found\r\nConnection: close\r\nContent-Length: 119\r\nContent-Type: application/json\r\n\r\n{\"code\":\"ResourceNotFound\",\"details\":{\"kind\":\"task\",\"name\":\"AAAAAAAAQACAAAAAAAAAAQ\"},\"message\":\"nothing has that name\"}",
        ),
        (
            b"GET /api/queue/v1/ping HTTP/1.1\r\nAuthorization: x\r\n\r\n",
            Served::Closed,
            b"HTTP/1.1 401 Unauthorized\r\nContent-Length: 106\r\nContent-Type: application/json\r\n\r\n{\"code\":\"AuthenticationFailed\",\"details\":{\"reason\":\"BadHeader\"},\"message\":\"the caller is not who it says\"}",
        ),
    ];
    for (input, served, written) in rows {
        assert!(rt; ends_so(rt.alloc(), &Input::of(input), served, written)?);
    }
    Ok(())
}

/// So many copies of these bytes, and others behind them.
fn repeated(alloc: Global, bytes: &[u8], count: u32, behind: &[u8]) -> Result<Vec<u8>, AllocError> {
    let mut all = Vec::new(alloc);
    for _ in 0..count {
        all.extend_from_slice(bytes)?;
    }
    all.extend_from_slice(behind)?;
    Ok(all)
}

const LAST_ALIVE: &[u8] =
    b"HTTP/1.1 200 OK\r\nConnection: close\r\nContent-Length: 14\r\nContent-Type: application/json\r\n\r\n{\"alive\":true}";

#[test]
fn the_thousandth_reply_closes(rt: HostRuntime) -> Result<(), Fail> {
    let alloc = rt.alloc();
    let input = repeated(alloc, PING, 1_001, b"")?;
    let replies = repeated(alloc, ALIVE, 999, LAST_ALIVE)?;
    assert!(rt; ends_so(alloc, &Input::of(&input), Served::Full, &replies)?);
    Ok(())
}

/// A desk at which another caller asks first, each time.
#[derive(Drop)]
struct Busy {
    farm: Bare,
    others: SlugId,
    left: u64,
}

impl Spare for Busy {
    ghost spare = { λ busy. busy.left };

    fn left(&self) -> u64 {
        self.left
    }
}

impl Desk for Busy {
    type Question = Question;

    type Answer = Asked;

    type Law = Farm;

    ghost stands = { λ busy opening seen mine. Leads farm_rules (opened opening) seen busy.farm };

    ghost home = { λ busy. nowhere };

    fn ask(&mut self, question: Question) -> Asked {
        self.left -= 1;
        let other = Question::new(Moment::FIRST, self.others, Caller::Anonymous, Call::Ping);
        let _ = self.farm.ask(other);
        self.farm.ask(question)
    }

    ghost legal = { λ busy opening seen mine stood. stood.0 };
}

/// Whether a ping is answered at a busy desk over this farm, and leaves all of its asks but one.
fn is_answered_busily(alloc: Global, farm: Bare, others: SlugId) -> Result<bool, AllocError> {
    let mut desk = Busy {
        farm,
        others,
        left: 1_000,
    };
    let output = serve_over(alloc, &Input::of(PING), &mut desk, &mut NoGate);
    let left = desk.left();
    drop(desk);
    let output = output?;
    let told = (output.served, output.written.as_slice(), left);
    Ok(told == (Served::Closed, ALIVE, 999))
}

#[test]
fn others_may_ask_between(rt: HostRuntime) -> Result<(), Fail> {
    let alloc = rt.alloc();
    let others = SlugId::read(b"AAAAAAAAQACAAAAAAAAAAA").ok_or("no slugid")?;
    let farm = Bare::new(alloc, config_of(alloc, "")?);
    assert!(rt; is_answered_busily(alloc, farm, others)?);
    Ok(())
}

/// A gate that keeps what it is told, until memory runs out.
#[derive(Drop)]
struct Notebook {
    kept: Vec<When>,
    is_lost: bool,
}

impl Gate for Notebook {
    ghost told = { λ gate. (if gate.is_lost then None else Some gate.kept.items) };

    fn at(&mut self, when: When) {
        if self.kept.push(when).is_err() {
            self.is_lost = true;
        }
    }
}

/// Serves the input over an empty farm, and tells this gate.
fn serve_past(alloc: Global, input: &Input, gate: &mut Notebook) -> Result<(), Fail> {
    let mut desk = Solo::new(Bare::new(alloc, config_of(alloc, "")?));
    let output = serve_over(alloc, input, &mut desk, gate);
    drop(desk);
    drop(output?);
    Ok(())
}

/// Whether a gate is told this where two pings are served, of which these writes fail.
fn gate_is_told(alloc: Global, failing_writes: &[u64], wanted: &[When]) -> Result<bool, Fail> {
    let bytes = both(alloc, PING, PING)?;
    let input = Input {
        bytes: &bytes,
        failing_reads: &[],
        failing_writes,
    };
    let mut gate = Notebook {
        kept: Vec::new(alloc),
        is_lost: false,
    };
    let served = serve_past(alloc, &input, &mut gate);
    let is_so = !gate.is_lost && gate.kept.as_slice() == wanted;
    drop(gate);
    served?;
    Ok(is_so)
}

/// It is not told of a reply whose write failed.
#[test]
fn the_gate_is_told_of_each_ask_and_reply(rt: HostRuntime) -> Result<(), Fail> {
    let all = [
        When::Asked(0),
        When::Answered(0),
        When::Asked(1),
        When::Answered(1),
    ];
    let told = [
        gate_is_told(rt.alloc(), &[], &all)?,
        gate_is_told(rt.alloc(), &[0], &[When::Asked(0)])?,
    ];
    assert_eq!(rt; told, [true; 2]);
    Ok(())
}
