//! Replies to a link.
ghost use Rattle.std.specs.Prelude.{◌≡◌, ◌+◌, ◌≤◌, ◌++◌, length, OnOk, OnErr};
ghost use Rattle.std.specs.Io.KnownBytes.{Appends};
ghost use Rattle.causes.specs.Causes.{HasCause};
ghost use Rattle.http_wire.specs.Calls.{state_of};
ghost use Rattle.http_wire.specs.Whole.{WritesAll};
ghost use Rattle.api_routes.specs.ReplyText.{reply_text};

use api_routes::reply_head;
use causes::Failed;
use farm_asks::reply::Reply;
use http_wire::{Link, write_all};

/// Up to how many bytes a head and a body are put together for one write.
const PIECE: usize = 4_096;

/// Writes a reply, which says whether it closes the connection: in one write, where it is short.
pub(crate) fn write_reply<L: Link>(link: &mut L, reply: &Reply, closes: bool) -> Result<(), Failed>
    ensures { WritesAll (state_of L.Link link.old) (state_of L.Link link.new) (reply_text reply.now closes) result }
{
    let head = reply_head(reply, closes);
    write_pair(link, head.as_slice(), reply.body().as_bytes())
}

/// Writes the bytes of the one and then of the other.
fn write_pair<L: Link>(link: &mut L, head: &[u8], body: &[u8]) -> Result<(), Failed>
    ensures { WritesAll (state_of L.Link link.old) (state_of L.Link link.new) (head.now ++ body.now) result }
{
    if head.len() <= PIECE && body.len() <= PIECE - head.len() {
        return write_joined(link, head, body);
    }
    if let Err(Failed) = write_all(link, head) {
        return Err(Failed);
    }
    write_all(link, body)
}

/// The same, put together first.
fn write_joined<L: Link>(link: &mut L, head: &[u8], body: &[u8]) -> Result<(), Failed>
    requires { length head.now + length body.now ≤ PIECE }
    ensures { WritesAll (state_of L.Link link.old) (state_of L.Link link.new) (head.now ++ body.now) result }
{
    let mut piece = [0; PIECE];
    write_through(link, &mut piece[..head.len() + body.len()], head, body)
}

/// The same, put together in this piece, which it fills.
fn write_through<L: Link>(
    link: &mut L,
    piece: &mut [u8],
    head: &[u8],
    body: &[u8],
) -> Result<(), Failed>
    requires { length piece.old ≡ length head.now + length body.now }
    ensures { WritesAll (state_of L.Link link.old) (state_of L.Link link.new) (head.now ++ body.now) result }
{
    join(piece, head, body);
    write_all(link, piece)
}

/// Makes the piece the bytes of the one and then of the other.
fn join(piece: &mut [u8], head: &[u8], body: &[u8])
    requires { length piece.old ≡ length head.now + length body.now }
    ensures { piece.new ≡ head.now ++ body.now }
{
    let (front, back) = piece.split_at_mut(head.len());
    front.copy_from_slice(head);
    back.copy_from_slice(body);
}
