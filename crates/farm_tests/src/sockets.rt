//! Doors of the system, over sockets of this machine.
use http_wire::Link;
use listeners::{HostListener, Listener};
use std::alloc::{AllocError, Global};
use std::io::{Read, Write};
use std::net::{SocketAddr, TcpListener, TcpStream};
use std::test::Fail;

/// A worker's thread takes its door and its link along.
fn is_sent<T: Send>(_thing: &T) {}

/// An address of this machine at a port that was free just now.
fn free_address(rt: &HostRuntime) -> Result<SocketAddr, Fail> {
    let listener = TcpListener::bind(rt, "127.0.0.1:0")?;
    Ok(listener.local_addr()?)
}

/// An address as its text.
fn text_of(alloc: Global, address: SocketAddr) -> Result<String, AllocError> {
    let port = address.port();
    format!(in alloc; "127.0.0.1:{port}")
}

/// Whether an ask comes over the link, and its answer goes back.
fn talks<L: Link>(link: &mut L, peer: &mut TcpStream) -> bool {
    let mut piece = [0u8; 8];
    matches!(peer.write(b"ask"), Ok(3))
        && matches!(link.read(&mut piece), Ok(3))
        && matches!(link.write(b"answer"), Ok(6))
        && matches!(peer.read(&mut piece), Ok(6))
        && &piece[..6] == b"answer".as_slice()
}

/// Whether a link of a peer that went away at once is at its end.
fn ends_at_once<D: Listener>(rt: &HostRuntime, door: &mut D, address: SocketAddr) -> bool {
    let Ok(peer) = TcpStream::connect(rt, address) else {
        return false;
    };
    let Ok(mut link) = door.accept() else {
        return false;
    };
    drop(peer);
    let is_at_end = matches!(link.read(&mut [0u8; 8]), Ok(0));
    door.done(link, 0);
    is_at_end
}

/// Whether a peer talks at one door while another comes to the other, and is at its end once its link is done.
fn talks_beside<D: Listener>(
    rt: &HostRuntime,
    door: &mut D,
    other: &mut D,
    address: SocketAddr,
) -> bool
where
    D::Peer: Send,
{
    let Ok(mut peer) = TcpStream::connect(rt, address) else {
        return false;
    };
    let Ok(mut link) = door.accept() else {
        return false;
    };
    is_sent(&link);
    let talks = talks(&mut link, &mut peer);
    let ends = ends_at_once(rt, other, address);
    door.done(link, 1);
    talks && ends && matches!(peer.read(&mut [0u8; 8]), Ok(0))
}

#[test]
fn peers_come_over_sockets(rt: HostRuntime) -> Result<(), Fail> {
    let address = free_address(&rt)?;
    let text = text_of(rt.alloc(), address)?;
    let mut door = HostListener::bind(rt, text.as_str())?;
    let mut other = door.twin()?;
    is_sent(&door);
    let talks = talks_beside(&rt, &mut door, &mut other, address);
    drop(other);
    drop(door);
    assert!(rt; talks);
    Ok(())
}

/// Whether nothing else may listen at an address.
fn is_taken(rt: &HostRuntime, address: SocketAddr) -> bool {
    match TcpListener::bind(rt, address) {
        Ok(listener) => {
            drop(listener);
            false
        }
        Err(_) => true,
    }
}

/// Whether no door opens at the address of this text.
fn is_refused(rt: HostRuntime, text: &str) -> bool {
    match HostListener::bind(rt, text) {
        Ok(door) => {
            drop(door);
            false
        }
        Err(_) => true,
    }
}

#[test]
fn a_port_that_is_taken_is_refused(rt: HostRuntime) -> Result<(), Fail> {
    let address = free_address(&rt)?;
    let text = text_of(rt.alloc(), address)?;
    let door = HostListener::bind(rt, text.as_str())?;
    let told = [
        is_taken(&rt, address),
        is_refused(rt, text.as_str()),
        is_refused(rt, "no address"),
        door.why().is_none(),
    ];
    drop(door);
    assert_eq!(rt; told, [true; 4]);
    Ok(())
}
