//! The words of what ends a stream.
use http_wire::Wire;
use std::alloc::{AllocError, Global};
use std::test::Fail;

/// The words of each, with a bar behind them.
fn words_of(alloc: Global, wires: &[Wire]) -> Result<String, AllocError> {
    let mut words = String::new(alloc);
    for wire in wires {
        words.push_str(format!(in alloc; "{wire}|")?.as_str())?;
    }
    Ok(words)
}

const ENDED: &str =
    "the input has ended|the input has ended inside a message|a read has failed|out of memory|";

const REFUSED: &str =
    "no request begins so|the head is too large|the length of the body is not stated|the body is too large|";

#[test]
fn each_end_has_its_words(rt: HostRuntime) -> Result<(), Fail> {
    let ended = [
        Wire::End,
        Wire::EndedInside,
        Wire::ReadFault,
        Wire::NoMemory,
    ];
    let refused = [
        Wire::HeadFault,
        Wire::HeadTooLarge,
        Wire::NoLength,
        Wire::BodyTooLarge,
    ];
    let told = [
        words_of(rt.alloc(), &ended)?.as_str() == ENDED,
        words_of(rt.alloc(), &refused)?.as_str() == REFUSED,
    ];
    assert_eq!(rt; told, [true; 2]);
    Ok(())
}
