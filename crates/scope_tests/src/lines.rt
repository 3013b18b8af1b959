//! Lists of scopes as lines of a text.
use scope_lines::{LineFault, read_scopes, write_scopes};
use scope_sets::Scope;
use std::alloc::Global;
use std::test::Fail;

fn scopes(alloc: Global, lines: &[&str]) -> Result<Vec<Scope>, Fail> {
    let mut scopes = Vec::new(alloc);
    for line in lines {
        scopes.push(Scope::new(String::from_str(alloc, line)?).ok_or("not printable")?)?;
    }
    Ok(scopes)
}

/// Whether these are the scopes of these lines.
fn is_list(alloc: Global, read: &[Scope], lines: &[&str]) -> Result<bool, Fail> {
    let wanted = scopes(alloc, lines)?;
    let is_so = read == wanted.as_slice();
    drop(wanted);
    Ok(is_so)
}

fn says(alloc: Global, text: &str, lines: &[&str]) -> Result<bool, Fail> {
    let read = read_scopes(alloc, text.as_bytes())?;
    let says = is_list(alloc, &read, lines);
    drop(read);
    says
}

fn fault(alloc: Global, text: &[u8]) -> Option<LineFault> {
    read_scopes(alloc, text).err()
}

/// How many scopes a text has.
fn count(alloc: Global, text: &[u8]) -> Result<usize, LineFault> {
    let scopes = read_scopes(alloc, text)?;
    let count = scopes.len();
    drop(scopes);
    Ok(count)
}

#[test]
fn lines_of_texts(rt: HostRuntime) -> Result<(), Fail> {
    let alloc = rt.alloc();
    let told = [
        says(alloc, "b\na\nb\n", &["b", "a", "b"])?,
        says(alloc, "b\na", &["b", "a"])?,
        says(alloc, "\n", &[""])?,
        says(alloc, "a\n\nb\n", &["a", "", "b"])?,
        says(alloc, "", &[])?,
    ];
    assert_eq!(rt; told, [true; 5]);
    Ok(())
}

#[test]
fn bad_lines(rt: HostRuntime) {
    let alloc = rt.alloc();
    let told = [
        fault(alloc, b"a\r\n"),
        fault(alloc, b"a\nb**\nc"),
        fault(alloc, b"a\n\n\xff"),
    ];
    let bad = [
        Some(LineFault::BadLine(0)),
        Some(LineFault::BadLine(1)),
        Some(LineFault::BadLine(2)),
    ];
    assert_eq!(rt; told, bad);
}

#[test]
fn long_lines(rt: HostRuntime) -> Result<(), Fail> {
    let alloc = rt.alloc();
    let line = vec![in alloc; b'a'; 4097]?;
    let told = [count(alloc, &line[..4096]), count(alloc, &line)];
    assert_eq!(rt; told, [Ok(1), Err(LineFault::BadLine(0))]);
    Ok(())
}

#[test]
fn text_of_scopes(rt: HostRuntime) -> Result<(), Fail> {
    let alloc = rt.alloc();
    let text = write_scopes(alloc, &scopes(alloc, ["a", "", "b"].as_slice())?)?;
    assert_eq!(rt; text.as_slice(), b"a\n\nb\n".as_slice());
    Ok(())
}
