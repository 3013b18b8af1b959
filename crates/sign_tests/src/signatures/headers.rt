//! Headers that are read, and some that are off their form.
use hawk_auth::{HawkHeader, HeaderFault};
use std::alloc::Global;

#[test]
fn headers(rt: HostRuntime) {
    let read = HawkHeader::read(
        rt.alloc(),
        b"hAwK   ts=\"007\" ,mac=\"m,=\",  nonce=\"n\", id=\"a b\",ext=\"\"  ",
    );
    let same = HawkHeader {
        id: "a b",
        ts: "007",
        nonce: "n",
        mac: "m,=",
        hash: None,
        ext: None,
    };
    assert!(rt; matches!(&read, Ok(header) if *header == same));
}

fn is_bad(alloc: Global, value: &str) -> bool {
    matches!(
        HawkHeader::read(alloc, value.as_bytes()),
        Err(HeaderFault::BadHeader)
    )
}

const BAD: &str = r#"Hawkid="a", ts="1", nonce="n", mac="m"
Hawk id="", ts="1", nonce="n", mac="m"
Hawk id="a", ts="1x", nonce="n", mac="m"
Hawk id="a", ts="1234567890123", nonce="n", mac="m"
Hawk id="a", ts="1", nonce="n"
Hawk id="a", id="a", ts="1", nonce="n", mac="m"
Hawk id="a", ts="1", nonce="n", mac="m", app="x"
Hawk id="a", ts="1", nonce="n", mac="m",
Hawk id = "a", ts="1", nonce="n", mac="m"
Hawk id="a\", ts="1", nonce="n", mac="m"
Hawk id="a" ts="1", nonce="n", mac="m""#;

#[test]
fn bad_headers(rt: HostRuntime) {
    for value in BAD.split('\n') {
        assert!(rt; is_bad(rt.alloc(), value), "{value}");
    }
    let tab = "Hawk\tid=\"a\", ts=\"1\", nonce=\"n\", mac=\"m\"";
    assert!(rt; is_bad(rt.alloc(), tab));
    let good = "Hawk id=\"a\", ts=\"1\", nonce=\"n\", mac=\"m\"";
    assert!(rt; !is_bad(rt.alloc(), good));
}
