//! Each refusal alone, and each with its neighbour in the order.
use super::{Known, TOKEN, answers};
use hawk_auth::{AuthHead, Parts, payload_hash, sign};
use std::alloc::Global;
use std::str;

/// Whether the check of a request with these flaws answers so.
fn is_refused(alloc: Global, flaws: &str, wanted: &str) -> bool {
    let hash = if flaws.contains("BadHash") {
        payload_hash(None, b"other")
    } else {
        payload_hash(None, b"body")
    };
    match str::from_utf8(&hash) {
        Ok(hash) => is_signed_refused(alloc, flaws, hash, wanted),
        Err(_) => false,
    }
}

fn is_signed_refused(alloc: Global, flaws: &str, hash: &str, wanted: &str) -> bool {
    match sign(alloc, &flawed_parts(flaws, hash)) {
        Ok(header) => checks(alloc, flaws, sent(flaws, header.as_str()), wanted),
        Err(_) => false,
    }
}

/// The header as it is sent: without its first letter where it is to be bad.
fn sent<'a>(flaws: &str, header: &'a str) -> &'a str {
    if flaws.contains("BadHeader") {
        header.strip_prefix("H").unwrap_or(header)
    } else {
        header
    }
}

fn ext_of(flaws: &str) -> &'static str {
    if flaws.contains("BadExt") {
        // {"authorizedScopes":["*"],"certificate":1}
        "eyJhdXRob3JpemVkU2NvcGVzIjpbIioiXSwiY2VydGlmaWNhdGUiOjF9"
    } else if flaws.contains("Oversteps") {
        // {"authorizedScopes":["*"]}
        "eyJhdXRob3JpemVkU2NvcGVzIjpbIioiXX0="
    } else {
        // {"authorizedScopes":["a"]}
        "eyJhdXRob3JpemVkU2NvcGVzIjpbImEiXX0="
    }
}

fn flawed_parts<'a>(flaws: &str, hash: &'a str) -> Parts<'a> {
    let id = if flaws.contains("UnknownClient") {
        "d"
    } else {
        "c"
    };
    let token = if flaws.contains("BadMac") {
        "other"
    } else {
        TOKEN
    };
    Parts {
        id,
        token,
        ts: "1000",
        nonce: "n",
        method: b"PUT",
        target: b"/a%2Fb?c",
        host: "farm",
        port: 80,
        hash: Some(hash),
        ext: Some(ext_of(flaws)),
    }
}

fn checks(alloc: Global, flaws: &str, value: &str, wanted: &str) -> bool {
    let now = if flaws.contains("Skew") {
        1_901_000
    } else {
        1_900_999
    };
    let expires = if flaws.contains("Expired") {
        now
    } else {
        now + 1
    };
    let known = Known {
        id: "c",
        expires,
        disabled: flaws.contains("Disabled"),
        now,
    };
    answers(alloc, known, &head_with(value), wanted)
}

fn head_with(value: &str) -> AuthHead<'_> {
    AuthHead {
        header: Some(value.as_bytes()),
        count: 1,
        method: b"PUT",
        target: b"/a%2Fb?c",
        content_type: None,
        body: b"body",
        host: "farm",
        port: 80,
    }
}

/// The flaws of a request, and the first of them in the order.
const REFUSALS: &str = "|let in
BadHeader|BadHeader
UnknownClient|UnknownClient
Disabled|Disabled
Expired|Expired
Skew|Skew 1000 1901
BadMac|BadMac
BadHash|BadHash
BadExt|BadExt
Oversteps|Oversteps *
BadHeader UnknownClient|BadHeader
UnknownClient Disabled|UnknownClient
Disabled Expired|Disabled
Expired Skew|Expired
Skew BadMac|Skew 1000 1901
BadMac BadHash|BadMac
BadHash BadExt|BadHash
BadExt Oversteps|BadExt";

fn is_row(alloc: Global, row: &str) -> bool {
    match row.split_once('|') {
        Some((flaws, first)) => is_refused(alloc, flaws, first),
        None => false,
    }
}

#[test]
fn refusals_alone_and_in_pairs(rt: HostRuntime) {
    for row in REFUSALS.lines() {
        assert!(rt; is_row(rt.alloc(), row), "{row}");
    }
}
