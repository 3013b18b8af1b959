//! Vectors of the standards.
use hawk_auth::{hmac_sha256, payload_hash};
use sha2::{Digest, Sha256};

fn has_hash(content_type: &[u8], body: &[u8], wanted: &[u8]) -> bool {
    payload_hash(Some(content_type), body).as_slice() == wanted
}

/// Hawk's own payload ("Payload Validation" of its API page).
#[test]
fn payloads(rt: HostRuntime) {
    let body = b"Thank you for flying Hawk".as_slice();
    let wanted = b"Yi9LfIIFRtBEPt74PVmbTF/xVAwPn7ub15ePICfgnuY=".as_slice();
    let told = [
        has_hash(b"Text/Plain; charset=utf-8", body, wanted),
        has_hash(b"  text/plain ;x", body, wanted),
        payload_hash(None, body).as_slice() != wanted,
        has_hash(b"text/html", body, wanted),
    ];
    assert_eq!(rt; told, [true, true, true, false]);
}

fn has_mac(key: &[u8], data: &[u8], wanted: &[u8]) -> bool {
    hmac_sha256(key, data).as_slice() == wanted
}

/// RFC 4231, cases 1 to 4.
#[test]
fn macs(rt: HostRuntime) {
    let wanted =
        b"\xb0\x34\x4c\x61\xd8\xdb\x38\x53\x5c\xa8\xaf\xce\xaf\x0b\xf1\x2b\x88\x1d\xc2\x00\xc9\x83\x3d\xa7\x26\xe9\x37\x6c\x2e\x32\xcf\xf7";
    let first = [
        has_mac(&[0x0b; 20], b"Hi There", wanted),
        has_mac(&[0x0b; 20], b"Hi there", wanted),
    ];
    let wanted =
        b"\x5b\xdc\xc1\x46\xbf\x60\x75\x4e\x6a\x04\x24\x26\x08\x95\x75\xc7\x5a\x00\x3f\x08\x9d\x27\x39\x83\x9d\xec\x58\xb9\x64\xec\x38\x43";
    let second = has_mac(b"Jefe", b"what do ya want for nothing?", wanted);
    let wanted =
        b"\x77\x3e\xa9\x1e\x36\x80\x0e\x46\x85\x4d\xb8\xeb\xd0\x91\x81\xa7\x29\x59\x09\x8b\x3e\xf8\xc1\x22\xd9\x63\x55\x14\xce\xd5\x65\xfe";
    let third = has_mac(&[0xaa; 20], &[0xdd; 50], wanted);
    let key =
        b"\x01\x02\x03\x04\x05\x06\x07\x08\x09\x0a\x0b\x0c\x0d\x0e\x0f\x10\x11\x12\x13\x14\x15\x16\x17\x18\x19";
    let wanted =
        b"\x82\x55\x8a\x38\x9a\x44\x3c\x0e\xa4\xcc\x81\x98\x99\xf2\x08\x3a\x85\xf0\xfa\xa3\xe5\x78\xf8\x07\x7a\x2e\x3f\xf4\x67\x29\x66\x5b";
    let fourth = has_mac(key, &[0xcd; 50], wanted);
    assert_eq!(rt;
        [first[0], first[1], second, third, fourth],
        [true, false, true, true, true]
    );
}

/// RFC 4231, cases 6 and 7.
#[test]
fn macs_of_long_keys(rt: HostRuntime) {
    let key = [0xaa; 131];
    let data = b"Test Using Larger Than Block-Size Key - Hash Key First";
    let wanted =
        b"\x60\xe4\x31\x59\x1e\xe0\xb6\x7f\x0d\x8a\x26\xaa\xcb\xf5\xb7\x7f\x8e\x0b\xc6\x21\x37\x28\xc5\x14\x05\x46\x04\x0f\x0e\xe3\x7f\x54";
    let first = has_mac(&key, data, wanted);
    let data =
        b"This is a test using a larger than block-size key and a larger than block-size data. The key needs to be hashed before being used by the HMAC algorithm.";
    let wanted =
        b"\x9b\x09\xff\xa7\x1b\x94\x2f\xcb\x27\x63\x5f\xbc\xd5\xb0\xe9\x44\xbf\xdc\x63\x64\x4f\x07\x13\x93\x8a\x7f\x51\x53\x5c\x3a\x35\xe2";
    assert_eq!(rt; [first, has_mac(&key, data, wanted)], [true; 2]);
}

fn has_digest(data: &[u8], wanted: &[u8]) -> bool {
    Sha256::digest(data).as_slice() == wanted
}

/// FIPS 180-4's examples of SHA-256.
#[test]
fn digests(rt: HostRuntime) {
    let wanted =
        b"\xba\x78\x16\xbf\x8f\x01\xcf\xea\x41\x41\x40\xde\x5d\xae\x22\x23\xb0\x03\x61\xa3\x96\x17\x7a\x9c\xb4\x10\xff\x61\xf2\x00\x15\xad";
    let short = [has_digest(b"abc", wanted), has_digest(b"abd", wanted)];
    let long = b"abcdbcdecdefdefgefghfghighijhijkijkljklmklmnlmnomnopnopq";
    let wanted =
        b"\x24\x8d\x6a\x61\xd2\x06\x38\xb8\xe5\xc0\x26\x93\x0c\x3e\x60\x39\xa3\x3c\xe4\x59\x64\xff\x21\x67\xf6\xec\xed\xd4\x19\xdb\x06\xc1";
    assert_eq!(rt;
        [short[0], short[1], has_digest(long, wanted)],
        [true, false, true]
    );
}
