//! Texts, slugids, moments, clocks and draws.
use causes::FaultCount;
use farm_text::{
    Clock, Draws, HostClock, LAST_MOMENT, LAST_TOLD_MOMENT, ListClock, ListDraws, Moment, SlugId,
    Text, read_moment, write_moment,
};
use random_ids::HostDraws;
use std::alloc::{AllocError, Global};
use std::test::Fail;

mod documents;

/// Whether the next moments that a clock tells are these.
fn tells(clock: &mut ListClock, wanted: &[u64]) -> bool {
    let mut all = true;
    for millis in wanted {
        all &= clock.now().millis() == *millis;
    }
    all
}

/// Whether another clock like this one begins with the first moment.
fn forks(clock: &mut ListClock) -> bool {
    match clock.fork() {
        Ok(mut other) => tells(&mut other, &[0]),
        Err(_) => false,
    }
}

/// Whether a clock of two moments tells them, and the last one again; and also behind another one that is made like it.
fn tells_its_last(mut clock: ListClock) -> bool {
    tells(&mut clock, &[0, LAST_TOLD_MOMENT, LAST_TOLD_MOMENT])
        && forks(&mut clock)
        && tells(&mut clock, &[LAST_TOLD_MOMENT])
}

/// The first moment and the last.
fn first_and_last(alloc: Global) -> Option<Vec<Moment>> {
    let last = Moment::from_millis(LAST_MOMENT)?;
    Vec::from_array(alloc, [Moment::FIRST, last]).ok()
}

#[test]
fn clocks_tell_their_last_again(rt: HostRuntime) {
    let told = match first_and_last(rt.alloc()) {
        Some(moments) => tells_its_last(ListClock::new(moments)),
        None => false,
    };
    assert!(rt; told);
}

/// Whether draws of an empty list tell this id, twice, and others can be made like them.
fn draws_tell(alloc: Global, slug: &str) -> bool {
    let mut draws = ListDraws::new(Vec::new(alloc));
    let mut all = true;
    for _ in 0..2 {
        all &= draws.draw().text().as_slice() == slug.as_bytes();
    }
    all && draws.fork().is_ok()
}

#[test]
fn draws_tell_their_last_again(rt: HostRuntime) {
    assert!(rt; draws_tell(rt.alloc(), "AAAAAAAAQACAAAAAAAAAAA"));
}

/// Whether a text is `bc`, like its copy, and behind the other.
fn is_text(text: &Text, other: &Text) -> bool {
    let is_copied = match text.clone() {
        Ok(copy) => copy == *text,
        Err(_) => false,
    };
    is_copied
        && *other < *text
        && !text.is_empty()
        && text.len() == 2
        && text.as_bytes() == b"bc".as_slice()
}

/// Whether the text of another's content is `bc`.
fn is_kept(text: Text) -> bool {
    Text::from_string(text.into_string()).as_str() == "bc"
}

fn are_texts(alloc: Global) -> bool {
    match (Text::from_str(alloc, "bc"), Text::from_str(alloc, "b")) {
        (Ok(text), Ok(other)) => is_text(&text, &other) && is_kept(text),
        _ => false,
    }
}

#[test]
fn texts(rt: HostRuntime) {
    assert!(rt; are_texts(rt.alloc()));
}

/// Whether the slugid of a UUID that ends in this byte, and is nothing else but of version 4, has this text.
fn is_slug(alloc: Global, last: u8, slug: &str) -> bool {
    let uuid = [0, 0, 0, 0, 0, 0, 0x40, 0, 0x80, 0, 0, 0, 0, 0, 0, last];
    match (SlugId::of_uuid(uuid), SlugId::read(slug.as_bytes())) {
        (Some(id), Some(read)) => read == id && is_told(&id.to_text(alloc), slug),
        _ => false,
    }
}

/// Whether this text was made.
fn is_told(text: &Result<Text, AllocError>, wanted: &str) -> bool {
    match text {
        Ok(text) => text.as_str() == wanted,
        Err(_) => false,
    }
}

#[test]
fn slugids(rt: HostRuntime) {
    let told = [
        is_slug(rt.alloc(), 0, "AAAAAAAAQACAAAAAAAAAAA"),
        is_slug(rt.alloc(), 1, "AAAAAAAAQACAAAAAAAAAAQ"),
        is_slug(rt.alloc(), 2, "AAAAAAAAQACAAAAAAAAAAg"),
        is_slug(rt.alloc(), 3, "AAAAAAAAQACAAAAAAAAAAw"),
        is_slug(rt.alloc(), 0, "AAAAAAAAQACAAAAAAAAAAQ"),
        SlugId::read(b"AAAAAAAAQACAAAAAAAAAAB").is_none(),
    ];
    assert_eq!(rt; told, [true, true, true, true, false, true]);
}

/// Whether the moment at so many milliseconds has this text.
fn is_moment(alloc: Global, millis: u64, wanted: &str) -> bool {
    match Moment::from_millis(millis) {
        Some(moment) => is_told(&moment.to_text(alloc), wanted),
        None => false,
    }
}

#[test]
fn moments(rt: HostRuntime) {
    let told = [
        is_moment(rt.alloc(), 0, "1970-01-01T00:00:00.000Z"),
        is_moment(rt.alloc(), 951_782_400_000, "2000-02-29T00:00:00.000Z"),
        is_moment(rt.alloc(), 1_704_067_200_000, "2024-01-01T00:00:00.000Z"),
        is_moment(rt.alloc(), LAST_MOMENT, "9999-12-31T23:59:59.999Z"),
        is_moment(rt.alloc(), 1, "1970-01-01T00:00:00.000Z"),
    ];
    assert_eq!(rt; told, [true, true, true, true, false]);
}

/// Whether the text after a row's bar is read as the number of milliseconds before it.
fn is_read_as(row: &str) -> bool {
    match row.split_once('|') {
        Some((millis, text)) => match (read_moment(text.as_bytes()), millis.parse()) {
            (Some(moment), Ok(wanted)) => moment.millis() == wanted,
            _ => false,
        },
        None => false,
    }
}

/// Milliseconds since 1970, and a moment that is read as them. The eighth and the ninth are of RFC 3339, section 5.8.
const MOMENTS: &str = "0|1970-01-01T00:00:00Z
0|1969-12-31T23:00:00-01:00
951782400000|2000-02-29T00:00:00-00:00
1704067200000|2024-01-01T00:00:00.000Z
1709251199900|2024-02-29T23:59:59.9Z
1704061800123|2024-01-01T00:00:00.123456789+01:30
1704067200001|2024-01-01T00:00:00.0019Z
482196050520|1985-04-12T23:20:50.52Z
851042397000|1996-12-19T16:39:57-08:00
253370764799999|9998-12-31T23:59:59.999999999Z
253370764799999|9999-01-01T23:58:59.999+23:59";

#[test]
fn moments_are_read(rt: HostRuntime) {
    for row in MOMENTS.split('\n') {
        assert!(rt; is_read_as(row), "{row}");
    }
    assert!(rt; !is_read_as("1|1970-01-01T00:00:00Z"));
}

/// What is no moment that is read. The first is empty, and one ends in a space.
const NO_MOMENTS: &str =
    "|1969-12-31T23:59:59.999Z|1970-01-01T00:00:00+00:01|9999-01-01T00:00:00Z|9998-12-31T23:59:59-00:01|2023-02-29T00:00:00Z|2100-02-29T00:00:00Z|2024-13-01T00:00:00Z|2024-01-00T00:00:00Z|2024-01-01T24:00:00Z|2024-01-01T00:60:00Z|2016-12-31T23:59:60Z|2024-01-01T00:00:00.Z|2024-01-01T00:00:00.1234567890Z|2024-01-01T00:00:00|2024-01-01T00:00:00+24:00|2024-01-01T00:00:00+00:60|2024-01-01T00:00:00+0100|2024-01-01T00:00:00Z |2024-01-01 00:00:00Z|2024-01-01t00:00:00z|2024-1-01T00:00:00Z";

#[test]
fn what_is_no_moment(rt: HostRuntime) {
    for text in NO_MOMENTS.split('|') {
        assert!(rt; read_moment(text.as_bytes()).is_none(), "{text}");
    }
}

#[test]
fn the_host_tells(rt: HostRuntime) -> Result<(), Fail> {
    let mut clock = HostClock::new(rt.clone()?);
    let mut beside = clock.fork()?;
    // 2024-01-01
    assert!(rt; clock.now().millis() > 1_704_067_200_000);
    assert!(rt; beside.now().millis() > 1_704_067_200_000);
    let mut refused = FaultCount::new();
    let mut draws = HostDraws::new(&rt, &mut refused).map_err(|_| "no random bytes")?;
    assert_ne!(rt; draws.draw(), draws.draw());
    assert_ne!(rt; draws.seed_another().draw(), draws.draw());
    let mut others = draws.fork()?;
    assert_ne!(rt; others.draw(), draws.draw());
    Ok(())
}
