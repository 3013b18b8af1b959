//! What expressions cost, and that the dearest end soon.
use super::first_other;
use std::alloc::{AllocError, Global};

/// Expressions, and what is paid for each.
const COSTS: &str = "1 ~ paid 1
'abc' ~ paid 4
s ~ paid 5
l ~ paid 3
(1) ~ paid 2
1+2 ~ paid 3
s+s ~ paid 19
1 && 2 ~ paid 3
0 && missing ~ paid 2
1 || missing ~ paid 2
[1,2] ~ paid 5
{a: 1} ~ paid 4
l[0] ~ paid 5
l[0:1] ~ paid 7
l[:] ~ paid 6
len(s) ~ paid 6
len(range(0,10)) ~ paid 14
!s ~ paid 6
[] ~ paid 1
{} ~ paid 1";

/// No more than the limit is paid: where 999,997 were paid before, one more, and where 500,000 were.
const NEAR: &str = "1+2 ~ paid 3";

const NEARER: &str = "1+2 ~ too much";

const HALF: &str = "range(0,499997) ~ paid 500000
range(0,499998) ~ too much";

#[test]
fn values_are_paid_for(rt: HostRuntime) {
    let names = r#"{"s":"abcd","l":[1,2]}"#;
    let told = [
        first_other(rt.alloc(), names, 0, COSTS),
        first_other(rt.alloc(), "{}", 999_997, NEAR),
        first_other(rt.alloc(), "{}", 999_998, NEARER),
        first_other(rt.alloc(), "{}", 500_000, HALF),
    ];
    assert_eq!(rt; told, ["none"; 4]);
}

/// Expressions over a text of 300,000 `a` and one of 200,000 with a `b` behind them, and what is paid for each, or that it is too much.
const DEAREST: &str = "needle in long ~ paid 500004
len(split(long, needle)) ~ paid 800006
len(split(long, 'a')) ~ paid 600006
len(split(long, '')) ~ paid 900004
len(join(range(0, 150000), long)) ~ too much
len(long + long + long) ~ too much
range(0, 9223372036854775807) ~ too much
len(range(0, 999990)) ~ paid 999994
[long, long, long] ~ too much
long == long ~ paid 600003
uppercase(long)[-1] ~ paid 600006";

/// The names of the two texts.
fn long_names(alloc: Global) -> Result<String, AllocError> {
    let long = "a".repeat(alloc, 300_000)?;
    let needle = "a".repeat(alloc, 200_000)?;
    format!(in alloc;
        "{{\"long\":\"{}\",\"needle\":\"{}b\"}}",
        long.as_str(),
        needle.as_str()
    )
}

fn other_of_long(alloc: Global) -> &'static str {
    match long_names(alloc) {
        Ok(names) => first_other(alloc, names.as_str(), 0, DEAREST),
        Err(_) => "no memory",
    }
}

/// A map of 100,001 members, the greatest key first, and what is paid for it.
fn wide_row(alloc: Global) -> Result<String, AllocError> {
    let mut text = String::from_str(alloc, "{last:0")?;
    for key in (100_000..200_000).rev() {
        text.push_str(format!(in alloc; ",k{key}:0")?.as_str())?;
    }
    text.push_str("} ~ paid 900007")?;
    Ok(text)
}

fn is_wide_paid(alloc: Global) -> bool {
    match wide_row(alloc) {
        Ok(row) => first_other(alloc, "{}", 0, row.as_str()) == "none",
        Err(_) => false,
    }
}

#[test]
fn the_dearest_end(rt: HostRuntime) {
    assert_eq!(rt; other_of_long(rt.alloc()), "none");
    assert!(rt; is_wide_paid(rt.alloc()));
}
