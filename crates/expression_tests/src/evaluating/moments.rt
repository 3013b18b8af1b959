//! Moments and spans of time.

pub(super) const SPANS: &str = r#"fromNow('') ~ "2024-01-01T00:00:00.000Z"
fromNow('1 day') ~ "2024-01-02T00:00:00.000Z"
fromNow('-1 day') ~ "2023-12-31T00:00:00.000Z"
fromNow('+1d') ~ "2024-01-02T00:00:00.000Z"
fromNow(' - 2 h ') ~ "2023-12-31T22:00:00.000Z"
fromNow('1 week 2 days 3 hours 4 minutes 5 seconds') ~ "2024-01-10T03:04:05.000Z"
fromNow('1w2d3h4m5s') ~ "2024-01-10T03:04:05.000Z"
fromNow('2weeks') ~ "2024-01-15T00:00:00.000Z"
fromNow('90 min') ~ "2024-01-01T01:30:00.000Z"
fromNow('10 sec') ~ "2024-01-01T00:00:10.000Z"
fromNow('0 s') ~ "2024-01-01T00:00:00.000Z"
fromNow('-') ~ "2024-01-01T00:00:00.000Z"
fromNow('1 day 1 week') ~ !11
fromNow('1 day 1 day') ~ !11
fromNow('1') ~ !11
fromNow('day') ~ !11
fromNow('1 dayz') ~ !11
fromNow('1 month') ~ !11
fromNow('1 year') ~ !11
fromNow('1.5 days') ~ !11
fromNow('--1 day') ~ !11"#;

pub(super) const MOMENTS: &str =
    r#"fromNow('1 day', '2020-02-28T23:59:59Z') ~ "2020-02-29T23:59:59.000Z"
fromNow('', '2020-02-28T23:59:59.1239+01:00') ~ "2020-02-28T22:59:59.123Z"
fromNow('', 'yesterday') ~ !3
fromNow('', '9999-01-01T00:00:00Z') ~ !3
fromNow('x', 'yesterday') ~ !11
fromNow('x', 1) ~ !3
fromNow(1, 1) ~ !3
fromNow('', 1) ~ !3
fromNow(1) ~ !3
fromNow() ~ !3
fromNow('','','') ~ !3
fromNow('-1 s', '1970-01-01T00:00:00Z') ~ !4
fromNow('1 s', '9998-12-31T23:59:59.999Z') ~ "9999-01-01T00:00:00.999Z"
fromNow('365 d', '9998-12-31T23:59:59.999Z') ~ "9999-12-31T23:59:59.999Z"
fromNow('365 d 1 s', '9998-12-31T23:59:59.999Z') ~ !4
fromNow('99999999999999999999999 weeks') ~ !4
fromNow('-99999999999999999999999 weeks') ~ !4"#;
