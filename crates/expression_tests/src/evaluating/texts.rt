//! Functions of texts.

pub(super) const TEXTS: &str = r#"str(1) ~ "1"
str(neg) ~ "-5"
str(true) ~ "true"
str(null) ~ "null"
str('a') ~ "a"
str([]) ~ !3
str({}) ~ !3
str() ~ !3"#;

pub(super) const LETTERS: &str = r#"lowercase('AbCÉ1') ~ "abcÉ1"
uppercase('aBcé1') ~ "ABCé1"
lowercase(1) ~ !3
uppercase() ~ !3
lstrip('  a ') ~ "a "
rstrip('  a ') ~ "  a"
strip('   ') ~ ""
strip('') ~ ""
strip(1) ~ !3"#;

pub(super) const PIECES: &str = r#"split('a,b,c', ',') ~ ["a","b","c"]
split('a', ',') ~ ["a"]
split('', ',') ~ [""]
split(',', ',') ~ ["",""]
split('a,,b', ',') ~ ["a","","b"]
split('aXXbXXc', 'XX') ~ ["a","b","c"]
split('aaa', 'aa') ~ ["","a"]
split('aéb', '') ~ ["a","é","b"]
split('', '') ~ []
split('a') ~ !3
split('a', 1) ~ !3
split(1, 'a') ~ !3"#;

pub(super) const JOINED: &str = r#"join(['a','b'], ', ') ~ "a, b"
join([1,-2], '') ~ "1-2"
join([], 'x') ~ ""
join(['a'], 'x') ~ "a"
join(['','',''], 'x') ~ "xx"
join([true], 'x') ~ !3
join([['a']], 'x') ~ !3
join([null,'a'], 'x') ~ !3
join('ab', 'x') ~ !3
join(['a'], 1) ~ !3
join(['a']) ~ !3"#;

pub(super) const KINDS: &str = r#"typeof(null) ~ "null"
typeof(t) ~ "boolean"
typeof(a) ~ "number"
typeof(b) ~ "string"
typeof(c) ~ "array"
typeof(d) ~ "object"
typeof() ~ !3
defined('a') ~ true
defined('z') ~ true
defined('missing') ~ false
defined('len') ~ false
defined('k') ~ false
defined(1) ~ !3
defined('a','b') ~ !3
missing(1) ~ no tree
a(1) ~ no tree"#;

pub(super) const UNSEEN: &str = "strip('\u{a0}a') ~ \"\u{a0}a\"
strip('\u{c}a') ~ \"\\fa\"";
