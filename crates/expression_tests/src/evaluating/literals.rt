//! Literals, names, lists and maps.

pub(super) const LITERALS: &str = r#"0 ~ 0
007 ~ 7
9223372036854775807 ~ 9223372036854775807
9223372036854775808 ~ !4
-9223372036854775808 ~ !4
99999999999999999999999999 ~ !4
'' ~ ""
'a' ~ "a"
"a'b" ~ "a'b"
'é' ~ "é"
'\n' ~ "\\n"
true ~ true
false ~ false
null ~ null
a ~ 1
b ~ "text"
d ~ {"k":"v","n":{"m":7}}
z ~ null
missing ~ !2
A ~ !2
min ~ 3
max ~ !2
len ~ !2
(a) ~ 1
((a)) ~ 1"#;

pub(super) const LISTS: &str = r#"[] ~ []
[1] ~ [1]
[1,[2,3],'a',null] ~ [1,[2,3],"a",null]
[a, a+1, missing] ~ !2
[1,] ~ no tree
{} ~ {}
{a: 1} ~ {"a":1}
{b: 1, a: 2} ~ {"a":2,"b":1}
{'x y': 1, "z": {q: []}} ~ {"x y":1,"z":{"q":[]}}
{'': 1} ~ {"":1}
{a: 1, a: 2} ~ !9
{a: 1, 'a': 2} ~ !9
{a: 1, a: missing} ~ !2
{a: 1, b: 2, a: 3, c: 1/0} ~ !5
[{a: 1, a: 2}, missing] ~ !9
{len: len([1,2])} ~ {"len":2}
[[[]],[[],[]]] ~ [[[]],[[],[]]]"#;
