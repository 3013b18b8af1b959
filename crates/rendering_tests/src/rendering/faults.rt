//! Which of several faults is the first, and what stops before a fault.

pub(super) const THE_FIRST_FAULT_IS_TOLD: &str = r#"["${nope}","${7/2}"] ~ !2 /0
{"b":["${nope}"],"a":{"$eval":"7/2"}} ~ !5 /a
{"$merge":[1,"${nope}"]} ~ !2 /$merge/1
{"$nope":"${"} ~ !7
{"$eval":"a","$if":"${"} ~ !7
[{"$eval":"len(range(0,2000000))"},"${nope}"] ~ too much
["${nope}",{"$eval":"len(range(0,2000000))"}] ~ !2 /0
{"$map":{"$eval":"range(0,300000)"},"each(x)":{"$eval":"nope"}} ~ !2 /each(x)
{"$let":{"x":"${nope}"},"in":"${"} ~ !2 /$let/x
{"$if":"nope","then":"${"} ~ !2"#;
