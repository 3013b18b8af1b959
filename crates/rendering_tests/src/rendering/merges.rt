//! `$merge`, `$mergeDeep`, `$flatten`, `$flattenDeep` and `$reverse`.

pub(super) const MERGED: &str = r#"{"$merge":[{"a":1,"b":2},{"b":3,"c":4}]} ~ {"a":1,"b":3,"c":4}
{"$merge":[{"a":{"x":1}},{"a":{"y":2}}]} ~ {"a":{"y":2}}
{"$merge":[]} ~ {}
{"$merge":[{"$if":"false","then":{"a":1}},{"b":2}]} ~ {"b":2}
{"$merge":{"$eval":"[d, {'k': a}]"}} ~ {"k":1,"n":{"m":7}}
{"$merge":[{"a":1},2]} ~ !3
{"$merge":{"a":1}} ~ !3
{"$merge":[{"a":"${nope}"}]} ~ !2 /$merge/0/a
{"$mergeDeep":[{"a":{"x":1,"l":[1]}},{"a":{"y":2,"l":[2]},"b":3}]} ~ {"a":{"l":[1,2],"x":1,"y":2},"b":3}
{"$mergeDeep":[{"a":1},{"a":{"x":1}},{"a":2}]} ~ {"a":2}
{"$mergeDeep":[{"a":[1]},{"a":{"x":1}}]} ~ {"a":{"x":1}}
{"$mergeDeep":[{"a":null},{"a":[1]},{"a":[2]}]} ~ {"a":[1,2]}
{"$mergeDeep":[]} ~ {}
{"$mergeDeep":[{"a":1},[2]]} ~ !3
{"$mergeDeep":1} ~ !3
{"$mergeDeep":["${nope}"]} ~ !2 /$mergeDeep/0"#;

pub(super) const FLATTENED: &str = r#"{"$flatten":[[1,[2]],3,[],"x"]} ~ [1,[2],3,"x"]
{"$flatten":[]} ~ []
{"$flatten":[{"$if":"false","then":1},[{"$if":"false","then":1}]]} ~ []
{"$flatten":{"a":1}} ~ !3
{"$flatten":[["${nope}"]]} ~ !2 /$flatten/0/0
{"$flattenDeep":[[1,[2,[[3]]]],{"a":[4]}]} ~ [1,2,3,{"a":[4]}]
{"$flattenDeep":[[],[[]]]} ~ []
{"$flattenDeep":1} ~ !3
{"$flattenDeep":["${nope}"]} ~ !2 /$flattenDeep/0
{"$reverse":[1,2,[3,4]]} ~ [[3,4],2,1]
{"$reverse":[]} ~ []
{"$reverse":{"$eval":"c"}} ~ [30,20,10]
{"$reverse":"abc"} ~ !3
{"$reverse":["${nope}"]} ~ !2 /$reverse/0"#;
