//! `$let`, `$map`, `$reduce`, `$find` and `$sort`.

pub(super) const BOUND: &str =
    r#"{"$let":{"x":5,"y":"${b}"},"in":["${x}",{"$eval":"y"}]} ~ ["5","text"]
{"$let":{"a":2},"in":{"$let":{"w":{"$eval":"a"}},"in":"${a}${w}"}} ~ "22"
{"$let":{"x":{"$if":"false","then":1}},"in":{"$eval":"defined('x')"}} ~ false
{"$let":{"x":1},"in":{"$if":"false","then":1}} ~ null
{"$let":{"$eval":"d"},"in":"${k}"} ~ "v"
{"$let":{"${b}":1},"in":{"$eval":"text"}} ~ 1
{"$let":{},"in":1} ~ 1
[{"$let":{"x":1},"in":{"$switch":{}}},{"$eval":"defined('x')"}] ~ [false]
{"$let":{"x y":1},"in":1} ~ !7
{"$let":{"in":1},"in":1} ~ !7
{"$let":{"null":1},"in":"${"} ~ !7
{"$let":1,"in":1} ~ !3
{"$let":{"$switch":{}},"in":1} ~ !3
{"$let":{"x":"${nope}"},"in":1} ~ !2 /$let/x
{"$let":{"x":1},"in":{"q":"${nope}"}} ~ !2 /in/q"#;

pub(super) const MAPPED: &str = r#"{"$map":[1,2,3],"each(x)":{"$eval":"x * 2"}} ~ [2,4,6]
{"$map":["p","q"],"each(x,i)":"${x}${i}"} ~ ["p0","q1"]
{"$map":[],"each(x)":"${nope}"} ~ []
{"$map":[1,2,3],"each(x)":{"$if":"x == 2","else":{"$eval":"x"}}} ~ [1,3]
{"$map":{"$eval":"c"},"each(a)":["${a}"]} ~ [["10"],["20"],["30"]]
{"$map":{"p":1,"q":2},"each(v)":{"${v.key}":{"$eval":"v.val + 1"}}} ~ {"p":2,"q":3}
{"$map":{"p":1,"q":2},"each(v,k)":{"k${k}":{"$eval":"v"}}} ~ {"kp":1,"kq":2}
{"$map":{"q":2,"p":1},"each(v,k)":{"x":{"$eval":"v"}}} ~ {"x":2}
{"$map":{"p":1,"q":2},"each(v,k)":{"$if":"v == 2","then":{"x":1}}} ~ {"x":1}
{"$map":{},"each(v)":1} ~ {}
{"$map":[[1],[2]],"each(x)":{"$map":{"$eval":"x"},"each(y)":{"$eval":"[x,y]"}}} ~ [[[[1],1]],[[[2],2]]]
{"$map":1,"each(x)":1} ~ !3
{"$map":{"$switch":{}},"each(x)":1} ~ !3
{"$map":{"p":1},"each(v)":1} ~ !3
{"$map":{"p":1,"q":2},"each(v,k)":{"$if":"k == 'p'","then":1,"else":"${nope}"}} ~ !2 /each(v,k)/else
{"$map":["${nope}"],"each(x)":1} ~ !2 /$map/0
{"$map":[1,0],"each(x)":{"$eval":"1 / x"}} ~ !5 /each(x)
{"$map":[1,0],"each(x,i)":["${c[x + 9]}"]} ~ !6 /each(x,i)/0
{"$map":{"$eval":"range(0,400000)"},"each(x)":"abc"} ~ too much"#;

pub(super) const REDUCED: &str =
    r#"{"$reduce":[1,2,3],"initial":10,"each(s,v)":{"$eval":"s + v"}} ~ 16
{"$reduce":[1,2,3],"initial":0,"each(s,v,i)":{"$eval":"s + v * i"}} ~ 8
{"$reduce":[],"initial":"${a}","each(s,v)":"${nope}"} ~ "1"
{"$reduce":[1,2,3],"initial":0,"each(s,v)":{"$if":"v != 2","then":{"$eval":"s + v"}}} ~ 4
{"$reduce":[1],"initial":7,"each(s,v)":{"$switch":{}}} ~ 7
{"$reduce":[1],"initial":{"$switch":{}},"each(s,v)":{"$eval":"[s,v]"}} ~ [null,1]
{"$reduce":1,"initial":0,"each(s,v)":0} ~ !3
{"$reduce":{"p":1},"initial":0,"each(s,v)":0} ~ !3
{"$reduce":1,"initial":"${nope}","each(s,v)":0} ~ !2 /initial
{"$reduce":"${nope}","initial":"${","each(s,v)":0} ~ !2 /$reduce
{"$reduce":[1],"initial":0,"each(s,v)":{"$eval":"s.x"}} ~ !3 /each(s,v)"#;

pub(super) const FOUND: &str = r#"{"$find":[1,2,3],"each(x)":"x > 1"} ~ 2
{"$find":["p","q"],"each(x,i)":"i == 1"} ~ "q"
{"$find":[1,2],"each(x)":"x == 3"} ~ null
[{"$find":[1,2],"each(x)":"x == 3"}] ~ []
[{"$find":[],"each(x)":"("}] ~ []
[{"$find":[null],"each(x)":"true"}] ~ [null]
{"$find":[1,0],"each(x)":"1 / x"} ~ 1
{"$find":{"$eval":"d"},"each(x)":"true"} ~ !3
{"$find":[1],"each(x)":1} ~ !3
{"$find":[1],"each(x)":"("} ~ !1
{"$find":[0,1],"each(x)":"1 / x"} ~ !5
{"q":{"$find":[1],"each(x)":"nope"}} ~ !2 /q
{"$find":["${nope}"],"each(x)":"true"} ~ !2 /$find/0"#;

pub(super) const SORTED: &str = r#"{"$sort":[3,1,2]} ~ [1,2,3]
{"$sort":["b","a","é","Z",""]} ~ ["","Z","a","b","é"]
{"$sort":[]} ~ []
{"$sort":[3,-1,3,0]} ~ [-1,0,3,3]
{"$sort":[{"k":2,"n":1},{"k":1,"n":2},{"k":2,"n":3},{"k":1,"n":4}],"by(x)":"x.k"} ~ [{"k":1,"n":2},{"k":1,"n":4},{"k":2,"n":1},{"k":2,"n":3}]
{"$sort":["ccc","a","bb","d"],"by(x)":"len(x)"} ~ ["a","d","bb","ccc"]
{"$sort":[1,2,3],"by(x)":"-x"} ~ [3,2,1]
{"$sort":[[1],[2]],"by(x)":"'same'"} ~ [[1],[2]]
{"$sort":[],"by(x)":"("} ~ []
{"$sort":[1,"a"]} ~ !3
{"$sort":[null]} ~ !3
{"$sort":[[1]]} ~ !3
{"$sort":[true,false]} ~ !3
{"$sort":1} ~ !3
{"$sort":{"$switch":{}}} ~ !3
{"$sort":[1,2],"by(x)":"[x,'a'][x - 1]"} ~ !3
{"$sort":[1],"by(x)":1} ~ !3
{"$sort":[1],"by(x)":"nope"} ~ !2
{"$sort":["${nope}"],"by(x)":"x"} ~ !2 /$sort/0"#;
