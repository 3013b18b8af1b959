//! Maps without an operator, and keys of operators.

pub(super) const PLAIN_MAPS: &str = r#"{} ~ {}
{"x":"${a}","y":[2]} ~ {"x":"1","y":[2]}
{"a":{"$if":"false","then":2}} ~ {}
{"a":{"$if":"false","then":2},"b":1} ~ {"b":1}
{"${b}":1} ~ {"text":1}
{"k${a}":{"${a}":2}} ~ {"k1":{"1":2}}
{"$${a}":1} ~ {"${a}":1}
{"$$if":1} ~ {"$if":1}
{"$$_":1} ~ {"$_":1}
{"$$$if":1} ~ {"$$$if":1}
{"$":1,"$1":2,"$$":3,"$$1":4} ~ {"$":1,"$$":3,"$$1":4,"$1":2}
{"then":1,"else":2,"in":3} ~ {"else":2,"in":3,"then":1}
{"$$eval":"a"} ~ {"$eval":"a"}
{"$$x${a}":1} ~ {"$x1":1}
{"${z}":1} ~ {"":1}
{"a":1,"${'a'}":2} ~ !9
{"1":{"$if":"false","then":2},"${a}":2} ~ {"1":2}
{"x":{"a":1,"${'a'}":2}} ~ !9 /x
{"${c}":1} ~ !3
{"${":1} ~ !1
{"x":{"${nope}":1}} ~ !2 /x
{"${nope}":"${"} ~ !1 /${nope}
{"a/b":{"c~d":"${nope}"}} ~ !2 /a~1b/c~0d
{"":"${nope}"} ~ !2 /
{"b":"${nope}","a":"${"} ~ !1 /a"#;

pub(super) const KEYS_OF_OPERATORS: &str = r#"{"$nope":1} ~ !7
{"$a b":1} ~ !7
{"$_":1} ~ !7
{"$default":1} ~ !7
{"$if":"true","$eval":"1"} ~ !7
{"$eval":"a","x":1} ~ !7
{"$eval":"nope","x":1} ~ !7
{"$if":"true","then":1,"other":2} ~ !7
{"$if":"true","then":1,"in":2} ~ !7
{"$let":{"x":1}} ~ !7
{"$let":{"x":1},"in":1,"then":2} ~ !7
{"$map":[1]} ~ !7
{"$map":[1],"each":1} ~ !7
{"$map":[1],"each()":1} ~ !7
{"$map":[1],"each(x":1} ~ !7
{"$map":[1],"each( x)":1} ~ !7
{"$map":[1],"each(x, i)":1} ~ !7
{"$map":[1],"each(x,x)":1} ~ !7
{"$map":[1],"each(in)":1} ~ !7
{"$map":[1],"each(1x)":1} ~ !7
{"$map":[1],"each(x,y,w)":1} ~ !7
{"$map":[1],"each(x)":1,"each(y)":1} ~ !7
{"$map":[1],"each(x)":1,"more":1} ~ !7
{"$map":"${nope}","by(x)":1} ~ !7
{"$find":[1]} ~ !7
{"$find":[1],"each(a,b,c)":"true"} ~ !7
{"$reduce":[1],"initial":0} ~ !7
{"$reduce":[1],"each(a,v)":0} ~ !7
{"$reduce":[1],"initial":0,"each(a)":0} ~ !7
{"$reduce":[1],"initial":0,"each(a,v,a)":0} ~ !7
{"$sort":[1],"by":"x"} ~ !7
{"$sort":[1],"by(x,y)":"x"} ~ !7
{"$sort":[1],"each(x)":"x"} ~ !7
{"$json":1,"x":2} ~ !7
{"$merge":[],"x":2} ~ !7
{"$fromNow":"","x":2} ~ !7
{"$switch":{},"$$x":2} ~ !7
[{"$nope":1}] ~ !7 /0"#;
