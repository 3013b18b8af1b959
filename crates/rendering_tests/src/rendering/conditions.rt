//! `$eval`, `$if`, `$switch`, `$match` and `$fromNow`.

pub(super) const EVALUATED: &str = r#"{"$eval":"range(0,3)"} ~ [0,1,2]
{"$eval":"2**3**2"} ~ 512
{"$eval":"-2**2"} ~ 4
{"$eval":"d"} ~ {"k":"v","n":{"m":7}}
{"$eval":"{'${a}':'${a}'}"} ~ {"${a}":"${a}"}
{"$eval":"7/2"} ~ !5
{"$eval":"nope"} ~ !2
{"$eval":""} ~ !1
{"$eval":"1 +"} ~ !1
{"$eval":1} ~ !3
{"$eval":{"$eval":"'a'"}} ~ !3
{"$eval":"9223372036854775808"} ~ !4
{"x":{"$eval":"7/2"}} ~ !5 /x
{"$eval":"len(range(0,10))"} ~ 10
{"$eval":"len(range(0,2000000))"} ~ too much
{"$json":{"x":["${a}",{"$if":"false","then":1}]}} ~ "{\"x\":[\"1\"]}"
{"$json":{"$switch":{}}} ~ "null"
{"$json":"é\""} ~ "\"é\\\"\""
{"$json":{"x":"${nope}"}} ~ !2 /$json/x"#;

pub(super) const BRANCHES: &str = r#"{"$if":"true","then":1} ~ 1
{"$if":"a == 1","then":"x${a}","else":2} ~ "x1"
{"$if":"false","then":1,"else":2} ~ 2
{"$if":"[]","then":1,"else":2} ~ 2
{"$if":"false","then":2} ~ null
{"$if":"true","else":2} ~ null
{"$if":"true"} ~ null
{"$if":"true","then":{"$if":"false","then":1}} ~ null
[{"$if":"true","then":{"$if":"false","then":1}}] ~ []
{"$if":"true","then":1,"else":"${nope}"} ~ 1
{"$if":"nope","then":1} ~ !2
{"$if":true,"then":1} ~ !3
{"$if":"(","then":1} ~ !1
{"$if":"true","then":"${nope}"} ~ !2 /then
{"$if":"false","else":["${nope}"]} ~ !2 /else/0
{"$switch":{"a == 1":"one","a == 2":"two"}} ~ "one"
{"$switch":{"a == 2":"two","$default":"other"}} ~ "other"
{"$switch":{"a == 2":"two"}} ~ null
{"$switch":{}} ~ null
{"$switch":{"$default":["${a}"]}} ~ ["1"]
{"$switch":{"a == 1":{"$switch":{}}}} ~ null
{"$switch":{"true":1,"a":2}} ~ !8
{"$switch":{"true":"${nope}","t":2}} ~ !8
{"$switch":{"true":1,"nope":2}} ~ !2
{"$switch":{"b":1,"$x":2}} ~ !1
{"$switch":[]} ~ !3
{"$switch":{"$eval":"d"}} ~ !1
{"$switch":{"a == 1":"${nope}"}} ~ !2 /$switch/a == 1
{"$switch":{"'a/b'":"${nope}"}} ~ !2 /$switch/'a~1b'
{"$switch":{"$default":"${nope}"}} ~ !2 /$switch/$default
{"$match":{"a == 1":"one","true":"two","a == 2":"three"}} ~ ["one","two"]
{"$match":{"t":2,"a":1}} ~ [1,2]
{"$match":{"false":1}} ~ []
{"$match":{}} ~ []
{"$match":{"a":{"$if":"false","then":1},"t":2}} ~ [2]
{"$match":{"$default":1}} ~ !1
{"$match":1} ~ !3
{"$match":{"t":"${nope}","a":"${7/2}"}} ~ !5 /$match/a
{"$match":{"t":"${nope}","u + 1":2}} ~ !3"#;

pub(super) const MOMENTS: &str = r#"{"$fromNow":"1 day"} ~ "2024-01-02T00:00:00.000Z"
{"$fromNow":""} ~ "2024-01-01T00:00:00.000Z"
{"$fromNow":"${a} day"} ~ "2024-01-02T00:00:00.000Z"
{"$fromNow":"- 2 h 3 m","from":"2024-02-01T00:00:00.000Z"} ~ "2024-01-31T21:57:00.000Z"
{"$fromNow":"1 day","from":"${now}"} ~ "2024-01-02T00:00:00.000Z"
{"$let":{"now":"2020-02-28T00:00:00.000Z"},"in":{"$fromNow":"1d"}} ~ "2020-02-29T00:00:00.000Z"
{"$fromNow":"1 dax"} ~ !11
{"$fromNow":1} ~ !3
{"$fromNow":"1 dax","from":1} ~ !3
{"$fromNow":"1 day","from":{"$switch":{}}} ~ !3
{"$fromNow":"1 day","from":"x"} ~ !3
{"$fromNow":"-60 years"} ~ !11
{"$fromNow":"-99999 weeks"} ~ !4
{"$fromNow":"${nope}","from":"${"} ~ !2 /$fromNow
{"$fromNow":"1 day","from":"${"} ~ !1 /from
{"$let":{"now":1},"in":{"$fromNow":"1d"}} ~ !3 /in"#;
