//! Members, indexes and slices.

pub(super) const KEYS: &str = r#"d.k ~ "v"
d.n.m ~ 7
d['k'] ~ "v"
d["n"]['m'] ~ 7
d.x ~ !6
d[''] ~ !6
a.k ~ !3
c.k ~ !3
z.k ~ !3
c['k'] ~ !3"#;

pub(super) const INDEXES: &str = r#"c[0] ~ 10
c[2] ~ 30
c[3] ~ !6
c[-1] ~ 30
c[-3] ~ 10
c[-4] ~ !6
f[0] ~ !6
b[0] ~ "t"
b[-1] ~ "t"
b[1] ~ "e"
b[4] ~ !6
u[1] ~ "é"
u[-2] ~ "中"
e[0] ~ !6
d[0] ~ !3
a[0] ~ !3
c[null] ~ !3
c[[0]] ~ !3
b[true] ~ !3
c[1+1] ~ 30
[1,2,3][1] ~ 2
{a: {b: 5}}.a.b ~ 5
'abc'[1] ~ "b"
(1/0)[missing] ~ !5
missing[1/0] ~ !2"#;

pub(super) const LIST_SLICES: &str = "c[:] ~ [10,20,30]
c[1:] ~ [20,30]
c[:1] ~ [10]
c[1:2] ~ [20]
c[0:9] ~ [10,20,30]
c[-1:] ~ [30]
c[:-1] ~ [10,20]
c[-2:-1] ~ [20]
c[-9:9] ~ [10,20,30]
c[-9:-9] ~ []
c[2:1] ~ []
c[1:1] ~ []
c[5:9] ~ []
c[-1:1] ~ []
c[1:-1] ~ [20]
f[:] ~ []";

pub(super) const OTHER_SLICES: &str = r#"b[1:3] ~ "ex"
b[:-1] ~ "tex"
b[-2:] ~ "xt"
b[3:1] ~ ""
u[1:3] ~ "é中"
e[:] ~ ""
d[:] ~ !3
a[0:1] ~ !3
c['0':] ~ !3
c[:null] ~ !3
c[true:] ~ !3
c[missing:(1/0)] ~ !2
c[(1/0):missing] ~ !5"#;
