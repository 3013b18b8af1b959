//! Truth, order and membership.

pub(super) const DENIALS: &str = "!true ~ false
!0 ~ true
!!b ~ true
!e ~ true
!f ~ true
!g ~ true
!z ~ true
!c ~ false
!neg ~ false";

pub(super) const DECIDING: &str = "true && false ~ false
1 && 'a' ~ true
0 && missing ~ false
1 && missing ~ !2
missing && 0 ~ !2
0 || '' ~ false
0 || 'a' ~ true
1 || missing ~ true
0 || missing ~ !2
0 && missing || 1 ~ true
1 || 0 && missing ~ true
0 && (1 && missing) || 0 ~ false
0 && missing && missing ~ false
0 && [missing, {a: missing}.a, len(missing)] ~ false
1 || missing || missing ~ true
!(1 && 0) ~ true";

pub(super) const EQUALITY: &str = "1 == 1 ~ true
1 == 2 ~ false
1 == '1' ~ false
1 != '1' ~ true
null == null ~ true
null == false ~ false
0 == false ~ false
c == [10,20,30] ~ true
c == [10,30,20] ~ false
c == [10,20] ~ false
d == {n: {m: 7}, k: 'v'} ~ true
d != {n: {m: 8}, k: 'v'} ~ true
{} == [] ~ false";

pub(super) const ORDER: &str = "1 < 2 ~ true
2 < 1 ~ false
1 < 1 ~ false
1 <= 1 ~ true
1 > 1 ~ false
2 > 1 ~ true
1 >= 1 ~ true
1 >= 2 ~ false
'a' < 'b' ~ true
'a' < 'B' ~ false
'a' < 'aa' ~ true
'é' > 'z' ~ true
'a' < 1 ~ !3
1 < 'a' ~ !3
null < 1 ~ !3
true < false ~ !3
c < c ~ !3";

pub(super) const COMPARED: &str = "1 < 2 == true ~ true
1 + 1 < 3 && 2 > 1 ~ true
1 == 1 == true ~ true
1 in [1] == true ~ !3
!1 == 2 ~ false";

pub(super) const MEMBERSHIP: &str = "'ex' in b ~ true
'xe' in b ~ false
'' in b ~ true
'' in '' ~ true
'text' in b ~ true
'textt' in b ~ false
20 in c ~ true
25 in c ~ false
'20' in c ~ false
c in [c] ~ true
{} in [[], {}] ~ true
1 in [] ~ false
'k' in d ~ true
'v' in d ~ false
'm' in d ~ false
1 in d ~ !3
1 in b ~ !3
'a' in 1 ~ !3
'a' in null ~ !3
null in null ~ !3
!('a' in b) ~ true
't' + 'e' in b ~ true";
