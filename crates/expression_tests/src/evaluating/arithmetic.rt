//! Operators on numbers.

pub(super) const SUMS: &str = "1+2 ~ 3
1 - 2 ~ -1
2*3 ~ 6
6/3 ~ 2
7/2 ~ !5
1/0 ~ !5
0/5 ~ 0
(0-7)/7 ~ -1
(0-7)/2 ~ !5";

pub(super) const POWERS: &str = "2**3 ~ 8
2**3**2 ~ 512
(2**3)**2 ~ 64
2**0 ~ 1
0**0 ~ 1
2**(0-1) ~ !5
2**62 ~ 4611686018427387904
2**63 ~ !4
(0-2)**63 ~ -9223372036854775808
1**big ~ 1
(0-1)**big ~ -1
2**big ~ !4";

pub(super) const SIGNS: &str = "-2**2 ~ 4
-(2**2) ~ -4
-a ~ -1
--a ~ 1
+a ~ 1
+'a' ~ !3
-'a' ~ !3
-true ~ !3
big+1 ~ !4
big*2 ~ !4
0-big-2 ~ !4
-(0-big-1) ~ !4
(0-big-1)/(0-1) ~ !4";

pub(super) const LEVELS: &str = "1+2*3 ~ 7
(1+2)*3 ~ 9
10-2-3 ~ 5
100/10/5 ~ 2
2*3**2 ~ 18";

pub(super) const KINDS: &str = r#"1+'a' ~ !3
'a'+1 ~ !3
'a'+'b' ~ "ab"
b+e ~ "text"
c+c ~ !3
null+null ~ !3
true+true ~ !3
'a'-'a' ~ !3
'a'*2 ~ !3
'4'/2 ~ !3
2**'3' ~ !3
missing+(1/0) ~ !2
(1/0)+missing ~ !5"#;
