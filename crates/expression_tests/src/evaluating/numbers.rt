//! Functions that give numbers.

pub(super) const PICKED: &str = "min(1) ~ 1
min(3,1,2) ~ 1
max(3,1,2) ~ 3
min(neg,a) ~ -5
max(neg,-7) ~ -5
min() ~ !3
max() ~ !3
min(1,'a') ~ !3
max('a',1) ~ !3
min(c) ~ !3
abs(5) ~ 5
abs(neg) ~ 5
abs(0) ~ 0
abs(0-big-1) ~ !4
abs('a') ~ !3
abs() ~ !3
abs(1,2) ~ !3";

pub(super) const READ: &str = "number('12') ~ 12
number('-12') ~ -12
number('+12') ~ !3
number('') ~ !3
number('-') ~ !3
number(' 1') ~ !3
number('1.5') ~ !3
number('9223372036854775808') ~ !4
number('-9223372036854775808') ~ -9223372036854775808
number(1) ~ !3";

pub(super) const LENGTHS: &str = "len('abc') ~ 3
len(u) ~ 4
len('') ~ 0
len(c) ~ 3
len([]) ~ 0
len(d) ~ !3
len(1) ~ !3
len() ~ !3
len(c,c) ~ !3
len(missing, 1/0) ~ !2";

pub(super) const RANGES: &str = "range(0,3) ~ [0,1,2]
range(3,0) ~ []
range(0,0) ~ []
range(-2,2) ~ [-2,-1,0,1]
range(0,7,3) ~ [0,3,6]
range(0,6,3) ~ [0,3]
range(3,0,-1) ~ [3,2,1]
range(5,-2,-3) ~ [5,2,-1]
range(0,3,-1) ~ []
range(0,3,0) ~ !4
range(0,'a',0) ~ !3
range(big-1,big) ~ [9223372036854775806]
range(big-1,big,5) ~ [9223372036854775806]
range(0) ~ !3
range(0,1,1,1) ~ !3
len(range(0,10)) ~ 10
len(range(0,2000000)) ~ too much
range(0-big,big) ~ too much";
