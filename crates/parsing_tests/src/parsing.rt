//! Texts against trees that were worked by hand from the levels of the grammar. A tree is shown with each part behind its operands.
use jsone_expr::marks::{Literal, Operator, Sign};
use jsone_expr::nodes::Node;
use jsone_expr::tokens::{Key, Span};
use jsone_expr::{ParseFault, parse};
use std::alloc::{AllocError, Global};

mod limits;

/// A line is a text and its tree, with ` ~ ` between them.
const TREES: &str = "7 ~ 7
007 ~ 007
18446744073709551616 ~ 18446744073709551616
'a \"b\"' ~ 'a \"b\"'
\"it's\" ~ 'it's'
'' ~ ''
true ~ true
false ~ false
null ~ null
_x9 ~ _x9
min ~ min
trueish ~ trueish
inner ~ inner
In ~ In
(1) ~ 1 ()
((1)) ~ 1 () ()
[] ~ < list
[1] ~ < 1 , list
[1,[2],[]] ~ < 1 , < 2 , list , < list , list
{} ~ < map
{a:1} ~ < 1 key:a map
{'a b':1, c : {}} ~ < 1 key:'a b' < map key:c map
{a:1,a:2} ~ < 1 key:a 2 key:a map
  1  +\t2 ~ 1 2 +
a||b ~ a b ||
a&&b ~ a b &&
a in b ~ a b in
'a'in[b] ~ 'a' < b , list in
a==b ~ a b ==
a!=b ~ a b !=
a<b ~ a b <
a<=b ~ a b <=
a>b ~ a b >
a>=b ~ a b >=
a+b ~ a b +
a-b ~ a b -
a*b ~ a b *
a/b ~ a b /
a**b ~ a b **
!a ~ a u!
-a ~ a u-
+a ~ a u+
a||b||c ~ a b || c ||
a&&b&&c ~ a b && c &&
a in b in c ~ a b in c in
a==b!=c ~ a b == c !=
a<b>=c ~ a b < c >=
a>b<=c ~ a b > c <=
a-b+c ~ a b - c +
a/b*c ~ a b / c *
2**3**2 ~ 2 3 2 ** **
2**3**2**1 ~ 2 3 2 1 ** ** **
a||b&&c ~ a b c && ||
a&&b||c ~ a b && c ||
a&&b in c ~ a b c in &&
a in b&&c ~ a b in c &&
a in b==c ~ a b c == in
a==b in c ~ a b == c in
a==b<c ~ a b c < ==
a<b==c ~ a b < c ==
a<b+c ~ a b c + <
a+b<c ~ a b + c <
a+b*c ~ a b c * +
a*b+c ~ a b * c +
a*b**c ~ a b c ** *
a**b*c ~ a b ** c *
-2**2 ~ 2 u- 2 **
2**-2 ~ 2 2 u- **
a**-b**c ~ a b u- c ** **
!a==b ~ a u! b ==
--a ~ a u- u-
a--b ~ a b u- -
a+ +b ~ a b u+ +
-a.b ~ a .b u-
!a[0] ~ a 0 [] u!
a**b.c ~ a b .c **
(a+b)*c ~ a b + () c *
a.b.c ~ a .b .c
a . min ~ a .min
1.a ~ 1 .a
a[1][2] ~ a 1 [] 2 []
a[b+1].c ~ a b 1 + [] .c
'abc'[0] ~ 'abc' 0 []
[1,2][0] ~ < 1 , 2 , list 0 []
{a:1}.a ~ < 1 key:a map .a
a[:] ~ a [:]
a[1:] ~ a 1 [a:]
a[:2] ~ a 2 [:b]
a[1:2] ~ a 1 2 [a:b]
a[-1:] ~ a 1 u- [a:]
a[:-1] ~ a 1 u- [:b]
a[-3:-1] ~ a 3 u- 1 u- [a:b]
a[+1:+2][0] ~ a 1 u+ 2 u+ [a:b] 0 []
min() ~ < call:min
min(1) ~ < 1 , call:min
max(1,2) ~ < 1 , 2 , call:max
abs(-1) ~ < 1 u- , call:abs
len('ab') ~ < 'ab' , call:len
str(a).b ~ < a , call:str .b
number(a)[0] ~ < a , call:number 0 []
lowercase(a)+uppercase(b) ~ < a , call:lowercase < b , call:uppercase +
strip(lstrip(rstrip(a))) ~ < < < a , call:rstrip , call:lstrip , call:strip
split(a,',') ~ < a , ',' , call:split
join (a , b) ~ < a , b , call:join
range(0,9,2) ~ < 0 , 9 , 2 , call:range
typeof(a) ~ < a , call:typeof
defined('a') ~ < 'a' , call:defined
fromNow('1 day',b) ~ < '1 day' , b , call:fromNow
[min(a),-b,(c)] ~ < < a , call:min , b u- , c () , list";

/// A line is a text that is no expression, and the place where it goes wrong: where the first token begins that no expression
/// can have there, or the text's length.
const FAULTS: &str = " ~ 0
   ~ 2
+ ~ 1
1+ ~ 2
1 +  ~ 4
*1 ~ 0
1 2 ~ 2
1a ~ 1
a b ~ 2
a 'b' ~ 2
( ~ 1
(1 ~ 2
() ~ 1
(1] ~ 2
) ~ 0
1) ~ 1
[ ~ 1
[1 ~ 2
[1,] ~ 3
[,1] ~ 1
[1 2] ~ 3
[1:2] ~ 2
] ~ 0
{ ~ 1
{a ~ 2
{a} ~ 2
{a 1} ~ 3
{a:1 ~ 4
{a:} ~ 3
{a:1,} ~ 5
{a:1 b:2} ~ 5
{1:2} ~ 1
{true:1} ~ 1
{in:1} ~ 1
{,} ~ 1
} ~ 0
min( ~ 4
min(1 ~ 5
min(1,) ~ 6
min(,1) ~ 4
min(1)(2) ~ 6
foo(1) ~ 3
foo() ~ 3
Min(1) ~ 3
(min)(1) ~ 5
a.min(1) ~ 5
'min'(1) ~ 5
a[ ~ 2
a[] ~ 2
a[1 ~ 3
a[1:2 ~ 5
a[1:2:3] ~ 5
a[1,2] ~ 3
a[::] ~ 3
a. ~ 2
a.1 ~ 2
a.'b' ~ 2
a.in ~ 2
a.null ~ 2
a..b ~ 2
.a ~ 0
1.5 ~ 2
in ~ 0
a in ~ 4
a inb ~ 2
not a ~ 4
! ~ 1
a!b ~ 1
a! =b ~ 1
a<>b ~ 2
a,b ~ 1
a:b ~ 1
a=b ~ 1
a = b ~ 2
a===b ~ 3
a<==b ~ 3
a***b ~ 3
a|||b ~ 3
a & b ~ 2
a|b ~ 1
a?b:c ~ 1
$a ~ 0
# ~ 0
) # ~ 0
'abc ~ 0
'a\" ~ 0
1+'abc ~ 2
a @ ) ~ 2
é ~ 0
[1, 2é] ~ 5";

fn cut<'a>(text: &'a [u8], span: Span) -> &'a [u8] {
    text.get(span.from..span.to).unwrap_or(b"?".as_slice())
}

fn operator_text(operator: Operator) -> &'static [u8] {
    match operator {
        Operator::Or => b"||",
        Operator::And => b"&&",
        Operator::Within => b"in",
        Operator::Equal => b"==",
        Operator::NotEqual => b"!=",
        Operator::Below => b"<",
        Operator::AtMost => b"<=",
        Operator::Above => b">",
        Operator::AtLeast => b">=",
        Operator::Plus => b"+",
        Operator::Minus => b"-",
        Operator::Times => b"*",
        Operator::Over => b"/",
        Operator::Power => b"**",
    }
}

/// What is shown before and behind the node's text, and its text.
fn parts<'a>(text: &'a [u8], node: Node) -> (&'static [u8], &'a [u8], &'static [u8]) {
    let none = b"".as_slice();
    match node {
        Node::Number(span) => (none, cut(text, span), none),
        Node::Text(span) => (b"'".as_slice(), cut(text, span), b"'".as_slice()),
        Node::Literal(Literal::True) => (b"true".as_slice(), none, none),
        Node::Literal(Literal::False) => (b"false".as_slice(), none, none),
        Node::Literal(Literal::Null) => (b"null".as_slice(), none, none),
        Node::Name(word) => (none, cut(text, word.span), none),
        Node::Unary(Sign::Denied) => (b"u!".as_slice(), none, none),
        Node::Unary(Sign::Negative) => (b"u-".as_slice(), none, none),
        Node::Unary(Sign::Positive) => (b"u+".as_slice(), none, none),
        Node::Left(_) => (none, none, none),
        Node::Binary(operator) => (operator_text(operator), none, none),
        Node::Group => (b"()".as_slice(), none, none),
        Node::Member(word) => (b".".as_slice(), cut(text, word.span), none),
        Node::Index => (b"[]".as_slice(), none, none),
        Node::Slice(false, false) => (b"[:]".as_slice(), none, none),
        Node::Slice(true, false) => (b"[a:]".as_slice(), none, none),
        Node::Slice(false, true) => (b"[:b]".as_slice(), none, none),
        Node::Slice(true, true) => (b"[a:b]".as_slice(), none, none),
        Node::Begin => (b"<".as_slice(), none, none),
        Node::Item => (b",".as_slice(), none, none),
        Node::Call(word) => (b"call:".as_slice(), cut(text, word.span), none),
        Node::Items => (b"list".as_slice(), none, none),
        Node::Field(Key::Plain(word)) => (b"key:".as_slice(), cut(text, word.span), none),
        Node::Field(Key::InQuotes(span)) => (b"key:'".as_slice(), cut(text, span), b"'".as_slice()),
        Node::Entries => (b"map".as_slice(), none, none),
    }
}

/// The nodes as text, with a space before each but those behind left sides, which are left out.
fn shown(alloc: Global, text: &[u8], nodes: &[Node]) -> Result<Vec<u8>, AllocError> {
    let mut out = Vec::new(alloc);
    for node in nodes {
        let (before, part, behind) = parts(text, *node);
        if let Node::Left(_) = node {
            continue;
        }
        out.push(b' ')?;
        out.extend_from_slice(before)?;
        out.extend_from_slice(part)?;
        out.extend_from_slice(behind)?;
    }
    Ok(out)
}

/// Whether the nodes are shown so.
fn are_shown(alloc: Global, text: &[u8], nodes: &[Node], wanted: &str) -> bool {
    match shown(alloc, text, nodes) {
        Ok(out) => out.get(1..) == Some(wanted.as_bytes()),
        Err(_) => false,
    }
}

/// Whether the text has this tree.
fn has_tree(alloc: Global, text: &str, wanted: &str) -> bool {
    match parse(alloc, text.as_bytes()) {
        Ok(tree) => {
            let is_so = are_shown(alloc, tree.text, &tree.nodes, wanted);
            drop(tree);
            is_so
        }
        Err(_) => false,
    }
}

fn is_tree_row(alloc: Global, row: &str) -> bool {
    match row.split_once(" ~ ") {
        Some((text, wanted)) => has_tree(alloc, text, wanted),
        None => false,
    }
}

fn fault(alloc: Global, text: &[u8]) -> Option<ParseFault> {
    match parse(alloc, text) {
        Ok(tree) => {
            drop(tree);
            None
        }
        Err(fault) => Some(fault),
    }
}

/// Whether a text goes wrong at this place.
fn is_fault(alloc: Global, text: &[u8], place: usize) -> bool {
    fault(alloc, text) == Some(ParseFault::Syntax(place))
}

fn is_fault_row(alloc: Global, row: &str) -> bool {
    match row.split_once(" ~ ") {
        Some((text, place)) => match place.parse::<usize>() {
            Ok(place) => is_fault(alloc, text.as_bytes(), place),
            Err(_) => false,
        },
        None => false,
    }
}

#[test]
fn texts_have_their_trees(rt: HostRuntime) {
    for row in TREES.lines() {
        assert!(rt; is_tree_row(rt.alloc(), row), "{row}");
    }
}

#[test]
fn texts_go_wrong_at_their_places(rt: HostRuntime) {
    for row in FAULTS.lines() {
        assert!(rt; is_fault_row(rt.alloc(), row), "{row}");
    }
    let told = [
        is_fault(rt.alloc(), b"1\n+\r*", 4),
        is_fault(rt.alloc(), b"a\xff", 1),
    ];
    assert_eq!(rt; told, [true; 2]);
}

/// Whether these are the places of the nodes behind left sides.
fn are_left(nodes: &[Node], places: &[usize]) -> bool {
    let mut rest = places;
    for (place, node) in nodes.iter().enumerate() {
        if let Node::Left(_) = node {
            match rest.split_first() {
                Some((first, more)) if *first == place => rest = more,
                _ => return false,
            }
        }
    }
    rest.is_empty()
}

fn has_left(alloc: Global, text: &str, places: &[usize]) -> bool {
    match parse(alloc, text.as_bytes()) {
        Ok(tree) => {
            let is_so = are_left(&tree.nodes, places);
            drop(tree);
            is_so
        }
        Err(_) => false,
    }
}

#[test]
fn a_left_side_has_a_node_behind_it(rt: HostRuntime) {
    // a _|| b _&& c && ||
    assert!(rt; has_left(rt.alloc(), "a||b&&c", &[1, 3]));
    // a _* b * _+ c +
    assert!(rt; has_left(rt.alloc(), "a*b+c", &[1, 4]));
}
