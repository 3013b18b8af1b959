//! Runs of `render`, with values of JSON-e's reference (https://json-e.js.org/language.html): rows as in `tables`.

use crate::rows::first_other;
use std::test::Fail;

/// Templates with their contexts, and the lines that are written for them.
const RENDERED: &str =
    r#"render||{"context":{"key":"world"},"template":{"message":"hello ${key}"}}|-|0|{"message":"hello world"}\n|
render||{"context":{},"template":[1,{"$if":"false","then":2},3]}|-|0|[1,3]\n|
render||{"context":{},"template":{"a":{"$if":"false","then":2}}}|-|0|{}\n|
render||{"context":{},"template":{"$if":"false","then":2}}|-|0|null\n|
render||{"context":{},"template":{"$eval":"range(0,3)"}}|-|0|[0,1,2]\n|
render||{"context":{},"template":{"$eval":"len(range(0,10))"}}|-|0|10\n|
render||{"context":{"a":[1,2,3]},"template":{"$map":{"$eval":"a"},"each(x)":{"$eval":"x*2"}}}|-|0|[2,4,6]\n|
render||{"context":{},"template":"\\u00e9\\n\\""}|-|0|"é\\n\\""\n|
render|| { "template" : { "b" : [ null, true ] , "a" : -1 } ,\n "context" : { } } \n|-|0|{"a":-1,"b":[null,true]}\n|"#;

/// Inputs of another form, and what fails.
const REFUSED: &str =
    r#"render||[]|-|3||the input is refused: it is no object of exactly context, a map, and template\n
render||{"context":{}}|-|3||the input is refused: it is no object of exactly context, a map, and template\n
render||{"context":[],"template":0}|-|3||the input is refused: it is no object of exactly context, a map, and template\n
render||{"context":{},"template":0,"x":0}|-|3||the input is refused: it is no object of exactly context, a map, and template\n
render||{"context":{},"templates":0}|-|3||the input is refused: it is no object of exactly context, a map, and template\n
render||{"a":{},"template":0}|-|3||the input is refused: it is no object of exactly context, a map, and template\n
render|||-|3||the input is refused: it is no JSON that nests at most 127 deep\n
render||{"context":{},"template":1|-|3||the input is refused: it is no JSON that nests at most 127 deep\n
render||{"context":{},"template":[0,1.5]}|-|3||the input is refused: the number at "/template/1" is not whole, or has more than 64 bits\n
render||{"context":{"a":9223372036854775808},"template":0}|-|3||the input is refused: the number at "/context/a" is not whole, or has more than 64 bits\n
render||{"context":{"1a":0},"template":0}|-|3||the input is refused: fault 12 of the template at "": a key of the context is no name\n
render||{"context":{},"template":"\f"}|-|3||the input is refused: it is no JSON that nests at most 127 deep\n
render||{"context":{},"template":0}|read|5||*
render||{"context":{},"template":0}|write|6||*"#;

/// What is told of each rule, at a place of a template.
const FAULTS: &str =
    r#"render||{"context":{},"template":{"$eval":"1+"}}|-|3||the input is refused: fault 1 of the template at "": it is no expression\n
render||{"context":{},"template":{"a":[0,"${x}"]}}|-|3||the input is refused: fault 2 of the template at "/a/1": nothing is bound to a name\n
render||{"context":{},"template":{"$eval":"1+'a'"}}|-|3||the input is refused: fault 3 of the template at "": a value is of another kind, or there is another number of arguments\n
render||{"context":{},"template":{"$eval":"9223372036854775807+1"}}|-|3||the input is refused: fault 4 of the template at "": a number or a moment is out of range, or a step is 0\n
render||{"context":{},"template":{"$eval":"7/2"}}|-|3||the input is refused: fault 5 of the template at "": a division has a rest or is by 0, or an exponent is below 0\n
render||{"context":{},"template":{"a/b":{"$eval":"[1][1]"}}}|-|3||the input is refused: fault 6 of the template at "/a~1b": no member has this index or key\n
render||{"context":{},"template":{"$evil":"1"}}|-|3||the input is refused: fault 7 of the template at "": an operator is unknown or one of two, its keys are others, or a binder is bad\n
render||{"context":{},"template":{"$switch":{"true":1,"1==1":2}}}|-|3||the input is refused: fault 8 of the template at "": two branches are true\n
render||{"context":{},"template":{"${'a'}":1,"a":2}}|-|3||the input is refused: fault 9 of the template at "": two keys of a map are equal\n
render||{"context":{},"template":{"$eval":"((((((((((((((((((((((((((((((((((((((((((((((((((((((((((((((((1))))))))))))))))))))))))))))))))))))))))))))))))))))))))))))))))"}}|-|3||the input is refused: fault 10 of the template at "": an expression is more than 64 deep\n
render||{"context":{},"template":{"$fromNow":"1 fortnight","from":"2017-01-19T16:27:20.974Z"}}|-|3||the input is refused: fault 11 of the template at "": a text is no span of time\n
render||{"context":{},"template":{"$eval":"len(range(0,2000000))"}}|-|3||the input is refused: its template costs more than 1000000\n
render||{"context":{},"template":{"$eval":"range(0,1000000)"}}|-|3||the input is refused: its template costs more than 1000000\n"#;

#[test]
fn templates_are_rendered_or_refused(rt: HostRuntime) -> Result<(), Fail> {
    let told = [
        first_other(&rt, rt.alloc(), RENDERED)?,
        first_other(&rt, rt.alloc(), REFUSED)?,
        first_other(&rt, rt.alloc(), FAULTS)?,
    ];
    assert_eq!(rt; told, ["none"; 3]);
    Ok(())
}
