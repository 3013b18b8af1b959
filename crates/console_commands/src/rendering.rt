//! The template of an input, rendered with its context.
ghost use Rattle.std.specs.Prelude.{◌≡◌, ◌≢◌, ◌≤◌, ◌++◌, length, IfOk, MatchOption, MatchResult, codes, string_bytes};
ghost use Rattle.http_wire.specs.Calls.{state_of};
ghost use Rattle.farm_text.specs.Doc.{document, entries_of};
ghost use Rattle.farm_text.specs.Document.{Document, Members, members_of, object, document_text};
ghost use Rattle.console_commands.specs.Inputs.{longest_input};
ghost use Rattle.console_commands.specs.Rendering.{request_members, request_of, unread_status, unrendered_status, IsRendering, RenderingRefused, Renders};

use crate::ended::Ended;
use crate::inputs::LONGEST_INPUT;
use crate::status::Status;
use crate::writing::write_text;
use farm_text::{Doc, ReadFault, Text};
use http_wire::{Link, ReadAllFault, read_all};
use jsone_render::{RenderFault, TemplateFault};
use jsone_values::faults::Fault;
use std::alloc::{AllocError, Global};
use std::collections::BTreeMap;

/// Reads the object of a context and a template from the console, and writes the template's value as compact JSON, and a line feed.
pub fn render<L: Link>(alloc: Global, console: &mut L) -> Ended
    ensures renders { Renders (state_of L.Link console.old) (state_of L.Link console.new) result.status }
{
    match read_all(alloc, console, LONGEST_INPUT) {
        Ok(Some(input)) => match rendering(alloc, input.as_slice()) {
            Ok(line) => Ended::on_console(alloc, write_text(console, line.as_bytes())),
            Err(ended) => ended,
        },
        Ok(None) => Ended::told(alloc, Status::Input, ": it has more than 1048576 bytes"),
        Err(ReadAllFault::Failed) => Ended::on_console(alloc, Status::Read),
        Err(ReadAllFault::NoMemory) => Ended::plain(Status::NoMemory),
    }
}

/// The line of the value of an input's template, or how a run over it ends.
fn rendering(alloc: Global, input: &[u8]) -> Result<String, Ended>
    requires { length input.now ≤ longest_input }
    ensures { MatchResult result
        (λ line. IsRendering input.now (string_bytes line))
        (λ ended. RenderingRefused input.now ended.status) }
{
    let request = match Doc::read(alloc, input) {
        Ok(request) => request,
        Err(fault) => return Err(unread(alloc, fault)),
    };
    let Some((context, template)) = parts_of(&request) else {
        return Err(Ended::told(
            alloc,
            Status::Input,
            ": it is no object of exactly context, a map, and template",
        ));
    };
    let value = match jsone_render::render(alloc, template, context) {
        Ok(value) => value,
        Err(fault) => return Err(unrendered(alloc, fault)),
    };
    match value_line(alloc, &value) {
        Ok(line) => Ok(line),
        Err(AllocError) => Err(Ended::plain(Status::NoMemory)),
    }
}

/// The context and the template of an object that has exactly these two members, and whose context is a map.
fn parts_of(request: &Doc) -> Option<(&Doc, &Doc)>
    ensures { MatchOption result
        ((context : Members) (template : Document) → document request.now ≢ request_of context template)
        (λ parts. (context : Members) × (document parts.0.now ≡ object context) × (document request.now ≡ request_of context (document parts.1.now))) }
{
    let Doc::Map(members) = request else {
        return None;
    };
    let Some((context, template)) = both_in(members) else {
        return None;
    };
    match context {
        Doc::Map(_) => Some((context, template)),
        _ => None,
    }
}

/// The context and the template of a map that has exactly these two members.
fn both_in(members: &BTreeMap<String, Doc>) -> Option<(&Doc, &Doc)>
    ensures { MatchOption result
        ((context template : Document) → members_of (entries_of members.now.entries) ≢ request_members context template)
        (λ both. members_of (entries_of members.now.entries) ≡ request_members (document both.0.now) (document both.1.now)) }
{
    if members.len() != 2 {
        return None;
    }
    let (first, context) = members.first_key_value()?;
    let (last, template) = members.last_key_value()?;
    if first.as_str() == "context" && last.as_str() == "template" {
        Some((context, template))
    } else {
        None
    }
}

/// The text of a value, and a line feed.
fn value_line(alloc: Global, value: &Doc) -> Result<String, AllocError>
    ensures { IfOk result (λ line. string_bytes line ≡ document_text (document value.now) ++ codes "\n") }
{
    let mut line = value.write(alloc)?.into_string();
    line.push_str("\n")?;
    Ok(line)
}

/// How a run over an input ends that is no document with whole numbers.
fn unread(alloc: Global, fault: ReadFault) -> Ended
    ensures { result.status ≡ unread_status fault }
{
    match fault {
        ReadFault::NotJson => Ended::told(
            alloc,
            Status::Input,
            ": it is no JSON that nests at most 127 deep",
        ),
        ReadFault::NotWhole(path) => not_whole(alloc, &path),
        ReadFault::NoMemory => Ended::plain(Status::NoMemory),
    }
}

/// An input is refused by the number at this pointer.
fn not_whole(alloc: Global, path: &Text) -> Ended
    ensures { result.status ≡ Status.Input }
{
    let path = path.as_str();
    match format!(in alloc; ": the number at \"{path}\" is not whole, or has more than 64 bits") {
        Ok(words) => Ended::told(alloc, Status::Input, words.as_str()),
        Err(_) => Ended::plain(Status::Input),
    }
}

/// How a run over an input ends whose template has no value.
fn unrendered(alloc: Global, fault: RenderFault) -> Ended
    ensures { result.status ≡ unrendered_status fault }
{
    match fault {
        RenderFault::Fault(fault) => faulted(alloc, &fault),
        RenderFault::TooMuchWork => Ended::told(
            alloc,
            Status::Input,
            ": its template costs more than 1000000",
        ),
        RenderFault::NoMemory => Ended::plain(Status::NoMemory),
    }
}

/// An input is refused by this fault of its template.
fn faulted(alloc: Global, fault: &TemplateFault) -> Ended
    ensures { result.status ≡ Status.Input }
{
    let rule = fault.rule.rule();
    let path = fault.path.as_str();
    let why = rule_words(fault.rule);
    match format!(in alloc; ": fault {rule} of the template at \"{path}\": {why}") {
        Ok(words) => Ended::told(alloc, Status::Input, words.as_str()),
        Err(_) => Ended::plain(Status::Input),
    }
}

/// What a fault of a template is.
fn rule_words(rule: Fault) -> &'static str {
    match rule {
        Fault::Syntax => "it is no expression",
        Fault::UnknownName => "nothing is bound to a name",
        Fault::WrongKind => "a value is of another kind, or there is another number of arguments",
        Fault::OutOfRange => "a number or a moment is out of range, or a step is 0",
        Fault::NotExact => "a division has a rest or is by 0, or an exponent is below 0",
        Fault::NoMember => "no member has this index or key",
        Fault::BadOperator => {
            "an operator is unknown or one of two, its keys are others, or a binder is bad"
        }
        Fault::TwoBranches => "two branches are true",
        Fault::KeyTwice => "two keys of a map are equal",
        Fault::TooDeep => "an expression is more than 64 deep",
        Fault::BadSpan => "a text is no span of time",
        Fault::BadContext => "a key of the context is no name",
    }
}
