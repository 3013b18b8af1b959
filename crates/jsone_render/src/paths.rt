//! Faults, and the way to the node whose own they are (RFC 6901), which is found from the inside out.
ghost use Rattle.std.specs.Prelude.{◌≡◌, ℕ, List, ◌∷◌, ◌++◌, OnOk, IfOk, decimal, string_bytes};
ghost use Rattle.std.specs.Char.{encode_utf8};
ghost use Rattle.farm_text.specs.Reading.{escaped};
ghost use Rattle.jsone_render.specs.Answers.{here, IsUnder};

use crate::faults::{RenderFault, TemplateFault};
use farm_text::Text;
use itoa::Buffer;
use jsone_values::faults::Fault;
use std::alloc::{AllocError, Global};

/// A fault of the node itself.
pub(crate) fn here(alloc: Global, rule: Fault) -> RenderFault
    ensures { result ≡ here rule }
{
    RenderFault::Fault(TemplateFault {
        rule,
        path: Text::from_string(String::new(alloc)),
    })
}

fn push_char(out: &mut String, c: char) -> Result<(), AllocError>
    ensures { OnOk result (string_bytes out.new ≡ string_bytes out.old ++ escaped (encode_utf8 c)) }
{
    match c {
        '~' => out.push_str("~0"),
        '/' => out.push_str("~1"),
        _ => out.push(c),
    }
}

/// The key as a step of a pointer.
fn escaped(alloc: Global, key: &str) -> Result<String, AllocError>
    ensures { IfOk result (λ s. string_bytes s ≡ escaped key.now) }
{
    let mut out = String::new(alloc);
    'chars: for c in key.chars() {
        push_char(&mut out, c)?;
    }
    Ok(out)
}

fn joined(alloc: Global, step: &str, path: &str) -> Result<Text, AllocError>
    ensures { IfOk result (λ t. t ≡ 47 ∷ (step.now ++ path.now)) }
{
    let mut out = String::new(alloc);
    out.push_str("/")?;
    out.push_str(step)?;
    out.push_str(path)?;
    Ok(Text::from_string(out))
}

/// The fault below a step of a pointer.
fn under(alloc: Global, step: &str, fault: RenderFault) -> RenderFault
    ensures { IsUnder step.now fault result }
{
    match fault {
        RenderFault::Fault(fault) => match joined(alloc, step, fault.path.as_str()) {
            Ok(path) => RenderFault::Fault(TemplateFault {
                rule: fault.rule,
                path,
            }),
            Err(_) => RenderFault::NoMemory,
        },
        RenderFault::TooMuchWork => RenderFault::TooMuchWork,
        RenderFault::NoMemory => RenderFault::NoMemory,
    }
}

/// The fault below a key.
pub(crate) fn under_key(alloc: Global, key: &str, fault: RenderFault) -> RenderFault
    ensures { IsUnder (escaped key.now) fault result }
{
    match escaped(alloc, key) {
        Ok(step) => under(alloc, step.as_str(), fault),
        Err(_) => out_of_memory(fault),
    }
}

/// The fault below an index.
pub(crate) fn under_index(alloc: Global, index: usize, fault: RenderFault) -> RenderFault
    ensures { IsUnder (decimal index) fault result }
{
    under(alloc, Buffer::new().format(index), fault)
}

/// A fault for which memory ran out.
fn out_of_memory(fault: RenderFault) -> RenderFault
    ensures { (step : List ℕ) → IsUnder step fault result }
{
    match fault {
        RenderFault::Fault(_) => RenderFault::NoMemory,
        RenderFault::TooMuchWork => RenderFault::TooMuchWork,
        RenderFault::NoMemory => RenderFault::NoMemory,
    }
}
