//! Evaluating: the value of an expression.
ghost use Rattle.std.specs.Prelude.{◌≡◌};
ghost use Rattle.jsone_expr.specs.Postfix.{postfix};
ghost use Rattle.jsone_expr.specs.Trees.{Tree as Shape};
ghost use Rattle.jsone_eval.specs.Ends.{AreEnds};
ghost use Rattle.jsone_eval.specs.Machine.{Answers};
ghost use Rattle.jsone_eval.specs.Scopes.{scopes_of};
ghost use Rattle.jsone_eval.specs.Values.{IsOutcome};

use crate::context::Context;
use crate::ends::ends_of;
use crate::machine::Machine;
use farm_text::Doc;
use jsone_expr::Tree;
use jsone_expr::nodes::Node;
use jsone_values::faults::Fault;
use std::alloc::Global;

/// What may be paid.
pub(crate) const LIMIT: u64 = 1_000_000;

/// What was paid for values.
#[derive(Clone, Copy, Debug, PartialEq, Eq)]
pub struct Cost {
    pub spent: u64,
}

impl Cost {
    /// Nothing is paid yet.
    pub fn new() -> Cost
        ensures { result.spent ≡ 0 }
    {
        Cost { spent: 0 }
    }
}

/// Why an expression has no value.
#[derive(Clone, Copy, Debug, PartialEq, Eq)]
pub enum EvalFault {
    Fault(Fault),
    /// More than 1,000,000 would be paid.
    TooMuchWork,
    NoMemory,
}

/// The value of the expression, whose names are bound by the context. What it costs is added to what was paid; where there is no value the cost stays.
pub fn eval(
    alloc: Global,
    tree: &Tree,
    context: &Context,
    cost: &mut Cost,
) -> Result<Doc, EvalFault>
    ensures { (t : Shape) → tree.now.nodes.items ≡ postfix t
        → Answers (IsOutcome (record { source = tree.now.text.now; scopes = scopes_of context.now }) t cost.old.spent)
        result cost.old.spent cost.new.spent }
{
    match ends_of(alloc, &tree.nodes) {
        Ok(ends) => eval_nodes(alloc, tree.text, &tree.nodes, &ends, context, cost),
        Err(_) => Err(EvalFault::NoMemory),
    }
}

/// The same of the nodes of a tree and the text in which they stand, where the ends of right sides were found before.
pub fn eval_nodes(
    alloc: Global,
    text: &[u8],
    nodes: &[Node],
    ends: &[usize],
    context: &Context,
    cost: &mut Cost,
) -> Result<Doc, EvalFault>
    requires { AreEnds nodes.now ends.now }
    ensures { (t : Shape) → nodes.now ≡ postfix t
        → Answers (IsOutcome (record { source = text.now; scopes = scopes_of context.now }) t cost.old.spent)
        result cost.old.spent cost.new.spent }
{
    let mut machine = Machine::new(alloc, cost.spent);
    let mut at = 0;
    while at < nodes.len() {
        match machine.step(alloc, text, context, nodes[at]) {
            Ok(()) => {}
            Err(fault) => {
                drop(machine);
                return Err(fault);
            }
        }
        at = if machine.passes() { ends[at] } else { at + 1 };
    }
    let (value, spent) = machine.into_answer();
    cost.spent = spent;
    Ok(value)
}
