//! Evaluating node by node.
ghost use Rattle.std.specs.Prelude.{◌≡◌, ◌<◌, [], ◌∷◌, MatchBool};
ghost use Rattle.farm_text.specs.Doc.{document};
ghost use Rattle.jsone_expr.specs.declared.nodes.Node.{Node};
ghost use Rattle.jsone_eval.specs.Machine.{top, below, with_member, IsStep, values_in, part_of, parts_in, Does, Pays, PaysWithin, fault_of, pushed, went};
ghost use Rattle.jsone_eval.specs.Outcomes.{paid};
ghost use Rattle.jsone_eval.specs.Scopes.{scopes_of};
ghost use Rattle.jsone_eval.specs.Values.{Setting};

use crate::calls::called;
use crate::context::Context;
use crate::evaluator::{EvalFault, LIMIT};
use crate::operators::{joined, signed};
use crate::parts::{Gathered, left_side, take, take_gathered, take_side, with_item, with_member};
use crate::pieces::{key_span, literal_value, member_at, named, number_at, quoted, text_at};
use farm_text::Doc;
use jsone_expr::marks::{Operator, Sign};
use jsone_expr::nodes::Node;
use jsone_expr::tokens::{Key, Word};
use jsone_values::faults::Stop;
use jsone_values::indexes::{index_of, slice_by};
use jsone_values::maps::map_of;
use jsone_values::weights::weight_of;
use std::alloc::Global;

/// The values and the lists that are not whole yet, the innermost last.
#[derive(Drop)]
pub(crate) struct Machine {
    values: Vec<Doc>,
    gathered: Vec<Gathered>,
    /// How many right sides are to be passed over: the next one, or none.
    passed: usize,
    spent: u64,
}

fn fault_of(stop: Stop) -> EvalFault
    ensures { result ≡ fault_of stop }
{
    match stop {
        Stop::Fault(fault) => EvalFault::Fault(fault),
        Stop::NoMemory => EvalFault::NoMemory,
    }
}

impl Machine {
    /// Nothing is evaluated yet.
    pub(crate) fn new(alloc: Global, spent: u64) -> Machine
        ensures values { values_in result ≡ [] }
        ensures gathered { parts_in result ≡ [] }
        ensures passed { result.passed ≡ 0 }
        ensures spent { result.spent ≡ spent }
    {
        Machine {
            values: Vec::new(alloc),
            gathered: Vec::new(alloc),
            passed: 0,
            spent,
        }
    }

    /// The last value, and what was paid.
    pub(crate) fn into_answer(self) -> (Doc, u64)
        ensures value { document result.0 ≡ top (values_in self) }
        ensures spent { result.1 ≡ self.spent }
    {
        let Machine {
            mut values,
            gathered,
            passed: _,
            spent,
        } = self;
        drop(gathered);
        (take(&mut values), spent)
    }

    /// Pays for a value and keeps it.
    fn charge(&mut self, value: Doc) -> Result<(), EvalFault>
        ensures { Does (λ p. p ≡ pushed (values_in self.old) (parts_in self.old) self.old.passed (paid self.old.spent (document value))) result self.new }
    {
        let spent = self.spent.saturating_add(weight_of(&value));
        if spent > LIMIT {
            drop(value);
            return Err(EvalFault::TooMuchWork);
        }
        match self.values.push(value) {
            Ok(()) => {}
            Err(_) => return Err(EvalFault::NoMemory),
        }
        self.spent = spent;
        Ok(())
    }

    /// Pays for what was found, if it is a value.
    fn pay(&mut self, found: Result<Doc, Stop>) -> Result<(), EvalFault>
        ensures { Pays found (values_in self.old) (parts_in self.old) self.old.passed self.old.spent result self.new }
    {
        match found {
            Ok(value) => self.charge(value),
            Err(stop) => Err(fault_of(stop)),
        }
    }

    /// The same where nothing is found of what weighs more than may be paid.
    fn pay_within(&mut self, found: Result<Option<Doc>, Stop>) -> Result<(), EvalFault>
        ensures { PaysWithin found (values_in self.old) (parts_in self.old) self.old.passed self.old.spent result self.new }
    {
        match found {
            Ok(Some(value)) => self.charge(value),
            Ok(None) => Err(EvalFault::TooMuchWork),
            Err(stop) => Err(fault_of(stop)),
        }
    }

    fn sign(&mut self, sign: Sign) -> Result<(), EvalFault>
        ensures { (s : Setting) → Does (IsStep s (Node.Unary sign) (values_in self.old) (parts_in self.old) self.old.passed self.old.spent) result self.new }
    {
        let value = take(&mut self.values);
        let found = signed(sign, &value);
        drop(value);
        self.pay(found)
    }

    /// Behind the left side of an operator, which may decide: then the right side is passed over.
    fn decide(&mut self, operator: Operator) -> Result<(), EvalFault>
        ensures { (s : Setting) → Does (IsStep s (Node.Left operator) (values_in self.old) (parts_in self.old) self.old.passed self.old.spent) result self.new }
    {
        let (is_decided, truth) = left_side(&self.values, operator);
        if !is_decided {
            return Ok(());
        }
        drop(take(&mut self.values));
        let Some(passed) = self.passed.checked_add(1) else {
            return Err(EvalFault::NoMemory);
        };
        self.passed = passed;
        self.charge(Doc::Bool(truth))
    }

    fn join(&mut self, alloc: Global, operator: Operator) -> Result<(), EvalFault>
        ensures { (s : Setting) → Does (IsStep s (Node.Binary operator) (values_in self.old) (parts_in self.old) self.old.passed self.old.spent) result self.new }
    {
        let right = take(&mut self.values);
        let left = take(&mut self.values);
        let found = joined(alloc, operator, &left, &right);
        drop(left);
        drop(right);
        self.pay(found)
    }

    fn group(&mut self) -> Result<(), EvalFault>
        ensures { (s : Setting) → Does (IsStep s Node.Group (values_in self.old) (parts_in self.old) self.old.passed self.old.spent) result self.new }
    {
        let value = take(&mut self.values);
        self.pay(Ok(value))
    }

    fn member(&mut self, text: &[u8], word: Word) -> Result<(), EvalFault>
        ensures { (s : Setting) → s.source ≡ text.now → Does (IsStep s (Node.Member word) (values_in self.old) (parts_in self.old) self.old.passed self.old.spent) result self.new }
    {
        let value = take(&mut self.values);
        let found = member_at(text, word.span, &value);
        drop(value);
        self.pay(found)
    }

    fn index(&mut self, alloc: Global) -> Result<(), EvalFault>
        ensures { (s : Setting) → Does (IsStep s Node.Index (values_in self.old) (parts_in self.old) self.old.passed self.old.spent) result self.new }
    {
        let index = take(&mut self.values);
        let value = take(&mut self.values);
        let found = index_of(alloc, &value, &index);
        drop(value);
        drop(index);
        self.pay(found)
    }

    fn slice(&mut self, alloc: Global, from: bool, to: bool) -> Result<(), EvalFault>
        ensures { (s : Setting) → Does (IsStep s (Node.Slice from to) (values_in self.old) (parts_in self.old) self.old.passed self.old.spent) result self.new }
    {
        let to = take_side(&mut self.values, to);
        let from = take_side(&mut self.values, from);
        let value = take(&mut self.values);
        let found = slice_by(alloc, &value, from.as_ref(), to.as_ref());
        drop(value);
        drop(from);
        drop(to);
        self.pay(found)
    }

    fn begin(&mut self, alloc: Global) -> Result<(), EvalFault>
        ensures { (s : Setting) → Does (IsStep s Node.Begin (values_in self.old) (parts_in self.old) self.old.passed self.old.spent) result self.new }
    {
        self.keep(Gathered::new(alloc))
    }

    /// Puts a part back.
    fn keep(&mut self, part: Gathered) -> Result<(), EvalFault>
        ensures { Does (λ p. p ≡ went (values_in self.old) (part_of part ∷ parts_in self.old) self.old.passed self.old.spent) result self.new }
    {
        match self.gathered.push(part) {
            Ok(()) => {}
            Err(_) => return Err(EvalFault::NoMemory),
        }
        Ok(())
    }

    fn gather_item(&mut self, alloc: Global) -> Result<(), EvalFault>
        ensures { (s : Setting) → Does (IsStep s Node.Item (values_in self.old) (parts_in self.old) self.old.passed self.old.spent) result self.new }
    {
        let value = take(&mut self.values);
        let part = take_gathered(alloc, &mut self.gathered);
        match with_item(part, value) {
            Ok(part) => self.keep(part),
            Err(_) => Err(EvalFault::NoMemory),
        }
    }

    /// Gathers the last value at the key.
    fn gather_at(&mut self, alloc: Global, key: &str) -> Result<(), EvalFault>
        ensures { Does (λ p. p ≡ went (below (values_in self.old)) (with_member key.now (top (values_in self.old)) (parts_in self.old)) self.old.passed self.old.spent) result self.new }
    {
        let value = take(&mut self.values);
        let part = take_gathered(alloc, &mut self.gathered);
        match with_member(alloc, part, key, value) {
            Ok(part) => self.keep(part),
            Err(_) => Err(EvalFault::NoMemory),
        }
    }

    fn gather_member(&mut self, alloc: Global, text: &[u8], key: Key) -> Result<(), EvalFault>
        ensures { (s : Setting) → s.source ≡ text.now → Does (IsStep s (Node.Field key) (values_in self.old) (parts_in self.old) self.old.passed self.old.spent) result self.new }
    {
        match text_at(text, key_span(key)) {
            Ok(name) => self.gather_at(alloc, name),
            Err(fault) => Err(EvalFault::Fault(fault)),
        }
    }

    fn call(&mut self, alloc: Global, context: &Context, word: Word) -> Result<(), EvalFault>
        ensures { (s : Setting) → s.scopes ≡ scopes_of context.now → Does (IsStep s (Node.Call word) (values_in self.old) (parts_in self.old) self.old.passed self.old.spent) result self.new }
    {
        let part = take_gathered(alloc, &mut self.gathered);
        let found = called(alloc, word.function, context, &part.values);
        drop(part);
        self.pay_within(found)
    }

    fn close_list(&mut self, alloc: Global) -> Result<(), EvalFault>
        ensures { (s : Setting) → Does (IsStep s Node.Items (values_in self.old) (parts_in self.old) self.old.passed self.old.spent) result self.new }
    {
        let Gathered { values, members } = take_gathered(alloc, &mut self.gathered);
        drop(members);
        self.pay(Ok(Doc::List(values)))
    }

    fn close_map(&mut self, alloc: Global) -> Result<(), EvalFault>
        ensures { (s : Setting) → Does (IsStep s Node.Entries (values_in self.old) (parts_in self.old) self.old.passed self.old.spent) result self.new }
    {
        let Gathered { values, members } = take_gathered(alloc, &mut self.gathered);
        drop(values);
        self.pay(map_of(alloc, members))
    }

    /// Evaluates a node whose children are evaluated.
    pub(crate) fn step(
        &mut self,
        alloc: Global,
        text: &[u8],
        context: &Context,
        node: Node,
    ) -> Result<(), EvalFault>
        ensures { Does (IsStep (record { source = text.now; scopes = scopes_of context.now }) node (values_in self.old) (parts_in self.old) self.old.passed self.old.spent) result self.new }
    {
        match node {
            Node::Number(place) => self.pay(number_at(text, place)),
            Node::Text(place) => self.pay(quoted(alloc, text, place)),
            Node::Literal(literal) => self.pay(Ok(literal_value(literal))),
            Node::Name(word) => self.pay(named(text, word.span, context)),
            Node::Unary(sign) => self.sign(sign),
            Node::Left(operator) => self.decide(operator),
            Node::Binary(operator) => self.join(alloc, operator),
            Node::Group => self.group(),
            Node::Member(word) => self.member(text, word),
            Node::Index => self.index(alloc),
            Node::Slice(from, to) => self.slice(alloc, from, to),
            Node::Begin => self.begin(alloc),
            Node::Item => self.gather_item(alloc),
            Node::Call(word) => self.call(alloc, context, word),
            Node::Items => self.close_list(alloc),
            Node::Field(key) => self.gather_member(alloc, text, key),
            Node::Entries => self.close_map(alloc),
        }
    }

    /// Whether a right side is not evaluated, which then is to be passed over.
    pub(crate) fn passes(&mut self) -> bool
        ensures passes { MatchBool result (0 < self.old.passed) (self.old.passed ≡ 0) }
        ensures passed { self.new.passed ≡ 0 }
        ensures values { values_in self.new ≡ values_in self.old }
        ensures gathered { parts_in self.new ≡ parts_in self.old }
        ensures spent { self.new.spent ≡ self.old.spent }
    {
        let passes = self.passed > 0;
        self.passed = 0;
        passes
    }
}
