//! What goes on from node to node: the maps that bind names, and what was paid.
ghost use Rattle.std.specs.Prelude.{◌≡◌, ◌+◌, ◌++◌, ◌∷◌, [], ℕ, List, length, min, ◌≤◌, ◌<◌, OnOk, IfOk, MatchResult, Some};
ghost use Rattle.farm_text.specs.Document.{Document};
ghost use Rattle.farm_text.specs.Doc.{document, documents};
ghost use Rattle.jsone_eval.specs.Scopes.{scopes_of};
ghost use Rattle.jsone_render.specs.Answers.{Answers, Kept, Tested, found_in, here, Finishes, names_in};
ghost use Rattle.jsone_render.specs.Bindings.{bound_to, single};
ghost use Rattle.jsone_render.specs.Expressions.{Evaluated};
ghost use Rattle.jsone_render.specs.Outcomes.{pay, worth, price_of};

use crate::binders::Names;
use crate::faults::RenderFault;
use crate::merges::replaced;
use crate::paths::here;
use crate::readings::{Reading, Readings};
use farm_text::Doc;
use jsone_eval::{Context, Cost};
use jsone_values::faults::Stop;
use jsone_values::truth::is_true;
use jsone_values::weights::weight_of;
use std::alloc::{AllocError, Global};
use std::collections::BTreeMap;

/// What may be paid.
const LIMIT: u64 = 1_000_000;

/// The maps that bind names, what was paid, and the expressions that were read.
#[derive(Drop)]
pub(crate) struct Renderer<'a> {
    pub context: Context<'a>,
    pub cost: Cost,
    pub readings: Readings,
}

/// What is paid for what a function or an expression found: a value, or one that is removed.
fn price_of(found: &Option<Doc>) -> u64
    ensures { result ≡ min (price_of (found_in found.now)) 18446744073709551615 }
{
    match found {
        Some(value) => weight_of(value),
        None => 1,
    }
}

impl<'a> Renderer<'a> {
    /// Pays; 2^64 - 1 stands for all that is more.
    pub(crate) fn charge(&mut self, price: u64) -> Result<(), RenderFault>
        ensures paid { (n : ℕ) → price ≡ min n 18446744073709551615 → MatchResult result
            (λ _. (self.old.cost.spent + n ≤ 1000000) × (self.new.cost.spent ≡ self.old.cost.spent + n))
            (λ fault. (1000000 < self.old.cost.spent + n) × (fault ≡ RenderFault.TooMuchWork)) }
        ensures scopes { scopes_of self.new.context ≡ scopes_of self.old.context }
    {
        let spent = self.cost.spent.saturating_add(price);
        if spent > LIMIT {
            return Err(RenderFault::TooMuchWork);
        }
        self.cost.spent = spent;
        Ok(())
    }

    /// Pays so much for the value.
    pub(crate) fn pay(&mut self, price: u64, value: Doc) -> Result<Option<Doc>, RenderFault>
        ensures answers { (n : ℕ) → price ≡ min n 18446744073709551615
            → Answers found_in (λ o. o ≡ pay self.old.cost.spent n (Some (document value))) result self.new.cost.spent }
        ensures scopes { Kept result (scopes_of self.old.context) (scopes_of self.new.context) }
    {
        match self.charge(price) {
            Ok(()) => Ok(Some(value)),
            Err(fault) => {
                drop(value);
                Err(fault)
            }
        }
    }

    /// Pays for what an operator gives.
    pub(crate) fn finish(&mut self, found: Option<Doc>) -> Result<Option<Doc>, RenderFault>
        ensures answers { Answers found_in (λ o. o ≡ worth self.old.cost.spent (found_in found)) result self.new.cost.spent }
        ensures scopes { Kept result (scopes_of self.old.context) (scopes_of self.new.context) }
    {
        match self.charge(price_of(&found)) {
            Ok(()) => Ok(found),
            Err(fault) => {
                drop(found);
                Err(fault)
            }
        }
    }

    /// The same of what was made, if it is a value.
    pub(crate) fn finish_made(
        &mut self,
        alloc: Global,
        made: Result<Doc, Stop>,
    ) -> Result<Option<Doc>, RenderFault>
        ensures answers { Finishes made self.old.cost.spent result self.new.cost.spent }
        ensures scopes { Kept result (scopes_of self.old.context) (scopes_of self.new.context) }
    {
        match made {
            Ok(value) => self.finish(Some(value)),
            Err(Stop::Fault(rule)) => Err(here(alloc, rule)),
            Err(Stop::NoMemory) => Err(RenderFault::NoMemory),
        }
    }

    /// The value of an expression whose text was read.
    pub(crate) fn evaluate_reading(
        &mut self,
        alloc: Global,
        reading: &Reading,
    ) -> Result<Doc, RenderFault>
        ensures answers { Answers document (Evaluated reading.now (scopes_of self.old.context) self.old.cost.spent) result self.new.cost.spent }
        ensures scopes { scopes_of self.new.context ≡ scopes_of self.old.context }
    {
        reading.evaluate(alloc, &self.context, &mut self.cost)
    }

    /// The value of an expression.
    pub(crate) fn evaluate(&mut self, alloc: Global, source: &[u8]) -> Result<Doc, RenderFault>
        ensures answers { Answers document (Evaluated source.now (scopes_of self.old.context) self.old.cost.spent) result self.new.cost.spent }
        ensures scopes { scopes_of self.new.context ≡ scopes_of self.old.context }
    {
        let reading = self.readings.reading(alloc, source)?;
        self.evaluate_reading(alloc, &reading)
    }

    /// The value of an expression where the first of the names is bound.
    pub(crate) fn evaluate_one(
        &mut self,
        alloc: Global,
        reading: &Reading,
        names: Names,
        value: Doc,
    ) -> Result<Doc, RenderFault>
        ensures answers { Answers document (Evaluated reading.now (scopes_of self.old.context ++ bound_to (names_in names.entry) (document value ∷ [])) self.old.cost.spent) result self.new.cost.spent }
        ensures scopes { Kept result (scopes_of self.old.context) (scopes_of self.new.context) }
    {
        let height = self.height();
        self.bind_one(alloc, names, value)?;
        let found = self.evaluate_reading(alloc, reading);
        self.release(height);
        found
    }

    /// Whether an expression is true where the first two of the names are bound, or the one.
    pub(crate) fn is_true_where(
        &mut self,
        alloc: Global,
        reading: &Reading,
        names: Names,
        first: Doc,
        second: Doc,
    ) -> Result<bool, RenderFault>
        ensures answers { Answers (λ b. b) (Tested reading.now (scopes_of self.old.context ++ bound_to (names_in names.entry) (document first ∷ document second ∷ [])) self.old.cost.spent) result self.new.cost.spent }
        ensures scopes { Kept result (scopes_of self.old.context) (scopes_of self.new.context) }
    {
        let height = self.height();
        self.bind_two(alloc, names, first, second)?;
        let found = self.evaluate_reading(alloc, reading);
        self.release(height);
        match found {
            Ok(value) => {
                let holds = is_true(&value);
                drop(value);
                Ok(holds)
            }
            Err(fault) => Err(fault),
        }
    }

    /// How many maps bind names.
    pub(crate) fn height(&self) -> usize
        ensures { length (scopes_of self.now.context) ≡ result + 1 }
    {
        self.context.bindings.len()
    }

    /// Binds the names of a map.
    pub(crate) fn bind_map(&mut self, map: Doc) -> Result<(), AllocError>
        ensures scopes { OnOk result (scopes_of self.new.context ≡ scopes_of self.old.context ++ document map ∷ []) }
        ensures cost { self.new.cost ≡ self.old.cost }
    {
        self.context.bindings.push(map)?;
        Ok(())
    }

    /// Binds a name.
    pub(crate) fn bind(&mut self, alloc: Global, name: &str, value: Doc) -> Result<(), AllocError>
        ensures scopes { OnOk result (scopes_of self.new.context ≡ scopes_of self.old.context ++ single name.now (document value) ∷ []) }
        ensures cost { self.new.cost ≡ self.old.cost }
    {
        self.bind_map(single(alloc, name, value)?)
    }

    /// Binds the first of the names.
    pub(crate) fn bind_one(
        &mut self,
        alloc: Global,
        names: Names,
        value: Doc,
    ) -> Result<(), AllocError>
        ensures scopes { OnOk result (scopes_of self.new.context
            ≡ scopes_of self.old.context ++ bound_to (names_in names.entry) (document value ∷ [])) }
        ensures cost { self.new.cost ≡ self.old.cost }
    {
        match names {
            Names::One(a) | Names::Two(a, _) | Names::Three(a, _, _) => self.bind(alloc, a, value),
        }
    }

    /// Binds the first two of the names, or the one.
    pub(crate) fn bind_two(
        &mut self,
        alloc: Global,
        names: Names,
        first: Doc,
        second: Doc,
    ) -> Result<(), AllocError>
        ensures scopes { OnOk result (scopes_of self.new.context
            ≡ scopes_of self.old.context ++ bound_to (names_in names.entry) (document first ∷ document second ∷ [])) }
        ensures cost { self.new.cost ≡ self.old.cost }
    {
        match names {
            Names::One(a) => {
                drop(second);
                self.bind(alloc, a, first)
            }
            Names::Two(a, b) | Names::Three(a, b, _) => match self.bind(alloc, a, first) {
                Ok(()) => self.bind(alloc, b, second),
                Err(fault) => {
                    drop(second);
                    Err(fault)
                }
            },
        }
    }

    /// Binds the names: one, two or three.
    pub(crate) fn bind_three(
        &mut self,
        alloc: Global,
        names: Names,
        first: Doc,
        second: Doc,
        third: Doc,
    ) -> Result<(), AllocError>
        ensures scopes { OnOk result (scopes_of self.new.context
            ≡ scopes_of self.old.context ++ bound_to (names_in names.entry) (document first ∷ document second ∷ document third ∷ [])) }
        ensures cost { self.new.cost ≡ self.old.cost }
    {
        match names {
            Names::One(_) | Names::Two(_, _) => {
                drop(third);
                self.bind_two(alloc, names, first, second)
            }
            Names::Three(_, _, c) => match self.bind_two(alloc, names, first, second) {
                Ok(()) => self.bind(alloc, c, third),
                Err(fault) => {
                    drop(third);
                    Err(fault)
                }
            },
        }
    }

    /// Takes the bindings past a height away.
    pub(crate) fn release(&mut self, height: usize)
        ensures scopes { (before more : List Document) → scopes_of self.old.context ≡ before ++ more
            → length before ≡ height + 1 → scopes_of self.new.context ≡ before }
        ensures cost { self.new.cost ≡ self.old.cost }
    {
        self.context.bindings.truncate(height);
    }

    /// Takes the last binding away, which is of one name, and gives its value.
    pub(crate) fn take_back(&mut self) -> Doc
        ensures scopes { (before : List Document) (name : List ℕ) (d : Document)
            → 0 < length before → scopes_of self.old.context ≡ before ++ single name d ∷ []
            → scopes_of self.new.context ≡ before }
        ensures value { (before : List Document) (name : List ℕ) (d : Document)
            → 0 < length before → scopes_of self.old.context ≡ before ++ single name d ∷ []
            → document result ≡ d }
        ensures cost { self.new.cost ≡ self.old.cost }
    {
        match self.context.bindings.pop() {
            Some(map) => only_value(map),
            None => Doc::Null,
        }
    }
}

/// A map of one name.
fn single(alloc: Global, name: &str, value: Doc) -> Result<Doc, AllocError>
    ensures { IfOk result (λ d. document d ≡ single name.now (document value)) }
{
    let mut map = BTreeMap::new(alloc);
    match replaced(alloc, &mut map, name, value) {
        Ok(old) => {
            drop(old);
            Ok(Doc::Map(map))
        }
        Err(fault) => {
            drop(map);
            Err(fault)
        }
    }
}

/// The value of a map of one name.
fn only_value(map: Doc) -> Doc
    ensures { (name : List ℕ) (d : Document) → document map ≡ single name d → document result ≡ d }
{
    match map {
        Doc::Map(mut members) => match members.pop_first() {
            Some((_, value)) => value,
            None => Doc::Null,
        },
        _ => Doc::Null,
    }
}
