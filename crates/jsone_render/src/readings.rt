//! Texts that were read as expressions. A long one is kept, so that it is read once however often it is evaluated.
ghost use Rattle.std.specs.Prelude.{◌≡◌, ◌≤◌, ◌++◌, ◌∷◌, ℕ, List, length, IfOk, IfSome, MatchBool, MatchResult};
ghost use Rattle.farm_text.specs.Doc.{document};
ghost use Rattle.jsone_eval.specs.Scopes.{scopes_of};
ghost use Rattle.jsone_render.specs.Answers.{Answers};
ghost use Rattle.jsone_render.specs.Expressions.{Evaluated, HasTree};
ghost use Rattle.jsone_render.specs.Readings.{Begins};

use crate::faults::RenderFault;
use crate::found::{Found, find};
use crate::order::order;
use crate::paths::here;
use farm_text::Doc;
use jsone_eval::{Context, Cost, EvalFault, eval_nodes};
use jsone_values::faults::Fault;
use std::alloc::{AllocError, Global};
use std::cmp::Ordering;
use std::marker::Model;
use std::rc::Rc;

/// A text of so many bytes is kept, and a shorter one is read anew.
const LONG: usize = 512;

/// A text that was read as an expression, and what it is.
#[derive(Drop)]
pub(crate) struct Reading {
    text: Vec<u8>,
    found: Found,
}

impl Model for Reading {
    ghost use Rattle.std.specs.Prelude.{ℕ, List};
    ghost use Rattle.jsone_render.specs.Readings.{IsFound};

    ghost Value = { List ℕ };

    ghost view = { λ r. r.text.items };

    ghost invariant = { λ r. IsFound r.text.items r.found };
}

impl Reading {
    /// Reads the text.
    fn new(alloc: Global, source: &[u8]) -> Result<Reading, AllocError>
        ensures { IfOk result (λ r. r ≡ source.now) }
    {
        let found = find(alloc, source)?;
        let text = Vec::from_slice(alloc, source)?;
        Ok(Reading { text, found })
    }

    /// The same, for several users.
    fn shared(alloc: Global, source: &[u8]) -> Result<Rc<Reading>, AllocError>
        ensures { IfOk result (λ r. r.value ≡ source.now) }
    {
        let Ok(reading) = Rc::new(alloc, Reading::new(alloc, source)?) else {
            return Err(AllocError);
        };
        Ok(reading)
    }

    /// The length of the text.
    pub(crate) fn len(&self) -> usize
        ensures { result ≡ length self.now }
    {
        self.text.len()
    }

    /// How the text stands to the bytes.
    fn order(&self, bytes: &[u8]) -> Ordering
        ensures { result ≡ Ordering.Equal → length self.now ≤ length bytes.now → Begins self.now bytes.now }
    {
        order(&self.text, bytes)
    }

    /// Whether the text is an expression, however deep.
    pub(crate) fn has_tree(&self) -> bool
        ensures { MatchBool result (HasTree self.now) (¬ HasTree self.now) }
    {
        match &self.found {
            Found::Tree(_, _) | Found::TooDeep => true,
            Found::NoTree => false,
        }
    }

    /// The value of the expression.
    pub(crate) fn evaluate(
        &self,
        alloc: Global,
        context: &Context,
        cost: &mut Cost,
    ) -> Result<Doc, RenderFault>
        ensures { Answers document (Evaluated self.now (scopes_of context.now) cost.old.spent) result cost.new.spent }
    {
        match &self.found {
            Found::Tree(nodes, ends) => {
                match eval_nodes(alloc, &self.text, nodes, ends, context, cost) {
                    Ok(value) => Ok(value),
                    Err(EvalFault::Fault(rule)) => Err(here(alloc, rule)),
                    Err(EvalFault::TooMuchWork) => Err(RenderFault::TooMuchWork),
                    Err(EvalFault::NoMemory) => Err(RenderFault::NoMemory),
                }
            }
            Found::TooDeep => Err(here(alloc, Fault::TooDeep)),
            Found::NoTree => Err(here(alloc, Fault::Syntax)),
        }
    }
}

/// The long texts that were read, in their order.
#[derive(Drop)]
pub(crate) struct Readings {
    kept: Vec<Rc<Reading>>,
}

impl Readings {
    /// Nothing is read yet.
    pub(crate) fn new(alloc: Global) -> Readings {
        Readings {
            kept: Vec::new(alloc),
        }
    }

    /// The reading that is kept of the text with which the bytes begin; or else where one of theirs would be kept.
    fn search(&self, bytes: &[u8]) -> Result<&Rc<Reading>, usize>
        ensures { MatchResult result
            (λ kept. length kept.now.value ≤ length bytes.now → Begins kept.now.value bytes.now)
            (λ place. place ≤ length self.now.kept.items) }
    {
        let mut low = 0;
        let mut high = self.kept.len();
        while low < high {
            let middle = low + (high - low) / 2;
            let kept = &self.kept[middle];
            match kept.order(bytes) {
                Ordering::Equal => return Ok(kept),
                Ordering::Less => low = middle + 1,
                Ordering::Greater => high = middle,
            }
        }
        Err(low)
    }

    /// The kept expression with which the bytes begin, if a `}` is next.
    pub(crate) fn begun(&self, bytes: &[u8]) -> Result<Option<Rc<Reading>>, AllocError>
        ensures { IfOk result (λ found. IfSome found (λ reading. HasTree reading.value × ((rest : List ℕ) × (bytes.now ≡ reading.value ++ 125 ∷ rest)))) }
    {
        match self.search(bytes) {
            Ok(kept) if kept.len() < bytes.len() && kept.has_tree() => Ok(Some(kept.clone()?)),
            _ => Ok(None),
        }
    }

    /// The reading of the text. One of a long text is kept.
    pub(crate) fn reading(
        &mut self,
        alloc: Global,
        source: &[u8],
    ) -> Result<Rc<Reading>, AllocError>
        ensures { IfOk result (λ r. r.value ≡ source.now) }
    {
        if source.len() < LONG {
            return Reading::shared(alloc, source);
        }
        match self.search(source) {
            Ok(kept) if kept.len() == source.len() => kept.clone(),
            Ok(_) => Reading::shared(alloc, source),
            Err(place) => {
                let reading = Reading::shared(alloc, source)?;
                self.kept.insert(place, reading.clone()?)?;
                Ok(reading)
            }
        }
    }
}
