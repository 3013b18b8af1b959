//! Templates in which names are bound: `$let`, and the operators with turns.
ghost use Rattle.std.specs.Prelude.{[]};
ghost use Rattle.farm_text.specs.Document.{members_of};
ghost use Rattle.farm_text.specs.Doc.{document, documents, entries_of};
ghost use Rattle.jsone_eval.specs.Scopes.{scopes_of};
ghost use Rattle.jsone_render.specs.Answers.{Answers, Kept, found_in, names_in, pairs_of};
ghost use Rattle.jsone_render.specs.Bindings.{LetRenders, EachRenders, MappedOver, ReducedOver};
ghost use Rattle.jsone_render.specs.Templates.{MemberRenders, BoundOver};

use crate::applied::or_before;
use crate::binders::Names;
use crate::faults::RenderFault;
use crate::lists::{into_list, into_map, keep, or_null};
use crate::names::are_names;
use crate::operators::Operator;
use crate::paths::here;
use crate::renderer::Renderer;
use crate::turns::{merged, numbered, turns_of};
use farm_text::Doc;
use jsone_values::faults::Fault;
use std::alloc::Global;
use std::collections::BTreeMap;

impl<'a> Renderer<'a> {
    /// `$let`: what stands at `in`, where the members of a map are bound.
    #[cycle(render)]
    pub(crate) fn bind_in(
        &mut self,
        alloc: Global,
        members: &BTreeMap<String, Doc>,
    ) -> Result<Option<Doc>, RenderFault>
        ensures answers { let ms = members_of (entries_of members.now.entries) in
            Answers found_in (LetRenders (λ key. MemberRenders key ms) (scopes_of self.old.context) self.old.cost.spent) result self.new.cost.spent }
        ensures scopes { Kept result (scopes_of self.old.context) (scopes_of self.new.context) }
    {
        let value = match self.operand(alloc, members, "$let") {
            Ok(value) => or_null(value),
            Err(fault) => return Err(fault),
        };
        let Some(bound) = into_map(value) else {
            return Err(here(alloc, Fault::WrongKind));
        };
        if !are_names(&bound) {
            drop(bound);
            return Err(here(alloc, Fault::BadOperator));
        }
        let height = self.height();
        self.bind_map(Doc::Map(bound))?;
        let found = match self.operand(alloc, members, "in") {
            Ok(found) => found,
            Err(fault) => return Err(fault),
        };
        self.release(height);
        self.finish(found)
    }

    /// An operator over the value of its operand, beside which a key binds names.
    #[cycle(render)]
    pub(crate) fn over(
        &mut self,
        alloc: Global,
        members: &BTreeMap<String, Doc>,
        operator: Operator,
        key: &str,
        names: Names,
        value: Doc,
    ) -> Result<Option<Doc>, RenderFault>
        ensures answers { let ms = members_of (entries_of members.now.entries) in
            Answers found_in (BoundOver operator key.now (names_in names.entry) ms (λ key. MemberRenders key ms) (document value) (scopes_of self.old.context) self.old.cost.spent) result self.new.cost.spent }
        ensures scopes { Kept result (scopes_of self.old.context) (scopes_of self.new.context) }
    {
        match operator {
            Operator::Map => self.mapped(alloc, members, key, names, value),
            Operator::Reduce => {
                let initial = match self.operand(alloc, members, "initial") {
                    Ok(initial) => or_null(initial),
                    Err(fault) => {
                        drop(value);
                        return Err(fault);
                    }
                };
                self.reduced(alloc, members, key, names, value, initial)
            }
            Operator::Find => self.found_in(alloc, members, key, names, value),
            Operator::Sort => self.sorted_by(alloc, members, key, names, value),
            _ => {
                drop(value);
                Err(here(alloc, Fault::BadOperator))
            }
        }
    }

    /// `$map` over a list or a map.
    #[cycle(render)]
    fn mapped(
        &mut self,
        alloc: Global,
        members: &BTreeMap<String, Doc>,
        key: &str,
        names: Names,
        value: Doc,
    ) -> Result<Option<Doc>, RenderFault>
        ensures answers { let ms = members_of (entries_of members.now.entries) in
            Answers found_in (MappedOver (MemberRenders key.now ms) (names_in names.entry) (document value) (scopes_of self.old.context) self.old.cost.spent) result self.new.cost.spent }
        ensures scopes { Kept result (scopes_of self.old.context) (scopes_of self.new.context) }
    {
        match into_list(value) {
            Ok(items) => {
                let turns = numbered(alloc, items)?;
                let done = match self.each(alloc, members, key, names, turns) {
                    Ok(done) => done,
                    Err(fault) => return Err(fault),
                };
                self.finish(Some(Doc::List(done)))
            }
            Err(value) => {
                let Some(pairs) = into_map(value) else {
                    return Err(here(alloc, Fault::WrongKind));
                };
                let turns = turns_of(alloc, names, pairs)?;
                let done = match self.each(alloc, members, key, names, turns) {
                    Ok(done) => done,
                    Err(fault) => return Err(fault),
                };
                self.finish_made(alloc, merged(alloc, done))
            }
        }
    }

    /// What the turns give.
    #[cycle(render)]
    fn each(
        &mut self,
        alloc: Global,
        members: &BTreeMap<String, Doc>,
        key: &str,
        names: Names,
        turns: Vec<(Doc, Doc)>,
    ) -> Result<Vec<Doc>, RenderFault>
        ensures answers { let ms = members_of (entries_of members.now.entries) in
            Answers (λ v. documents v.items) (EachRenders (MemberRenders key.now ms) (names_in names.entry) [] (pairs_of turns.items) (scopes_of self.old.context) self.old.cost.spent) result self.new.cost.spent }
        ensures scopes { Kept result (scopes_of self.old.context) (scopes_of self.new.context) }
    {
        let height = self.height();
        let mut done = Vec::new(alloc);
        for (item, index) in turns {
            self.bind_two(alloc, names, item, index)?;
            let found = match self.operand(alloc, members, key) {
                Ok(found) => found,
                Err(fault) => return Err(fault),
            };
            self.release(height);
            keep(&mut done, found)?;
        }
        Ok(done)
    }

    /// `$reduce` over a list.
    #[cycle(render)]
    fn reduced(
        &mut self,
        alloc: Global,
        members: &BTreeMap<String, Doc>,
        key: &str,
        names: Names,
        value: Doc,
        initial: Doc,
    ) -> Result<Option<Doc>, RenderFault>
        ensures answers { let ms = members_of (entries_of members.now.entries) in
            Answers found_in (ReducedOver (MemberRenders key.now ms) (names_in names.entry) (document initial) (document value) (scopes_of self.old.context) self.old.cost.spent) result self.new.cost.spent }
        ensures scopes { Kept result (scopes_of self.old.context) (scopes_of self.new.context) }
    {
        let Ok(items) = into_list(value) else {
            drop(initial);
            return Err(here(alloc, Fault::WrongKind));
        };
        let turns = match numbered(alloc, items) {
            Ok(turns) => turns,
            Err(_) => {
                drop(initial);
                return Err(RenderFault::NoMemory);
            }
        };
        let mut before = initial;
        for (item, index) in turns {
            let height = self.height();
            self.bind_three(alloc, names, before, item, index)?;
            let found = match self.operand(alloc, members, key) {
                Ok(found) => found,
                Err(fault) => return Err(fault),
            };
            self.release(height + 1);
            let kept = self.take_back();
            before = or_before(kept, found);
        }
        self.finish(Some(before))
    }
}
