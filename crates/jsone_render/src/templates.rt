//! Rendering: what each node of a template comes to.
ghost use Rattle.std.specs.Prelude.{[], codes};
ghost use Rattle.farm_text.specs.Document.{items_of, members_of, member_at, object};
ghost use Rattle.farm_text.specs.Doc.{document, documents, entries_of};
ghost use Rattle.jsone_eval.specs.Scopes.{scopes_of};
ghost use Rattle.jsone_render.specs.Answers.{Answers, Kept, found_in};
ghost use Rattle.jsone_render.specs.Conditions.{SwitchRenders, MatchRenders};
ghost use Rattle.jsone_render.specs.Templates.{Renders, ItemsRender, ValuesRender, MemberRenders, BranchRenders, AloneRenders, FromNowRenders};

use crate::applied::{given_by, span_of};
use crate::conditions::{branch_of, branch_taken, conditions_of, keys_of};
use crate::faults::RenderFault;
use crate::forms::{MapForm, form_of};
use crate::lists::{keep, keep_at, map_at, member_of, or_null};
use crate::maps::has_key;
use crate::operators::Operator;
use crate::paths::{here, under_index, under_key};
use crate::renderer::Renderer;
use farm_text::Doc;
use jsone_values::faults::Fault;
use std::alloc::Global;
use std::collections::BTreeMap;

impl<'a> Renderer<'a> {
    /// A node of the template. It goes as deep as the template nests.
    #[cycle(render)]
    pub(crate) fn value(
        &mut self,
        alloc: Global,
        template: &Doc,
    ) -> Result<Option<Doc>, RenderFault>
        ensures answers { Answers found_in (Renders (document template.now) (scopes_of self.old.context) self.old.cost.spent) result self.new.cost.spent }
        ensures scopes { Kept result (scopes_of self.old.context) (scopes_of self.new.context) }
    {
        match template {
            Doc::Null => self.pay(1, Doc::Null),
            Doc::Bool(truth) => self.pay(1, Doc::Bool(*truth)),
            Doc::Int(number) => self.pay(1, Doc::Int(*number)),
            Doc::Text(text) => self.text(alloc, text.as_str()),
            Doc::List(items) => {
                let done = match self.items(alloc, items) {
                    Ok(done) => done,
                    Err(fault) => return Err(fault),
                };
                self.pay((items.len() as u64).saturating_add(1), Doc::List(done))
            }
            Doc::Map(members) => self.map(alloc, members),
        }
    }

    /// What the items of a list give.
    #[cycle(render)]
    fn items(&mut self, alloc: Global, items: &Vec<Doc>) -> Result<Vec<Doc>, RenderFault>
        ensures answers { Answers (λ v. documents v.items) (ItemsRender 0 [] (items_of (documents items.now.items)) (scopes_of self.old.context) self.old.cost.spent) result self.new.cost.spent }
        ensures scopes { Kept result (scopes_of self.old.context) (scopes_of self.new.context) }
    {
        let mut done = Vec::new(alloc);
        for index in 0..items.len() {
            match self.value(alloc, &items[index]) {
                Ok(found) => keep(&mut done, found)?,
                Err(fault) => return Err(under_index(alloc, index, fault)),
            }
        }
        Ok(done)
    }

    /// What the members of a map give, at their keys.
    #[cycle(render)]
    fn values(
        &mut self,
        alloc: Global,
        members: &BTreeMap<String, Doc>,
    ) -> Result<Vec<(String, Doc)>, RenderFault>
        ensures answers { Answers (λ v. entries_of v.items) (ValuesRender [] (members_of (entries_of members.now.entries)) (scopes_of self.old.context) self.old.cost.spent) result self.new.cost.spent }
        ensures scopes { Kept result (scopes_of self.old.context) (scopes_of self.new.context) }
    {
        let mut done = Vec::new(alloc);
        for (key, member) in members.iter() {
            match self.value(alloc, member) {
                Ok(found) => keep_at(alloc, &mut done, key.as_str(), found)?,
                Err(fault) => return Err(under_key(alloc, key.as_str(), fault)),
            }
        }
        Ok(done)
    }

    /// A map, by its operator.
    #[cycle(render)]
    fn map(
        &mut self,
        alloc: Global,
        members: &BTreeMap<String, Doc>,
    ) -> Result<Option<Doc>, RenderFault>
        ensures answers { Answers found_in (Renders (object (members_of (entries_of members.now.entries))) (scopes_of self.old.context) self.old.cost.spent) result self.new.cost.spent }
        ensures scopes { Kept result (scopes_of self.old.context) (scopes_of self.new.context) }
    {
        match form_of(members) {
            MapForm::Plain => {
                let values = match self.values(alloc, members) {
                    Ok(values) => values,
                    Err(fault) => return Err(fault),
                };
                self.keyed(alloc, members.len(), values)
            }
            MapForm::Faulty(rule) => Err(here(alloc, rule)),
            MapForm::Alone(operator) => self.alone(alloc, members, operator),
            MapForm::Binding(operator, key, names) => {
                let value = match self.operand(alloc, members, operator.key()) {
                    Ok(value) => value,
                    Err(fault) => return Err(fault),
                };
                self.over(alloc, members, operator, key, names, or_null(value))
            }
        }
    }

    /// What stands at a key; where nothing does, that is removed.
    #[cycle(render)]
    pub(crate) fn operand(
        &mut self,
        alloc: Global,
        members: &BTreeMap<String, Doc>,
        key: &str,
    ) -> Result<Option<Doc>, RenderFault>
        ensures answers { Answers found_in (MemberRenders key.now (members_of (entries_of members.now.entries)) (scopes_of self.old.context) self.old.cost.spent) result self.new.cost.spent }
        ensures scopes { Kept result (scopes_of self.old.context) (scopes_of self.new.context) }
    {
        match member_of(members, key) {
            Some(member) => match self.value(alloc, member) {
                Ok(found) => Ok(found),
                Err(fault) => Err(under_key(alloc, key, fault)),
            },
            None => Ok(None),
        }
    }

    /// What stands at a key of the map that stands at a key.
    #[cycle(render)]
    fn branch(
        &mut self,
        alloc: Global,
        members: &BTreeMap<String, Doc>,
        key: &str,
        inner: &str,
    ) -> Result<Option<Doc>, RenderFault>
        ensures answers { Answers found_in (BranchRenders key.now inner.now (members_of (entries_of members.now.entries)) (scopes_of self.old.context) self.old.cost.spent) result self.new.cost.spent }
        ensures scopes { Kept result (scopes_of self.old.context) (scopes_of self.new.context) }
    {
        match map_at(members, key) {
            Some(branches) => match self.operand(alloc, branches, inner) {
                Ok(found) => Ok(found),
                Err(fault) => Err(under_key(alloc, key, fault)),
            },
            _ => Ok(None),
        }
    }

    /// A map with an operator beside which no key binds.
    #[cycle(render)]
    fn alone(
        &mut self,
        alloc: Global,
        members: &BTreeMap<String, Doc>,
        operator: Operator,
    ) -> Result<Option<Doc>, RenderFault>
        ensures answers { let ms = members_of (entries_of members.now.entries) in
            Answers found_in (AloneRenders operator ms (λ key. MemberRenders key ms) (λ key inner. BranchRenders key inner ms) (scopes_of self.old.context) self.old.cost.spent) result self.new.cost.spent }
        ensures scopes { Kept result (scopes_of self.old.context) (scopes_of self.new.context) }
    {
        match operator {
            Operator::Eval => {
                let value = match self.value_at(alloc, members, "$eval") {
                    Ok(value) => value,
                    Err(fault) => return Err(fault),
                };
                self.finish(Some(value))
            }
            Operator::If => {
                let value = match self.value_at(alloc, members, "$if") {
                    Ok(value) => value,
                    Err(fault) => return Err(fault),
                };
                let branch = branch_of(&value);
                drop(value);
                let found = match self.operand(alloc, members, branch) {
                    Ok(found) => found,
                    Err(fault) => return Err(fault),
                };
                self.finish(found)
            }
            Operator::Switch => self.switch(alloc, members),
            Operator::Match => self.matches(alloc, members),
            Operator::Let => self.bind_in(alloc, members),
            Operator::FromNow => self.from_now(alloc, members),
            _ => {
                let value = match self.operand(alloc, members, operator.key()) {
                    Ok(value) => value,
                    Err(fault) => return Err(fault),
                };
                self.finish_made(alloc, given_by(alloc, operator, or_null(value)))
            }
        }
    }

    /// `$switch`: the branch of the one condition that is true.
    #[cycle(render)]
    fn switch(
        &mut self,
        alloc: Global,
        members: &BTreeMap<String, Doc>,
    ) -> Result<Option<Doc>, RenderFault>
        ensures answers { let ms = members_of (entries_of members.now.entries) in
            Answers found_in (SwitchRenders (member_at (codes "$switch") ms) (λ inner. BranchRenders (codes "$switch") inner ms) (scopes_of self.old.context) self.old.cost.spent) result self.new.cost.spent }
        ensures scopes { Kept result (scopes_of self.old.context) (scopes_of self.new.context) }
    {
        let Some(branches) = map_at(members, "$switch") else {
            return Err(here(alloc, Fault::WrongKind));
        };
        let conditions = conditions_of(alloc, branches)?;
        let found = match self.true_of(alloc, conditions) {
            Ok(found) => found,
            Err(fault) => return Err(fault),
        };
        if found.len() > 1 {
            return Err(here(alloc, Fault::TwoBranches));
        }
        let key = branch_taken(&found);
        let taken = match self.branch(alloc, members, "$switch", key) {
            Ok(taken) => taken,
            Err(fault) => return Err(fault),
        };
        self.finish(taken)
    }

    /// `$match`: the branches of the conditions that are true.
    #[cycle(render)]
    fn matches(
        &mut self,
        alloc: Global,
        members: &BTreeMap<String, Doc>,
    ) -> Result<Option<Doc>, RenderFault>
        ensures answers { let ms = members_of (entries_of members.now.entries) in
            Answers found_in (MatchRenders (member_at (codes "$match") ms) (λ inner. BranchRenders (codes "$match") inner ms) (scopes_of self.old.context) self.old.cost.spent) result self.new.cost.spent }
        ensures scopes { Kept result (scopes_of self.old.context) (scopes_of self.new.context) }
    {
        let Some(branches) = map_at(members, "$match") else {
            return Err(here(alloc, Fault::WrongKind));
        };
        let conditions = keys_of(alloc, branches)?;
        let found = match self.true_of(alloc, conditions) {
            Ok(found) => found,
            Err(fault) => return Err(fault),
        };
        let mut done = Vec::new(alloc);
        for key in found {
            let taken = match self.branch(alloc, members, "$match", key) {
                Ok(taken) => taken,
                Err(fault) => return Err(fault),
            };
            keep(&mut done, taken)?;
        }
        self.finish(Some(Doc::List(done)))
    }

    /// `$fromNow`, from a moment that is rendered, or else from what `now` is bound to.
    #[cycle(render)]
    fn from_now(
        &mut self,
        alloc: Global,
        members: &BTreeMap<String, Doc>,
    ) -> Result<Option<Doc>, RenderFault>
        ensures answers { let ms = members_of (entries_of members.now.entries) in
            Answers found_in (FromNowRenders ms (λ key. MemberRenders key ms) (scopes_of self.old.context) self.old.cost.spent) result self.new.cost.spent }
        ensures scopes { Kept result (scopes_of self.old.context) (scopes_of self.new.context) }
    {
        let span = match self.operand(alloc, members, "$fromNow") {
            Ok(span) => or_null(span),
            Err(fault) => return Err(fault),
        };
        if has_key(members, "from") {
            let from = match self.operand(alloc, members, "from") {
                Ok(from) => or_null(from),
                Err(fault) => {
                    drop(span);
                    return Err(fault);
                }
            };
            let made = span_of(alloc, &span, Some(&from));
            drop(from);
            drop(span);
            return self.finish_made(alloc, made);
        }
        let made = span_of(alloc, &span, self.context.get("now"));
        drop(span);
        self.finish_made(alloc, made)
    }
}
