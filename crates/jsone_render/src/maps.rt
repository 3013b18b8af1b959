//! Maps of a template without an operator.
ghost use Rattle.std.specs.Prelude.{◌≡◌, OnOk, is_some, string_bytes};
ghost use Rattle.farm_text.specs.Document.{member_at, members_of, no_members, put};
ghost use Rattle.farm_text.specs.Doc.{document, entries_of};
ghost use Rattle.jsone_eval.specs.Scopes.{scopes_of};
ghost use Rattle.jsone_render.specs.Answers.{Answers, Kept, found_in};
ghost use Rattle.jsone_render.specs.Maps.{key_text, KeysRender};
ghost use Rattle.jsone_render.specs.Texts.{Written};

use crate::faults::RenderFault;
use crate::keys::loses_dollar;
use crate::paths::here;
use crate::renderer::Renderer;
use farm_text::Doc;
use jsone_values::faults::Fault;
use std::alloc::{AllocError, Global};
use std::collections::BTreeMap;

pub(crate) fn has_key(map: &BTreeMap<String, Doc>, key: &str) -> bool
    ensures { result ≡ is_some (member_at key.now (members_of (entries_of map.now.entries))) }
{
    map.contains_key(key)
}

pub(crate) fn insert(
    map: &mut BTreeMap<String, Doc>,
    key: String,
    value: Doc,
) -> Result<(), AllocError>
    ensures { OnOk result (members_of (entries_of map.new.entries)
        ≡ put (string_bytes key) (document value) (members_of (entries_of map.old.entries))) }
{
    drop(map.insert(key, value)?);
    Ok(())
}

impl<'a> Renderer<'a> {
    /// A key, rendered as a text; one that begins with two `$` loses one of them.
    fn rendered_key(&mut self, alloc: Global, key: &str) -> Result<String, RenderFault>
        ensures answers { Answers string_bytes (Written (key_text key.now) (scopes_of self.old.context) self.old.cost.spent) result self.new.cost.spent }
        ensures scopes { Kept result (scopes_of self.old.context) (scopes_of self.new.context) }
    {
        match key.strip_prefix("$") {
            Some(rest) if loses_dollar(key.as_bytes()) => self.written(alloc, rest),
            _ => self.written(alloc, key),
        }
    }

    /// The map of so many members of the template, of which these values stay.
    pub(crate) fn keyed(
        &mut self,
        alloc: Global,
        count: usize,
        values: Vec<(String, Doc)>,
    ) -> Result<Option<Doc>, RenderFault>
        ensures answers { Answers found_in (KeysRender count no_members (entries_of values.items) (scopes_of self.old.context) self.old.cost.spent) result self.new.cost.spent }
        ensures scopes { Kept result (scopes_of self.old.context) (scopes_of self.new.context) }
    {
        let mut map = BTreeMap::new(alloc);
        for (key, value) in values {
            let name = match self.rendered_key(alloc, key.as_str()) {
                Ok(name) => name,
                Err(fault) => {
                    drop(value);
                    return Err(fault);
                }
            };
            if has_key(&map, name.as_str()) {
                drop(value);
                return Err(here(alloc, Fault::KeyTwice));
            }
            insert(&mut map, name, value)?;
        }
        self.pay((count as u64).saturating_add(1), Doc::Map(map))
    }
}
