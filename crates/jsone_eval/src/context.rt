//! What names are bound to.
ghost use Rattle.std.specs.Prelude.{◌≡◌, ◌++◌, ◌∷◌, [], IfOk, OnOk, option_map};
ghost use Rattle.farm_text.specs.Doc.{document, documents};
ghost use Rattle.jsone_eval.specs.Scopes.{instead, bound, scopes_of};

use farm_text::Doc;
use std::alloc::{AllocError, Global};

/// A map that binds its keys, and bindings over it: further maps, of which each hides those before it.
#[derive(Drop)]
pub struct Context<'a> {
    pub outermost: &'a Doc,
    pub bindings: Vec<Doc>,
}

/// What the nearer map has, or else what was found.
fn nearest<'a>(nearer: Option<&'a Doc>, found: Option<&'a Doc>) -> Option<&'a Doc>
    ensures { option_map (λ d. document d.now) result
        ≡ instead (option_map (λ d. document d.now) nearer.entry) (option_map (λ d. document d.now) found.entry) }
{
    match nearer {
        Some(_) => nearer,
        None => found,
    }
}

impl<'a> Context<'a> {
    /// The names of the map alone.
    pub fn new(alloc: Global, outermost: &'a Doc) -> Context<'a>
        ensures outermost { result.outermost.now ≡ outermost.now }
        ensures bindings { result.bindings.items ≡ [] }
    {
        Context {
            outermost,
            bindings: Vec::new(alloc),
        }
    }

    /// What the name is bound to.
    pub fn get(&self, name: &str) -> Option<&Doc>
        ensures { option_map (λ d. document d.now) result ≡ bound name.now (scopes_of self.now) }
    {
        let mut found = self.outermost.get(name);
        for binding in &self.bindings {
            found = nearest(binding.get(name), found);
        }
        found
    }
}
