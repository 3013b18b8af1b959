ghost use Rattle.std.specs.Prelude.{◌≡◌, IfOk};
ghost use Rattle.farm_text.specs.Document.{no_members, object, put};
ghost use Rattle.farm_text.specs.Doc.{document};

use crate::doc::Doc;
use std::alloc::{AllocError, Global};
use std::collections::BTreeMap;

/// The members of a map that is being made.
#[derive(Drop)]
pub struct Entries {
    map: BTreeMap<String, Doc>,
}

impl Entries {
    ghost use Rattle.farm_text.specs.Entries.{held};

    /// No members.
    pub fn new(alloc: Global) -> Entries
        ensures { held result ≡ no_members }
    {
        Entries {
            map: BTreeMap::new(alloc),
        }
    }

    /// The members with this one, in place of one that has the key already.
    pub fn with(self, alloc: Global, key: &str, value: Doc) -> Result<Entries, AllocError>
        ensures { IfOk result (λ e. held e ≡ put key.now (document value) (held self)) }
    {
        let Entries { mut map } = self;
        let name = String::from_str(alloc, key)?;
        drop(map.insert(name, value)?);
        Ok(Entries { map })
    }

    /// The map of these members.
    pub fn into_doc(self) -> Doc
        ensures { document result ≡ object (held self) }
    {
        Doc::Map(self.map)
    }
}
