ghost use Rattle.std.specs.Prelude.{◌≡◌, ◌≤◌, [], ◌++◌, OnOk, IfOk, option_map};
ghost use Rattle.json.specs.Tree.{json_tokens, items_tokens, members_tokens};
ghost use Rattle.serde_json.specs.Written.{outline, items_outline, members_outline};
ghost use Rattle.farm_text.specs.Document.{data_of, items_data, members_data, document_text, items_of, members_of, whole, get, text as plain_text};
ghost use Rattle.farm_text.specs.Doc.{document, documents, entries_of};
ghost use Rattle.farm_text.specs.Reading.{IsJson, unwhole};
ghost use Rattle.farm_text.specs.Written.{ReadsBack, ItemsReadBack, MembersReadBack, IsWhole, AreWhole, MembersWhole};
ghost use Rattle.serde_json.specs.Data.{depth};

use crate::text::Text;
use json::Writer;
use std::alloc::{AllocError, Global};
use std::collections::BTreeMap;
use std::default::Emptied;

/// A JSON document with whole numbers (RFC 8259). The keys of a map rise by bytes, and each stands once.
#[derive(Drop)]
pub enum Doc {
    Null,
    Bool(bool),
    Int(i64),
    Text(Text),
    List(Vec<Doc>),
    Map(BTreeMap<String, Doc>),
}

impl Doc {
    /// A copy of the text, as a document.
    pub fn text(alloc: Global, text: &str) -> Result<Doc, AllocError>
        ensures { IfOk result (λ d. document d ≡ plain_text text.now) }
    {
        Ok(Doc::Text(Text::from_str(alloc, text)?))
    }

    /// What a map has at the key. Other documents have no keys.
    pub fn get(&self, key: &str) -> Option<&Doc>
        ensures { option_map (λ d. document d.now) result ≡ get key.now (document self.now) }
    {
        match self {
            Doc::Map(members) => members.get(key),
            _ => None,
        }
    }

    /// Writes the document as JSON without spaces, behind what the writer has.
    pub fn write_to(&self, out: &mut Writer) -> Result<(), AllocError>
        ensures ok { OnOk result (out.new.tokens
            ≡ out.old.tokens ++ json_tokens (outline (data_of (document self.now)))) }
        ensures before { out.new.before ≡ out.old.before }
        ensures reads_back { OnOk result (ReadsBack (document self.now)) }
        ensures whole { OnOk result (IsWhole (document self.now)) }
    {
        write_value(self, out)
    }

    /// The document as JSON without spaces. `read` gives it back where it nests at most 127 deep, and never says that a number in it is not whole.
    pub fn write(&self, alloc: Global) -> Result<Text, AllocError>
        ensures text { IfOk result (λ t. t ≡ document_text (document self.now)) }
        ensures reads_back { IfOk result (λ t. depth (data_of (document self.now)) ≤ 127
            → IsJson t (data_of (document self.now))) }
        ensures whole { IfOk result (λ _. unwhole (data_of (document self.now)) ≡ []) }
    {
        let mut out = Writer::new(Vec::with_capacity(alloc, 128)?);
        write_value(self, &mut out)?;
        Ok(Text::from_writer(out))
    }
}

impl Clone for Doc {
    ghost is_clone = { λ a b. document b ≡ document a };

    fn clone(&self) -> Result<Doc, AllocError> {
        copy_value(self)
    }
}

#[cycle(write)]
fn write_value(doc: &Doc, out: &mut Writer) -> Result<(), AllocError>
    ensures ok { OnOk result (out.new.tokens
        ≡ out.old.tokens ++ json_tokens (outline (data_of (document doc.now)))) }
    ensures before { out.new.before ≡ out.old.before }
    ensures reads_back { OnOk result (ReadsBack (document doc.now)) }
    ensures whole { OnOk result (IsWhole (document doc.now)) }
{
    match doc {
        Doc::Null => out.null(),
        Doc::Bool(b) => out.boolean(*b),
        Doc::Int(n) => write_whole(*n, out),
        Doc::Text(text) => out.string(text.as_str()),
        Doc::List(items) => {
            out.begin_array()?;
            write_items(items, out)
        }
        Doc::Map(members) => {
            out.begin_object()?;
            write_members(members, out)
        }
    }
}

fn write_whole(n: i64, out: &mut Writer) -> Result<(), AllocError>
    ensures ok { OnOk result (out.new.tokens
        ≡ out.old.tokens ++ json_tokens (outline (data_of (whole n)))) }
    ensures before { out.new.before ≡ out.old.before }
    ensures reads_back { ReadsBack (whole n) }
    ensures whole { IsWhole (whole n) }
{
    out.i64(n)
}

#[cycle(write)]
fn write_items(items: &Vec<Doc>, out: &mut Writer) -> Result<(), AllocError>
    ensures ok { OnOk result (out.new.tokens ≡ out.old.tokens
        ++ items_tokens (items_outline (items_data (items_of (documents items.now.items))))) }
    ensures before { out.new.before ≡ out.old.before }
    ensures reads_back { OnOk result (ItemsReadBack (items_of (documents items.now.items))) }
    ensures whole { OnOk result (AreWhole (items_of (documents items.now.items))) }
{
    for item in items {
        write_value(item, out)?;
    }
    out.end_array()
}

#[cycle(write)]
fn write_members(members: &BTreeMap<String, Doc>, out: &mut Writer) -> Result<(), AllocError>
    ensures ok { OnOk result (out.new.tokens ≡ out.old.tokens
        ++ members_tokens (members_outline (members_data (members_of (entries_of members.now.entries))))) }
    ensures before { out.new.before ≡ out.old.before }
    ensures reads_back { OnOk result (MembersReadBack (members_of (entries_of members.now.entries))) }
    ensures whole { OnOk result (MembersWhole (members_of (entries_of members.now.entries))) }
{
    for (key, member) in members.iter() {
        out.key(key.as_str())?;
        write_value(member, out)?;
    }
    out.end_object()
}

#[cycle(copy)]
fn copy_value(doc: &Doc) -> Result<Doc, AllocError>
    ensures { IfOk result (λ d. document d ≡ document doc.now) }
{
    match doc {
        Doc::Null => Ok(Doc::Null),
        Doc::Bool(b) => Ok(Doc::Bool(*b)),
        Doc::Int(n) => Ok(Doc::Int(*n)),
        Doc::Text(text) => Ok(Doc::Text(text.clone()?)),
        Doc::List(items) => Ok(Doc::List(copy_items(items)?)),
        Doc::Map(members) => Ok(Doc::Map(copy_members(members)?)),
    }
}

#[cycle(copy)]
fn copy_items(items: &Vec<Doc>) -> Result<Vec<Doc>, AllocError>
    ensures { IfOk result (λ v. items_of (documents v.items) ≡ items_of (documents items.now.items)) }
{
    let mut copies = Vec::with_capacity(*items.allocator(), items.len())?;
    for item in items {
        copies.push(copy_value(item)?)?;
    }
    Ok(copies)
}

#[cycle(copy)]
fn copy_members(members: &BTreeMap<String, Doc>) -> Result<BTreeMap<String, Doc>, AllocError>
    ensures { IfOk result (λ m. members_of (entries_of m.entries)
        ≡ members_of (entries_of members.now.entries)) }
{
    let mut copies = BTreeMap::emptied(members)?;
    for (key, member) in members.iter() {
        let name = key.clone()?;
        drop(copies.insert(name, copy_value(member)?)?);
    }
    Ok(copies)
}
