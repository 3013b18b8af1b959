//! Which values are true.
ghost use Rattle.std.specs.Prelude.{◌≡◌};
ghost use Rattle.farm_text.specs.Doc.{document};
ghost use Rattle.jsone_values.specs.Truth.{is_true};

use farm_text::Doc;

/// False are null, false, 0, and an empty text, list or map.
pub fn is_true(value: &Doc) -> bool
    ensures { result ≡ is_true (document value.now) }
{
    match value {
        Doc::Null => false,
        Doc::Bool(truth) => *truth,
        Doc::Int(number) => *number != 0,
        Doc::Text(text) => !text.as_bytes().is_empty(),
        Doc::List(items) => !items.is_empty(),
        Doc::Map(members) => !members.is_empty(),
    }
}
