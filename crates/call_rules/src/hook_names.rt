//! The names of hooks.
ghost use Rattle.std.specs.Prelude.{◌≡◌, ◌↔◌, IsTrue, IsSome, IfSome};
ghost use Rattle.task_types.specs.Forms.{IsIdentifierByte};
ghost use Rattle.call_rules.specs.HookNames.{IsHookByte, IsHookGroupId, IsHookId};

use farm_text::Text;
use std::marker::Model;

/// The id of a group of hooks: 1 to 1,000 characters of `[A-Za-z0-9_-]`.
#[derive(Drop)]
pub struct HookGroupId {
    text: Text,
}

impl Model for HookGroupId {
    ghost use Rattle.std.specs.Prelude.{ℕ, List};
    ghost use Rattle.call_rules.specs.HookNames.{IsHookGroupId};

    ghost Value = { List ℕ };

    ghost view = { λ g. g.text };

    ghost invariant = { λ g. IsHookGroupId g.text };
}

impl HookGroupId {
    /// The id of this text, if it is one.
    pub fn new(text: Text) -> Option<HookGroupId>
        ensures form { IsSome result ↔ IsHookGroupId text }
        ensures value { IfSome result (λ g. g ≡ text) }
    {
        if is_hook_group_id(text.as_bytes()) {
            Some(HookGroupId { text })
        } else {
            None
        }
    }

    /// The text of the id.
    pub fn as_str(&self) -> &str
        ensures value { result.now ≡ self.now }
        ensures form { IsHookGroupId self.now }
    {
        self.text.as_str()
    }
}

/// The id of a hook in its group: 1 to 1,000 characters of `[A-Za-z0-9_/-]`.
#[derive(Drop)]
pub struct HookId {
    text: Text,
}

impl Model for HookId {
    ghost use Rattle.std.specs.Prelude.{ℕ, List};
    ghost use Rattle.call_rules.specs.HookNames.{IsHookId};

    ghost Value = { List ℕ };

    ghost view = { λ h. h.text };

    ghost invariant = { λ h. IsHookId h.text };
}

impl HookId {
    /// The id of this text, if it is one.
    pub fn new(text: Text) -> Option<HookId>
        ensures form { IsSome result ↔ IsHookId text }
        ensures value { IfSome result (λ h. h ≡ text) }
    {
        if is_hook_id(text.as_bytes()) {
            Some(HookId { text })
        } else {
            None
        }
    }

    /// The text of the id.
    pub fn as_str(&self) -> &str
        ensures value { result.now ≡ self.now }
        ensures form { IsHookId self.now }
    {
        self.text.as_str()
    }
}

/// A hook by its name: its group, and its id in that.
#[derive(Drop)]
pub struct HookName {
    pub group: HookGroupId,
    pub id: HookId,
}

/// Whether a text is the id of a group of hooks: 1 to 1,000 of `[A-Za-z0-9_-]`.
pub fn is_hook_group_id(text: &[u8]) -> bool
    ensures { IsTrue result ↔ IsHookGroupId text.now }
{
    !text.is_empty() && text.len() <= 1000 && text.iter().all(|b| is_group_byte(*b))
}

fn is_group_byte(b: u8) -> bool
    ensures { IsTrue result ↔ IsIdentifierByte b }
{
    b.is_ascii_alphanumeric() || b == b'_' || b == b'-'
}

/// Whether a text is the id of a hook in its group: 1 to 1,000 of `[A-Za-z0-9_/-]`.
pub fn is_hook_id(text: &[u8]) -> bool
    ensures { IsTrue result ↔ IsHookId text.now }
{
    !text.is_empty() && text.len() <= 1000 && text.iter().all(|b| is_hook_byte(*b))
}

fn is_hook_byte(b: u8) -> bool
    ensures { IsTrue result ↔ IsHookByte b }
{
    is_group_byte(b) || b == b'/'
}
