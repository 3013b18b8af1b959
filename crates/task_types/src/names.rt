//! The texts of a definition that have a form of their own.
ghost use Rattle.std.specs.Prelude.{◌≡◌, ◌↔◌, IsTrue, IsSome, IfSome, IfOk, All};
ghost use Rattle.scope_sets.specs.Scopes.{IsPrintable};
ghost use Rattle.task_types.specs.Forms.{IsIdentifierByte, IsProjectByte, IsIdentifier, IsProject, IsRoute, queue_name};

use farm_text::Text;
use scope_sets::scopes::is_printable;
use std::alloc::{AllocError, Global};
use std::marker::Model;

/// An identifier: 1 to 38 characters of `[A-Za-z0-9_-]`.
#[derive(Drop)]
pub struct Identifier {
    text: Text,
}

impl Model for Identifier {
    ghost use Rattle.std.specs.Prelude.{ℕ, List};
    ghost use Rattle.task_types.specs.Forms.{IsIdentifier};

    ghost Value = { List ℕ };

    ghost view = { λ i. i.text };

    ghost invariant = { λ i. IsIdentifier i.text };
}

impl Identifier {
    /// The identifier of this text, if it is one.
    pub fn new(text: Text) -> Option<Identifier>
        ensures form { IsSome result ↔ IsIdentifier text }
        ensures value { IfSome result (λ i. i ≡ text) }
    {
        if is_identifier(text.as_bytes()) {
            Some(Identifier { text })
        } else {
            None
        }
    }

    /// The identifier of a text that is known to be one.
    pub fn from_identifier(text: Text) -> Identifier
        requires { IsIdentifier text }
        ensures { result ≡ text }
    {
        Identifier { text }
    }

    /// The text of the identifier.
    pub fn as_str(&self) -> &str
        ensures value { result.now ≡ self.now }
        ensures form { IsIdentifier self.now }
    {
        self.text.as_str()
    }
}

/// The name of a project: 1 to 500 characters of `[A-Za-z0-9._/-]`.
#[derive(Drop)]
pub struct ProjectName {
    text: Text,
}

impl Model for ProjectName {
    ghost use Rattle.std.specs.Prelude.{ℕ, List};
    ghost use Rattle.task_types.specs.Forms.{IsProject};

    ghost Value = { List ℕ };

    ghost view = { λ p. p.text };

    ghost invariant = { λ p. IsProject p.text };
}

impl ProjectName {
    /// The project's name that is this text, if it is one.
    pub fn new(text: Text) -> Option<ProjectName>
        ensures form { IsSome result ↔ IsProject text }
        ensures value { IfSome result (λ p. p ≡ text) }
    {
        if is_project(text.as_bytes()) {
            Some(ProjectName { text })
        } else {
            None
        }
    }

    /// The text of the name.
    pub fn as_str(&self) -> &str
        ensures value { result.now ≡ self.now }
        ensures form { IsProject self.now }
    {
        self.text.as_str()
    }
}

/// A route: 1 to 249 printable ASCII characters.
#[derive(Debug, Drop)]
pub struct Route {
    text: Text,
}

impl Model for Route {
    ghost use Rattle.std.specs.Prelude.{ℕ, List};
    ghost use Rattle.task_types.specs.Forms.{IsRoute};

    ghost Value = { List ℕ };

    ghost view = { λ r. r.text };

    ghost invariant = { λ r. IsRoute r.text };
}

impl Route {
    /// The route that is this text, if it is one.
    pub fn new(text: Text) -> Option<Route>
        ensures form { IsSome result ↔ IsRoute text }
        ensures value { IfSome result (λ r. r ≡ text) }
    {
        if is_route(text.as_bytes()) {
            Some(Route { text })
        } else {
            None
        }
    }

    /// The text of the route.
    pub fn as_str(&self) -> &str
        ensures value { result.now ≡ self.now }
        ensures form { IsRoute self.now }
    {
        self.text.as_str()
    }
}

impl PartialEq for Route {
    ghost use Rattle.std.specs.Prelude.{nat_eq};
    ghost use Rattle.std.specs.Cmp.{partial_equiv_from_equiv};
    ghost use Rattle.std.specs.Cmp.Lexicographic.{pointwise, nat_list_eq_equiv};

    ghost eq = { pointwise nat_eq };

    ghost laws = { partial_equiv_from_equiv nat_list_eq_equiv };

    fn eq(&self, other: &Route) -> bool {
        self.as_str() == other.as_str()
    }
}

/// A task queue: the tasks for one type of workers of a provisioner, written `<provisioner id>/<worker type>`.
#[derive(Drop)]
pub struct TaskQueue {
    pub provisioner_id: Identifier,
    pub worker_type: Identifier,
}

impl TaskQueue {
    /// The name of the queue, `<provisioner id>/<worker type>`.
    pub fn name(&self, alloc: Global) -> Result<Text, AllocError>
        ensures { IfOk result (λ t. t ≡ queue_name self.now.provisioner_id self.now.worker_type) }
    {
        let name = format!(in alloc;
            "{}/{}",
            self.provisioner_id.as_str(),
            self.worker_type.as_str()
        )?;
        Ok(Text::from_string(name))
    }
}

/// Whether a text is an identifier.
pub fn is_identifier(text: &[u8]) -> bool
    ensures { IsTrue result ↔ IsIdentifier text.now }
{
    !text.is_empty() && text.len() <= 38 && text.iter().all(|b| is_identifier_byte(*b))
}

fn is_identifier_byte(b: u8) -> bool
    ensures { IsTrue result ↔ IsIdentifierByte b }
{
    b.is_ascii_alphanumeric() || b == b'_' || b == b'-'
}

/// Whether a text is the name of a project.
fn is_project(text: &[u8]) -> bool
    ensures { IsTrue result ↔ IsProject text.now }
{
    !text.is_empty() && text.len() <= 500 && text.iter().all(|b| is_project_byte(*b))
}

fn is_project_byte(b: u8) -> bool
    ensures { IsTrue result ↔ IsProjectByte b }
{
    b.is_ascii_alphanumeric() || b == b'.' || b == b'_' || b == b'/' || b == b'-'
}

/// Whether a text is a route.
fn is_route(text: &[u8]) -> bool
    ensures { IsTrue result ↔ IsRoute text.now }
{
    !text.is_empty() && text.len() <= 249 && is_printable(text)
}
