//! Clients, and their form.
ghost use Rattle.std.specs.Prelude.{◌≡◌, ◌↔◌, ℕ, All, IsTrue};
ghost use Rattle.scope_sets.specs.Scopes.{HasHandedInForm};
ghost use Rattle.hawk_auth.specs.Clients.{client_data, HasClientForm, IsClientId, IsIdByte, IsToken, IsTokenByte};

use farm_text::{Moment, Text};
use scope_sets::Scope;

/// A client: whoever signs with its token has what its scopes give, until it expires.
#[derive(Drop)]
pub struct Client {
    /// 1 to 128 of `[A-Za-z0-9!@/:.+|_-]`.
    pub id: Text,
    /// The access token: 22 to 66 of `[A-Za-z0-9_-]`.
    pub token: Text,
    pub scopes: Vec<Scope>,
    /// The moment from which on it is no client any more.
    pub expires: Moment,
    pub disabled: bool,
}

fn is_id_byte(b: u8) -> bool
    ensures { IsTrue result ↔ IsIdByte b }
{
    b.is_ascii_alphanumeric()
        || b == b'!'
        || b == b'@'
        || b == b'/'
        || b == b':'
        || b == b'.'
        || b == b'+'
        || b == b'|'
        || b == b'_'
        || b == b'-'
}

fn are_id_bytes(text: &[u8]) -> bool
    ensures { IsTrue result ↔ All IsIdByte text.now }
{
    text.iter().all(|b| is_id_byte(*b))
}

fn are_token_bytes(text: &[u8]) -> bool
    ensures { IsTrue result ↔ All IsTokenByte text.now }
{
    text.iter()
        .all(|b| b.is_ascii_alphanumeric() || *b == b'_' || *b == b'-')
}

/// Whether a text is 1 to 128 of `[A-Za-z0-9!@/:.+|_-]`, as a client's id is.
pub fn is_client_id(text: &str) -> bool
    ensures { IsTrue result ↔ IsClientId text.now }
{
    1 <= text.len() && text.len() <= 128 && are_id_bytes(text.as_bytes())
}

/// Whether a text is 22 to 66 of `[A-Za-z0-9_-]`, as an access token is.
pub fn is_token(text: &str) -> bool
    ensures { IsTrue result ↔ IsToken text.now }
{
    22 <= text.len() && text.len() <= 66 && are_token_bytes(text.as_bytes())
}

fn have_form(scopes: &[Scope]) -> bool
    ensures { IsTrue result ↔ All (HasHandedInForm 4096) scopes.now }
{
    scopes.iter().all(Scope::has_handed_in_form)
}

/// Whether a client is of its form.
pub fn has_client_form(client: &Client) -> bool
    ensures { IsTrue result ↔ HasClientForm (client_data client.now) }
{
    is_client_id(client.id.as_str()) && is_token(client.token.as_str()) && have_form(&client.scopes)
}
