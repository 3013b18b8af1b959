//! What follows from the definitions. The functions only call laws of the crates below: each contract is a law.
ghost use Rattle.std.specs.Prelude.{◌≡◌, ℕ, List, Option};
ghost use Rattle.role_expand.specs.Cycles.{IsAccepted};
ghost use Rattle.role_expand.specs.Roles.{RoleData};
ghost use Rattle.hawk_auth.specs.Access.{Access, HasAccess, HeadData};
ghost use Rattle.hawk_auth.specs.Header.{HeaderData, IsHeader};
ghost use Rattle.hawk_auth.specs.Ext.{IsExt};
ghost use Rattle.hawk_auth.specs.Clients.{ClientData, IsBook, IsClientOf};

use farm_text::a_text_is_of_one_document;
use role_expand::laws::{a_closure_is_not_too_many, the_closure_is_one};

/// The value of a header says one thing at most.
pub fn a_header_says_one_thing()
    ensures { (text : List ℕ) (h k : HeaderData) → IsHeader text h → IsHeader text k → h ≡ k }
{}

/// An ext allows one thing at most.
pub fn an_ext_allows_one_thing()
    ensures { (ext : List ℕ) (a b : Option (List (List ℕ))) → IsExt ext a → IsExt ext b → a ≡ b }
{
    a_text_is_of_one_document();
}

/// An id is of one client of a book at most.
pub fn an_id_is_of_one_client()
    ensures { (clients : List ClientData) (id : List ℕ) (c d : ClientData) → IsBook clients
        → IsClientOf clients id c → IsClientOf clients id d → c ≡ d }
{}

/// A caller has one access at most: its closure, or one refusal, with what it carries.
pub fn a_caller_has_one_access()
    ensures { (clients : List ClientData) (roles : List RoleData) (head : HeadData) (now : ℕ) (a b : Access) → IsBook clients
        → HasAccess clients roles head now a → HasAccess clients roles head now b → a ≡ b }
{
    a_text_is_of_one_document();
    the_closure_is_one();
    a_closure_is_not_too_many();
}

/// Each caller has some access, over each accepted set of roles.
pub fn each_caller_has_an_access()
    ensures { (longest : ℕ) (clients : List ClientData) (roles : List RoleData) (head : HeadData) (now : ℕ) → IsAccepted longest roles
        → (access : Access) × HasAccess clients roles head now access }
{}
