//! Who calls: clients with tokens, and the Hawk scheme of HTTP authentication (version 1, the `Authorization` header).
//!
//! A client signs its request with a MAC under its token. The farm looks the client up, makes the MAC again, and answers with
//! the scopes of the caller, or with the first condition that fails.
#![tactic(auto)]

mod attributes;
mod book;
mod check;
mod client;
mod ext;
mod header;
mod hmac;
pub mod laws;
mod macs;
mod payload;
mod signing;
mod spaces;

pub use book::{BookFault, ClientBook};
pub use check::{AuthFault, AuthHead};
pub use client::{Client, has_client_form, is_client_id, is_token};
pub use header::{HawkHeader, HeaderFault};
pub use hmac::hmac_sha256;
pub use macs::{Parts, mac};
pub use payload::payload_hash;
pub use signing::sign;
