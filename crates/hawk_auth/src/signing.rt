//! The header that signs a request.
ghost use Rattle.std.specs.Prelude.{◌≡◌, ◌++◌, IfOk, IsUtf8, codes, string_bytes};
ghost use Rattle.std.specs.Option.{option_copied};
ghost use Rattle.hawk_auth.specs.Header.{IsHeader};
ghost use Rattle.hawk_auth.specs.Mac.{parts_data, mac_of};
ghost use Rattle.hawk_auth.specs.Signed.{IsSignable, attribute_text, header_text, next_text, optional_text, signed_header};

use crate::macs::{Parts, mac};
use farm_text::Text;
use std::alloc::{AllocError, Global};
use std::str;

/// The value of the `Authorization` header that signs these parts, with the attributes in the order id, ts, nonce, hash, ext, mac.
///
/// `HawkHeader::read` reads these parts back, with the MAC, where their values are printable ASCII without `"` and `\` and not
/// empty, and the ts is 1 to 12 digits.
pub fn sign(alloc: Global, parts: &Parts) -> Result<Text, AllocError>
    ensures text { IfOk result (λ t. t ≡ header_text (parts_data parts.now)) }
    ensures reads_back { IfOk result (λ t. IsSignable (parts_data parts.now)
        → IsHeader t (signed_header (parts_data parts.now))) }
{
    let mac = mac(parts);
    let Ok(mac) = str::from_utf8(&mac) else {
        unreachable!();
    };
    let mut out = String::from_str(alloc, "Hawk ")?;
    push_attribute(&mut out, "id", parts.id)?;
    push_next(&mut out, "ts", parts.ts)?;
    push_next(&mut out, "nonce", parts.nonce)?;
    push_optional(&mut out, "hash", parts.hash)?;
    push_optional(&mut out, "ext", parts.ext)?;
    push_next(&mut out, "mac", mac)?;
    Ok(Text::from_string(out))
}

fn push_attribute(out: &mut String, name: &str, value: &str) -> Result<(), AllocError>
    ensures { IfOk result (λ _. string_bytes out.new ≡ string_bytes out.old ++ attribute_text name.now value.now) }
{
    out.push_str(name)?;
    out.push_str("=\"")?;
    out.push_str(value)?;
    out.push_str("\"")
}

fn push_next(out: &mut String, name: &str, value: &str) -> Result<(), AllocError>
    ensures { IfOk result (λ _. string_bytes out.new ≡ string_bytes out.old ++ next_text name.now value.now) }
{
    out.push_str(", ")?;
    push_attribute(out, name, value)
}

fn push_optional(out: &mut String, name: &str, value: Option<&str>) -> Result<(), AllocError>
    ensures { IfOk result (λ _. string_bytes out.new
        ≡ string_bytes out.old ++ optional_text name.now (option_copied value.entry)) }
{
    match value {
        Some(value) => push_next(out, name, value),
        None => Ok(()),
    }
}
