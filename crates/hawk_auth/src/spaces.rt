//! The spaces around a text.
ghost use Rattle.std.specs.Prelude.{◌≡◌, ℕ, ◌≤◌, length, reverse};
ghost use Rattle.hawk_auth.specs.Mac.{skip_spaces, trimmed};

/// The text without the spaces at its front and its end.
pub(crate) fn trim(text: &[u8]) -> &[u8]
    ensures { result.now ≡ trimmed text.now }
{
    trim_end(skip_spaces(text))
}

/// The text without the spaces at its front.
pub(crate) fn skip_spaces(text: &[u8]) -> &[u8]
    ensures value { result.now ≡ skip_spaces text.now }
    ensures bound { length result.now ≤ length text.now }
{
    let mut start = 0;
    while start < text.len() && text[start] == b' ' {
        start += 1;
    }
    &text[start..]
}

/// The text without the spaces at its end.
fn trim_end(text: &[u8]) -> &[u8]
    ensures { result.now ≡ reverse (skip_spaces (reverse text.now)) }
{
    let mut end = text.len();
    while end > 0 && text[end - 1] == b' ' {
        end -= 1;
    }
    &text[..end]
}
