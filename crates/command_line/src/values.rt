//! The forms of the values of options.
ghost use Rattle.std.specs.Prelude.{◌≡◌, true, false, length, MatchOption};
ghost use Rattle.std.specs.Str.Parse.{digits_value};
ghost use Rattle.command_line.specs.Values as forms;

fn has_length(text: &str, least: usize, most: usize) -> bool
    ensures { result ≡ forms.is_between least most (length text.now) }
{
    least <= text.len() && text.len() <= most
}

fn is_value_byte(b: u8) -> bool
    ensures { result ≡ forms.is_value_byte b }
{
    (b' '..=b'~').contains(&b) && b != b'"' && b != b'\\'
}

fn are_letters(text: &str) -> bool
    ensures { result ≡ forms.are_all forms.is_letter text.now }
{
    text.as_bytes().iter().all(|b| b.is_ascii_alphabetic())
}

fn are_digits(text: &str) -> bool
    ensures { result ≡ forms.are_all forms.is_digit text.now }
{
    text.as_bytes().iter().all(|b| b.is_ascii_digit())
}

/// Whether each byte is printable ASCII.
pub(crate) fn are_printable(text: &str) -> bool
    ensures { result ≡ forms.are_all forms.is_printable text.now }
{
    text.as_bytes().iter().all(|b| (b' '..=b'~').contains(b))
}

fn are_target_bytes(text: &str) -> bool
    ensures { result ≡ forms.are_all forms.is_target_byte text.now }
{
    text.as_bytes().iter().all(|b| (b'!'..=b'~').contains(b))
}

/// Whether each byte is printable ASCII, no quote and no backslash.
pub(crate) fn are_value_bytes(text: &str) -> bool
    ensures { result ≡ forms.are_all forms.is_value_byte text.now }
{
    text.as_bytes().iter().all(|b| is_value_byte(*b))
}

/// Whether a text is a client's id.
pub(crate) fn is_id(text: &str) -> bool
    ensures { result ≡ forms.has_form 1 128 forms.is_id_byte text.now }
{
    hawk_auth::is_client_id(text)
}

/// Whether a text is an access token.
pub(crate) fn is_token(text: &str) -> bool
    ensures { result ≡ forms.has_form 22 66 forms.is_token_byte text.now }
{
    hawk_auth::is_token(text)
}

/// Whether a text is 1 to 32 letters.
pub(crate) fn is_method(text: &str) -> bool
    ensures { result ≡ forms.has_form 1 32 forms.is_letter text.now }
{
    has_length(text, 1, 32) && are_letters(text)
}

/// Whether a text is 1 to 8,192 bytes of printable ASCII without a space.
pub(crate) fn is_target(text: &str) -> bool
    ensures { result ≡ forms.has_form 1 8192 forms.is_target_byte text.now }
{
    has_length(text, 1, 8192) && are_target_bytes(text)
}

/// Whether a text is 1 to 255 bytes of printable ASCII.
pub(crate) fn is_host(text: &str) -> bool
    ensures { result ≡ forms.has_form 1 255 forms.is_printable text.now }
{
    has_length(text, 1, 255) && are_printable(text)
}

/// Whether a text is 1 to 12 digits.
pub(crate) fn is_ts(text: &str) -> bool
    ensures { result ≡ forms.has_form 1 12 forms.is_digit text.now }
{
    has_length(text, 1, 12) && are_digits(text)
}

/// Whether a text is a nonce: printable ASCII without a quote and a backslash, at least one byte.
pub(crate) fn is_nonce(text: &str) -> bool
    ensures { result ≡ forms.are_some forms.is_value_byte text.now }
{
    1 <= text.len() && are_value_bytes(text)
}

/// The number that a text of 1 to 19 digits says, up to 9,223,372,036,854,775,807.
pub(crate) fn seed_of(text: &str) -> Option<u64>
    ensures { MatchOption result (forms.is_number 0 9223372036854775807 text.now ≡ false)
        (λ seed. (forms.is_number 0 9223372036854775807 text.now ≡ true) × (seed ≡ digits_value 10 text.now)) }
{
    if !has_length(text, 1, 19) || !are_digits(text) {
        return None;
    }
    match text.parse::<u64>() {
        Ok(seed) if seed <= 9_223_372_036_854_775_807 => Some(seed),
        _ => None,
    }
}

/// The number that a text of 1 to 19 digits says, up to 100,000.
pub(crate) fn tasks_of(text: &str) -> Option<u32>
    ensures { MatchOption result (forms.is_number 0 100000 text.now ≡ false)
        (λ tasks. (forms.is_number 0 100000 text.now ≡ true) × (tasks ≡ digits_value 10 text.now)) }
{
    if !has_length(text, 1, 19) || !are_digits(text) {
        return None;
    }
    match text.parse::<u32>() {
        Ok(tasks) if tasks <= 100_000 => Some(tasks),
        _ => None,
    }
}

/// The number of workers that a text of 1 to 19 digits says, from 1 to 64.
pub(crate) fn workers_of(text: &str) -> Option<u8>
    ensures { MatchOption result (forms.is_number 1 64 text.now ≡ false)
        (λ workers. (forms.is_number 1 64 text.now ≡ true) × (workers ≡ digits_value 10 text.now)) }
{
    if !has_length(text, 1, 19) || !are_digits(text) {
        return None;
    }
    match text.parse::<u8>() {
        Ok(workers) if 1 <= workers && workers <= 64 => Some(workers),
        _ => None,
    }
}

/// The number of connections that a text of 1 to 19 digits says, from 1 to 1,000,000.
pub(crate) fn connections_of(text: &str) -> Option<u32>
    ensures { MatchOption result (forms.is_number 1 1000000 text.now ≡ false)
        (λ connections. (forms.is_number 1 1000000 text.now ≡ true) × (connections ≡ digits_value 10 text.now)) }
{
    if !has_length(text, 1, 19) || !are_digits(text) {
        return None;
    }
    match text.parse::<u32>() {
        Ok(connections) if 1 <= connections && connections <= 1_000_000 => Some(connections),
        _ => None,
    }
}

/// The port that a text of 1 to 19 digits says, from 1 to 65,535.
pub(crate) fn port_of(text: &str) -> Option<u16>
    ensures { MatchOption result (forms.is_number 1 65535 text.now ≡ false)
        (λ port. (forms.is_number 1 65535 text.now ≡ true) × (port ≡ digits_value 10 text.now)) }
{
    if !has_length(text, 1, 19) || !are_digits(text) {
        return None;
    }
    match text.parse::<u16>() {
        Ok(port) if 1 <= port => Some(port),
        _ => None,
    }
}
