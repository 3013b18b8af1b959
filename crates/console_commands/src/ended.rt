//! How a run ended, and what is told of it.
ghost use Rattle.std.specs.Prelude.{◌≡◌, ◌++◌, IfSome, IfOk, codes, string_bytes};
ghost use Rattle.console_commands.specs.Notes.{IsLineOf, IsOneLine};

use crate::status::Status;
use farm_text::Text;
use plain_text::{escape_line, escape_lines};
use std::alloc::{AllocError, Global};
use std::io::ErrorKind;

/// The status of a run, and in words what more there is to tell of it.
#[derive(Drop)]
pub struct Ended {
    pub status: Status,
    /// They go on after the front of the status's line, and may have any bytes. Of refused words of the command line they are all.
    pub words: Option<Text>,
    /// Whether the reason that the system gave last, if it gave one, is that of this end.
    pub has_reason: bool,
}

impl Ended {
    /// Of this there is no more to tell.
    pub fn plain(status: Status) -> Ended
        ensures { result.status ≡ status }
    {
        Ended {
            status,
            words: None,
            has_reason: false,
        }
    }

    /// These words more are told, where there is memory for them.
    pub fn told(alloc: Global, status: Status, words: &str) -> Ended
        ensures { result.status ≡ status }
    {
        Ended {
            status,
            words: copy_of(alloc, words),
            has_reason: true,
        }
    }

    /// The same of an end of which the system tells no reason.
    pub fn without_reason(alloc: Global, status: Status, words: &str) -> Ended
        ensures { result.status ≡ status }
    {
        Ended {
            status,
            words: copy_of(alloc, words),
            has_reason: false,
        }
    }

    /// The words of the command line are refused, which this text tells the user.
    pub fn of_usage(text: Text) -> Ended
        ensures { result.status ≡ Status.Usage }
    {
        Ended {
            status: Status::Usage,
            words: Some(text),
            has_reason: false,
        }
    }

    /// So a run ended that last used the console.
    pub fn on_console(alloc: Global, status: Status) -> Ended
        ensures { result.status ≡ status }
    {
        match status {
            Status::Read => Ended::told(alloc, Status::Read, ": standard input"),
            Status::Write => Ended::told(alloc, Status::Write, ": standard output"),
            _ => Ended::plain(status),
        }
    }

    /// The status of the run.
    pub fn status(&self) -> Status
        ensures { result ≡ self.now.status }
    {
        self.status
    }

    /// What notes are told, where it is more than the line of the status and there is memory for it. Where the run ended by a refusal of
    /// the system, the reason that it gave for this is told, too.
    pub fn note(&self, alloc: Global, reason: Option<ErrorKind>) -> Option<Text>
        ensures { IfSome result (IsLineOf self.now.status) }
    {
        match &self.words {
            Some(words) => {
                let reason = if self.has_reason { reason } else { None };
                note_of(alloc, self.status, words.as_str(), reason)
            }
            None => None,
        }
    }

    /// This note, else the line of the status.
    pub fn line<'a>(&self, note: &'a Option<Text>) -> &'a str
        requires { IfSome note.now (IsLineOf self.now.status) }
        ensures { IsLineOf self.now.status result.now }
    {
        match note {
            Some(note) => note.as_str(),
            None => self.status.line(),
        }
    }
}

/// A copy, where there is memory for it.
fn copy_of(alloc: Global, words: &str) -> Option<Text> {
    match String::from_str(alloc, words) {
        Ok(words) => Some(Text::from_string(words)),
        Err(AllocError) => None,
    }
}

/// What notes are told of a run that ended so, of which there are these words more.
fn note_of(alloc: Global, status: Status, words: &str, reason: Option<ErrorKind>) -> Option<Text>
    ensures { IfSome result (IsLineOf status) }
{
    match status {
        Status::Usage => usage_note(alloc, words),
        Status::Opening | Status::Read | Status::Write => {
            note_with(alloc, status, words, reason)
        }
        _ => line_note(alloc, status, words),
    }
}

/// The line of a status with these words more and the reason of the system, where it gives one.
fn note_with(alloc: Global, status: Status, words: &str, reason: Option<ErrorKind>) -> Option<Text>
    ensures { IfSome result (IsLineOf status) }
{
    let Some(reason) = reason else {
        return line_note(alloc, status, words);
    };
    match format!(in alloc; "{words}: {reason}") {
        Ok(words) => line_note(alloc, status, words.as_str()),
        Err(_) => None,
    }
}

/// The line of a status with these words more.
fn line_note(alloc: Global, status: Status, words: &str) -> Option<Text>
    ensures { IfSome result (IsLineOf status) }
{
    match line_with(alloc, status.front(), words) {
        Ok(note) => Some(note),
        Err(AllocError) => None,
    }
}

/// A line of this front and these words.
fn line_with(alloc: Global, front: &str, words: &str) -> Result<Text, AllocError>
    ensures { IfOk result (IsOneLine front.now) }
{
    let words = escape_line(alloc, words)?;
    Ok(Text::from_string(line_of_parts(alloc, front, words.as_str())?))
}

/// Both parts and a line feed.
fn line_of_parts(alloc: Global, front: &str, words: &str) -> Result<String, AllocError>
    ensures { IfOk result (λ line. string_bytes line ≡ front.now ++ (words.now ++ codes "\n")) }
{
    format!(in alloc; "{front}{words}\n")
}

/// A text for the user.
fn usage_note(alloc: Global, text: &str) -> Option<Text>
    ensures { IfSome result (IsLineOf Status.Usage) }
{
    match escape_lines(alloc, text) {
        Ok(text) => Some(Text::from_string(text)),
        Err(AllocError) => None,
    }
}
