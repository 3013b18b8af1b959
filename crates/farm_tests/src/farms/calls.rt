//! Questions about one task, by words, and a farm that is open to all.
use crate::configs::config_of;
use crate::machine::calls::call_of;
use crate::machine::moment;
use farm_asks::config::Config;
use farm_asks::question::{Caller, Question};
use farm_text::SlugId;
use std::alloc::Global;
use std::test::Fail;

/// A farm that is open to all, with claims of twenty minutes.
const OPEN: &str = "[[role]]\nid = \"anonymous\"\nscopes = [\"*\"]\n";

/// The configuration of that farm.
pub(crate) fn config(alloc: Global) -> Result<Config, Fail> {
    config_of(alloc, OPEN)
}

/// The question of these words, so many milliseconds after the first task is made.
pub(crate) fn question(alloc: Global, after: &str, words: &str) -> Result<Question, Fail> {
    let id = SlugId::read(b"AAAAAAAAQACAAAAAAAAAAA").ok_or("a slugid")?;
    let at = moment(after)?;
    let call = call_of(alloc, words)?;
    Ok(Question::new(at, id, Caller::Anonymous, call))
}
