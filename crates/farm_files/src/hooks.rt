//! The hooks of `[[hook]]`.
ghost use Rattle.std.specs.Prelude.{◌≡◌, ◌↔◌, ℕ, ◌+◌, ◌++◌, ◌∷◌, [], map, IfOk, IsTrue, MatchResult, codes, string_bytes, vec_len};
ghost use Rattle.farm_text.specs.Doc.{document};
ghost use Rattle.hook_book.specs.Hooks.{hook_data, hooks_data};
ghost use Rattle.toml.specs.Data.{get_member};
ghost use Rattle.toml.specs.View.{view, table_view};
ghost use Rattle.farm_files.specs.Hooks.{hook_keys, hook_in, hook_rows, hooks_in, AreHooks, IsHookFrom, IsTemplateText};
ghost use Rattle.farm_files.specs.Rows.{RowAtBreaks, RowsBreak, says_of};
ghost use Rattle.farm_files.specs.Parts.{HasRow, IsSoundRow, RefusesJson, RefusesKeys, RefusesRowBehind, RefusesRows, said_by};
ghost use Rattle.farm_files.specs.Values.{has_all, has_only};
ghost use Rattle.farm_files.specs.declared.fault.Rule.{Rule as AnyRule};
ghost use Rattle.farm_files.specs.declared.fault.Table.TheVariants.{Hook as HookTable};

use crate::earlier::{add_id, has_id};
use crate::fault::{FileFault, RowFault, Rule, Table};
use crate::rows::MOST_ROWS;
use crate::values::{has_key, has_only, text_or};
use call_rules::{is_hook_group_id, is_hook_id};
use farm_text::{Doc, ReadFault, Text};
use hook_book::{Hook, HookBook};
use std::alloc::{AllocError, Global};
use std::collections::BTreeSet;
use toml::Value;

/// What a row says of a hook, with its template as it is written.
#[derive(Clone, Copy)]
struct Said<'a> {
    group: &'a str,
    id: &'a str,
    task: &'a str,
}

fn has_known_keys(row: &toml::Table) -> bool
    ensures { result ≡ has_only hook_keys (table_view row.now) }
{
    has_only(row, ["group", "id", "task"].as_slice())
}

fn has_required_keys(row: &toml::Table) -> bool
    ensures { result ≡ has_all hook_keys (table_view row.now) }
{
    has_key(row, "group") && has_key(row, "id") && has_key(row, "task")
}

/// What the keys of a row say.
fn read_keys(row: &toml::Table) -> Result<Said<'_>, Rule>
    ensures { MatchResult result
        (λ said. HasRow hook_rows (table_view row.now) × (said_by said ≡ hook_in (table_view row.now)))
        (λ rule. RefusesKeys hook_rows (table_view row.now) (RowFault.Breaks rule)) }
{
    if !has_known_keys(row) {
        return Err(Rule::UnknownKey);
    }
    if !has_required_keys(row) {
        return Err(Rule::MissingKey);
    }
    let Ok(group) = text_or(row, "group", "") else {
        return Err(Rule::WrongKind);
    };
    let Ok(id) = text_or(row, "id", "") else {
        return Err(Rule::WrongKind);
    };
    let Ok(task) = text_or(row, "task", "") else {
        return Err(Rule::WrongKind);
    };
    Ok(Said { group, id, task })
}

/// A hook's name: its group, a slash and its id.
fn name_of(alloc: Global, group: &str, id: &str) -> Result<String, AllocError>
    ensures { IfOk result (λ name. string_bytes name ≡ group.now ++ 47 ∷ id.now) }
{
    format!(in alloc; "{group}/{id}")
}

/// The template that a text is: JSON of whole numbers.
pub(crate) fn read_template(alloc: Global, text: &str) -> Result<Doc, RowFault>
    ensures { MatchResult result (λ template. IsTemplateText text.now (document template)) (RefusesJson text.now) }
{
    match Doc::read(alloc, text.as_bytes()) {
        Ok(template) => Ok(template),
        Err(ReadFault::NotJson) => Err(RowFault::Breaks(Rule::NotJson)),
        Err(ReadFault::NotWhole(_)) => Err(RowFault::Breaks(Rule::NotJson)),
        Err(ReadFault::NoMemory) => Err(RowFault::NoMemory),
    }
}

/// The hook that a row says.
fn make_hook(alloc: Global, said: Said<'_>) -> Result<Hook, RowFault>
    ensures { MatchResult result (λ hook. IsHookFrom (said_by said.entry) (hook_data hook)) (RefusesJson (said_by said.entry).task) }
{
    let template = match read_template(alloc, said.task) {
        Ok(template) => template,
        Err(fault) => return Err(fault),
    };
    Ok(Hook {
        group: Text::from_str(alloc, said.group)?,
        id: Text::from_str(alloc, said.id)?,
        template,
    })
}

/// Reads a row that stands at a place behind rows with these names.
fn read_row(
    alloc: Global,
    names: &BTreeSet<String>,
    row: usize,
    value: &Value,
) -> Result<Hook, RowFault>
    ensures { MatchResult result
        (λ hook. IsSoundRow hook_rows names.now row (view value.now) × IsHookFrom (says_of hook_rows (view value.now)) (hook_data hook))
        (RefusesRowBehind hook_rows names.now row (view value.now)) }
{
    let Some(keys) = value.as_table() else {
        return Err(RowFault::Breaks(Rule::WrongKind));
    };
    let said = match read_keys(keys) {
        Ok(said) => said,
        Err(rule) => return Err(RowFault::Breaks(rule)),
    };
    if row >= MOST_ROWS {
        return Err(RowFault::Breaks(Rule::OutOfForm));
    }
    if !is_hook_group_id(said.group.as_bytes()) || !is_hook_id(said.id.as_bytes()) {
        return Err(RowFault::Breaks(Rule::OutOfForm));
    }
    let name = match name_of(alloc, said.group, said.id) {
        Ok(name) => name,
        Err(AllocError) => return Err(RowFault::NoMemory),
    };
    if has_id(names, name.as_str()) {
        return Err(RowFault::Breaks(Rule::RepeatedId));
    }
    make_hook(alloc, said)
}

/// These hooks, and behind them one more.
fn with_hook(mut hooks: Vec<Hook>, hook: Hook) -> Result<Vec<Hook>, AllocError>
    ensures hooks { IfOk result (λ more. hooks_data more.items ≡ hooks_data hooks.items ++ hook_data hook ∷ []) }
    ensures len { IfOk result (λ more. vec_len more ≡ vec_len hooks + 1) }
{
    hooks.push(hook)?;
    Ok(hooks)
}

fn read_rows(alloc: Global, rows: &[Value]) -> Result<Vec<Hook>, FileFault>
    ensures { MatchResult result
        (λ hooks. ((row : ℕ) (rule : AnyRule) → ¬ RowAtBreaks hook_rows (map view rows.now) row rule)
        × AreHooks (map (says_of hook_rows) (map view rows.now)) (hooks_data hooks.items))
        (RefusesRows HookTable (RowAtBreaks hook_rows (map view rows.now))) }
{
    let mut hooks = Vec::new(alloc);
    let mut names = BTreeSet::new(alloc);
    for (row, value) in rows.iter().enumerate() {
        match read_row(alloc, &names, row, value) {
            Ok(hook) => {
                let name = name_of(alloc, hook.group.as_str(), hook.id.as_str())?;
                add_id(alloc, &mut names, name.as_str())?;
                hooks = with_hook(hooks, hook)?;
            }
            Err(RowFault::Breaks(rule)) => {
                return Err(FileFault::at(Table::Hook, row as u32, rule));
            }
            Err(RowFault::NoMemory) => return Err(FileFault::NoMemory),
        }
    }
    Ok(hooks)
}

/// Reads the rows of `[[hook]]`, which may be left out.
fn read_hooks(alloc: Global, top: &toml::Table) -> Result<Vec<Hook>, FileFault>
    ensures { MatchResult result
        (λ hooks. ((row : ℕ) (rule : AnyRule) → ¬ RowsBreak hook_rows (get_member (codes "hook") (table_view top.now)) row rule)
        × AreHooks (hooks_in (get_member (codes "hook") (table_view top.now))) (hooks_data hooks.items))
        (RefusesRows HookTable (RowsBreak hook_rows (get_member (codes "hook") (table_view top.now)))) }
{
    match top.get("hook") {
        None => Ok(Vec::new(alloc)),
        Some(value) => match value.as_array() {
            Some(rows) => read_rows(alloc, rows),
            None => Err(FileFault::at(Table::Hook, 0, Rule::WrongKind)),
        },
    }
}

/// The book of these hooks.
fn hook_book(alloc: Global, hooks: Vec<Hook>) -> Result<HookBook, AllocError>
    ensures { IfOk result (λ book. book ≡ hooks_data hooks.items) }
{
    let mut book = HookBook::new(alloc);
    for hook in hooks {
        book.push(alloc, hook)?;
    }
    Ok(book)
}

/// The book of the rows of `[[hook]]`.
pub(crate) fn read_hook_book(alloc: Global, top: &toml::Table) -> Result<HookBook, FileFault>
    ensures { MatchResult result
        (λ book. ((row : ℕ) (rule : AnyRule) → ¬ RowsBreak hook_rows (get_member (codes "hook") (table_view top.now)) row rule)
        × AreHooks (hooks_in (get_member (codes "hook") (table_view top.now))) book)
        (RefusesRows HookTable (RowsBreak hook_rows (get_member (codes "hook") (table_view top.now)))) }
{
    let hooks = read_hooks(alloc, top)?;
    Ok(hook_book(alloc, hooks)?)
}
