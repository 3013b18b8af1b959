//! The clients of `[[client]]`.
ghost use Rattle.std.specs.Prelude.{◌≡◌, ℕ, ◌+◌, ◌++◌, ◌∷◌, [], true, false, map, All, IfOk, MatchOption, MatchResult, codes, vec_len};
ghost use Rattle.scope_sets.specs.Scopes.{IsPrintable};
ghost use Rattle.hawk_auth.specs.Clients.{client_data, clients_data, IsFirstBadClient, IsFirstRepeat};
ghost use Rattle.toml.specs.Data.{get_member};
ghost use Rattle.toml.specs.View.{view, table_view};
ghost use Rattle.farm_files.specs.Clients.{client_keys, client_in, client_rows, required_keys, AreClients, IsClientFrom, clients_in};
ghost use Rattle.farm_files.specs.Rows.{RowAtBreaks, RowsBreak, says_of};
ghost use Rattle.farm_files.specs.Parts.{HasRow, RefusesKeys, IsSoundRow, RefusesRowBehind, RefusesRows};
ghost use Rattle.farm_files.specs.Values.{are_texts, has_all, has_only, passes, texts_in};
ghost use Rattle.farm_files.specs.declared.fault.Rule.{Rule as AnyRule};
ghost use Rattle.farm_files.specs.declared.fault.Table.TheVariants.{Client as ClientTable};

use crate::earlier::{add_id, has_id};
use crate::fault::{FileFault, RowFault, Rule, Table};
use crate::rows::MOST_ROWS;
use crate::scopes::{scopes_of, texts_at};
use crate::values::{has_key, has_only, text_or, truth_or};
use farm_text::{Moment, Text, read_moment};
use hawk_auth::{BookFault, Client, ClientBook, has_client_form};
use scope_sets::Scope;
use std::alloc::{AllocError, Global};
use std::collections::BTreeSet;
use toml::Value;

fn has_known_keys(row: &toml::Table) -> bool
    ensures { result ≡ has_only client_keys (table_view row.now) }
{
    has_only(
        row,
        ["id", "token", "scopes", "expires", "disabled"].as_slice(),
    )
}

fn has_required_keys(row: &toml::Table) -> bool
    ensures { result ≡ has_all required_keys (table_view row.now) }
{
    has_key(row, "id") && has_key(row, "token") && has_key(row, "scopes") && has_key(row, "expires")
}

/// The texts at a key, none where there is no such key, or `None` where its value is no list of texts.
fn texts_under<'a>(
    alloc: Global,
    table: &'a toml::Table,
    key: &str,
) -> Result<Option<Vec<&'a str>>, AllocError>
    ensures { IfOk result (λ found. MatchOption found
        (passes are_texts (get_member key.now (table_view table.now)) ≡ false)
        (λ texts. (passes are_texts (get_member key.now (table_view table.now)) ≡ true)
        × (map (λ t. t.now) texts.items ≡ texts_in (get_member key.now (table_view table.now))))) }
{
    match table.get(key) {
        None => Ok(Some(Vec::new(alloc))),
        Some(value) => texts_at(alloc, value),
    }
}

fn make_client(
    alloc: Global,
    id: &str,
    token: &str,
    scopes: Vec<Scope>,
    expires: Moment,
    disabled: bool,
) -> Result<Client, AllocError>
    ensures { IfOk result (λ client. client_data client
        ≡ record { id = id.now; token = token.now; scopes = scopes.items; expires = expires; disabled = disabled }) }
{
    Ok(Client {
        id: Text::from_str(alloc, id)?,
        token: Text::from_str(alloc, token)?,
        scopes,
        expires,
        disabled,
    })
}

fn read_keys(alloc: Global, row: &toml::Table) -> Result<Client, RowFault>
    ensures { MatchResult result
        (λ client. HasRow client_rows (table_view row.now) × All (All IsPrintable) (client_in (table_view row.now)).scopes
        × IsClientFrom (client_in (table_view row.now)) (client_data client))
        (RefusesKeys client_rows (table_view row.now)) }
{
    if !has_known_keys(row) {
        return Err(RowFault::Breaks(Rule::UnknownKey));
    }
    if !has_required_keys(row) {
        return Err(RowFault::Breaks(Rule::MissingKey));
    }
    let Ok(id) = text_or(row, "id", "") else {
        return Err(RowFault::Breaks(Rule::WrongKind));
    };
    let Ok(token) = text_or(row, "token", "") else {
        return Err(RowFault::Breaks(Rule::WrongKind));
    };
    let Ok(expires) = text_or(row, "expires", "") else {
        return Err(RowFault::Breaks(Rule::WrongKind));
    };
    let Ok(disabled) = truth_or(row, "disabled", false) else {
        return Err(RowFault::Breaks(Rule::WrongKind));
    };
    let texts = match texts_under(alloc, row, "scopes") {
        Ok(Some(texts)) => texts,
        Ok(None) => return Err(RowFault::Breaks(Rule::WrongKind)),
        Err(AllocError) => return Err(RowFault::NoMemory),
    };
    let scopes = match scopes_of(alloc, &texts) {
        Ok(Some(scopes)) => scopes,
        Ok(None) => return Err(RowFault::Breaks(Rule::OutOfForm)),
        Err(AllocError) => return Err(RowFault::NoMemory),
    };
    let Some(expires) = read_moment(expires.as_bytes()) else {
        return Err(RowFault::Breaks(Rule::OutOfForm));
    };
    match make_client(alloc, id, token, scopes, expires, disabled) {
        Ok(client) => Ok(client),
        Err(AllocError) => Err(RowFault::NoMemory),
    }
}

/// Reads a row that stands at a place behind rows with these ids.
fn read_row(
    alloc: Global,
    ids: &BTreeSet<String>,
    row: usize,
    value: &Value,
) -> Result<Client, RowFault>
    ensures { MatchResult result
        (λ client. IsSoundRow client_rows ids.now row (view value.now) × IsClientFrom (says_of client_rows (view value.now)) (client_data client))
        (RefusesRowBehind client_rows ids.now row (view value.now)) }
{
    let Some(keys) = value.as_table() else {
        return Err(RowFault::Breaks(Rule::WrongKind));
    };
    let client = match read_keys(alloc, keys) {
        Ok(client) => client,
        Err(fault) => return Err(fault),
    };
    if row >= MOST_ROWS {
        return Err(RowFault::Breaks(Rule::OutOfForm));
    }
    if !has_client_form(&client) {
        return Err(RowFault::Breaks(Rule::OutOfForm));
    }
    if has_id(ids, client.id.as_str()) {
        return Err(RowFault::Breaks(Rule::RepeatedId));
    }
    Ok(client)
}

/// These clients, and behind them one more.
fn with_client(mut clients: Vec<Client>, client: Client) -> Result<Vec<Client>, AllocError>
    ensures clients { IfOk result (λ more. clients_data more.items ≡ clients_data clients.items ++ client_data client ∷ []) }
    ensures len { IfOk result (λ more. vec_len more ≡ vec_len clients + 1) }
{
    clients.push(client)?;
    Ok(clients)
}

fn read_rows(alloc: Global, rows: &[Value]) -> Result<Vec<Client>, FileFault>
    ensures { MatchResult result
        (λ clients. ((row : ℕ) (rule : AnyRule) → ¬ RowAtBreaks client_rows (map view rows.now) row rule)
        × AreClients (map (says_of client_rows) (map view rows.now)) (clients_data clients.items))
        (RefusesRows ClientTable (RowAtBreaks client_rows (map view rows.now))) }
{
    let mut clients = Vec::new(alloc);
    let mut ids = BTreeSet::new(alloc);
    for (row, value) in rows.iter().enumerate() {
        match read_row(alloc, &ids, row, value) {
            Ok(client) => {
                add_id(alloc, &mut ids, client.id.as_str())?;
                clients = with_client(clients, client)?;
            }
            Err(RowFault::Breaks(rule)) => {
                return Err(FileFault::at(Table::Client, row as u32, rule));
            }
            Err(RowFault::NoMemory) => return Err(FileFault::NoMemory),
        }
    }
    Ok(clients)
}

/// Reads the rows of `[[client]]`, which may be left out.
fn read_clients(alloc: Global, top: &toml::Table) -> Result<Vec<Client>, FileFault>
    ensures { MatchResult result
        (λ clients. ((row : ℕ) (rule : AnyRule) → ¬ RowsBreak client_rows (get_member (codes "client") (table_view top.now)) row rule)
        × AreClients (clients_in (get_member (codes "client") (table_view top.now))) (clients_data clients.items))
        (RefusesRows ClientTable (RowsBreak client_rows (get_member (codes "client") (table_view top.now)))) }
{
    match top.get("client") {
        None => Ok(Vec::new(alloc)),
        Some(value) => match value.as_array() {
            Some(rows) => read_rows(alloc, rows),
            None => Err(FileFault::at(Table::Client, 0, Rule::WrongKind)),
        },
    }
}

/// The book of these clients, of which each is of its form and no two have one id.
fn client_book(alloc: Global, clients: Vec<Client>) -> Result<ClientBook, AllocError>
    requires forms { (place : ℕ) → ¬ IsFirstBadClient (clients_data clients.items) place }
    requires apart { (earlier later : ℕ) → ¬ IsFirstRepeat (clients_data clients.items) earlier later }
    ensures { IfOk result (λ book. book ≡ clients_data clients.items) }
{
    match ClientBook::build(alloc, clients) {
        Ok(book) => Ok(book),
        Err(BookFault::NoMemory) => Err(AllocError),
        Err(BookFault::BadClient(_)) => unreachable!(),
        Err(BookFault::DuplicateClient(_, _)) => unreachable!(),
    }
}

/// The book of the rows of `[[client]]`.
pub(crate) fn read_client_book(alloc: Global, top: &toml::Table) -> Result<ClientBook, FileFault>
    ensures { MatchResult result
        (λ book. ((row : ℕ) (rule : AnyRule) → ¬ RowsBreak client_rows (get_member (codes "client") (table_view top.now)) row rule)
        × AreClients (clients_in (get_member (codes "client") (table_view top.now))) book)
        (RefusesRows ClientTable (RowsBreak client_rows (get_member (codes "client") (table_view top.now)))) }
{
    let clients = read_clients(alloc, top)?;
    Ok(client_book(alloc, clients)?)
}
