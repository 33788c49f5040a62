//! The tenants with sockets of their own, as words and the lines of a file name them.

ghost use Rattle.std.specs.Prelude.{◌≡◌, ◌&&◌, [], IfErr, IfOk, IfSome, Ok, is_some, map, string_bytes};
ghost use Rattle.std.specs.List.{list_all, list_any};
ghost use Rattle.std.specs.Str.{bytes_eq, is_utf8};
ghost use Rattle.sessions.specs.Grammar.{is_name_byte};
ghost use Rattle.bpfjobs_cli.specs.Tenants.{AreTenants, IsWrongLine, entered, fault_beside, lines_said, tenants_in, words_said};
ghost use Rattle.bpfjobs_cli.specs.TenantLines.{said_by, says_tenant};
ghost use Rattle.bpfjobs_cli.specs.Entries.{IsWordUsage, RefusesSaid, TakesSaid, TellsWord, wrong_at};

use crate::commands::Usage;
use crate::socket_path::is_socket_path;
use crate::tenant_socket::{TenantFault, TenantSettings, TenantSocket, WrongTenant};
use crate::tenant_text::{Delimiter, Said, cut_at, said_by_line, said_by_word};
use std::alloc::{AllocError, Global};

const MOST_TENANTS: usize = 256;

const LONGEST_NAME: usize = 32;

// The reason why one more tenant isn't taken.
#[derive(Clone, Copy)]
enum EntryFault {
    Wrong(TenantFault),
    NoMemory,
}

impl From<AllocError> for EntryFault {
    ghost use Rattle.std.specs.Prelude.{◌≡◌};
    ghost use Rattle.bpfjobs_cli.specs.declared.tenants.EntryFault.TheVariants as fault;

    ghost from_gives = { λ _ result. result ≡ fault.NoMemory };

    fn from(_error: AllocError) -> EntryFault {
        EntryFault::NoMemory
    }
}

// Whether the text is a tenant's name.
#[tactic(auto, using(crate::proofs::NameLemmas::name_empty, crate::proofs::NameLemmas::name_long, crate::proofs::NameLemmas::name_holds))]
fn is_name(text: &[u8]) -> bool
    ensures { result ≡ Rattle.sessions.specs.Grammar.is_name text.now }
{
    if text.is_empty() {
        return false;
    }
    if text.len() > LONGEST_NAME {
        return false;
    }
    has_name_bytes(text)
}

fn has_name_bytes(bytes: &[u8]) -> bool
    ensures { result ≡ list_all is_name_byte bytes.now }
{
    bytes.iter().all(|byte| is_name_byte(*byte))
}

fn is_name_byte(byte: u8) -> bool
    ensures { result ≡ is_name_byte byte }
{
    (b'a' <= byte && byte <= b'z') || (b'0' <= byte && byte <= b'9') || byte == b'_' || byte == b'-'
}

// Whether a tenant has this name.
fn has_name(tenants: &[TenantSocket], name: &str) -> bool
    ensures { result ≡ list_any (λ t. bytes_eq (string_bytes t.name) name.now) tenants.now }
{
    tenants.iter().any(|tenant| tenant.name.as_str() == name)
}

// Whether a tenant has this path.
fn has_path(tenants: &[TenantSocket], path: &str) -> bool
    ensures { result ≡ list_any (λ t. bytes_eq (string_bytes t.path) path.now) tenants.now }
{
    tenants.iter().any(|tenant| tenant.path.as_str() == path)
}

// The reason why this name and this path aren't those of one more tenant, if there is one.
#[tactic(auto, using(crate::proofs::NameLemmas::beside_no_name, crate::proofs::NameLemmas::beside_no_path, crate::proofs::NameLemmas::beside_name, crate::proofs::NameLemmas::beside_path, crate::proofs::NameLemmas::beside_many, crate::proofs::NameLemmas::beside_none))]
fn fault_beside(tenants: &[TenantSocket], name: &str, path: &str) -> Option<TenantFault>
    ensures { result ≡ fault_beside (tenants_in tenants.now) name.now path.now }
{
    if !is_name(name.as_bytes()) {
        return Some(TenantFault::Name);
    }
    if !is_socket_path(path) {
        return Some(TenantFault::Path);
    }
    if has_name(tenants, name) {
        return Some(TenantFault::NameTwice);
    }
    if has_path(tenants, path) {
        return Some(TenantFault::PathTwice);
    }
    if tenants.len() >= MOST_TENANTS {
        return Some(TenantFault::TooMany);
    }
    None
}

// The two as text, if they are.
fn texts<'a>(name: &'a [u8], path: &'a [u8]) -> Option<(&'a str, &'a str)>
    ensures texts { IfSome result (λ both. (both.0.now ≡ name.now) × (both.1.now ≡ path.now)) }
    ensures test { is_some result ≡ (is_utf8 name.now && is_utf8 path.now) }
{
    match str::from_utf8(name) {
        Ok(name) => match str::from_utf8(path) {
            Ok(path) => Some((name, path)),
            Err(_) => None,
        },
        Err(_) => None,
    }
}

// The tenants, and one more of this name, this path and these settings.
fn with_tenant(
    alloc: Global,
    mut tenants: Vec<TenantSocket>,
    name: &[u8],
    path: &[u8],
    settings: TenantSettings,
) -> Result<Vec<TenantSocket>, EntryFault>
    ensures ok { IfOk result (λ all. TakesSaid (tenants_in tenants.items)
        (says_tenant name.now path.now settings) (tenants_in all.items)) }
    ensures err { IfErr result (λ e. RefusesSaid (tenants_in tenants.items)
        (says_tenant name.now path.now settings) e) }
{
    let (name, path) = match texts(name, path) {
        Some(both) => both,
        None => return Err(EntryFault::Wrong(TenantFault::NotText)),
    };
    match fault_beside(&tenants, name, path) {
        Some(fault) => return Err(EntryFault::Wrong(fault)),
        None => {}
    }
    tenants.reserve(1)?;
    tenants.push_reserved(TenantSocket {
        name: String::from_str(alloc, name)?,
        path: String::from_str(alloc, path)?,
        settings,
    });
    Ok(tenants)
}

// The tenants, and the one that is said, if one is.
fn with_said(
    alloc: Global,
    tenants: Vec<TenantSocket>,
    said: Said<'_>,
) -> Result<Vec<TenantSocket>, EntryFault>
    ensures ok { IfOk result (λ all. TakesSaid (tenants_in tenants.items) (said_by said.entry)
        (tenants_in all.items)) }
    ensures err { IfErr result (λ e. RefusesSaid (tenants_in tenants.items) (said_by said.entry)
        e) }
{
    match said {
        Said::Nothing => Ok(tenants),
        Said::Other => Err(EntryFault::Wrong(TenantFault::Form)),
        Said::NoJobs => Err(EntryFault::Wrong(TenantFault::OpenJobs)),
        Said::NoCredit => Err(EntryFault::Wrong(TenantFault::Credit)),
        Said::Tenant(name, path, settings) => with_tenant(alloc, tenants, name, path, settings),
    }
}

// The refusal of a word.
fn word_usage(alloc: Global, word: &str, fault: EntryFault) -> Usage
    ensures { TellsWord word.now fault result }
{
    match fault {
        EntryFault::Wrong(fault) => match String::from_str(alloc, word) {
            Ok(word) => Usage::Tenant(word, fault),
            Err(_) => Usage::NoMemory,
        },
        EntryFault::NoMemory => Usage::NoMemory,
    }
}

// The refusal of a line.
fn wrong_at(number: u64, fault: EntryFault) -> WrongTenant
    ensures { result ≡ wrong_at number fault }
{
    match fault {
        EntryFault::Wrong(fault) => WrongTenant::At(number, fault),
        EntryFault::NoMemory => WrongTenant::NoMemory,
    }
}

/// The tenants of the words `NAME=PATH`, in their order; or the first wrong word.
pub(crate) fn tenants_of_words(alloc: Global, words: &[&str]) -> Result<Vec<TenantSocket>, Usage>
    ensures ok { IfOk result (λ tenants. entered [] 0 (words_said (map (λ w. w.now) words.now))
        ≡ Ok (tenants_in tenants.items)) }
    ensures err { IfErr result (λ usage. IsWordUsage (map (λ w. w.now) words.now) usage) }
{
    let mut tenants = Vec::new(alloc);
    for n in 0..words.len() {
        let word = words[n];
        tenants = match with_said(alloc, tenants, said_by_word(word.as_bytes())) {
            Ok(tenants) => tenants,
            Err(fault) => return Err(word_usage(alloc, word, fault)),
        };
    }
    Ok(tenants)
}

/// The tenants, and those of the lines of a text, in their order; or the number of the
/// first wrong line, and what is wrong with it.
pub fn with_lines(
    alloc: Global,
    before: Vec<TenantSocket>,
    text: &[u8],
) -> Result<Vec<TenantSocket>, WrongTenant>
    ensures ok { IfOk result (λ all. entered (tenants_in before.items) 1 (lines_said text.now)
        ≡ Ok (tenants_in all.items)) }
    ensures apart { AreTenants (tenants_in before.items)
        → IfOk result (λ all. AreTenants (tenants_in all.items)) }
    ensures err { IfErr result (λ wrong. IsWrongLine wrong
        (entered (tenants_in before.items) 1 (lines_said text.now))) }
{
    let mut tenants = before;
    let mut rest = text;
    let mut number = 1;
    loop {
        let (line, tail) = cut_at(rest, Delimiter::LineEnd);
        tenants = match with_said(alloc, tenants, said_by_line(line)) {
            Ok(tenants) => tenants,
            Err(fault) => return Err(wrong_at(number, fault)),
        };
        if tail.is_empty() {
            return Ok(tenants);
        }
        rest = tail.split_at(1).1;
        number += 1;
    }
}
