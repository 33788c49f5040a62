//! The name and the path that a word or a line has.

ghost use Rattle.std.specs.Prelude.{◌≡◌};
ghost use Rattle.std.specs.Str.{bytes_eq};
ghost use Rattle.bpfjobs_cli.specs.TenantLines.{before_delimiter, behind_setting, from_delimiter, line_says, past_blanks, said_by, says_behind, setting_at, word_says};

use crate::tenant_number::number_said;
use crate::tenant_socket::TenantSettings;

const MOST_JOBS: u32 = 1_000_000;

const MOST_CREDIT: u32 = 2_147_483_647;

/// What ends a part of a text.
#[derive(Clone, Copy)]
pub(crate) enum Delimiter {
    /// `=`.
    Equals,
    /// A space, a tab or a carriage return.
    Blank,
    /// A line feed.
    LineEnd,
    /// `,`.
    Comma,
    /// `*`.
    Star,
}

/// What a word or a line says.
#[derive(Clone, Copy)]
pub(crate) enum Said<'a> {
    /// Nothing: it is blank, or a comment.
    Nothing,
    /// Something else than a tenant.
    Other,
    /// A tenant, with no number of open jobs where it should be.
    NoJobs,
    /// A tenant, with no number of its credit where it should be.
    NoCredit,
    /// A name and a path, and what is said beside them.
    Tenant(&'a [u8], &'a [u8], TenantSettings),
}

/// What stands at the front of a text where a word and a number may stand.
#[derive(Clone, Copy)]
pub(crate) enum Setting {
    /// Something else than the word, or nothing.
    LeftOut,
    /// The word, and no such number.
    Wrong,
    /// The word and a number.
    Number(u32),
}

fn is_delimiter(delimiter: Delimiter, byte: u8) -> bool
    ensures { result ≡ Rattle.bpfjobs_cli.specs.TenantLines.is_delimiter delimiter byte }
{
    match delimiter {
        Delimiter::Equals => byte == b'=',
        Delimiter::Blank => matches!(byte, b' ' | b'\t' | b'\r'),
        Delimiter::LineEnd => byte == b'\n',
        Delimiter::Comma => byte == b',',
        Delimiter::Star => byte == b'*',
    }
}

// The text from its first delimiter on.
fn past_part(text: &[u8], delimiter: Delimiter) -> &[u8]
    ensures { result.now ≡ from_delimiter delimiter text.now }
{
    let mut rest = text;
    while !rest.is_empty() && !is_delimiter(delimiter, rest[0]) {
        rest = rest.split_at(1).1;
    }
    rest
}

/// The part of a text before its first delimiter, and the part from it on.
pub(crate) fn cut_at(text: &[u8], delimiter: Delimiter) -> (&[u8], &[u8])
    ensures front { result.0.now ≡ before_delimiter delimiter text.now }
    ensures back { result.1.now ≡ from_delimiter delimiter text.now }
{
    let rest = past_part(text, delimiter);
    (text.split_at(text.len() - rest.len()).0, rest)
}

// The text without the blanks at its start.
fn past_blanks(text: &[u8]) -> &[u8]
    ensures { result.now ≡ past_blanks text.now }
{
    let mut rest = text;
    while !rest.is_empty() && is_delimiter(Delimiter::Blank, rest[0]) {
        rest = rest.split_at(1).1;
    }
    rest
}

// Whether the two are the same.
fn are_same(text: &[u8], word: &[u8]) -> bool
    ensures { result ≡ bytes_eq text.now word.now }
{
    text == word
}

// Whether nothing is left of a line but a comment.
fn is_over(text: &[u8]) -> bool
    ensures { result ≡ Rattle.bpfjobs_cli.specs.TenantLines.is_over text.now }
{
    text.is_empty() || text[0] == b'#'
}

/// What a word `NAME=PATH` says. The name ends at the first `=`.
#[tactic(auto, unfolding(crate::specs::TenantLines::word_says))]
pub(crate) fn said_by_word(word: &[u8]) -> Said<'_>
    ensures { said_by result ≡ word_says word.now }
{
    let (name, rest) = cut_at(word, Delimiter::Equals);
    if rest.is_empty() {
        return Said::Other;
    }
    let settings = TenantSettings {
        open_jobs: None,
        credit: None,
    };
    Said::Tenant(name, rest.split_at(1).1, settings)
}

// The number from `low` to `high` behind a word at the front of a text, and what is behind both. The
// text itself, where the word isn't there.
#[tactic(auto, unfolding(crate::specs::TenantLines::setting_at, crate::specs::TenantLines::behind_setting))]
fn setting_behind<'a>(text: &'a [u8], word: &[u8], low: u32, high: u32) -> (Setting, &'a [u8])
    ensures says { result.0 ≡ setting_at word.now low high text.now }
    ensures behind { result.1.now ≡ behind_setting word.now text.now }
{
    let (first, rest) = cut_at(text, Delimiter::Blank);
    if !are_same(first, word) {
        return (Setting::LeftOut, text);
    }
    let (digits, rest) = cut_at(past_blanks(rest), Delimiter::Blank);
    let behind = past_blanks(rest);
    match number_said(digits, low, high) {
        Some(number) => (Setting::Number(number), behind),
        None => (Setting::Wrong, behind),
    }
}

// What a line says, by what is behind its name and its path.
#[tactic(auto, unfolding(crate::specs::TenantLines::says_behind))]
fn said_behind<'a>(name: &'a [u8], path: &'a [u8], rest: &[u8]) -> Said<'a>
    ensures { said_by result ≡ says_behind name.now path.now rest.now }
{
    let (jobs, rest) = setting_behind(rest, b"open-jobs".as_slice(), 0, MOST_JOBS);
    let (credit, rest) = setting_behind(rest, b"credit".as_slice(), 1, MOST_CREDIT);
    if !is_over(rest) {
        return Said::Other;
    }
    let open_jobs = match jobs {
        Setting::LeftOut => None,
        Setting::Wrong => return Said::NoJobs,
        Setting::Number(number) => Some(number),
    };
    let credit = match credit {
        Setting::LeftOut => None,
        Setting::Wrong => return Said::NoCredit,
        Setting::Number(number) => Some(number),
    };
    Said::Tenant(name, path, TenantSettings { open_jobs, credit })
}

/// What a line `NAME PATH` says, behind which may stand `open-jobs N`, and then `credit N`. Blanks
/// stand around its parts, and a comment begins with `#`.
#[tactic(auto, unfolding(crate::specs::TenantLines::line_says))]
pub(crate) fn said_by_line(line: &[u8]) -> Said<'_>
    ensures { said_by result ≡ line_says line.now }
{
    let start = past_blanks(line);
    if is_over(start) {
        return Said::Nothing;
    }
    let (name, rest) = cut_at(start, Delimiter::Blank);
    let behind = past_blanks(rest);
    if is_over(behind) {
        return Said::Other;
    }
    let (path, rest) = cut_at(behind, Delimiter::Blank);
    said_behind(name, path, past_blanks(rest))
}
