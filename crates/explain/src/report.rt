//! A refusal as text in the form of rustc's errors.

ghost use Rattle.std.specs.Prelude.{◌≡◌, IfOk, map, string_bytes};
ghost use Rattle.explain.specs.Reports.{blanks, excerpt_text, gutter_of, head_text, mark_text, note_line, note_lines, report_place, plain, red, report_text, title_text, underline_text};

use crate::lines::SourceLine;
use refusal::NoMemory;
use std::alloc::Global;

/// The part of a line that is marked: so many bytes, behind so many.
#[derive(Clone, Copy)]
pub struct LineMark {
    pub start: usize,
    pub length: usize,
}

/// A refusal, where it stands, and what is known of it.
#[derive(Clone, Copy)]
pub struct RefusalReport<'a> {
    pub number: u8,
    pub words: &'a str,
    /// The path of the file.
    pub file: &'a str,
    /// The line of the file that it is about, if it is about one.
    pub line: Option<SourceLine<'a>>,
    /// The part of that line.
    pub mark: LineMark,
    /// What is known, and what helps, each on a line.
    pub notes: &'a [String],
    /// What is wrong is red on a terminal.
    pub is_coloured: bool,
}

// What turns a terminal's text red and bold.
fn red(is_coloured: bool) -> &'static str
    ensures { result.now ≡ red is_coloured }
{
    if is_coloured { "\u{1b}[1;31m" } else { "" }
}

// What turns it back.
fn plain(is_coloured: bool) -> &'static str
    ensures { result.now ≡ plain is_coloured }
{
    if is_coloured { "\u{1b}[0m" } else { "" }
}

// So many blanks.
fn blanks(alloc: Global, count: usize) -> Result<Vec<u8>, NoMemory>
    ensures { IfOk result (λ text. text.items ≡ blanks count) }
{
    Ok(vec![in alloc; b' '; count]?)
}

// How wide the number of a line is, and 1 where there is no line.
fn gutter_of(alloc: Global, line: Option<SourceLine<'_>>) -> Result<usize, NoMemory>
    ensures { IfOk result (λ width. width ≡ gutter_of line.entry) }
{
    match line {
        Some(line) => Ok(format!(in alloc; "{}", line.number)?.len()),
        None => Ok(1),
    }
}

// The number and the words.
fn title(alloc: Global, report: &RefusalReport<'_>) -> Result<String, NoMemory>
    ensures { IfOk result (λ text. string_bytes text ≡ title_text report.now) }
{
    let (on, off) = (red(report.is_coloured), plain(report.is_coloured));
    Ok(format!(in alloc; "{on}error[{}]{off}: {}\n", report.number, report.words)?)
}

// What stands below a line.
fn marks(alloc: Global, is_coloured: bool, mark: LineMark) -> Result<Vec<u8>, NoMemory>
    ensures { IfOk result (λ text. text.items ≡ mark_text is_coloured mark) }
{
    let mut text = blanks(alloc, mark.start)?;
    text.extend_from_slice(red(is_coloured).as_bytes())?;
    text.extend_from_slice(&vec![in alloc; b'^'; mark.length]?)?;
    text.extend_from_slice(plain(is_coloured).as_bytes())?;
    text.push(b'\n')?;
    Ok(text)
}

// The file and the number of the line.
fn head(alloc: Global, gutter: usize, file: &str, line: SourceLine<'_>) -> Result<Vec<u8>, NoMemory>
    ensures { IfOk result (λ text. text.items ≡ head_text gutter file.now line.entry) }
{
    let place = format!(in alloc; "--> {file}:{}\n", line.number)?;
    let mut text = blanks(alloc, gutter)?;
    text.extend_from_slice(place.as_bytes())?;
    Ok(text)
}

// The line itself.
fn excerpt(alloc: Global, gutter: usize, line: SourceLine<'_>) -> Result<Vec<u8>, NoMemory>
    ensures { IfOk result (λ text. text.items ≡ excerpt_text gutter line.entry) }
{
    let number = format!(in alloc; " |\n{} | ", line.number)?;
    let mut text = blanks(alloc, gutter)?;
    text.extend_from_slice(number.as_bytes())?;
    text.extend_from_slice(line.text)?;
    text.push(b'\n')?;
    Ok(text)
}

// What is marked of it.
fn underline(
    alloc: Global,
    gutter: usize,
    is_coloured: bool,
    mark: LineMark,
) -> Result<Vec<u8>, NoMemory>
    ensures { IfOk result (λ text. text.items ≡ underline_text gutter is_coloured mark) }
{
    let mut text = blanks(alloc, gutter)?;
    text.extend_from_slice(b" | ")?;
    text.extend_from_slice(&marks(alloc, is_coloured, mark)?)?;
    Ok(text)
}

// The file, and its line with what is marked of it.
fn place(alloc: Global, report: &RefusalReport<'_>) -> Result<Vec<u8>, NoMemory>
    ensures { IfOk result (λ text. text.items ≡ report_place report.now report.now.line) }
{
    match report.line {
        Some(line) => {
            let gutter = gutter_of(alloc, Some(line))?;
            let mut text = head(alloc, gutter, report.file, line)?;
            text.extend_from_slice(&excerpt(alloc, gutter, line)?)?;
            text.extend_from_slice(&underline(alloc, gutter, report.is_coloured, report.mark)?)?;
            Ok(text)
        }
        None => Ok(format!(in alloc; " --> {}\n", report.file)?.into_bytes()),
    }
}

// A line of what is known, or of what helps.
fn note_line(alloc: Global, gutter: usize, note: &String) -> Result<Vec<u8>, NoMemory>
    ensures { IfOk result (λ text. text.items ≡ note_line gutter (string_bytes note.now)) }
{
    let mut text = blanks(alloc, gutter)?;
    text.extend_from_slice(b" = ")?;
    text.extend_from_slice(note.as_bytes())?;
    text.push(b'\n')?;
    Ok(text)
}

// A line for each note.
fn note_lines(alloc: Global, gutter: usize, notes: &[String]) -> Result<Vec<u8>, NoMemory>
    ensures { IfOk result
        (λ text. text.items ≡ note_lines gutter (map string_bytes notes.now)) }
{
    let mut text = Vec::new(alloc);
    for note in notes {
        text.extend_from_slice(&note_line(alloc, gutter, note)?)?;
    }
    Ok(text)
}

/// The text of a report: the number and the words, the file with its line, of which a part is
/// marked, and the notes. Refused for want of memory alone.
pub fn report_text(alloc: Global, report: &RefusalReport<'_>) -> Result<Vec<u8>, NoMemory>
    ensures { IfOk result (λ text. text.items ≡ report_text report.now) }
{
    let mut text = title(alloc, report)?.into_bytes();
    text.extend_from_slice(&place(alloc, report)?)?;
    let gutter = gutter_of(alloc, report.line)?;
    text.extend_from_slice(&note_lines(alloc, gutter, report.notes)?)?;
    Ok(text)
}
