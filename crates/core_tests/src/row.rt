//! Rows: what is asked, a program and the answer, with bars between them. A line that begins with
//! `#` is a comment.

use assembler::assemble;
use std::alloc::Global;

/// What is asked of which program, and the answer that is wanted.
#[derive(Drop)]
pub struct Row<'a> {
    /// From 1 on.
    pub line: usize,
    pub question: Vec<&'a str>,
    pub program: &'a str,
    pub answer: &'a str,
}

/// The words between spaces.
pub fn words_of<'a>(alloc: Global, text: &'a str) -> anyhow::Result<Vec<&'a str>> {
    let mut words = Vec::new(alloc);
    for word in text.split(' ') {
        if !word.is_empty() {
            words.push(word)?;
        }
    }
    Ok(words)
}

/// The row of a line. Without two bars the program or the answer is empty.
fn row_of<'a>(alloc: Global, line: usize, text: &'a str) -> anyhow::Result<Row<'a>> {
    let (question, rest) = text.split_once('|').unwrap_or((text, ""));
    let (program, answer) = rest.split_once('|').unwrap_or((rest, ""));
    Ok(Row {
        line,
        question: words_of(alloc, question)?,
        program: program.trim(),
        answer: answer.trim(),
    })
}

/// All rows of a text.
pub fn rows_of<'a>(alloc: Global, text: &'a str) -> anyhow::Result<Vec<Row<'a>>> {
    let mut rows = Vec::new(alloc);
    for (index, line) in text.lines().enumerate() {
        let line = line.trim();
        if !line.is_empty() && !line.starts_with('#') {
            rows.push(row_of(alloc, index.saturating_add(1), line)?)?;
        }
    }
    Ok(rows)
}

/// A part of a program, and how often it stands there.
fn repeated(part: &str) -> (u32, &str) {
    match part.split_once('*') {
        Some((times, line)) => (times.trim().parse::<u32>().unwrap_or(1), line.trim()),
        None => (1, part.trim()),
    }
}

/// The bytes of a program, a line after the other with slashes between them; `4 * exit` is that
/// line four times. Where there is a `0x`, each line is bytes as hexadecimal behind it.
pub fn bytes_of(alloc: Global, program: &str) -> anyhow::Result<Vec<u8>> {
    let is_hexadecimal = program.contains("0x");
    let mut source = String::new(alloc);
    for part in program.split('/') {
        let (times, line) = repeated(part);
        let line = if is_hexadecimal {
            line.trim_start_matches("0x")
        } else {
            line
        };
        for _ in 0..times {
            source.push_str(line)?;
            if !is_hexadecimal {
                source.push('\n')?;
            }
        }
    }
    if is_hexadecimal {
        return Ok(hex::decode(alloc, source.as_str())?);
    }
    Ok(assemble(alloc, source.as_str())?)
}

/// A copy of the bytes.
pub fn copied(alloc: Global, bytes: &[u8]) -> anyhow::Result<Vec<u8>> {
    let mut copy = Vec::new(alloc);
    copy.extend_from_slice(bytes)?;
    Ok(copy)
}

/// Bytes as hexadecimal, and none as `-`.
pub fn memory_of(alloc: Global, text: &str) -> anyhow::Result<Vec<u8>> {
    if text == "-" {
        return Ok(Vec::new(alloc));
    }
    Ok(hex::decode(alloc, text)?)
}

/// The text of these bytes.
pub fn text_of(alloc: Global, bytes: &[u8]) -> anyhow::Result<String> {
    if bytes.is_empty() {
        return Ok(String::from_str(alloc, "-")?);
    }
    Ok(hex::encode(alloc, bytes)?)
}
