//! The table of helpers and a part's pieces. Expected values were worked out by hand.

use crate::scenarios::Findings;
use helpers::{HelperTable, Part};
use std::alloc::Global;

/// The arities of the ids that have one, among 0 to 200 and the last of all.
fn arities_of(alloc: Global, table: &HelperTable) -> anyhow::Result<String> {
    let mut text = String::new(alloc);
    for number in 0..=201u32 {
        let id = if number == 201 { u32::MAX } else { number };
        if let Some(arity) = table.arity(id) {
            text = format!(in alloc; "{text}{id}/{arity} ")?;
        }
    }
    Ok(text)
}

/// Adds a helper to a table: its id, from 64 to 127, and its arity, of at most 5.
fn add(alloc: Global, table: &mut HelperTable, id: &str, arity: &str) -> anyhow::Result<()> {
    let id = id.parse::<u32>()?.clamp(64, 127);
    Ok(table.add(alloc, id, arity.parse::<u32>()?.min(5))?)
}

/// The job's helpers with those that are added, and the copy that was taken last.
fn tables_of(alloc: Global, words: &[&str]) -> anyhow::Result<(HelperTable, Option<HelperTable>)> {
    let mut table = HelperTable::job();
    let mut copy = None;
    for word in words {
        match word.split_once('/') {
            Some((id, arity)) => add(alloc, &mut table, id, arity)?,
            None => copy = Some(table.copied(alloc)?),
        }
    }
    Ok((table, copy))
}

/// The arities of the job's helpers and of those that are added, and behind a semicolon those of
/// the copy that was taken last.
pub fn arities(alloc: Global, words: &[&str]) -> anyhow::Result<String> {
    let (table, copy) = tables_of(alloc, words)?;
    let text = arities_of(alloc, &table)?;
    let text = match copy {
        Some(copy) => {
            let copied = arities_of(alloc, &copy)?;
            format!(in alloc; "{text}; {copied}")?
        }
        None => text,
    };
    Ok(String::from_str(alloc, text.as_str().trim())?)
}

fn pieces_come_back(alloc: Global, findings: &mut Findings) -> anyhow::Result<()> {
    let mut part = Part::whole(vec![in alloc; 1, 2, 3, 4, 5, 6]?);
    let mut piece = part.cut(alloc, 2)?;
    findings.holds(part.len() == 4, "pieces come back (1)");
    findings.holds(piece.len() == 2, "pieces come back (2)");
    part.fill(1, 2, 9);
    piece.fill(0, 2, 255);
    findings.holds(part.sum(0, 4) == 1 + 9 + 9 + 4, "pieces come back (3)");
    findings.holds(piece.sum(0, 2) == 510, "pieces come back (4)");
    part.rejoin(piece);
    findings.holds(part.sum(3, 3) == 4 + 510, "pieces come back (5)");
    findings.holds(
        part.into_bytes().as_slice() == [1, 9, 9, 4, 255, 255].as_slice(),
        "pieces come back (6)",
    );
    Ok(())
}

fn nested_pieces_come_back_in_turn(alloc: Global, findings: &mut Findings) -> anyhow::Result<()> {
    let mut part = Part::whole(vec![in alloc; 1, 2, 3, 4, 5, 6]?);
    let mut outer = part.cut(alloc, 4)?;
    let mut inner = outer.cut(alloc, 1)?;
    // all that is left moves, with its room
    let whole = outer.cut(alloc, 3)?;
    findings.holds(
        (outer.len(), outer.room(), whole.len()) == (0, 0, 3),
        "nested pieces come back in turn (1)",
    );
    findings.holds(4 <= whole.room(), "nested pieces come back in turn (2)");
    inner.fill(0, 1, 60);
    outer.rejoin(whole);
    outer.rejoin(inner);
    part.rejoin(outer);
    findings.holds(
        part.into_bytes().as_slice() == [1, 2, 3, 4, 5, 60].as_slice(),
        "nested pieces come back in turn (3)",
    );
    Ok(())
}

fn room_is_given_back(alloc: Global, findings: &mut Findings) -> anyhow::Result<()> {
    let mut part = Part::whole(vec![in alloc; 7; 1000]?);
    let piece = part.cut(alloc, 500)?;
    part.shed_room();
    findings.holds(part.room() == 1000, "room is given back (1)");
    let more = part.cut(alloc, 499)?;
    part.shed_room();
    findings.holds(
        (part.room(), piece.room(), more.room()) == (1, 500, 499),
        "room is given back (2)",
    );
    findings.holds(
        part.into_bytes().as_slice() == [7].as_slice(),
        "room is given back (3)",
    );
    Ok(())
}

fn no_bytes_are_filled_or_summed_up(alloc: Global, findings: &mut Findings) -> anyhow::Result<()> {
    let mut part = Part::whole(vec![in alloc; 7, 8]?);
    part.fill(2, 0, 1);
    findings.holds(part.sum(2, 0) == 0, "no bytes are filled or summed up (1)");
    findings.holds(part.sum(0, 0) == 0, "no bytes are filled or summed up (2)");
    findings.holds(part.sum(0, 2) == 15, "no bytes are filled or summed up (3)");
    part.fill(0, 2, 0);
    findings.holds(
        part.into_bytes().as_slice() == [0, 0].as_slice(),
        "no bytes are filled or summed up (4)",
    );
    Ok(())
}

/// Goes through all of it.
pub fn go_through(alloc: Global, findings: &mut Findings) -> anyhow::Result<()> {
    pieces_come_back(alloc, findings)?;
    nested_pieces_come_back_in_turn(alloc, findings)?;
    room_is_given_back(alloc, findings)?;
    no_bytes_are_filled_or_summed_up(alloc, findings)
}
