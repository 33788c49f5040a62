//! Why a program is refused: the instruction, what is wrong with it, a way that leads there and
//! what is known of each register there, as a value and as text.
#![tactic(auto)]

// the verdict, and why
mod explaining;
mod explanation;
mod faults;

pub use explaining::explain;
pub use explanation::{Explanation, InstructionPlace, RefusalContext, text_of};
pub use faults::explain_all;

// what is wrong and what to do, by the number of a refusal
mod refusal_texts;
mod report;
mod wording;

pub use refusal_texts::{refusal_help, refusal_text};
pub use report::{LineMark, RefusalReport, report_text};
pub use wording::refusal_words;

// what leads to a slot, and what is known there
mod arriving;
mod graphed_program;
mod knowing;
mod leading;
mod needs;
mod predecessors;
mod registers;

pub use needs::Enough;
pub use registers::AbsText;

// the graph, by basic blocks
mod blocks;
mod picture;

pub use blocks::Block;
pub use picture::{Picture, picture_of};

// a slot's line in a source text
mod instruction_places;
mod lines;

pub use instruction_places::{index_of, line_at, lines_in, place_in};
pub use lines::{SourceLine, lines_of};
