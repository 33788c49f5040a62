//! The seats of a board: what each knows, and the two kinds of step.
ghost use Rattle.std.specs.Prelude.{[], ◌∷◌};
ghost use Rattle.credit_book.specs.declared.event.Event.{Event};

use crate::event::Event;
use atomic_table::{Play, Split, TableRule};
use std::collections::LinkedList;
use std::marker::{Brand, PhantomData};

/// What a board is opened with.
#[derive(Clone, Copy)]
pub struct Opening {
    pub job: u64,
    pub issued: u32,
}

/// What a seat knows. No value of it is made.
pub struct View {
    pub writes: bool,
    pub history: LinkedList<Event>,
    pub looks: u64,
}

/// The word has the sums of one legal history, of which every seat knows a beginning.
pub struct Ruled;

impl TableRule<(), View, Opening> for Ruled {
    ghost use Rattle.credit_book.specs.Rule.{BoardRule, opened};

    ghost holds = { BoardRule };

    ghost first = { opened };
}

/// Names the event that a step adds. Each call picks it.
pub trait Occurrence {
    ghost use Rattle.credit_book.specs.declared.event.Event.{Event};

    ghost event: { Event };
}

impl Occurrence for Brand {
    ghost use Rattle.credit_book.specs.declared.event.Event.TheVariants.{Park};

    ghost event = { Park 0 };
}

/// The step of a reader.
pub struct Sees;

impl Play<(), View> for Sees {
    ghost use Rattle.credit_book.specs.Rule.{Looks};

    ghost then = { Looks };
}

/// Makes a reader that has seen what the seat knows.
pub struct Tells;

impl Split<View> for Tells {
    ghost use Rattle.credit_book.specs.Rule.{reader};

    ghost left = { λ v. v };

    ghost right = { λ v. reader v.history 0 };
}

/// Names the history that a step publishes. Each call picks it.
pub trait Chronicle {
    ghost use Rattle.std.specs.Prelude.{List};
    ghost use Rattle.credit_book.specs.declared.event.Event.{Event};

    ghost history: { List Event };
}

impl Chronicle for Brand {
    ghost use Rattle.std.specs.Prelude.{[]};

    ghost history = { [] };
}

/// The step of the writer that posts one end: it publishes a whole history that has grown by it.
pub struct Publishes<J: Chronicle> {
    of: PhantomData<J>,
}

impl<J: Chronicle> Play<(), View> for Publishes<J> {
    ghost use Rattle.credit_book.specs.Rule.{Tells};

    ghost then = { Tells J.history };
}
