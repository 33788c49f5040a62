//! The lane of tickets, whose task is not yet told: what a host of its own threads hands on.

use credit_book::Ticket;

/// The owner's end of a lane of tickets.
pub type Lane = lanes::Lane<Ticket>;

/// A thief's end of a lane of tickets.
pub type Thief = lanes::Thief<Ticket>;

/// What the pass of an owner knows.
pub type Owning = lanes::Owning<Ticket>;

/// What the pass of a thief knows.
pub type Stealing = lanes::Stealing<Ticket>;

/// What a thief was given: a ticket, nothing, or the word to try again.
pub type Stolen = lanes::Stolen<Ticket>;
