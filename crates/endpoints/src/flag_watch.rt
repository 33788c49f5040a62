//! A look at the flag that stops a server.

ghost use Rattle.std.specs.Prelude.{◌≡◌, true, false};

use crate::stop_flag::StopFlag;
use std::marker::Model;
use std::sync::OnceToken;

/// Looks at a flag, if there is one. What it has seen up stays up: it keeps the token that shows it.
/// Contracts see whether there is a flag, and whether it was seen up.
#[derive(Drop)]
pub struct FlagWatch<'a> {
    flag: Option<&'a StopFlag>,
    seen: Option<OnceToken<'a, ()>>,
}

impl<'a> Model for FlagWatch<'a> {
    ghost use Rattle.std.specs.Prelude.{Bool, is_some};
    ghost use Rattle.endpoints.specs.Stopping.{IsOfFlag};

    ghost Value = { Bool × Bool };

    ghost view = { λ w. (is_some w.flag, is_some w.seen) };

    ghost invariant = { λ w. IsOfFlag (λ f. f.now.raised.id) w.flag w.seen };
}

impl<'a> FlagWatch<'a> {
    ghost use Rattle.std.specs.Prelude.{is_some};

    /// A watch of this flag that has seen nothing.
    pub fn new(flag: Option<&'a StopFlag>) -> FlagWatch<'a>
        ensures { result ≡ (is_some flag.entry, false) }
    {
        FlagWatch { flag, seen: None }
    }

    /// True where there is a flag.
    pub fn may_stop(&self) -> bool
        ensures { result ≡ self.entry.now.0 }
    {
        self.flag.is_some()
    }

    /// Looks at the flag. Tells whether it is up, now or at an earlier look.
    pub fn is_up(&mut self) -> bool
        ensures told { result ≡ self.new.1 }
        ensures same { self.new.0 ≡ self.old.0 }
        ensures stays { self.old.1 ≡ true → result ≡ true }
        ensures none { self.old.0 ≡ false → result ≡ false }
    {
        if self.seen.is_some() {
            return true;
        }
        if let Some(flag) = self.flag {
            self.seen = flag.seen();
        }
        self.seen.is_some()
    }
}
