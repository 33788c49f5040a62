//! What can be noted of a desk's records.

ghost use Rattle.std.specs.Prelude.{◌≡◌, ℕ};

/// What was recorded for the desk at a place, of which a value of the type `M` is a note.
pub trait Noted<M> {
    // Of a place and a note: it covers all that was recorded there.
    ghost covers: { ℕ → M → Self → Type 0 };

    /// Notes what was recorded for the desk at this place. Nothing changes but the note.
    fn note(&mut self, place: usize, into: &mut M)
        ensures same { self.new ≡ self.old }
        ensures noted { covers place into.new self.old };
}
