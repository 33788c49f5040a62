//! The two ends of a stream, by the bytes that went through them.

ghost use Rattle.std.specs.Prelude.{◌≡◌, ◌≤◌, ◌<◌, ◌++◌, ℕ, List, Bool, true, false, length, take, is_err, nat_eq, Option, None, OnOk, OnErr, IfOk};
ghost use Rattle.std.specs.Io.KnownBytes.{ReadConsumes, WriteAppends};

/// An end gave or took nothing more.
#[derive(Clone, Copy, Debug, PartialEq, Eq)]
pub struct Failed;

/// Gives bytes.
pub trait Source {
    // The bytes that it has given.
    ghost transcript: { Self → List ℕ };

    // A read failed.
    ghost has_failed: { Self → Bool };

    // The last read gave none.
    ghost is_over: { Self → Bool };

    // The bytes that it has still to give, where they are known.
    ghost left: { Self → Option (List ℕ) } = { λ _. None };

    /// Gives bytes to the front of the piece, and answers how many; none at the end of input.
    fn read(&mut self, piece: &mut [u8]) -> Result<usize, Failed>
        requires { has_failed self.old ≡ false }
        ensures count { IfOk result (λ n. n ≤ length piece.old) }
        ensures bytes { IfOk result (λ n. transcript self.new ≡ transcript self.old
            ++ take n piece.new) }
        ensures over { IfOk result (λ n. is_over self.new ≡ nat_eq n 0) }
        ensures gives { ReadConsumes (left self.old) (left self.new) result piece.new }
        ensures err { OnErr result (transcript self.new ≡ transcript self.old) }
        ensures failed { has_failed self.new ≡ is_err result };
}

/// Takes bytes.
pub trait Sink {
    // The bytes that it has taken.
    ghost transcript: { Self → List ℕ };

    // A write failed.
    ghost has_failed: { Self → Bool };

    // The bytes that it holds, where they are known.
    ghost holds: { Self → Option (List ℕ) } = { λ _. None };

    /// Takes bytes from the front of the piece, and answers how many: at least one of a piece that
    /// isn't empty. A write that fails takes none.
    fn write(&mut self, piece: &[u8]) -> Result<usize, Failed>
        requires { has_failed self.old ≡ false }
        ensures count { IfOk result (λ n. n ≤ length piece.now) }
        ensures some { IfOk result (λ n. 0 < length piece.now → 0 < n) }
        ensures bytes { IfOk result (λ n. transcript self.new ≡ transcript self.old
            ++ take n piece.now) }
        ensures keeps { WriteAppends (holds self.old) (holds self.new) result piece.now }
        ensures err { OnErr result (transcript self.new ≡ transcript self.old) }
        ensures failed { has_failed self.new ≡ is_err result };
}

/// Writes all of it, or a beginning, and never all, where a write fails.
pub fn write_all<W: Sink>(sink: &mut W, bytes: &[u8]) -> Result<(), Failed>
    requires { W.has_failed sink.old ≡ false }
    ensures ok { OnOk result (W.transcript sink.new ≡ W.transcript sink.old ++ bytes.now) }
    ensures err { OnErr result ((n : ℕ) × (n < length bytes.now)
        × (W.transcript sink.new ≡ W.transcript sink.old ++ take n bytes.now)) }
    ensures failed { W.has_failed sink.new ≡ is_err result }
{
    let mut done = 0;
    while done < bytes.len() {
        match sink.write(&bytes[done..]) {
            Ok(count) => done += count,
            Err(failed) => return Err(failed),
        }
    }
    Ok(())
}
