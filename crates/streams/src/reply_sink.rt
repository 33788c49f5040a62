//! A sink that lets replies out.

ghost use Rattle.std.specs.Prelude.{◌≡◌, ◌<◌, ◌++◌, ℕ, List, Bool, false, length, take, is_err, OnOk, OnErr};

use crate::frame_handler::FrameHandler;
use crate::source_and_sink::{Failed, Sink, write_all};

/// Writes the replies that a handler gives, once they may go out.
pub trait ReplySink<D, H: FrameHandler<D>> {
    // The bytes that it has taken.
    ghost transcript: { Self → List ℕ };

    // A write failed, or was refused.
    ghost has_failed: { Self → Bool };

    // Of it as it was first, and of it and a handler now: these bytes of replies wait, and those that were
    // written may go out.
    ghost lets_go: { Self → Self × H → List ℕ → Type 0 };

    // The same of all that was written, but for a beginning of these bytes at its end, which are no reply.
    ghost has_let_go: { Self → Self × H → List ℕ → Type 0 };

    // What waits isn't written.
    ghost is_written: { (first s : Self) (handler : H) (waits last : List ℕ)
        → lets_go first (s, handler) waits → has_let_go first (s, handler) last };

    /// A reply waits behind the others. (A law: it does nothing.)
    fn lets_wait(&self)
        ensures { (first : Self) (desk : D) (handler : H) (waits payload reply : List ℕ) (desk' : D)
            (handler' : H) → lets_go first (self.now, handler) waits
            → H.answers (desk, handler) payload reply (desk', handler')
            → lets_go first (self.now, handler') (waits ++ reply) };

    /// Writes replies once they may go out: all of them, or a beginning, and never all, where a write
    /// fails or is refused.
    fn write_replies(&mut self, handler: &mut H, bytes: &[u8]) -> Result<(), Failed>
        requires { has_failed self.old ≡ false }
        ensures same { handler.new ≡ handler.old }
        ensures ok { OnOk result (transcript self.new ≡ transcript self.old ++ bytes.now) }
        ensures err { OnErr result ((n : ℕ) × (n < length bytes.now)
            × (transcript self.new ≡ transcript self.old ++ take n bytes.now)) }
        ensures failed { has_failed self.new ≡ is_err result }
        ensures let_go { OnOk result ((first : Self) (rest : List ℕ)
            → lets_go first (self.old, handler.old) (bytes.now ++ rest)
            → lets_go first (self.new, handler.new) rest) }
        ensures stopped { OnErr result ((first : Self) (rest : List ℕ)
            → lets_go first (self.old, handler.old) (bytes.now ++ rest)
            → (left : List ℕ) × lets_go first (self.new, handler.new) left) };

    /// Writes the last bytes of a stream, which are no reply. All of them, or a beginning, and never
    /// all, where a write fails.
    fn write_last(&mut self, bytes: &[u8]) -> Result<(), Failed>
        requires { has_failed self.old ≡ false }
        ensures ok { OnOk result (transcript self.new ≡ transcript self.old ++ bytes.now) }
        ensures err { OnErr result ((n : ℕ) × (n < length bytes.now)
            × (transcript self.new ≡ transcript self.old ++ take n bytes.now)) }
        ensures failed { has_failed self.new ≡ is_err result }
        ensures let_go { (first : Self) (handler : H) (waits : List ℕ)
            → lets_go first (self.old, handler) waits
            → has_let_go first (self.new, handler) bytes.now };
}

/// A plain sink lets every reply go at once.
impl<D, H: FrameHandler<D>, W: Sink> ReplySink<D, H> for W {
    ghost transcript = { W.Sink.transcript };

    ghost has_failed = { W.Sink.has_failed };

    ghost lets_go = { λ _ _ _. Unit {0} };

    ghost has_let_go = { λ _ _ _. Unit {0} };

    ghost is_written = { λ _ _ _ _ _ _. tt };

    fn lets_wait(&self) {}

    fn write_replies(&mut self, handler: &mut H, bytes: &[u8]) -> Result<(), Failed> {
        let _ = handler;
        write_all(self, bytes)
    }

    fn write_last(&mut self, bytes: &[u8]) -> Result<(), Failed> {
        write_all(self, bytes)
    }
}
