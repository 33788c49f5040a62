//! Where frames lie.

ghost use Rattle.std.specs.Prelude.{◌≡◌, IfSome, IfNone};
ghost use Rattle.interpreter.specs.Representation.{zeroed};

use bumpalo::Bump;
use interpreter::Frame;
use std::alloc::Global;

/// Gives room to frames, until it is reset.
pub trait Arena: Drop {
    // It has no frame yet.
    ghost is_new: { Self → Type 0 };

    // It had no room for a frame.
    ghost refuses: { Self → Type 0 };

    /// An arena with no frame.
    fn fresh(alloc: Global) -> Self
        ensures { is_new result };

    /// A frame of zeros, if there is room for one.
    fn place(&self) -> Option<&mut Frame>
        ensures some { IfSome result (λ frame. frame.now ≡ zeroed) }
        ensures none { IfNone result (refuses self.now) };

    /// Gives its frames up, and answers whether it could.
    fn clear(&mut self) -> bool;
}

/// An arena of bumpalo's, of whose room nothing is known.
impl Arena for Bump {
    ghost is_new = { λ _. Unit {0} };

    ghost refuses = { λ _. Unit {0} };

    fn fresh(alloc: Global) -> Bump {
        Bump::new(alloc)
    }

    fn place(&self) -> Option<&mut Frame> {
        match self.try_alloc(Frame::zeroed()) {
            Ok(frame) => Some(frame),
            Err(_) => None,
        }
    }

    fn clear(&mut self) -> bool {
        self.reset().is_ok()
    }
}
