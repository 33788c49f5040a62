//! The flag that stops a server.

ghost use Rattle.std.specs.Prelude.{◌≡◌, IfSome};

use std::sync::{OnceLock, OnceToken, Wait};

/// A flag that a host raises once its server is to take no further connection. Any thread may raise it
/// at any time. Nothing lowers it.
#[derive(Drop)]
pub struct StopFlag {
    raised: OnceLock<()>,
}

impl StopFlag {
    /// A flag that is down.
    pub fn new() -> StopFlag {
        StopFlag {
            raised: OnceLock::new(),
        }
    }

    /// Raises the flag. The token shows that it is up, from now on.
    pub fn raise<R: Wait>(&self, rt: &R) -> OnceToken<'_, ()>
        ensures { result.of ≡ self.now.raised.id }
    {
        match self.raised.try_insert(rt, ()) {
            Ok(token) => token,
            Err((token, ())) => token,
        }
    }

    /// A token, which shows that the flag is up, once it was raised.
    pub fn seen(&self) -> Option<OnceToken<'_, ()>>
        ensures { IfSome result (λ token. token.of ≡ self.now.raised.id) }
    {
        self.raised.witness()
    }
}
