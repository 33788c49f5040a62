//! Limits of time: when something is due, and how long a try may wait until then.

ghost use Rattle.std.specs.Prelude.{◌≡◌, IfErr, IfOk, OnErr, option_map};
ghost use Rattle.std.specs.Duration.{as_nanos};
ghost use Rattle.std.specs.IoError.{error_kind};
ghost use Rattle.std.specs.Time.{FitsClock, instant_nanos};
ghost use Rattle.std.specs.declared.time.Instant.{Instant};
ghost use Rattle.endpoints.specs.Limits.{IsDueIn, IsTimeLeft, IsOver, capped_wait};

use std::io;
use std::io::ErrorKind;
use std::time::{Clock, Duration, Instant};

// The milliseconds that a try waits until it looks at a flag.
const LOOK: u64 = 200;

/// Tells the time while a stream is in a state. So contracts know that a time was told since the
/// stream came to it.
pub trait Timer<S> {
    // It told this time, in this state of a stream.
    ghost tells: { Self → S → Instant → Type 0 };

    // It could not tell the time in this state.
    ghost fails: { Self → S → Type 0 };

    /// The time now.
    fn now(&self, stream: &S) -> io::Result<Instant>
        ensures tells { IfOk result (λ now. tells self.now stream.now now
            × FitsClock (instant_nanos now)) }
        ensures fails { OnErr result (fails self.now stream.now) };
}

/// The system's clock, of whose time no contract knows anything.
impl<R: Clock, S> Timer<S> for R {
    ghost tells = { λ _ _ _. Unit {0} };

    ghost fails = { λ _ _. Unit {0} };

    fn now(&self, _stream: &S) -> io::Result<Instant> {
        Instant::now(self)
    }
}

/// The time by which something is due that has so many seconds from now on. 0: none. Nor is there one
/// where the clock fails, or doesn't count so far.
pub(crate) fn due_in<R: Timer<S>, S>(rt: &R, stream: &S, seconds: u32) -> Option<Instant>
    ensures { IsDueIn R.tells R.fails rt.now stream.now seconds result }
{
    if seconds == 0 {
        return None;
    }
    match rt.now(stream) {
        Ok(now) => now.checked_add(Duration::from_secs(u64::from(seconds))),
        Err(_) => None,
    }
}

/// The time that is left until something is due, if it is due at any time. `TimedOut` once none is
/// left, or where the clock fails.
pub(crate) fn left_until<R: Timer<S>, S>(
    rt: &R,
    stream: &S,
    due: Option<Instant>,
) -> io::Result<Option<Duration>>
    ensures left { IfOk result (λ left. IsTimeLeft R.tells rt.now stream.now due
        (option_map as_nanos left)) }
    ensures over { IfErr result (λ error. IsOver R.tells R.fails rt.now stream.now due
        × (error_kind error ≡ ErrorKind.TimedOut)) }
{
    let Some(due) = due else {
        return Ok(None);
    };
    let Ok(now) = rt.now(stream) else {
        return Err(io::Error::from(ErrorKind::TimedOut));
    };
    match due.checked_duration_since(now) {
        Some(left) if left > Duration::ZERO => Ok(Some(left)),
        _ => Err(io::Error::from(ErrorKind::TimedOut)),
    }
}

/// The wait of one try: the time that is left, and where a flag may be raised, no more than to the next
/// look at it.
pub(crate) fn wait_of(left: Option<Duration>, may_stop: bool) -> Option<Duration>
    ensures { option_map as_nanos result ≡ capped_wait (option_map as_nanos left) may_stop }
{
    if !may_stop {
        return left;
    }
    let look = Duration::from_millis(LOOK);
    match left {
        Some(left) if left < look => Some(left),
        _ => Some(look),
    }
}
