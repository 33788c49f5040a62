//! Whether a server takes further connections, by its flag and its journals.

ghost use Rattle.std.specs.Prelude.{◌≡◌, false, is_some};

use server_log::StopFlag;
use shared_journal::SharedJournal;

/// Whether there is a flag that was raised.
pub(crate) fn is_stopped(stop: Option<&StopFlag>) -> bool
    ensures { is_some stop.entry ≡ false → result ≡ false }
{
    match stop {
        Some(flag) => flag.is_raised(),
        None => false,
    }
}

/// Whether one of the journals has failed.
pub(crate) fn has_failed(journals: &[SharedJournal]) -> bool {
    for journal in journals {
        if journal.has_failed() {
            return true;
        }
    }
    false
}

/// Whether no further connection is to be taken: a flag was raised, or a journal has failed.
pub(crate) fn is_ended(stop: Option<&StopFlag>, journals: &[SharedJournal]) -> bool {
    has_failed(journals) || is_stopped(stop)
}

/// Raises a flag, if there is one, where a reply was refused since a journal has failed.
pub(crate) fn raise_if(stop: Option<&StopFlag>, is_refused: bool) {
    if let (Some(flag), true) = (stop, is_refused) {
        flag.raise();
    }
}

/// Whether a server ended for its flag, which it may have.
pub(crate) fn ended_by(stop: Option<&StopFlag>, ended: bool) -> bool
    ensures { is_some stop.entry ≡ false → result ≡ false }
{
    match stop {
        Some(_) => ended,
        None => false,
    }
}
