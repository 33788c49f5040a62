//! The recorders of desks, made of their queues, and notes of what they have recorded.

ghost use Rattle.std.specs.Prelude.{◌≡◌, IfOk};
ghost use Rattle.std.specs.List.{AllZip};
ghost use Rattle.tenant_recorder.specs.Recorders.{CoversDeskAt, IsNewRecorder};

use desk_recorder::{ChangeRecorder, RecordQueue};
use refusal::NoMemory;
use std::alloc::Global;
use streams::Noted;

/// A recorder for each queue, in order.
pub(crate) fn recorders_of<Q: RecordQueue>(
    alloc: Global,
    queues: Vec<Q>,
) -> Result<Vec<ChangeRecorder<Q>>, NoMemory>
    ensures { IfOk result (λ made. AllZip IsNewRecorder queues.items made.items) }
{
    let mut recorders = Vec::new(alloc);
    'queues: for queue in queues {
        recorders.push(ChangeRecorder::new(queue))?;
    }
    Ok(recorders)
}

/// Notes what the recorder at this place has recorded, if there is one.
pub(crate) fn note_at<M, Q: RecordQueue + Noted<M>>(
    recorders: &mut Vec<ChangeRecorder<Q>>,
    place: usize,
    into: &mut M,
)
    ensures same { recorders.new.items ≡ recorders.old.items }
    ensures noted { CoversDeskAt Q.covers place into.new recorders.old.items }
{
    if let Some(recorder) = recorders.get_mut(place) {
        Noted::note(recorder, place, into);
    }
}
