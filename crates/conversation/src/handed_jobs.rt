//! Jobs that wait for the host, which runs them.

use crate::object::asked_object;
use credit_book::{Progress, Report};
use job_core::Job;
use sessions::Request;
use std::alloc::Global;
use std::collections::BTreeMap;
use streams::Runner;

/// Holds the object of each job that was taken, until the host fetches it. It runs none.
#[derive(Drop)]
pub struct HandedJobs {
    waiting: BTreeMap<u64, Vec<u8>>,
    // the object of the job that is started next
    ready: Option<Vec<u8>>,
}

impl HandedJobs {
    ghost use Rattle.std.specs.Prelude.{◌≡◌, ◌∷◌, ℕ, [], Some, None, IfSome, IfNone, is_some, slice_get};
    ghost use Rattle.std.specs.BTreeMap.{get};
    ghost use Rattle.std.specs.Ordering.{nat_cmp};
    ghost use Rattle.streams.specs.Hearing.{query_of};
    ghost use Rattle.conversation.specs.Handed.{HasFirst};
    ghost use Rattle.conversation.specs.Objects.{IsObjectFor};

    /// No job waits.
    pub fn new(alloc: Global) -> HandedJobs
        ensures { result.waiting.entries ≡ [] }
    {
        HandedJobs {
            waiting: BTreeMap::new(alloc),
            ready: None,
        }
    }

    /// Makes the object ready of the job that a frame asks for, if it asks for one.
    pub(crate) fn prepare(&mut self, alloc: Global, request: &Result<Request, u8>)
        ensures same { self.new.waiting.entries ≡ self.old.waiting.entries }
        ensures ready { IsObjectFor self.new.ready (query_of request.now) }
    {
        self.ready = asked_object(alloc, request);
    }

    /// The job of lowest number that waits: its number, and its object.
    pub fn first(&self) -> Option<(u64, &[u8])>
        ensures some { IfSome result (λ job. HasFirst self.now.waiting.entries job.0 job.1.now) }
        ensures none { IfNone result (self.now.waiting.entries ≡ []) }
    {
        match self.waiting.first_key_value() {
            Some((number, object)) => Some((*number, object)),
            None => None,
        }
    }

    /// Gives the job of lowest number that waits to the host. It waits no longer.
    pub fn fetch(&mut self) -> Option<(u64, Vec<u8>)>
        ensures some { IfSome result (λ job.
            self.old.waiting.entries ≡ job ∷ self.new.waiting.entries) }
        ensures none { IfNone result ((self.old.waiting.entries ≡ [])
            × (self.new.waiting.entries ≡ [])) }
    {
        self.waiting.pop_first()
    }

    /// Whether the job of this number waits.
    pub fn waits(&self, number: u64) -> bool
        ensures { result ≡ is_some (get nat_cmp self.now.waiting number) }
    {
        self.waiting.contains_key(&number)
    }
}

impl Runner for HandedJobs {
    ghost use Rattle.std.specs.Prelude.{◌≡◌};
    ghost use Rattle.std.specs.BTreeMap.{btree_map_len};
    ghost use Rattle.conversation.specs.Handed.{handed_looks, handed_starts, handed_takes};

    ghost held = { λ r. btree_map_len r.waiting };

    ghost ready = { λ _. Unit {0} };

    ghost starts = { λ r number job result s. handed_starts r number job result s };

    ghost looks = { λ r number progress s. handed_looks r number progress s };

    ghost takes = { λ r result s. handed_takes r result s };

    fn start(&mut self, _alloc: Global, number: u64, _job: Job) -> Result<(), u8> {
        let Some(object) = self.ready.take() else {
            return Err(99);
        };
        match self.waiting.insert(number, object) {
            Ok(_) => Ok(()),
            Err(_) => Err(99),
        }
    }

    fn look(&mut self, _number: u64) -> Progress {
        Progress {
            spent: 0,
            returned: 0,
            complete: false,
        }
    }

    fn take(&mut self) -> Option<(u64, Result<Report, u8>)> {
        None
    }
}
