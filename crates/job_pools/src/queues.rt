//! A queue between threads, whose ends know what they put into it and what they took out.
ghost use Rattle.std.specs.Prelude.{◌≡◌, [], IfOk, MatchOption, MatchResult};
ghost use Rattle.job_pools.specs.Queues.{nothing, with_put, with_taken};

use crate::job_seats::StartedJob;
use crossbeam_channel::protocol::{Lesson, Outcome, Protocol, Split};
use crossbeam_channel::{Pass, RuledReceiver, RuledSender, bounded_with};
use refusal::NoMemory;
use std::alloc::Global;
use std::collections::LinkedList;
use std::marker::{Model, PhantomData};
use std::sync::Wait;

/// How many may wait in a queue.
const ROOM: usize = 16_384;

/// What an end of a queue has put in, and what it has taken out, each in order. No value of it is
/// made.
pub struct Traffic {
    pub put: LinkedList<StartedJob>,
    pub taken: LinkedList<StartedJob>,
}

/// What goes through a queue belongs to a job that was started.
pub trait OfJob: Drop {
    ghost use Rattle.job_pools.specs.declared.job_seats.StartedJob.{StartedJob};

    ghost job: { Self → StartedJob };
}

/// A rule that asks nothing: each end knows what it did itself.
pub struct KnowsItself;

impl<T> Protocol<T, Traffic> for KnowsItself {
    ghost use Rattle.job_pools.specs.Queues.{nothing};

    ghost holds = { λ items views. Unit {0} };

    ghost first = { nothing };
}

/// A new end has done nothing.
impl Split<Traffic> for KnowsItself {
    ghost use Rattle.job_pools.specs.Queues.{nothing};

    ghost left = { λ v. v };

    ghost right = { λ _. nothing };
}

/// What is put in is noted.
struct NotesPut<T> {
    of: PhantomData<T>,
}

impl<T: OfJob> Outcome<T, Traffic> for NotesPut<T> {
    ghost use Rattle.std.specs.Prelude.{◌≡◌};
    ghost use Rattle.job_pools.specs.Queues.{with_put};

    ghost then = { λ v x w. w ≡ with_put v (T.job x) };
}

impl<T: OfJob> Lesson<T, Traffic> for NotesPut<T> {
    ghost fact = { λ v items. Unit {0} };
}

/// What is taken out is noted.
struct NotesTaken<T> {
    of: PhantomData<T>,
}

impl<T: OfJob> Outcome<T, Traffic> for NotesTaken<T> {
    ghost use Rattle.std.specs.Prelude.{◌≡◌};
    ghost use Rattle.job_pools.specs.Queues.{with_taken};

    ghost then = { λ v x w. w ≡ with_taken v (T.job x) };
}

impl<T: OfJob> Lesson<T, Traffic> for NotesTaken<T> {
    ghost fact = { λ v items. Unit {0} };
}

type Sender<T> = RuledSender<T, Traffic, KnowsItself, Global>;

type Receiver<T> = RuledReceiver<T, Traffic, KnowsItself, Global>;

/// An end that puts into a queue. Contracts see what it did.
#[derive(Drop)]
pub struct Inlet<T: OfJob> {
    sender: Sender<T>,
    pass: Pass<T, Traffic>,
}

impl<T: OfJob> Model for Inlet<T> {
    ghost use Rattle.crossbeam_channel.specs.Claims.{IsSeatAt};
    ghost use Rattle.crossbeam_channel.specs.Ends.{sends_on};
    ghost use Rattle.job_pools.specs.Queues.{known};
    ghost use Rattle.job_pools.specs.declared.queues.Traffic.{Traffic};

    ghost Value = { Traffic };

    ghost view = { λ i. known i.pass };

    ghost invariant = { λ i. IsSeatAt (sends_on i.sender) i.pass };
}

/// An end that takes out of a queue. Contracts see what it did.
#[derive(Drop)]
pub struct Outlet<T: OfJob> {
    receiver: Receiver<T>,
    pass: Pass<T, Traffic>,
}

impl<T: OfJob> Model for Outlet<T> {
    ghost use Rattle.crossbeam_channel.specs.Claims.{IsSeatAt};
    ghost use Rattle.crossbeam_channel.specs.Ends.{receives_on};
    ghost use Rattle.job_pools.specs.Queues.{known};
    ghost use Rattle.job_pools.specs.declared.queues.Traffic.{Traffic};

    ghost Value = { Traffic };

    ghost view = { λ o. known o.pass };

    ghost invariant = { λ o. IsSeatAt (receives_on o.receiver) o.pass };
}

impl<T: OfJob> Inlet<T> {
    /// Puts this at the back, once there is room for it. It comes back where nobody takes any more.
    pub fn put<R: Wait>(&mut self, rt: &R, item: T) -> Result<(), T>
        ensures { MatchResult result (λ _. self.new ≡ with_put self.old (T.job item))
            (λ back. (back ≡ item) × (self.new ≡ self.old)) }
    {
        match self
            .sender
            .send_as::<NotesPut<T>, R>(rt, &mut self.pass, item)
        {
            Ok(()) => Ok(()),
            Err(error) => Err(error.into_inner()),
        }
    }

    /// Another end that puts into the queue.
    pub fn another(&mut self) -> Result<Inlet<T>, NoMemory>
        ensures new { IfOk result (λ inlet. inlet ≡ nothing) }
        ensures same { self.new ≡ self.old }
    {
        let sender = self.sender.try_clone()?;
        let pass = self.sender.another::<KnowsItself>(&mut self.pass);
        Ok(Inlet { sender, pass })
    }
}

impl<T: OfJob> Outlet<T> {
    /// What stands at the front, if there is something now.
    pub fn take_now<R: Wait>(&mut self, rt: &R) -> Option<T>
        ensures { MatchOption result (self.new ≡ self.old)
            (λ item. self.new ≡ with_taken self.old (T.job item)) }
    {
        self.receiver
            .try_recv_as::<NotesTaken<T>, R>(rt, &mut self.pass)
            .ok()
    }
}

/// A queue with one end that puts in, of which more can be made, and one that takes out.
pub fn queue_to_one<T: OfJob>(alloc: Global) -> Result<(Inlet<T>, Outlet<T>), NoMemory>
    ensures { IfOk result (λ ends. (ends.0 ≡ nothing) × (ends.1 ≡ nothing)) }
{
    let (sender, receiver, pass) = bounded_with::<T, Traffic, KnowsItself, Global>(alloc, ROOM)?;
    let mut inlet = Inlet { sender, pass };
    let pass = inlet.sender.another::<KnowsItself>(&mut inlet.pass);
    Ok((inlet, Outlet { receiver, pass }))
}
