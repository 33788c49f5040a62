//! A desk without a socket.

use crate::clerk::Clerk;
use crate::conversation::Conversation;
use crate::ended::Ended;
use accounts::DeskFault;
use credit_book::Report;
use refusal::NoMemory;
use std::alloc::Global;
use std::collections::BTreeMap;

/// Accounts, the jobs that wait for the host, and a conversation for each connection, by its number.
#[derive(Drop)]
pub struct HostDesk {
    clerk: Clerk,
    conversations: BTreeMap<u64, Conversation>,
    // the last number that was given
    connected: u64,
}

/// How many bytes were given to be sent, and how many are left.
#[derive(Clone, Copy, Debug, PartialEq, Eq)]
pub struct Sent {
    pub count: usize,
    pub left: usize,
}

impl HostDesk {
    ghost use Rattle.std.specs.Prelude.{◌≡◌, ◌⊎◌, ◌∷◌, [], None, OnOk, OnErr, IfOk, IfErr, IfSome, IfNone, IsSome, is_some, false};
    ghost use Rattle.std.specs.BTreeMap.{get, Updates};
    ghost use Rattle.std.specs.Ordering.{nat_cmp};
    ghost use Rattle.accounts.specs.Ledgers.{Finishes, IsNotOpen};
    ghost use Rattle.accounts.specs.declared.fault.DeskFault.TheVariants.{NoJob};
    ghost use Rattle.conversation.specs.Handed.{HasFirst};
    ghost use Rattle.conversation.specs.Hosting.{Connects, FeedsAt, IsAsBefore, IsEmptyDesk, Sends};

    /// A desk with no tenant, no job and no connection.
    pub fn new(alloc: Global) -> HostDesk
        ensures { IsEmptyDesk result }
    {
        HostDesk {
            clerk: Clerk::new(alloc),
            conversations: BTreeMap::new(alloc),
            connected: 0,
        }
    }

    /// Begins a conversation, and answers its number, counted from 1. No number is given twice.
    ///
    /// 99 where there is no memory, or `2^64 - 1` numbers were given.
    pub fn connect(&mut self, alloc: Global) -> Result<u64, NoMemory>
        ensures connected { IfOk result (λ number. Connects self.old number self.new) }
        ensures refused { OnErr result (IsAsBefore self.old self.new) }
        ensures clerk { self.new.clerk ≡ self.old.clerk }
    {
        let Some(number) = self.connected.checked_add(1) else {
            return Err(NoMemory);
        };
        if self.conversations.contains_key(&number) {
            return Err(NoMemory);
        }
        match self.conversations.insert(number, Conversation::new(alloc)) {
            Ok(_) => {
                self.connected = number;
                Ok(number)
            }
            Err(_) => Err(NoMemory),
        }
    }

    /// Takes a piece that came on a connection, as [`Conversation::take_piece`]. `None` where there
    /// is no such connection.
    pub fn feed(&mut self, alloc: Global, number: u64, piece: &[u8]) -> Option<Result<(), Ended>>
        ensures fed { IfSome result (λ told. FeedsAt self.old number piece.now told self.new) }
        ensures none { IfNone result ((get nat_cmp self.old.conversations number ≡ None)
            × IsAsBefore self.old self.new) }
    {
        match self.conversations.get_mut(&number) {
            Some(conversation) => {
                Some(conversation.take_piece(alloc, piece, &mut (), &mut self.clerk))
            }
            None => None,
        }
    }

    /// Gives bytes that are to be sent on a connection into the room, as many as there is room for.
    /// They count as sent. `None` where there is no such connection.
    pub fn take_replies(&mut self, number: u64, room: &mut [u8]) -> Option<Sent>
        ensures sent { IfSome result (λ sent. Sends self.old number room.old room.new sent self.new) }
        ensures none { IfNone result ((get nat_cmp self.old.conversations number ≡ None)
            × (room.new ≡ room.old) × IsAsBefore self.old self.new) }
        ensures clerk { self.new.clerk ≡ self.old.clerk }
    {
        match self.conversations.get_mut(&number) {
            Some(conversation) => {
                let count = conversation.take_due(room);
                let left = conversation.due_len();
                Some(Sent { count, left })
            }
            None => None,
        }
    }

    /// Ends the conversation of this number, and drops what was still to be sent. Whether there was
    /// one.
    pub fn disconnect(&mut self, number: u64) -> bool
        ensures there { result ≡ is_some (get nat_cmp self.old.conversations number) }
        ensures gone { Updates nat_cmp self.old.conversations self.new.conversations number None }
        ensures same { result ≡ false → self.new.conversations.entries
            ≡ self.old.conversations.entries }
        ensures connected { self.new.connected ≡ self.old.connected }
        ensures clerk { self.new.clerk ≡ self.old.clerk }
    {
        self.conversations.remove(&number).is_some()
    }

    /// The job of lowest number that waits: its number, and its object.
    pub fn first_job(&self) -> Option<(u64, &[u8])>
        ensures some { IfSome result (λ job.
            HasFirst self.now.clerk.jobs.waiting.entries job.0 job.1.now) }
        ensures none { IfNone result (self.now.clerk.jobs.waiting.entries ≡ []) }
    {
        self.clerk.first_job()
    }

    /// Gives the job of lowest number that waits to the host, once.
    pub fn fetch_job(&mut self) -> Option<(u64, Vec<u8>)>
        ensures some { IfSome result (λ job.
            self.old.clerk.jobs.waiting.entries ≡ job ∷ self.new.clerk.jobs.waiting.entries) }
        ensures none { IfNone result ((self.old.clerk.jobs.waiting.entries ≡ [])
            × (self.new.clerk.jobs.waiting.entries ≡ [])) }
        ensures ledger { self.new.clerk.ledger ≡ self.old.clerk.ledger }
        ensures conversations { self.new.conversations ≡ self.old.conversations }
    {
        self.clerk.fetch_job()
    }

    /// Ends a job that the host has fetched with its report, or with the number of what it failed
    /// by. 76 where the job still waits, or no open job has the number.
    pub fn finish(&mut self, job: u64, outcome: Result<Report, u8>) -> Result<(), DeskFault>
        ensures finished { OnOk result
            (Finishes self.old.clerk.ledger job outcome self.new.clerk.ledger) }
        ensures fetched { OnOk result (get nat_cmp self.old.clerk.jobs.waiting job ≡ None) }
        ensures refused { IfErr result (λ e. (e ≡ NoJob) × (IsNotOpen self.old.clerk.ledger job
            ⊎ IsSome (get nat_cmp self.old.clerk.jobs.waiting job))) }
        ensures unchanged { OnErr result (self.new.clerk.ledger ≡ self.old.clerk.ledger) }
        ensures jobs { self.new.clerk.jobs ≡ self.old.clerk.jobs }
        ensures conversations { self.new.conversations ≡ self.old.conversations }
    {
        self.clerk.finish(job, outcome)
    }
}
