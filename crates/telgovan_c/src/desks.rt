//! Desks that C holds: what clients say and are told, and the jobs that C runs for them.

ghost use Rattle.std.specs.Prelude.{◌≡◌, None};
ghost use Rattle.telgovan_c.specs.Desks.{IsConnected, IsDesk, IsDisconnected, IsFed, IsJobGiven, IsHandedBy, IsSent, desk_in};

use crate::desk_handle::DeskHandle;
use crate::explains::place_into;
use conversation::HostDesk;
use std::alloc::Global;
use std::mem::replace;

// The handle holds no desk.
const NO_DESK: u32 = 41;
// The room is shorter than the object.
const OVER_LIMIT: u32 = 65;
// There is no such connection.
const NO_CONNECTION: u32 = 78;
// A growth was refused.
const NO_MEMORY: u32 = 99;

/// How many bytes were given to be sent, and how many are left.
#[repr(C)]
#[derive(Clone, Copy)]
pub struct SentReplies {
    pub count: u64,
    pub left: u64,
}

/// A job that is handed over: its number, and how many bytes its object has. Both are 0 where no
/// job waits.
#[repr(C)]
#[derive(Clone, Copy)]
pub struct HandedJob {
    pub job: u64,
    pub length: u64,
}

// The same value, which may go to another thread: no other type is taken.
fn sendable<T: Send>(value: T) -> T
    ensures { result ≡ value }
{
    value
}

// A desk of its own, in place of the one that the handle held.
fn make(alloc: Global, desk: &mut DeskHandle) -> u32
    ensures { IsDesk (desk_in desk.old) (desk_in desk.new) result }
{
    match Box::new(alloc, HostDesk::new(alloc)) {
        Ok(made) => {
            *desk = sendable(DeskHandle::of(made));
            0
        }
        Err(_) => NO_MEMORY,
    }
}

// Begins a conversation at what the handle holds, and gives the handle back.
fn connect_held(alloc: Global, desk: DeskHandle, connection: &mut u64) -> (DeskHandle, u32)
    ensures { IsConnected (desk_in desk) connection.old (desk_in result.0) connection.new result.1 }
{
    match desk.into_box() {
        Some(mut desk) => match desk.connect(alloc) {
            Ok(number) => {
                *connection = number;
                (DeskHandle::of(desk), 0)
            }
            Err(_) => (DeskHandle::of(desk), NO_MEMORY),
        },
        None => (DeskHandle::none(alloc), NO_DESK),
    }
}

// Takes a piece at what the handle holds, and gives the handle back.
fn feed_held(alloc: Global, desk: DeskHandle, connection: u64, bytes: &[u8]) -> (DeskHandle, u32)
    ensures { IsFed (desk_in desk) connection bytes.now (desk_in result.0) result.1 }
{
    match desk.into_box() {
        Some(mut desk) => match desk.feed(alloc, connection, bytes) {
            Some(Ok(())) => (DeskHandle::of(desk), 0),
            Some(Err(ended)) => (DeskHandle::of(desk), u32::from(ended.code())),
            None => (DeskHandle::of(desk), NO_CONNECTION),
        },
        None => (DeskHandle::none(alloc), NO_DESK),
    }
}

// Gives replies of what the handle holds, and gives the handle back.
fn replies_held(
    alloc: Global,
    desk: DeskHandle,
    connection: u64,
    room: &mut [u8],
    told: &mut SentReplies,
) -> (DeskHandle, u32)
    ensures { IsSent (desk_in desk) connection room.old told.old (desk_in result.0) room.new
        told.new result.1 }
{
    match desk.into_box() {
        Some(mut desk) => match desk.take_replies(connection, room) {
            Some(sent) => {
                *told = SentReplies {
                    count: sent.count as u64,
                    left: sent.left as u64,
                };
                (DeskHandle::of(desk), 0)
            }
            None => (DeskHandle::of(desk), NO_CONNECTION),
        },
        None => (DeskHandle::none(alloc), NO_DESK),
    }
}

// Ends a conversation at what the handle holds, and gives the handle back.
fn disconnect_held(alloc: Global, desk: DeskHandle, connection: u64) -> (DeskHandle, u32)
    ensures { IsDisconnected (desk_in desk) connection (desk_in result.0) result.1 }
{
    match desk.into_box() {
        Some(mut desk) => {
            if desk.disconnect(connection) {
                return (DeskHandle::of(desk), 0);
            }
            (DeskHandle::of(desk), NO_CONNECTION)
        }
        None => (DeskHandle::none(alloc), NO_DESK),
    }
}

// Gives the first job that waits, if its object fits the room.
fn give_job(desk: &mut HostDesk, room: &mut [u8], told: &mut HandedJob) -> u32
    ensures { IsHandedBy desk.old room.old desk.new room.new told.new result }
{
    let length = match desk.first_job() {
        Some((job, object)) => {
            *told = HandedJob {
                job,
                length: object.len() as u64,
            };
            place_into(object, room);
            object.len()
        }
        None => {
            *told = HandedJob { job: 0, length: 0 };
            return 0;
        }
    };
    if length > room.len() {
        return OVER_LIMIT;
    }
    let _ = desk.fetch_job();
    0
}

// Hands a job of what the handle holds over, and gives the handle back.
fn next_held(
    alloc: Global,
    desk: DeskHandle,
    room: &mut [u8],
    told: &mut HandedJob,
) -> (DeskHandle, u32)
    ensures { IsJobGiven (desk_in desk) room.old told.old (desk_in result.0) room.new told.new
        result.1 }
{
    match desk.into_box() {
        Some(mut desk) => {
            let status = give_job(&mut desk, room, told);
            (DeskHandle::of(desk), status)
        }
        None => (DeskHandle::none(alloc), NO_DESK),
    }
}

/// Makes a desk with no tenant, no job and no connection, and lets the handle hold it in place of
/// the one that it held. It answers 0; or 99, after which the handle holds what it held.
#[unsafe(no_mangle)]
pub extern "C" fn telgovan_desk_new(alloc: Global, desk: &mut DeskHandle) -> u32
    ensures { IsDesk (desk_in desk.old) (desk_in desk.new) result }
{
    make(alloc, desk)
}

/// Begins a conversation, and tells its number, which no other has or had. It answers 0; or 41
/// where the handle holds no desk, or 99, after which nothing changed.
#[unsafe(no_mangle)]
pub extern "C" fn telgovan_desk_connect(
    alloc: Global,
    desk: &mut DeskHandle,
    connection: &mut u64,
) -> u32
    ensures { IsConnected (desk_in desk.old) connection.old (desk_in desk.new) connection.new
        result }
{
    let taken = replace(desk, DeskHandle::none(alloc));
    let (kept, status) = connect_held(alloc, taken, connection);
    *desk = kept;
    status
}

/// Takes bytes that came on a connection, and answers each frame that is whole now, in order. The
/// replies wait to be sent. It answers 0; or 41 where the handle holds no desk, 78 where there is
/// no such connection, 71 where a length over the limit came, which is answered too, or 99. After
/// 71 and 99 the conversation is over, and each later piece is answered the same.
#[unsafe(no_mangle)]
pub extern "C" fn telgovan_desk_feed(
    alloc: Global,
    desk: &mut DeskHandle,
    connection: u64,
    bytes: &[u8],
) -> u32
    ensures { IsFed (desk_in desk.old) connection bytes.now (desk_in desk.new) result }
{
    let taken = replace(desk, DeskHandle::none(alloc));
    let (kept, status) = feed_held(alloc, taken, connection, bytes);
    *desk = kept;
    status
}

/// Writes bytes that are to be sent on a connection into the room, as many as there is room for,
/// and tells how many, and how many are left. They count as sent. It answers 0; or 41 where the
/// handle holds no desk, or 78 where there is no such connection, after which nothing changed.
#[unsafe(no_mangle)]
pub extern "C" fn telgovan_desk_replies(
    alloc: Global,
    desk: &mut DeskHandle,
    connection: u64,
    room: &mut [u8],
    told: &mut SentReplies,
) -> u32
    ensures { IsSent (desk_in desk.old) connection room.old told.old (desk_in desk.new) room.new
        told.new result }
{
    let taken = replace(desk, DeskHandle::none(alloc));
    let (kept, status) = replies_held(alloc, taken, connection, room, told);
    *desk = kept;
    status
}

/// Ends the conversation of a connection, and drops what was still to be sent. It answers 0; or 41
/// where the handle holds no desk, or 78 where there is no such connection.
#[unsafe(no_mangle)]
pub extern "C" fn telgovan_desk_disconnect(
    alloc: Global,
    desk: &mut DeskHandle,
    connection: u64,
) -> u32
    ensures { IsDisconnected (desk_in desk.old) connection (desk_in desk.new) result }
{
    let taken = replace(desk, DeskHandle::none(alloc));
    let (kept, status) = disconnect_held(alloc, taken, connection);
    *desk = kept;
    status
}

/// Hands the job of lowest number that waits to the caller, once: tells its number, and writes its
/// object into the room. It answers 0, with number 0 where no job waits; 65 where the room is too
/// short, after which the job waits as before; or 41 where the handle holds no desk.
#[unsafe(no_mangle)]
pub extern "C" fn telgovan_desk_next_job(
    alloc: Global,
    desk: &mut DeskHandle,
    room: &mut [u8],
    told: &mut HandedJob,
) -> u32
    ensures { IsJobGiven (desk_in desk.old) room.old told.old (desk_in desk.new) room.new told.new
        result }
{
    let taken = replace(desk, DeskHandle::none(alloc));
    let (kept, status) = next_held(alloc, taken, room, told);
    *desk = kept;
    status
}

/// Lets go of the desk, with its accounts, its jobs and its conversations. The handle holds none
/// from then on.
#[unsafe(no_mangle)]
pub extern "C" fn telgovan_desk_free(alloc: Global, desk: &mut DeskHandle)
    ensures { desk_in desk.new ≡ None }
{
    *desk = DeskHandle::none(alloc);
}
