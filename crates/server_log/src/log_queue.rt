//! The log of a server: what it counts, and lines that wait for who writes them, and nobody who
//! waits for that.

ghost use Rattle.std.specs.Prelude.{◌≡◌, ◌⊎◌, ◌++◌, ◌/◌, ◌-◌, ◌^◌, IfOk, min, false, is_some, string_bytes};
ghost use Rattle.std.specs.Duration.{as_nanos};
ghost use Rattle.server_log.specs.LogLines.{AreLogLines, log_text, tells_clients};

use crate::log_line::{LogEvent, LogForm, LogLine};
use crate::server_counts::{Counter, ServerCounts};
use crossbeam_channel::{Receiver, Sender, bounded};
use refusal::NoMemory;
use sessions::ServerTotals;
use std::alloc::Global;
use std::sync::atomic::{AtomicBool, AtomicU64, Ordering};
use std::sync::{Arc, Wait};
use std::thread;
use std::time::{Clock, Duration, Instant};

// The most lines that wait.
const ROOM: usize = 8192;

// The most lines that are written together.
const BATCH_LEN: usize = 1024;

// How many milliseconds lines are gathered before they are written, unless the log is closed.
const GATHER: u64 = 20;

// How many seconds the end of a server waits for its last lines.
const LAST: u64 = 1;

// What both ends of the queue know: how many lines were lost, since that was told and in all, and
// whether the log is closed. Nobody waits for it.
#[derive(Drop)]
struct QueueState {
    untold: AtomicU64,
    all: AtomicU64,
    is_closed: AtomicBool,
}

impl QueueState {
    // Nothing is lost, and it is open.
    fn new() -> QueueState {
        QueueState {
            untold: AtomicU64::new(0),
            all: AtomicU64::new(0),
            is_closed: AtomicBool::new(false),
        }
    }

    // How many lines there are of which it wasn't told that they are lost. From now on there are none.
    fn take_untold(&self) -> u64 {
        self.untold.swap(0, Ordering::SeqCst)
    }

    // So many lines more are to be told.
    fn put_untold(&self, count: u64) {
        let _ = self
            .untold
            .fetch_update(Ordering::SeqCst, Ordering::SeqCst, |untold| {
                Some(untold.saturating_add(count))
            });
    }

    // One line more is lost, which was to tell of so many ahead of it.
    fn lose(&self, ahead: u64) {
        self.all.fetch_add(1, Ordering::SeqCst);
        self.put_untold(ahead.saturating_add(1));
    }

    // Whether the log is closed.
    fn is_closed(&self) -> bool {
        self.is_closed.load(Ordering::SeqCst)
    }

    // A line can't be written. Where it tells of lost lines alone, these are told later.
    fn give_up(&self, line: &LogLine) {
        match &line.event {
            LogEvent::Lost => self.put_untold(line.lost),
            _ => self.lose(line.lost),
        }
    }
}

// Takes lines for who writes them, and `None` to wake it. A line that finds no room is dropped and
// counted. The next one that finds room tells the count, or else the writer.
#[derive(Drop)]
struct LineQueue {
    queue: Sender<Option<LogLine>, Global>,
    state: Arc<QueueState, Global>,
    written: Receiver<(), Global>,
}

/// Takes what happens in a server: counts it, and makes a line of it where lines are written.
#[derive(Drop)]
pub struct ServerLog {
    counts: ServerCounts,
    instance: u64,
    begun: Option<Instant>,
    // whether lines are written of what clients do
    has_lines: bool,
    lines: Option<LineQueue>,
    serving: AtomicU64,
}

/// The lines of a log, for who writes them.
#[derive(Drop)]
pub struct LogLines {
    form: LogForm,
    queue: Receiver<Option<LogLine>, Global>,
    state: Arc<QueueState, Global>,
    written: Sender<(), Global>,
}

// What the writer of a log has to do.
#[derive(Drop)]
enum WriterTask {
    // It writes this line, and what waits behind it.
    Write(LogLine),
    // It looks again.
    LookAgain,
    // Nothing more: the log is closed.
    End,
}

// The two ends of a queue of lines.
fn line_queue(alloc: Global, form: LogForm) -> Result<(LineQueue, LogLines), NoMemory>
    ensures { IfOk result (λ ends. ends.1.form ≡ form) }
{
    let (queue, lines) = bounded(alloc, ROOM)?;
    let (written, is_written) = bounded(alloc, 1)?;
    let state = Arc::new(alloc, QueueState::new())?;
    let theirs = Arc::try_clone(&state)?;
    let ours = LineQueue {
        queue,
        state,
        written: is_written,
    };
    let lines = LogLines {
        form,
        queue: lines,
        state: theirs,
        written,
    };
    Ok((ours, lines))
}

/// A log whose lines are written in this form, and its lines.
pub fn open_log<R: Clock>(
    rt: &R,
    alloc: Global,
    form: LogForm,
) -> Result<(ServerLog, LogLines), NoMemory>
    ensures log { IfOk result (λ opened. opened.0.has_lines ≡ tells_clients form) }
    ensures lines { IfOk result (λ opened. opened.1.form ≡ form) }
{
    let (queue, lines) = line_queue(alloc, form)?;
    let log = ServerLog::begun(rt, alloc, form.tells_clients(), Some(queue))?;
    Ok((log, lines))
}

// Milliseconds, which stay at `2^64 - 1`.
fn millis(time: Duration) -> u64
    ensures { result ≡ min (as_nanos time / 1_000_000) (2 ^ 64 - 1) }
{
    u64::try_from(time.as_millis()).unwrap_or(u64::MAX)
}

// Milliseconds since 1970, and 0 where the clock can't be read.
fn now<R: Clock>(rt: &R) -> u64 {
    match rt.since_1970() {
        Ok(time) => millis(time),
        Err(_) => 0,
    }
}

/// How long something took that began then, in milliseconds; 0 where the clock can't be read.
pub fn millis_since<R: Clock>(rt: &R, begun: Option<Instant>) -> u64
    ensures { is_some begun ≡ false → result ≡ 0 }
{
    let Some(begun) = begun else {
        return 0;
    };
    match Instant::now(rt) {
        Ok(ended) => millis(ended.duration_since(begun)),
        Err(_) => 0,
    }
}

impl LineQueue {
    // Takes a line of what happened, and waits for no writer.
    fn take<R: Wait + Clock>(&self, rt: &R, event: LogEvent) {
        let lost = self.state.take_untold();
        let line = LogLine {
            time: now(rt),
            event,
            lost,
        };
        if self.queue.try_send(rt, Some(line)).is_err() {
            self.state.lose(lost);
            self.wake(rt);
        }
    }

    // Wakes the writer, which looks at the state then. One that has lines to write is awake.
    fn wake<R: Wait>(&self, rt: &R) {
        let _ = self.queue.try_send(rt, None);
    }

    // Has the writer end once all lines are written, and waits for that, for one second at most.
    fn close<R: Wait + Clock>(&self, rt: &R) {
        self.state.is_closed.store(true, Ordering::SeqCst);
        self.wake(rt);
        let _ = self.written.recv_timeout(rt, Duration::from_secs(LAST));
    }
}

impl ServerLog {
    ghost use Rattle.std.specs.Prelude.{◌≡◌, IfOk, false, is_some};
    ghost use Rattle.server_log.specs.Counting.{AreServerTotals};

    // A log that begins now, with these lines, which may be of what clients do.
    fn begun<R: Clock>(
        rt: &R,
        alloc: Global,
        has_lines: bool,
        lines: Option<LineQueue>,
    ) -> Result<ServerLog, NoMemory>
        ensures { IfOk result (λ log. log.has_lines ≡ has_lines) }
    {
        let counts = ServerCounts::new(alloc)?;
        Ok(ServerLog {
            counts,
            instance: now(rt),
            begun: Instant::now(rt).ok(),
            has_lines,
            lines,
            serving: AtomicU64::new(0),
        })
    }

    /// A log that counts, and of which no lines are written.
    pub fn counting<R: Clock>(rt: &R, alloc: Global) -> Result<ServerLog, NoMemory>
        ensures { IfOk result (λ log. log.has_lines ≡ false) }
    {
        ServerLog::begun(rt, alloc, false, None)
    }

    /// Whether lines are written of what clients do.
    pub fn has_lines(&self) -> bool
        ensures { result ≡ self.now.has_lines }
    {
        self.has_lines
    }

    /// This moment, for how long something takes that a line will tell; none where no such lines are
    /// written, or the clock can't be read.
    pub fn moment<R: Clock>(&self, rt: &R) -> Option<Instant>
        ensures { self.now.has_lines ≡ false → is_some result ≡ false }
    {
        if !self.has_lines() {
            return None;
        }
        Instant::now(rt).ok()
    }

    /// The desks answer a request of the connection of this number now, from 1 on.
    pub fn serve(&self, connection: u64) {
        self.serving.store(connection, Ordering::SeqCst);
    }

    /// The number of the connection whose request the desks answer now. None: no connection's yet.
    pub fn serving(&self) -> Option<u64> {
        match self.serving.load(Ordering::SeqCst) {
            0 => None,
            connection => Some(connection),
        }
    }

    // Takes a line of what happened, if there are lines.
    fn take<R: Wait + Clock>(&self, rt: &R, event: LogEvent) {
        if let Some(lines) = &self.lines {
            lines.take(rt, event);
        }
    }

    /// Counts what happened, and tells it where lines are written of what clients do. Waits for no
    /// writer.
    pub fn tell<R: Wait + Clock>(&self, rt: &R, event: LogEvent) {
        self.counts.count(&event);
        if self.has_lines {
            self.take(rt, event);
        }
    }

    /// Tells the host something in words, where lines are written. Waits for no writer.
    pub fn note<R: Wait + Clock>(&self, rt: &R, text: String) {
        self.take(rt, LogEvent::Note { text });
    }

    /// Counts a note as lost for whose words there was no memory.
    pub fn lose_note<R: Wait>(&self, rt: &R) {
        if let Some(lines) = &self.lines {
            lines.state.lose(0);
            lines.wake(rt);
        }
    }

    /// Raises a counter of what no line tells.
    pub fn raise(&self, counter: Counter) {
        self.counts.raise(counter);
    }

    // How many lines were lost, now.
    fn lines_lost(&self) -> u64 {
        match &self.lines {
            Some(lines) => lines.state.all.load(Ordering::SeqCst),
            None => 0,
        }
    }

    /// What it has counted so far, each count at a moment of its own. Refused where there is no
    /// memory.
    pub fn totals<R: Clock>(&self, rt: &R, alloc: Global) -> Result<ServerTotals, NoMemory>
        ensures counts { IfOk result AreServerTotals }
        ensures instance { IfOk result (λ totals. totals.instance ≡ self.now.instance) }
    {
        let refusals = self.counts.refusals(alloc)?;
        Ok(ServerTotals {
            connections: self.counts.connections(),
            instance: self.instance,
            jobs: self.counts.jobs(),
            lines_lost: self.lines_lost(),
            refusals,
            seconds: millis_since(rt, self.begun) / 1000,
        })
    }

    /// Waits until all lines are written, for one second at most. Lines that come later may be lost.
    pub fn close<R: Wait + Clock>(&self, rt: &R) {
        if let Some(lines) = &self.lines {
            lines.close(rt);
        }
    }
}

// Adds a line to a text. Where there is no memory for it, it is given up.
fn put_line(alloc: Global, form: LogForm, text: &mut String, line: LogLine, state: &QueueState)
    ensures { (string_bytes text.new ≡ string_bytes text.old ++ log_text form line)
        ⊎ (string_bytes text.new ≡ string_bytes text.old) }
{
    let is_put = match line.text(alloc, form) {
        Ok(written) => text.push_str(written.as_str()).is_ok(),
        Err(_) => false,
    };
    if !is_put {
        state.give_up(&line);
    }
}

impl LogLines {
    // The line that waits; none where none does, or the writer is only woken.
    fn waiting<R: Wait>(&self, rt: &R) -> Option<LogLine> {
        match self.queue.try_recv(rt) {
            Ok(waiting) => waiting,
            Err(_) => None,
        }
    }

    // A line of those that were lost and not told, if there are such.
    fn lost_line<R: Clock>(&self, rt: &R) -> Option<LogLine> {
        let lost = self.state.take_untold();
        if lost == 0 {
            return None;
        }
        Some(LogLine {
            time: now(rt),
            event: LogEvent::Lost,
            lost,
        })
    }

    // What is to be done. Where nothing is, it waits.
    fn next_task<R: Wait + Clock>(&self, rt: &R) -> WriterTask {
        match self.queue.try_recv(rt) {
            Ok(Some(line)) => return WriterTask::Write(line),
            Ok(None) => return WriterTask::LookAgain,
            Err(_) => {}
        }
        if let Some(line) = self.lost_line(rt) {
            return WriterTask::Write(line);
        }
        if self.state.is_closed() {
            return WriterTask::End;
        }
        match self.queue.recv(rt) {
            Ok(Some(line)) => WriterTask::Write(line),
            Ok(None) => WriterTask::LookAgain,
            Err(_) => WriterTask::End,
        }
    }

    // A line, and those that wait behind it, up to a batch, as text.
    fn batch<R: Wait>(&self, rt: &R, alloc: Global, first: LogLine) -> String
        ensures { AreLogLines self.now.form (string_bytes result) }
    {
        let mut text = String::new(alloc);
        put_line(alloc, self.form, &mut text, first, &self.state);
        'putting: for _ in 1..BATCH_LEN {
            match self.waiting(rt) {
                Some(line) => put_line(alloc, self.form, &mut text, line, &self.state),
                None => break,
            }
        }
        text
    }
}

/// Writes the lines of a log on standard error, some together, until the log is closed and no line is
/// left, or standard error is gone. It alone waits for who reads that. Where no line is left to write
/// and some were lost, a line tells how many.
pub fn write_lines<R: Wait + Clock + Eprint>(rt: &R, alloc: Global, lines: LogLines) {
    for _ in rt.forever() {
        let first = match lines.next_task(rt) {
            WriterTask::Write(first) => first,
            WriterTask::LookAgain => continue,
            WriterTask::End => return,
        };
        if !lines.state.is_closed() {
            thread::sleep(rt, Duration::from_millis(GATHER));
        }
        let text = lines.batch(rt, alloc, first);
        if eprint!(rt; "{text}").is_err() {
            return;
        }
    }
}
