//! Schedules: the number of the task that runs, one for each instruction.

ghost use Rattle.std.specs.Prelude.{◌≡◌, ◌≢◌, ◌↔◌, ℕ, ◌<◌, ◌≤◌, length, get_or, IsTrue};

/// So many entries are looked at together.
const BLOCK: usize = 16;

/// At most so many entries are looked at ahead of a run: most tasks have ended by then.
const MOST_AHEAD: usize = 65_536;

/// Whether each entry names this task. All of them are looked at, which is quicker than to stop at
/// the first other one.
#[inline(always)]
fn all_name(entries: &[u32], number: u32) -> bool
    ensures { IsTrue result ↔ ((i : ℕ) → i < length entries.now → get_or entries.now i 0 ≡ number) }
{
    let mut all = true;
    for entry in entries {
        all &= *entry == number;
    }
    all
}

/// How many of the first entries name the task that the first one names.
fn named_alike(schedule: &[u32]) -> usize
    requires { 0 < length schedule.now }
    ensures some { (0 < result) × (result ≤ length schedule.now) }
    ensures alike { (i : ℕ) → i < result → get_or schedule.now i 0 ≡ get_or schedule.now 0 0 }
    ensures most { result < length schedule.now
        → get_or schedule.now result 0 ≢ get_or schedule.now 0 0 }
{
    let number = schedule[0];
    let mut named = 1;
    while schedule.len() - named >= BLOCK && all_name(&schedule[named..named + BLOCK], number) {
        named += BLOCK;
    }
    while named < schedule.len() && schedule[named] == number {
        named += 1;
    }
    named
}

/// How many of the first entries name the task that the first one names, as far as a run looks
/// ahead. So a schedule that goes on long after the task's end isn't read first.
pub fn named_ahead(schedule: &[u32]) -> usize
    requires { 0 < length schedule.now }
    ensures some { (0 < result) × (result ≤ length schedule.now) }
    ensures alike { (i : ℕ) → i < result → get_or schedule.now i 0 ≡ get_or schedule.now 0 0 }
{
    if schedule.len() <= MOST_AHEAD {
        return named_alike(schedule);
    }
    named_alike(&schedule[..MOST_AHEAD])
}
