//! How quick a pool of threads runs a tree of tasks, beside `play` of the same job.

use anyhow::bail;
use assembler::assemble;
use job_core::{Job, ProgramBytes, admit, play};
use std::alloc::Global;
use std::io::Write;
use std::rt::Clock;
use std::sync::Wait;
use std::thread::Threads;
use std::time::{Duration, Instant};
use workers::{OpenGate, run_whole};

/// How often each job is played.
const ROUNDS: u32 = 10;

/// How often each job is run by each pool.
const POOL_ROUNDS: u32 = 40;

/// What a spawn costs with the four moves ahead of it.
const SPAWN_PRICE: u32 = 20;

/// A tree: the root spawns so many tasks, each of which spawns as many, which take so many steps.
#[derive(Clone, Copy)]
struct TreeShape {
    children: u32,
    steps: u32,
}

impl TreeShape {
    /// How many tasks there are.
    fn tasks(self) -> u32 {
        self.children
            .wrapping_mul(self.children)
            .wrapping_add(self.children)
            .wrapping_add(1)
    }

    /// The credit that a task needs which spawns its children with so much each.
    fn credit_over(self, share: u32) -> u32 {
        self.children
            .wrapping_mul(share.wrapping_add(SPAWN_PRICE))
            .wrapping_add(2)
    }

    /// The program of a task that spawns its children.
    fn spawning(self, alloc: Global, program: u32, share: u32) -> anyhow::Result<ProgramBytes> {
        let mut text = String::new(alloc);
        for _ in 0..self.children {
            text.push_str(format!(in alloc;
                "mov64 r1, {program}\nmov64 r2, {share}\nmov64 r3, 0\nmov64 r4, 0\ncall 1\n"
            )?.as_str())?;
        }
        text.push_str("mov64 r0, 0\nexit\n")?;
        Ok(ProgramBytes {
            need: 0,
            code: assemble(alloc, text.as_str())?,
        })
    }

    /// The program of the last tasks.
    fn last(self, alloc: Global) -> anyhow::Result<ProgramBytes> {
        let mut text = String::new(alloc);
        for _ in 1..self.steps {
            text.push_str("mov64 r0, 0\n")?;
        }
        text.push_str("exit\n")?;
        Ok(ProgramBytes {
            need: 0,
            code: assemble(alloc, text.as_str())?,
        })
    }

    fn job(self, alloc: Global) -> anyhow::Result<Job> {
        let share = self.credit_over(self.steps);
        let programs = [
            self.spawning(alloc, 1, share)?,
            self.spawning(alloc, 2, self.steps)?,
            self.last(alloc)?,
        ];
        let credit = self.credit_over(share);
        Ok(admit(alloc, &programs, credit, Vec::new(alloc))?)
    }

    /// Each task in order of number, to its end.
    fn schedule(self, alloc: Global) -> anyhow::Result<Vec<u32>> {
        let spawns = self.children.wrapping_mul(5).wrapping_add(2);
        let mut numbers = Vec::new(alloc);
        for number in 0..self.tasks() {
            let steps = if number <= self.children {
                spawns
            } else {
                self.steps
            };
            for _ in 0..steps {
                numbers.push(number)?;
            }
        }
        Ok(numbers)
    }
}

/// The time of one run, by `play`.
fn played_once<C: Clock>(
    clock: &C,
    alloc: Global,
    tree: TreeShape,
    schedule: &[u32],
) -> anyhow::Result<Duration> {
    let job = tree.job(alloc)?;
    let start = Instant::now(clock)?;
    let world = play(alloc, job, schedule)?;
    let took = start.elapsed(clock)?;
    if world.report().is_none() {
        bail!("a task is alive");
    }
    Ok(took)
}

/// The time of the quickest round, by `play`.
fn played<C: Clock>(clock: &C, alloc: Global, tree: TreeShape) -> anyhow::Result<Duration> {
    let schedule = tree.schedule(alloc)?;
    let mut quickest = Duration::MAX;
    for _ in 0..ROUNDS {
        quickest = quickest.min(played_once(clock, alloc, tree, &schedule)?);
    }
    Ok(quickest)
}

/// The time of one run, by a pool of so many threads, 1 to 16.
fn run<R: Clock + Threads + Wait + Sync>(
    rt: &R,
    alloc: Global,
    tree: TreeShape,
    workers: u32,
    number: u64,
) -> anyhow::Result<Duration> {
    let job = tree.job(alloc)?;
    let (_board, post, _reader) = job.board(alloc, number)?;
    let start = Instant::now(rt)?;
    let report = run_whole(rt, alloc, job, post, workers.clamp(1, 16), &OpenGate)?;
    let took = start.elapsed(rt)?;
    if report.tasks.len() != tree.tasks() as usize {
        bail!("tasks are missing");
    }
    Ok(took)
}

/// The time of the quickest round of each pool. The pools take turns, so that what else the machine
/// does is the same for each.
fn run_in_turn<R: Clock + Threads + Wait + Sync>(
    rt: &R,
    alloc: Global,
    tree: TreeShape,
) -> anyhow::Result<[Duration; 3]> {
    let [mut one, mut two, mut four] = [Duration::MAX; 3];
    for round in 0..POOL_ROUNDS {
        let number = u64::from(round);
        one = one.min(run(rt, alloc, tree, 1, number)?);
        two = two.min(run(rt, alloc, tree, 2, number)?);
        four = four.min(run(rt, alloc, tree, 4, number)?);
    }
    Ok([one, two, four])
}

/// How many times as quick as one duration another is, as hundredths.
fn times_as_quick(slow: Duration, quick: Duration) -> (u128, u128) {
    let hundredths = slow.as_nanos().saturating_mul(100) / quick.as_nanos().max(1);
    (hundredths / 100, hundredths % 100)
}

/// Prints how many tasks a millisecond end, by `play` and by pools, and how quick each pool is
/// beside `play` and beside one worker.
fn print_tree<R: Clock + Threads + Wait + Sync, W: Write>(
    rt: &R,
    alloc: Global,
    output: &mut W,
    tree: TreeShape,
) -> anyhow::Result<()> {
    let (tasks, steps) = (u128::from(tree.tasks()), tree.steps);
    let alone = played(rt, alloc, tree)?;
    let rate = tasks.saturating_mul(1_000_000) / alone.as_nanos().max(1);
    writeln!(
        output,
        "play of {tasks} tasks of {steps} steps: {rate} tasks a millisecond"
    )?;
    let [one, two, four] = run_in_turn(rt, alloc, tree)?;
    for (workers, took) in [(1, one), (2, two), (4, four)] {
        let rate = tasks.saturating_mul(1_000_000) / took.as_nanos().max(1);
        let (units, rest) = times_as_quick(alone, took);
        let (ones, parts) = times_as_quick(one, took);
        writeln!(
            output,
            "a pool of {workers} on these: {rate} tasks a millisecond, {units}.{rest:02} of play's speed, {ones}.{parts:02} of one worker's"
        )?;
    }
    Ok(())
}

/// Prints how quick pools run many tasks that do much, and more that do little.
pub fn print_pool_times<R: Clock + Threads + Wait + Sync, W: Write>(
    rt: &R,
    alloc: Global,
    output: &mut W,
) -> anyhow::Result<()> {
    for tree in [
        TreeShape {
            children: 100,
            steps: 1000,
        },
        TreeShape {
            children: 316,
            steps: 10,
        },
    ] {
        print_tree(rt, alloc, output, tree)?;
    }
    Ok(())
}
