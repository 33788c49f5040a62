//! What a task hands over to a child.

ghost use Rattle.std.specs.Prelude.{◌≡◌, ℕ, ◌+◌, ◌-◌, ◌≤◌, length, IsTrue, IsFalse, take, drop};
ghost use Rattle.helpers.specs.Piece.{Piece};
ghost use Rattle.interpreter.specs.Telling.{Took, Declined, NotSpawned};

use helpers::{Part, SpawnRecord, Spawner};
use std::alloc::Global;

/// Cuts the last `count` bytes off the part and hands them over to a child. Where there is no
/// memory, or the spawner refuses the child, the part is whole again. A whole part takes no memory
/// to cut off. Where the child is taken, nothing comes back, so that the part needs no room for it.
pub fn hand_over<S: Spawner>(
    alloc: Global,
    program: u16,
    share: u32,
    arg: u64,
    count: usize,
    part: &mut Part,
    spawner: &mut S,
) -> bool
    requires few { count ≤ length part.old.bytes }
    requires asks { (piece : Piece)
        → S.asks spawner.old
        (record { program = program; share = share; arg = arg; part = piece }) }
    ensures base { part.new.base ≡ part.old.base }
    ensures taken { IsTrue result
        → part.new.bytes ≡ take (length part.old.bytes - count) part.old.bytes }
    ensures took { IsTrue result →
        Took (record {
          program = program;
          share = share;
          arg = arg;
          bytes = drop
              (length part.old.bytes - count) part.old.bytes;
        })
        (part.old.base + (length part.old.bytes - count))
        (λ child reply. S.spawns spawner.old child reply spawner.new) }
    ensures whole { IsFalse result → part.new.bytes ≡ part.old.bytes }
    ensures refused { IsFalse result →
        NotSpawned (record {
          program = program;
          share = share;
          arg = arg;
          bytes = drop
              (length part.old.bytes - count) part.old.bytes;
        })
        (part.old.base + (length part.old.bytes - count))
        (λ child reply. S.spawns spawner.old child reply spawner.new)
        (spawner.new ≡ spawner.old) }
    ensures declined { IsFalse result → count ≡ length part.old.bytes →
        Declined (record {
          program = program;
          share = share;
          arg = arg;
          bytes = drop
              (length part.old.bytes - count) part.old.bytes;
        })
        (part.old.base + (length part.old.bytes - count))
        (λ child reply. S.spawns spawner.old child reply spawner.new) }
    ensures entries { S.entries spawner.new ≡ S.entries spawner.old }
{
    let Ok(piece) = part.cut(alloc, count) else {
        return false;
    };
    let child = SpawnRecord {
        program,
        share,
        arg,
        part: piece,
    };
    match spawner.spawn(child) {
        Ok(()) => {
            part.shed_room();
            true
        }
        Err(child) => {
            let SpawnRecord {
                program: _,
                share: _,
                arg: _,
                part: piece,
            } = child;
            part.rejoin(piece);
            false
        }
    }
}
