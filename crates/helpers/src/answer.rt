//! What a spawn is answered.

ghost use Rattle.std.specs.Prelude.{◌≡◌};
ghost use Rattle.machine_model.specs.Spawn.{answer_of};

use machine_model::Entry;

/// The first cause that a spawn isn't made for, or 0: 1 no such program, 2 a share under the
/// child's cost, 3 too little credit left for the rest of the parent's run (`after` is the cost of
/// the slot after the call, and `used` has the call's price in it), 4 a cut under the child's need,
/// 5 too few bytes left for the parent (`len` and `need` are the parent's).
pub fn spawn_answer(
    child: Option<Entry>,
    share: u64,
    cut: u64,
    held: u32,
    used: u32,
    after: u32,
    len: u32,
    need: u32,
) -> u64
    ensures { result ≡ answer_of child share cut held used after len need }
{
    let Some(child) = child else {
        return 1;
    };
    if share < u64::from(child.cost) {
        return 2;
    }
    if share > u64::from(held) || u64::from(held) < share + u64::from(used) + u64::from(after) {
        return 3;
    }
    if cut < u64::from(child.need) {
        return 4;
    }
    if cut > u64::from(len) || u64::from(len) < cut + u64::from(need) {
        return 5;
    }
    0
}
