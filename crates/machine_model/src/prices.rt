//! What instructions cost.

ghost use Rattle.std.specs.Prelude.{◌≡◌, ◌≤◌};
ghost use Rattle.machine_model.specs.Edges.{helper_price, price};

use insn_codec::Insn;

/// What a call of the helper of this id costs.
#[inline]
pub fn helper_price(helper: u32) -> u32
    ensures price { result ≡ helper_price helper }
    ensures least { 1 ≤ result }
    ensures most { result ≤ 32 }
{
    match helper {
        1 => 16,
        2 | 3 => 2,
        4 | 5 => 32,
        _ => 8,
    }
}

/// What an instruction costs: 1, but for a call, which costs what its helper does.
#[inline]
pub fn price(insn: &Insn) -> u32
    ensures price { result ≡ price insn.now }
    ensures least { 1 ≤ result }
    ensures most { result ≤ 32 }
{
    match insn {
        Insn::Call { helper } => helper_price(*helper),
        _ => 1,
    }
}
