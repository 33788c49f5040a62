//! A number that a line says.

ghost use Rattle.std.specs.Prelude.{◌≡◌};
ghost use Rattle.bpfjobs_cli.specs.TenantLines.{number_said};

/// The number that digits write, where it is from `low` to `high`.
#[tactic(auto, unfolding(crate::specs::TenantLines::number_said))]
pub(crate) fn number_said(digits: &[u8], low: u32, high: u32) -> Option<u32>
    ensures { result ≡ number_said low high digits.now }
{
    if digits.is_empty() {
        return None;
    }
    let mut number = 0u64;
    for &byte in digits {
        if !byte.is_ascii_digit() {
            return None;
        }
        let next = number * 10 + u64::from(byte - b'0');
        if next > u64::from(high) {
            return None;
        }
        number = next;
    }
    if number < u64::from(low) {
        return None;
    }
    Some(number as u32)
}
