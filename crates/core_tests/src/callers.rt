//! Helpers of a caller's own: 64 adds its first two numbers, of 65 each number counts twice as much
//! as the one ahead of it, and 127 answers the greatest number.

/// The sum of the first two numbers.
pub fn added(a: u64, b: u64, _c: u64, _d: u64, _e: u64) -> u64 {
    a.wrapping_add(b)
}

/// The sum in which each number counts twice as much as the one ahead of it.
pub fn weighed(a: u64, b: u64, c: u64, d: u64, e: u64) -> u64 {
    a.wrapping_add(b.wrapping_mul(2))
        .wrapping_add(c.wrapping_mul(4))
        .wrapping_add(d.wrapping_mul(8))
        .wrapping_add(e.wrapping_mul(16))
}

/// The greatest number.
pub fn greatest(_a: u64, _b: u64, _c: u64, _d: u64, _e: u64) -> u64 {
    u64::MAX
}
