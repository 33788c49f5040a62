//! The limits of our profile: RFC 9669 sets none.

/// The most bytes of a job's buffer, and so of a task's part and of what a program needs.
pub const MAX_PART: usize = 65_536;

/// The most credit of a job, and so of a task.
pub const MAX_CREDIT: u32 = 2_147_483_647;
