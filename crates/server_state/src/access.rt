//! The rights of a connection.

use sessions::DoorForms;

/// Whose desk a connection asks, whether it may grant, and which requests it may send.
///
/// Desk 0 belongs to every tenant that has no endpoint of its own, desk `n` to the `n`-th tenant
/// that has one.
#[derive(Clone, Copy, Debug, PartialEq, Eq)]
pub struct Access {
    pub desk: u16,
    pub may_grant: bool,
    pub forms: DoorForms,
}
