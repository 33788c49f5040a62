//! A register by its number, 0 to 10.

ghost use Rattle.std.specs.Prelude.{◌≡◌, ◌≤◌};

use std::marker::Model;

/// One of the registers R0 to R10 (RFC 9669, section 2). Contracts see its number.
#[derive(Clone, Copy, Debug, PartialEq, Eq, Hash)]
pub struct Register {
    number: u8,
}

impl Model for Register {
    ghost use Rattle.std.specs.Prelude.{ℕ, ◌≤◌};

    ghost Value = { ℕ };

    ghost view = { λ r. r.number };

    ghost invariant = { λ r. r.number ≤ 10 };

    ghost inverse = { λ n. record { number = n } };
}

impl Register {
    /// The register of this number, 0 to 10.
    pub fn new(number: u8) -> Self
        requires { number ≤ 10 }
        ensures { result ≡ number }
    {
        Register { number }
    }

    /// The register's number, 0 to 10.
    pub fn number(self) -> u8
        ensures value { result ≡ self }
        ensures range { result ≤ 10 }
    {
        self.number
    }
}
