//! Numbers of less than a byte.
ghost use Rattle.std.specs.Prelude.{◌≡◌, ◌%◌, ◌<◌};

use std::marker::Model;

/// A number below `END`.
#[derive(Clone, Copy, Debug, PartialEq, Eq)]
pub struct Below<const END: u8> {
    number: u8,
}

impl<const END: u8> Model for Below<END> {
    ghost use Rattle.std.specs.Prelude.{ℕ, ◌<◌};

    ghost Value = { ℕ };

    ghost view = { λ b. b.number };

    ghost invariant = { λ b. b.number < END };

    ghost inverse = { λ n. record { number = n } };
}

impl<const END: u8> Below<END> {
    /// The number, as one below `END`.
    pub fn new(number: u8) -> Self
        requires { number < END }
        ensures { result ≡ number }
    {
        Below { number }
    }

    /// The number.
    pub fn number(self) -> u8
        ensures value { result ≡ self.entry }
        ensures below { result < END }
    {
        self.number
    }
}

/// The number of a logical unit behind an address.
pub type Lun = Below<4>;

/// A network function, by the number that its requests have: even and below 64. Its responses have the next number.
#[derive(Clone, Copy, Debug, PartialEq, Eq)]
pub struct NetFn {
    number: u8,
}

impl Model for NetFn {
    ghost use Rattle.std.specs.Prelude.{ℕ, ◌≡◌, ◌<◌, ◌%◌};

    ghost Value = { ℕ };

    ghost view = { λ f. f.number };

    ghost invariant = { λ f. (f.number < 64) × (f.number % 2 ≡ 0) };

    ghost inverse = { λ n. record { number = n } };
}

impl NetFn {
    /// The network function whose requests have this number.
    pub fn new(number: u8) -> NetFn
        requires below { number < 64 }
        requires even { number % 2 ≡ 0 }
        ensures { result ≡ number }
    {
        NetFn { number }
    }

    /// The number of its requests.
    pub fn number(self) -> u8
        ensures value { result ≡ self }
        ensures below { result < 64 }
        ensures even { result % 2 ≡ 0 }
    {
        self.number
    }
}
