// Ids of records.
ghost use Rattle.std.specs.Prelude.{◌≡◌, ◌≤◌, SomeIff};

use std::marker::Model;

/// The id of a record, a number of 24 bits. 0 means that it has none yet.
#[derive(Clone, Copy, PartialEq, Eq, PartialOrd, Ord)]
pub struct RecordId {
    number: u32,
}

impl Model for RecordId {
    ghost use Rattle.std.specs.Prelude.{ℕ, ◌≤◌};

    ghost Value = { ℕ };

    ghost view = { λ id. id.number };

    ghost invariant = { λ id. id.number ≤ 16777215 };

    ghost inverse = { λ number. record { number = number } };
}

impl RecordId {
    /// The greatest id.
    pub const GREATEST: u32 = 16_777_215;

    /// The id of a number.
    pub fn new(number: u32) -> Option<RecordId>
        ensures { SomeIff result (number ≤ 16777215) number }
    {
        if number <= Self::GREATEST {
            Some(RecordId { number })
        } else {
            None
        }
    }

    /// The number of the id.
    pub fn number(self) -> u32
        ensures number { result ≡ self }
        ensures bound { result ≤ 16777215 }
    {
        self.number
    }
}
