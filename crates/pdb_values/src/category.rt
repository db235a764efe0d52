// Categories of records.
ghost use Rattle.std.specs.Prelude.{◌≡◌, ◌≤◌, SomeIff};

use std::marker::Model;

/// One of the sixteen categories of a database, from 0 to 15.
#[derive(Clone, Copy, PartialEq, Eq)]
pub struct Category {
    number: u8,
}

impl Model for Category {
    ghost use Rattle.std.specs.Prelude.{ℕ, ◌≤◌};

    ghost Value = { ℕ };

    ghost view = { λ category. category.number };

    ghost invariant = { λ category. category.number ≤ 15 };

    ghost inverse = { λ number. record { number = number } };
}

impl Category {
    /// The greatest category.
    pub const GREATEST: u8 = 15;

    /// The category of a number.
    pub fn new(number: u8) -> Option<Category>
        ensures { SomeIff result (number ≤ 15) number }
    {
        if number <= Self::GREATEST {
            Some(Category { number })
        } else {
            None
        }
    }

    /// The number of the category.
    pub fn number(self) -> u8
        ensures number { result ≡ self }
        ensures bound { result ≤ 15 }
    {
        self.number
    }
}
