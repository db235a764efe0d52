// Labels of categories.
ghost use Rattle.std.specs.Prelude.{◌≡◌, ◌≤◌, IfOk, length};

use std::alloc::{AllocError, Global};
use std::marker::Model;

/// The label of a category, of at most 15 bytes.
#[derive(Drop)]
pub struct Label {
    bytes: Vec<u8>,
}

impl Model for Label {
    ghost use Rattle.std.specs.Prelude.{ℕ, ◌≤◌, List, length};

    ghost Value = { List ℕ };

    ghost view = { λ label. label.bytes.items };

    ghost invariant = { λ label. length label.bytes.items ≤ 15 };
}

impl Label {
    /// The greatest length of a label.
    pub const LIMIT: usize = 15;

    /// The label of these bytes.
    pub fn new(alloc: Global, bytes: &[u8]) -> Result<Label, AllocError>
        requires { length bytes.now ≤ 15 }
        ensures { IfOk result (λ label. label ≡ bytes.now) }
    {
        Ok(Label {
            bytes: Vec::from_slice(alloc, bytes)?,
        })
    }

    /// The bytes of the label.
    pub fn as_slice(&self) -> &[u8]
        ensures bytes { result.now ≡ self.now }
        ensures bound { length result.now ≤ 15 }
    {
        &self.bytes
    }
}
