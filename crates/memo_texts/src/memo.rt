// Memos that were read.
ghost use Rattle.std.specs.Prelude.{◌≡◌, ◌≤◌, length};

use crate::label::Label;
use pdb_values::RecordId;
use std::marker::Model;

/// A memo: the id of its record, whether it is private, the label of its category, and its text in a Palm's bytes, of
/// which there are at most 65,499.
#[derive(Drop)]
pub struct Memo {
    id: RecordId,
    secret: bool,
    label: Label,
    text: Vec<u8>,
}

impl Model for Memo {
    ghost use Rattle.std.specs.Prelude.{◌≤◌, length};
    ghost use Rattle.memo_texts.specs.Memos.{MemoValue};

    ghost Value = { MemoValue };

    ghost view = { λ memo. record {
      id = memo.id;
      secret = memo.secret;
      label = memo.label;
      text = memo.text.items;
    } };

    ghost invariant = { λ memo. length memo.text.items ≤ 65499 };
}

impl Memo {
    /// The memo of these parts.
    pub fn new(id: RecordId, secret: bool, label: Label, text: Vec<u8>) -> Memo
        requires { length text.items ≤ 65499 }
        ensures { result ≡ record { id = id; secret = secret; label = label; text = text.items } }
    {
        Memo {
            id,
            secret,
            label,
            text,
        }
    }

    /// The id of the record, 0 where it has none yet.
    pub fn id(&self) -> RecordId
        ensures { result ≡ self.now.id }
    {
        self.id
    }

    /// Whether the record is private.
    pub fn secret(&self) -> bool
        ensures { result ≡ self.now.secret }
    {
        self.secret
    }

    /// The label of the category, empty where there is none.
    pub fn label(&self) -> &[u8]
        ensures label { result.now ≡ self.now.label }
        ensures bound { length result.now ≤ 15 }
    {
        self.label.as_slice()
    }

    /// The text.
    pub fn text(&self) -> &[u8]
        ensures text { result.now ≡ self.now.text }
        ensures bound { length result.now ≤ 65499 }
    {
        &self.text
    }
}
