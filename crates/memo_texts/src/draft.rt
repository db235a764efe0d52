// Memos to which lines may come.
ghost use Rattle.std.specs.Prelude.{◌≡◌, ◌≤◌, [], IfOk, MatchResult, None, Some, length};
ghost use Rattle.memo_texts.specs.Faults.{IsUnread};
ghost use Rattle.memo_texts.specs.Flaws.{flaw_at};

use crate::fault::{Flaw, LineFault, LineFlaw};
use crate::label::Label;
use crate::memo::Memo;
use pdb_values::RecordId;
use std::alloc::{AllocError, Global};
use std::marker::Model;

/// A memo to which lines may come. A line feed ends each that it has.
#[derive(Drop)]
pub struct Draft {
    id: RecordId,
    secret: bool,
    label: Label,
    text: Vec<u8>,
}

impl Model for Draft {
    ghost use Rattle.std.specs.Prelude.{◌≤◌, length};
    ghost use Rattle.memo_texts.specs.Memos.{MemoValue};

    ghost Value = { MemoValue };

    ghost view = { λ draft. record {
      id = draft.id;
      secret = draft.secret;
      label = draft.label;
      text = draft.text.items;
    } };

    ghost invariant = { λ draft. length draft.text.items ≤ 65500 };
}

impl Draft {
    ghost use Rattle.memo_texts.specs.Readings.{longer, whole};

    /// The greatest length of a memo with the line feed behind its last line, and so with its zero byte.
    const LIMIT: usize = 65_500;

    /// A memo without a line.
    pub fn new(alloc: Global, id: RecordId, secret: bool, label: &[u8]) -> Result<Draft, AllocError>
        requires { length label.now ≤ 15 }
        ensures { IfOk result (λ draft. draft
            ≡ record { id = id; secret = secret; label = label.now; text = [] }) }
    {
        Ok(Draft {
            id,
            secret,
            label: Label::new(alloc, label)?,
            text: Vec::new(alloc),
        })
    }

    /// The memo with one more line, where there is room for it.
    pub fn longer(self, line: &[u8]) -> Result<Draft, LineFault>
        ensures { MatchResult result (λ draft. longer self line.now ≡ Some draft)
            (λ fault. IsUnread fault (longer self line.now) (flaw_at 1 Flaw.LongMemo)) }
    {
        let Draft {
            id,
            secret,
            label,
            mut text,
        } = self;
        if line.len() >= Self::LIMIT - text.len() {
            return Err(LineFault::BadForm(LineFlaw {
                column: 1,
                flaw: Flaw::LongMemo,
            }));
        }
        text.extend_from_slice(line)?;
        text.push(b'\n')?;
        Ok(Draft {
            id,
            secret,
            label,
            text,
        })
    }

    /// The memo, where no line comes: the line feed behind its last one is none of its bytes.
    pub fn whole(self) -> Memo
        ensures { result ≡ whole self }
    {
        let Draft {
            id,
            secret,
            label,
            mut text,
        } = self;
        text.pop();
        Memo::new(id, secret, label, text)
    }
}
