// What was read of a text.
ghost use Rattle.std.specs.Prelude.{◌≡◌, [], IfOk, MatchResult, None, Some};
ghost use Rattle.memo_texts.specs.Faults.{IsUnread};
ghost use Rattle.memo_texts.specs.Flaws.{bytes_flaw, line_flaw, text_flaw};

use crate::character::line_bytes;
use crate::draft::Draft;
use crate::fault::{Flaw, LineFault, LineFlaw};
use crate::head_line::{head_of, is_head};
use crate::line::{line_text, without_return};
use crate::memo::Memo;
use std::alloc::{AllocError, Global};
use std::marker::Model;

/// The memos that have all their lines, and the last one, to which more may come.
#[derive(Drop)]
pub struct Reading {
    done: Vec<Memo>,
    last: Option<Draft>,
}

impl Model for Reading {
    ghost use Rattle.memo_texts.specs.Readings.{ReadingValue};

    ghost Value = { ReadingValue };

    ghost view = { λ reading. record { done = reading.done.items; last = reading.last } };
}

impl Reading {
    ghost use Rattle.memo_texts.specs.Readings.{memos_of, with_bytes, with_line, with_memo, with_text};

    /// Before the first line.
    pub fn new(alloc: Global) -> Reading
        ensures { result ≡ record { done = []; last = None } }
    {
        Reading {
            done: Vec::new(alloc),
            last: None,
        }
    }

    /// The memos, where no line follows.
    pub fn memos(self) -> Result<Vec<Memo>, AllocError>
        ensures { IfOk result (λ memos. memos.items ≡ memos_of self) }
    {
        let Reading { mut done, last } = self;
        if let Some(draft) = last {
            done.push(draft.whole())?;
        }
        Ok(done)
    }

    /// What is read with one more line.
    #[tactic(auto, unfolding(crate::specs::Readings::with_line, crate::specs::Flaws::line_flaw))]
    pub fn with_line(self, alloc: Global, line: &[u8]) -> Result<Reading, LineFault>
        ensures { MatchResult result (λ reading. with_line self line.now ≡ Some reading)
            (λ fault. IsUnread fault (with_line self line.now) (line_flaw self.last line.now)) }
    {
        let bytes = line_bytes(alloc, without_return(line))?;
        self.with_bytes(alloc, &bytes)
    }

    // With the bytes of one more line.
    fn with_bytes(self, alloc: Global, bytes: &[u8]) -> Result<Reading, LineFault>
        ensures { MatchResult result (λ reading. with_bytes self bytes.now ≡ Some reading)
            (λ fault. IsUnread fault (with_bytes self bytes.now) (bytes_flaw self.last bytes.now)) }
    {
        if !is_head(bytes) {
            return self.with_text(line_text(bytes));
        }
        let head = match head_of(bytes) {
            Ok(head) => head,
            Err(flaw) => return Err(LineFault::BadForm(flaw)),
        };
        let memo = Draft::new(alloc, head.id, head.secret, head.label)?;
        let reading = self.with_memo(memo)?;
        Ok(reading)
    }

    // With one more memo, which has no line yet.
    fn with_memo(self, memo: Draft) -> Result<Reading, AllocError>
        ensures { IfOk result (λ reading. reading ≡ with_memo self memo) }
    {
        let done = self.memos()?;
        Ok(Reading {
            done,
            last: Some(memo),
        })
    }

    // With one more line of the last memo.
    fn with_text(self, text: &[u8]) -> Result<Reading, LineFault>
        ensures { MatchResult result (λ reading. with_text self text.now ≡ Some reading)
            (λ fault. IsUnread fault (with_text self text.now) (text_flaw self.last)) }
    {
        let Reading { done, last } = self;
        let Some(memo) = last else {
            return Err(LineFault::BadForm(LineFlaw {
                column: 1,
                flaw: Flaw::NoHead,
            }));
        };
        Ok(Reading {
            done,
            last: Some(memo.longer(text)?),
        })
    }
}
