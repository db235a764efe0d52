// Categories of memos.
ghost use Rattle.std.specs.Prelude.{◌≡◌, ◌<◌, ◌≤◌, [], ◌⊎◌, Err, IfErr, IfOk, MatchResult, OnOk, length, position};
ghost use Rattle.std.specs.Str.{bytes_eq};
ghost use Rattle.memo_texts.specs.Databases.{category_at, labels_of, place_of, with_label};

use crate::fault::ImportFault;
use crate::label::Label;
use crate::memo::Memo;
use pdb_values::Category;
use std::alloc::{AllocError, Global};

/// How many labels a database can have, beside that of category 0.
pub const MOST_LABELS: usize = 15;

/// The labels of memos, each once, in the order in which they appear.
pub fn labels_of(alloc: Global, memos: &[Memo]) -> Result<Vec<Label>, ImportFault>
    ensures labels { IfOk result (λ labels. (labels.items ≡ labels_of memos.now)
        × (length labels.items ≤ 15)) }
    ensures fault { IfErr result (λ fault. (fault ≡ ImportFault.NoMemory)
        ⊎ ((fault ≡ ImportFault.TooManyCategories) × (15 < length (labels_of memos.now)))) }
{
    let mut labels = Vec::new(alloc);
    for memo in memos {
        push_label(alloc, &mut labels, memo.label())?;
        if labels.len() > MOST_LABELS {
            return Err(ImportFault::TooManyCategories);
        }
    }
    Ok(labels)
}

// Puts a label behind the others, where it is there and none of them.
fn push_label(alloc: Global, labels: &mut Vec<Label>, label: &[u8]) -> Result<(), AllocError>
    requires { length label.now ≤ 15 }
    ensures { OnOk result (labels.new.items ≡ with_label labels.old.items label.now) }
{
    if label.is_empty() || place_of(labels, label).is_some() {
        return Ok(());
    }
    labels.push(Label::new(alloc, label)?)?;
    Ok(())
}

// The place of a label.
fn place_of(labels: &[Label], label: &[u8]) -> Option<usize>
    ensures { result ≡ place_of labels.now label.now }
{
    labels.iter().position(|known| known.as_slice() == label)
}

/// The category of a label. It is category 0, the one without a name, where the label is none of these.
pub fn category_of(labels: &[Label], label: &[u8]) -> Category
    requires { length labels.now ≤ 15 }
    ensures { result ≡ category_at (place_of labels.now label.now) }
{
    let number = match place_of(labels, label) {
        Some(place) => place as u8 + 1,
        None => 0,
    };
    Category::new(number).unwrap()
}
