// Head lines.
ghost use Rattle.std.specs.Prelude.{◌≡◌, ◌<◌, ◌≤◌, [], IfErr, IfOk, MatchOption, MatchResult, None, Some, length};
ghost use Rattle.std.specs.Option.{option_copied};
ghost use Rattle.std.specs.Result.{result_ok};
ghost use Rattle.std.specs.Str.{bytes_eq};
ghost use Rattle.hex.specs.Hex.{decode_sized, encode_lower};
ghost use Rattle.memo_texts.specs.Flaws.{flaw_at, flaw_behind, head_flaw, head_rest_flaw};
ghost use Rattle.memo_texts.specs.Heads.{new_memo, head_of, head_rest, id_of, is_head, marked_label, number_of, tail_of, unmarked_label};

use crate::fault::{Flaw, LineFlaw};
use crate::label::Label;
use hex::FromHex;
use pdb_values::RecordId;

// The columns at which a space, the id and what stands behind the id begin, the latter behind `new` and behind digits.
const GAP: usize = 4;

const ID: usize = 5;

const BEHIND_NEW: usize = 8;

const BEHIND_ID: usize = 11;

/// What a head says.
#[derive(Clone, Copy)]
pub struct Head<'a> {
    /// The id of the record, 0 where it has none yet.
    pub id: RecordId,
    /// Whether the record is private.
    pub secret: bool,
    /// The label of its category, empty where it has none.
    pub label: &'a [u8],
}

/// Whether a line is a head: it begins with three dashes and no fourth.
pub fn is_head(line: &[u8]) -> bool
    ensures { result ≡ is_head line.now }
{
    line.starts_with(b"---") && !line.starts_with(b"----")
}

/// What a head says, where it has its form, or what is wrong with it.
#[tactic(auto, unfolding(crate::specs::Heads::head_of, crate::specs::Flaws::head_flaw))]
pub fn head_of(line: &[u8]) -> Result<Head<'_>, LineFlaw>
    ensures head { MatchResult result (λ head. head_of line.now
        ≡ Some (record { id = head.id; secret = head.secret; label = head.label.now; text = [] }))
        (λ _. head_of line.now ≡ None) }
    ensures flaw { IfErr result (λ flaw. flaw ≡ head_flaw line.now) }
    ensures label { IfOk result (λ head. length head.label.now ≤ 15) }
{
    if line.starts_with(b"--- ") {
        head_rest(&line[4..])
    } else {
        Err(bad_head(GAP))
    }
}

// What a head says behind its dashes.
fn head_rest(rest: &[u8]) -> Result<Head<'_>, LineFlaw>
    ensures head { MatchResult result (λ head. head_rest rest.now
        ≡ Some (record { id = head.id; secret = head.secret; label = head.label.now; text = [] }))
        (λ _. head_rest rest.now ≡ None) }
    ensures flaw { IfErr result (λ flaw. flaw ≡ head_rest_flaw rest.now) }
    ensures label { IfOk result (λ head. length head.label.now ≤ 15) }
{
    if rest.starts_with(b"new") {
        return new_memo(RecordId::new(0), BEHIND_NEW, &rest[3..]);
    }
    if rest.len() < 6 {
        return Err(bad_head(ID));
    }
    new_memo(id_of(&rest[..6]), BEHIND_ID, &rest[6..])
}

// A head with this id, and with these bytes from a column on.
fn new_memo(id: Option<RecordId>, column: usize, rest: &[u8]) -> Result<Head<'_>, LineFlaw>
    requires { column < 100 }
    ensures head { MatchResult result (λ head. new_memo id (tail_of rest.now)
        ≡ Some (record { id = head.id; secret = head.secret; label = head.label.now; text = [] }))
        (λ _. new_memo id (tail_of rest.now) ≡ None) }
    ensures flaw { IfErr result (λ flaw. flaw
        ≡ flaw_behind column rest.now id (tail_of rest.now)) }
    ensures label { IfOk result (λ head. length head.label.now ≤ 15) }
{
    let Some(id) = id else {
        return Err(bad_head(ID));
    };
    let Some((secret, label)) = tail_of(rest) else {
        return Err(bad_head(column));
    };
    if label.len() > Label::LIMIT {
        return Err(LineFlaw {
            column: column + rest.len().saturating_sub(label.len()) + Label::LIMIT,
            flaw: Flaw::LongLabel,
        });
    }
    Ok(Head { id, secret, label })
}

// What is wrong with a head that goes on as none at a column.
fn bad_head(column: usize) -> LineFlaw
    ensures { result ≡ flaw_at column Flaw.BadHead }
{
    LineFlaw {
        column,
        flaw: Flaw::BadHead,
    }
}

// The id in six lower-case hexadecimal digits.
fn id_of(digits: &[u8]) -> Option<RecordId>
    ensures { result ≡ id_of digits.now }
{
    let bytes = id_bytes(digits)?;
    if is_written(digits, bytes) {
        RecordId::new(number_of(bytes))
    } else {
        None
    }
}

// The three bytes that six hexadecimal digits are read as.
fn id_bytes(digits: &[u8]) -> Option<[u8; 3]>
    ensures { result ≡ result_ok (decode_sized digits.now 3) }
{
    <[u8; 3] as FromHex>::from_hex(digits).ok()
}

// Whether bytes are written in these digits.
fn is_written(digits: &[u8], bytes: [u8; 3]) -> bool
    ensures { result ≡ bytes_eq (encode_lower bytes) digits.now }
{
    let mut again = [0; 6];
    hex::encode_to_slice(bytes, &mut again).is_ok() && again.as_slice() == digits
}

// The number of three bytes, the high one first.
fn number_of(bytes: [u8; 3]) -> u32
    ensures number { result ≡ number_of bytes }
    ensures bound { result ≤ 16777215 }
{
    u32::from(bytes[0]) * 65_536 + u32::from(bytes[1]) * 256 + u32::from(bytes[2])
}

// Whether a record is private, and its label: what stands behind the id.
fn tail_of(rest: &[u8]) -> Option<(bool, &[u8])>
    ensures { MatchOption result (tail_of rest.now ≡ None)
        (λ tail. tail_of rest.now ≡ Some (tail.0, tail.1.now)) }
{
    if rest.starts_with(b" private") {
        Some((true, marked_label(&rest[8..])?))
    } else {
        Some((false, unmarked_label(rest)?))
    }
}

// The label behind the mark of a private record.
fn marked_label(rest: &[u8]) -> Option<&[u8]>
    ensures { option_copied result ≡ marked_label rest.now }
{
    if rest.is_empty() {
        Some(&[])
    } else if rest.starts_with(b" ") && rest.len() > 1 {
        Some(&rest[1..])
    } else {
        None
    }
}

// The label without the mark. One that could be taken for it has a second space in front.
fn unmarked_label(rest: &[u8]) -> Option<&[u8]>
    ensures { option_copied result ≡ unmarked_label rest.now }
{
    if !rest.starts_with(b"  ") {
        return marked_label(rest);
    }
    let label = &rest[2..];
    if label.starts_with(b" ") || label.starts_with(b"private") {
        Some(label)
    } else {
        None
    }
}
