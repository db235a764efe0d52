// Ids of records, lent from a slice or from the bytes of a reply.
ghost use Rattle.std.specs.Prelude.{◌≡◌, ◌==◌, ◌+◌, ◌≤◌, length, slice_get, None, IfSome};
ghost use Rattle.std.specs.List.{AllByRecursion};
ghost use Rattle.dlp_replies.specs.Checks.{first_bad};
ghost use Rattle.dlp_replies.specs.IdLists.{IsId, ids_checks, words};

use dlp_args::take_u32;
use pdb_values::RecordId;
use std::marker::Model;

/// Ids of records, in order.
#[derive(Drop)]
pub struct Ids<'a> {
    lent: LentIds<'a>,
}

// Where they lie: in a slice, or in each four bytes.
#[derive(Clone, Copy)]
enum LentIds<'a> {
    Items(&'a [RecordId]),
    Bytes(&'a [u8]),
}

impl<'a> Model for Ids<'a> {
    ghost use Rattle.std.specs.Prelude.{ℕ, List};

    ghost Value = { List ℕ };

    ghost use Rattle.dlp_replies.specs.Lent.{lent_ids, AreIds};

    ghost view = { λ ids. lent_ids ids.lent };

    ghost invariant = { λ ids. AreIds ids.lent };
}

impl<'a> Ids<'a> {
    /// The ids of a slice, at most 16,000.
    pub fn of(items: &'a [RecordId]) -> Ids<'a>
        requires { length items.now ≤ 16000 }
        ensures { result ≡ items.now }
    {
        Ids {
            lent: LentIds::Items(items),
        }
    }

    // The ids of each four bytes.
    #[tactic(auto, using(crate::proofs::IdLaws::are_ids))]
    pub(crate) fn of_bytes(bytes: &'a [u8]) -> Ids<'a>
        requires { first_bad (ids_checks 2 (words bytes.now)) ≡ None }
        ensures { result ≡ words bytes.now }
    {
        Ids {
            lent: LentIds::Bytes(bytes),
        }
    }

    /// The number of ids.
    pub fn len(&self) -> usize
        ensures { result ≡ length self.now }
    {
        match self.lent {
            LentIds::Items(items) => items.len(),
            LentIds::Bytes(bytes) => count_in(bytes),
        }
    }

    /// Whether there is none.
    pub fn is_empty(&self) -> bool
        ensures { result ≡ (length self.now == 0) }
    {
        self.len() == 0
    }

    /// The id at a place, or None past the end. It takes no memory.
    pub fn get(&self, place: usize) -> Option<RecordId>
        ensures { result ≡ slice_get self.now place }
    {
        match self.lent {
            LentIds::Items(items) => {
                let id = items.get(place)?;
                Some(*id)
            }
            LentIds::Bytes(bytes) => id_in(bytes, place),
        }
    }
}

// How many times there are four bytes.
#[tactic(auto, using(crate::proofs::IdLaws::words_len))]
fn count_in(bytes: &[u8]) -> usize
    ensures { result ≡ length (words bytes.now) }
{
    bytes.len() / 4
}

// The id in the four bytes at a place.
#[tactic(auto, using(crate::proofs::IdLaws::word_past, crate::proofs::IdLaws::word_none))]
fn id_in(bytes: &[u8], place: usize) -> Option<RecordId>
    requires { AllByRecursion IsId (words bytes.now) }
    ensures { result ≡ slice_get (words bytes.now) place }
{
    if place >= bytes.len() / 4 {
        return None;
    }
    let (_, rest) = bytes.split_at(4 * place);
    match take_u32(rest) {
        Some((number, _)) => RecordId::new(number),
        None => None,
    }
}

// The place of the first number that is no id, where the first one stands at the place 2.
pub(crate) fn first_bad_id(bytes: &[u8]) -> Option<usize>
    ensures bad { result ≡ first_bad (ids_checks 2 (words bytes.now)) }
    ensures bound { IfSome result (λ bad. bad ≤ length bytes.now + 2) }
{
    let mut place = 2;
    let mut rest = bytes;
    for _ in 0..bytes.len() / 4 {
        let (number, after) = take_u32(rest)?;
        if number > RecordId::GREATEST {
            return Some(place);
        }
        place += 4;
        rest = after;
    }
    None
}
