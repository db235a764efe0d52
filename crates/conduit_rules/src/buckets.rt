// Contents in buckets, by what their bytes make: equal contents stand in one.
ghost use Rattle.std.specs.Prelude.{◌≡◌, ◌<◌, ◌==◌, not, [], IfOk, length, map, replicate};
ghost use Rattle.pdb_values.specs.Contents.{ContentValue};
ghost use Rattle.conduit_rules.specs.Buckets.{spread_of, bucket_of, free_in};
ghost use Rattle.conduit_rules.specs.Contents.{count_of};
ghost use Rattle.conduit_rules.specs.News.{less_one};

use crate::news::take_partner;
use pdb_values::Content;
use std::alloc::{AllocError, Global};

// Copies of these contents, in as many buckets as they are.
pub fn buckets_of(alloc: Global, contents: &[Content]) -> Result<Vec<Vec<Content>>, AllocError>
    ensures some { IfOk result (λ buckets. 0 < length buckets.items) }
    ensures counts { IfOk result (λ buckets. (c : ContentValue)
        → free_in (map (λ bucket. bucket.items) buckets.items) c ≡ count_of c contents.now) }
{
    let count = contents.len().max(1);
    let mut buckets = empty_buckets(alloc, count)?;
    for content in contents {
        let place = place_of(content, count);
        buckets[place].push(content.copy(alloc)?)?;
    }
    Ok(buckets)
}

// Takes the first of the contents that is equal to this one, where there is one.
pub fn take_equal(buckets: &mut Vec<Vec<Content>>, content: &Content) -> bool
    requires { 0 < length buckets.old.items }
    ensures some { 0 < length buckets.new.items }
    ensures taken { result
        ≡ not (free_in (map (λ bucket. bucket.items) buckets.old.items) content.now == 0) }
    ensures left { (c : ContentValue) → free_in (map (λ bucket. bucket.items) buckets.new.items) c
        ≡ less_one (free_in (map (λ bucket. bucket.items) buckets.old.items)) content.now c }
{
    let place = place_of(content, buckets.len());
    take_partner(&mut buckets[place], content)
}

fn empty_buckets(alloc: Global, count: usize) -> Result<Vec<Vec<Content>>, AllocError>
    ensures { IfOk result (λ buckets. map (λ bucket. bucket.items) buckets.items
        ≡ replicate count []) }
{
    let mut buckets = Vec::new(alloc);
    for _ in 0..count {
        buckets.push(Vec::new(alloc))?;
    }
    Ok(buckets)
}

// The bucket of a content.
fn place_of(content: &Content, count: usize) -> usize
    requires { 0 < count }
    ensures { result ≡ bucket_of count content.now }
{
    let spread = spread_of(content.bytes());
    (spread % count as u64) as usize
}

fn spread_of(bytes: &[u8]) -> u64
    ensures { result ≡ spread_of bytes.now }
{
    let mut spread = 0;
    for byte in bytes {
        spread = (spread * 31 + u64::from(*byte)) % 4_294_967_291;
    }
    spread
}
