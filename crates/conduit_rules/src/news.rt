// New records of the desktop, and their pairing with equal new records of the handheld.
ghost use Rattle.std.specs.Prelude.{◌≡◌, ◌==◌, not, position, IfOk};
ghost use Rattle.conduit_rules.specs.Contents.{count_of, same_content};
ghost use Rattle.conduit_rules.specs.News.{unpaired, without_first};

use crate::buckets::{buckets_of, take_equal};
use crate::holding::is_same;
use pdb_values::Content;
use std::alloc::{AllocError, Global};

// The contents that find no partner among these: the first ones take them.
pub fn leave_unpaired(
    alloc: Global,
    partners: &[Content],
    offers: &[Content],
) -> Result<Vec<Content>, AllocError>
    ensures { IfOk result (λ adds. adds.items
        ≡ unpaired (λ c. count_of c partners.now) offers.now) }
{
    let mut free = buckets_of(alloc, partners)?;
    let mut adds = Vec::new(alloc);
    for offer in offers {
        if !take_equal(&mut free, offer) {
            adds.push(offer.copy(alloc)?)?;
        }
    }
    Ok(adds)
}

// Takes the first partner that is equal to the content, where there is one.
pub fn take_partner(free: &mut Vec<Content>, content: &Content) -> bool
    ensures taken { result ≡ not (count_of content.now free.old.items == 0) }
    ensures left { free.new.items ≡ without_first content.now free.old.items }
{
    match find_equal(free, content) {
        Some(place) => {
            free.remove(place);
            true
        }
        None => false,
    }
}

// The place of the first content that is equal to this one.
fn find_equal(contents: &[Content], content: &Content) -> Option<usize>
    ensures { result ≡ position (λ x. same_content x content.now) contents.now }
{
    contents.iter().position(|other| is_same(other, content))
}
