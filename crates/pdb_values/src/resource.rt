// Resources.
use crate::bytes::Bytes;
use crate::four_cc::FourCc;

/// One resource of a resource database.
#[derive(Drop)]
pub struct Resource {
    /// What the resource is, as `code` or `tFRM`.
    pub kind: FourCc,
    /// Its number among those of its type.
    pub id: u16,
    /// What it holds.
    pub bytes: Bytes,
}
