//! A database in the parts that C sees of it.

/// What stands for the length of a block that isn't there.
pub const ABSENT: u32 = u32::MAX;

/// What the header of a database's file says, and how long the name and the blocks are.
#[repr(C)]
#[derive(Clone, Copy)]
pub struct HsHead {
    /// The attribute bits: 1 for a database of resources.
    pub attributes: u32,
    /// The version of the application's own format.
    pub version: u32,
    /// When it was made, in seconds since 1904-01-01T00:00:00.
    pub created: u32,
    /// When it was changed last, likewise.
    pub modified: u32,
    /// When it was backed up last, likewise.
    pub backup: u32,
    /// The modification number.
    pub modnum: u32,
    /// The seed of record ids.
    pub seed: u32,
    /// The type, four characters, the first one in the highest byte.
    pub kind: u32,
    /// The creator, likewise.
    pub creator: u32,
    /// How many entries there are.
    pub entries: u32,
    /// How many bytes the name has.
    pub name: u32,
    /// How many bytes the app block has, or 4,294,967,295 where it isn't there.
    pub app: u32,
    /// How many bytes the sort block has, likewise.
    pub sort: u32,
}

/// What stands in front of the bytes of a record or a resource.
#[repr(C)]
#[derive(Clone, Copy)]
pub struct HsEntry {
    /// The type of a resource, four characters, the first one in the highest byte; 0 for a record.
    pub kind: u32,
    /// The id of a record, or the number of a resource.
    pub id: u32,
    /// The attributes of a record: 0x80 deleted, 0x40 dirty, 0x20 busy, 0x10 secret, and the category; 0 for a resource.
    pub attributes: u32,
    /// How many bytes it has.
    pub size: u32,
}
