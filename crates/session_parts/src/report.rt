// What is told of each database of a session.
use crate::skip::Skip;
use pdb_values::DbName;

/// What a session did with one database.
#[derive(Drop)]
pub struct DbReport {
    /// Its name.
    pub name: DbName,
    /// What was done.
    pub did: Did,
}

/// What was done with a database.
#[derive(Clone, Copy, PartialEq, Eq)]
pub enum Did {
    /// Both sides have the merge.
    Synced(Counts),
    /// Nothing, and why.
    Skipped(Skip),
    /// The handheld has it from a file, of so many entries.
    Installed(u32),
    /// Its file has it, of so many entries.
    BackedUp(u32),
    /// Both sides have one table of its categories.
    Filed(FiledCounts),
}

/// How a database was synchronised, in numbers of records.
#[derive(Clone, Copy, PartialEq, Eq)]
pub struct Counts {
    /// Whether only what changed was read.
    pub fast: bool,
    /// The records that the handheld sent.
    pub read: u32,
    /// The records of the handheld that got another content, or came back.
    pub replaced: u32,
    /// The records that the handheld got as new ones.
    pub added: u32,
    /// The live records that the handheld lost, one by one.
    pub purged: u32,
    /// The entries that the archive got.
    pub archived: u32,
    /// The records that both sides changed, each its own way, so that both contents stay.
    pub twice: u32,
    /// The desktop's rows now.
    pub rows: u32,
}

/// How the categories of a database were brought together, in numbers.
#[derive(Clone, Copy, PartialEq, Eq)]
pub struct FiledCounts {
    /// The categories that are used then.
    pub used: u32,
    /// The desktop's rows whose category has another number then.
    pub moved: u32,
}
