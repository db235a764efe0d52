// Requests, lent from a message.
use pdb_values::FourCc;

/// A request. Its texts and data are lent from the message that it was read from. Texts stand without their zero; a size
/// that the data has is no field; a byte that no one looks at is none either, and is written 0.
#[derive(Clone, Copy)]
pub enum Request<'a> {
    /// What the handheld knows of its user.
    ReadUserInfo,
    /// Sets what the bits say of the user. The name is `None` where no byte follows its length.
    WriteUserInfo {
        user: u32,
        viewer: u32,
        pc: u32,
        date: [u8; 8],
        bits: u8,
        name_len: u8,
        name: Option<&'a [u8]>,
    },
    /// What the handheld is.
    ReadSysInfo,
    /// The same, with the protocol's version that the desktop speaks.
    ReadSysInfoFor {
        major: u16,
        minor: u16,
    },
    /// The databases from an index on.
    ReadDbList {
        flags: u8,
        card: u8,
        start: u16,
    },
    /// Opens a database.
    OpenDb {
        card: u8,
        mode: u8,
        name: &'a [u8],
    },
    /// Makes a database and opens it.
    CreateDb {
        creator: FourCc,
        kind: FourCc,
        card: u8,
        flags: u16,
        version: u16,
        name: &'a [u8],
    },
    /// Closes a handle.
    CloseDb {
        handle: u8,
    },
    /// Takes a database away.
    DeleteDb {
        card: u8,
        name: &'a [u8],
    },
    /// At most so many bytes of the app block, from an offset on.
    ReadAppBlock {
        handle: u8,
        offset: u16,
        length: u16,
    },
    /// At most so many bytes of the sort block, from an offset on.
    ReadSortBlock {
        handle: u8,
        offset: u16,
        length: u16,
    },
    /// Replaces the app block; no byte takes it away.
    WriteAppBlock {
        handle: u8,
        bytes: &'a [u8],
    },
    /// Replaces the sort block; no byte takes it away.
    WriteSortBlock {
        handle: u8,
        bytes: &'a [u8],
    },
    /// The next changed record.
    ReadNextModifiedRec {
        handle: u8,
    },
    /// At most so many bytes of the record of an id, from an offset on.
    ReadRecordById {
        handle: u8,
        id: u32,
        offset: u16,
        length: u16,
    },
    /// At most so many bytes of the record at an index, from an offset on.
    ReadRecordByIndex {
        handle: u8,
        index: u16,
        offset: u16,
        length: u16,
    },
    /// Adds or replaces a record of at most 65,500 bytes.
    WriteRecord {
        handle: u8,
        flags: u8,
        id: u32,
        attributes: u8,
        category: u8,
        bytes: &'a [u8],
    },
    /// Takes a record away, or by its flags a category or all.
    DeleteRecord {
        handle: u8,
        flags: u8,
        id: u32,
    },
    /// At most so many bytes of the resource at an index, from an offset on.
    ReadResourceByIndex {
        handle: u8,
        index: u16,
        offset: u16,
        length: u16,
    },
    /// At most so many bytes of the resource of a type and id, from an offset on.
    ReadResourceByType {
        handle: u8,
        kind: FourCc,
        id: u16,
        offset: u16,
        length: u16,
    },
    /// Adds or replaces a resource of at most 65,500 bytes.
    WriteResource {
        handle: u8,
        kind: FourCc,
        id: u16,
        bytes: &'a [u8],
    },
    /// Takes a resource away, or by its flags all.
    DeleteResource {
        handle: u8,
        flags: u8,
        kind: FourCc,
        id: u16,
    },
    /// Takes all records with the delete bit away.
    CleanUpDatabase {
        handle: u8,
    },
    /// Makes all records clean.
    ResetSyncFlags {
        handle: u8,
    },
    /// Begins the search for changed records anew.
    ResetRecordIndex {
        handle: u8,
    },
    /// A line for the log.
    AddSyncLogEntry {
        text: &'a [u8],
    },
    /// The number of records or resources.
    ReadOpenDbInfo {
        handle: u8,
    },
    /// Moves all records of a category to another one.
    MoveCategory {
        handle: u8,
        from: u8,
        to: u8,
    },
    /// Says that the conduits begin.
    OpenConduit,
    /// Ends the session.
    EndOfSync {
        status: u16,
    },
    /// At most so many ids of records, from an index on.
    ReadRecordIdList {
        handle: u8,
        flags: u8,
        start: u16,
        maximum: u16,
    },
}
