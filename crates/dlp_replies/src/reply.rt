// Replies, lent from a message.
use crate::entries::Entries;
use crate::error_code::ErrorCode;
use crate::ids::Ids;
use pdb_values::{Category, FourCc, PalmDate, RecordId};

/// A reply. Its texts and data are lent from the message that it was read from. Texts stand without their zero, and a size
/// that the data has is no field.
#[derive(Drop)]
pub enum Reply<'a> {
    /// The error of a function, which is not 0.
    Refused {
        function: u8,
        code: ErrorCode,
    },
    ReadUserInfo {
        user: u32,
        viewer: u32,
        pc: u32,
        good: PalmDate,
        last: PalmDate,
        name: &'a [u8],
        password: &'a [u8],
    },
    ReadSysInfo {
        /// The version of the ROM.
        rom: u32,
        locale: u32,
        /// The product's id, at most 255 bytes.
        product: &'a [u8],
    },
    ReadDbList {
        /// The index of the last entry.
        last: u16,
        /// 0x80 where further databases follow.
        flags: u8,
        entries: Entries<'a>,
    },
    OpenDb {
        handle: u8,
    },
    CreateDb {
        handle: u8,
    },
    ReadAppBlock {
        bytes: &'a [u8],
    },
    ReadSortBlock {
        bytes: &'a [u8],
    },
    ReadNextModifiedRec {
        /// The record's id.
        id: RecordId,
        index: u16,
        /// The size of the whole record.
        size: u16,
        attributes: u8,
        category: Category,
        /// The bytes that were asked for.
        bytes: &'a [u8],
    },
    ReadRecord {
        /// The record's id.
        id: RecordId,
        index: u16,
        /// The size of the whole record.
        size: u16,
        attributes: u8,
        category: Category,
        /// The bytes that were asked for.
        bytes: &'a [u8],
    },
    WriteRecord {
        id: RecordId,
    },
    ReadResource {
        kind: FourCc,
        id: u16,
        index: u16,
        /// The size of the whole resource.
        size: u16,
        /// The bytes that were asked for.
        bytes: &'a [u8],
    },
    ReadOpenDbInfo {
        count: u16,
    },
    ReadRecordIdList {
        ids: Ids<'a>,
    },
    WriteUserInfo,
    CloseDb,
    DeleteDb,
    WriteAppBlock,
    WriteSortBlock,
    DeleteRecord,
    WriteResource,
    DeleteResource,
    CleanUpDatabase,
    ResetSyncFlags,
    ResetRecordIndex,
    AddSyncLogEntry,
    MoveCategory,
    OpenConduit,
    EndOfSync,
}
