// The functions of the protocol.
ghost use Rattle.std.specs.Prelude.{◌≡◌};
ghost use Rattle.dlp_args.specs.Functions.{function_of, number_of};

/// What a request asks for, one byte on the wire. ReadSysInfo, ReadRecord and ReadResource have two
/// forms of request each.
#[derive(Clone, Copy)]
pub enum Function {
    ReadUserInfo,
    WriteUserInfo,
    ReadSysInfo,
    ReadDbList,
    OpenDb,
    CreateDb,
    CloseDb,
    DeleteDb,
    ReadAppBlock,
    WriteAppBlock,
    ReadSortBlock,
    WriteSortBlock,
    ReadNextModifiedRec,
    ReadRecord,
    WriteRecord,
    DeleteRecord,
    ReadResource,
    WriteResource,
    DeleteResource,
    CleanUpDatabase,
    ResetSyncFlags,
    AddSyncLogEntry,
    ReadOpenDbInfo,
    MoveCategory,
    OpenConduit,
    EndOfSync,
    ResetRecordIndex,
    ReadRecordIdList,
}

impl Function {
    /// The function of a byte, or None where no function has it.
    #[tactic(auto, unfolding(crate::specs::Functions::function_of))]
    pub fn of(byte: u8) -> Option<Function>
        ensures { result ≡ function_of byte }
    {
        match byte {
            0x10 => Some(Function::ReadUserInfo),
            0x11 => Some(Function::WriteUserInfo),
            0x12 => Some(Function::ReadSysInfo),
            0x16 => Some(Function::ReadDbList),
            0x17 => Some(Function::OpenDb),
            0x18 => Some(Function::CreateDb),
            0x19 => Some(Function::CloseDb),
            0x1A => Some(Function::DeleteDb),
            0x1B => Some(Function::ReadAppBlock),
            0x1C => Some(Function::WriteAppBlock),
            0x1D => Some(Function::ReadSortBlock),
            0x1E => Some(Function::WriteSortBlock),
            0x1F => Some(Function::ReadNextModifiedRec),
            0x20 => Some(Function::ReadRecord),
            0x21 => Some(Function::WriteRecord),
            0x22 => Some(Function::DeleteRecord),
            0x23 => Some(Function::ReadResource),
            0x24 => Some(Function::WriteResource),
            0x25 => Some(Function::DeleteResource),
            0x26 => Some(Function::CleanUpDatabase),
            0x27 => Some(Function::ResetSyncFlags),
            0x2A => Some(Function::AddSyncLogEntry),
            0x2B => Some(Function::ReadOpenDbInfo),
            0x2C => Some(Function::MoveCategory),
            0x2E => Some(Function::OpenConduit),
            0x2F => Some(Function::EndOfSync),
            0x30 => Some(Function::ResetRecordIndex),
            0x31 => Some(Function::ReadRecordIdList),
            _ => None,
        }
    }

    /// The byte of the function.
    pub fn number(self) -> u8
        ensures { result ≡ number_of self }
    {
        match self {
            Function::ReadUserInfo => 0x10,
            Function::WriteUserInfo => 0x11,
            Function::ReadSysInfo => 0x12,
            Function::ReadDbList => 0x16,
            Function::OpenDb => 0x17,
            Function::CreateDb => 0x18,
            Function::CloseDb => 0x19,
            Function::DeleteDb => 0x1A,
            Function::ReadAppBlock => 0x1B,
            Function::WriteAppBlock => 0x1C,
            Function::ReadSortBlock => 0x1D,
            Function::WriteSortBlock => 0x1E,
            Function::ReadNextModifiedRec => 0x1F,
            Function::ReadRecord => 0x20,
            Function::WriteRecord => 0x21,
            Function::DeleteRecord => 0x22,
            Function::ReadResource => 0x23,
            Function::WriteResource => 0x24,
            Function::DeleteResource => 0x25,
            Function::CleanUpDatabase => 0x26,
            Function::ResetSyncFlags => 0x27,
            Function::AddSyncLogEntry => 0x2A,
            Function::ReadOpenDbInfo => 0x2B,
            Function::MoveCategory => 0x2C,
            Function::OpenConduit => 0x2E,
            Function::EndOfSync => 0x2F,
            Function::ResetRecordIndex => 0x30,
            Function::ReadRecordIdList => 0x31,
        }
    }
}
