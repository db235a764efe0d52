// Writing requests.
ghost use Rattle.std.specs.Prelude.{◌≡◌};
ghost use Rattle.dlp_requests.specs.RequestTexts.{IsRequest, request_text};
ghost use Rattle.dlp_requests.specs.Views.{request_value};

use crate::request::Request;
use crate::{database, record, resource, session};
use dlp_args::Message;

/// Replaces the message by the request. Its fields keep the bounds of its layout, so that it fits. It takes no memory.
pub fn write_request(request: &Request<'_>, out: &mut Message)
    requires { IsRequest (request_value request.now) }
    ensures { out.new ≡ request_text (request_value request.now) }
{
    match *request {
        Request::ReadUserInfo
        | Request::WriteUserInfo { .. }
        | Request::ReadSysInfo
        | Request::ReadSysInfoFor { .. }
        | Request::AddSyncLogEntry { .. }
        | Request::OpenConduit
        | Request::EndOfSync { .. } => session::put_request(request, out),
        Request::ReadDbList { .. }
        | Request::OpenDb { .. }
        | Request::CreateDb { .. }
        | Request::CloseDb { .. }
        | Request::DeleteDb { .. }
        | Request::ReadAppBlock { .. }
        | Request::WriteAppBlock { .. }
        | Request::ReadSortBlock { .. }
        | Request::WriteSortBlock { .. }
        | Request::CleanUpDatabase { .. }
        | Request::ResetSyncFlags { .. }
        | Request::ReadOpenDbInfo { .. } => database::put_request(request, out),
        Request::ReadNextModifiedRec { .. }
        | Request::ReadRecordById { .. }
        | Request::ReadRecordByIndex { .. }
        | Request::WriteRecord { .. }
        | Request::DeleteRecord { .. }
        | Request::MoveCategory { .. }
        | Request::ResetRecordIndex { .. }
        | Request::ReadRecordIdList { .. } => record::put_request(request, out),
        Request::ReadResourceByIndex { .. }
        | Request::ReadResourceByType { .. }
        | Request::WriteResource { .. }
        | Request::DeleteResource { .. } => resource::put_request(request, out),
    }
}
