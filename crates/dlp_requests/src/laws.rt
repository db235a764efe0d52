// What holds of the texts of requests.
ghost use Rattle.std.specs.Prelude.{◌≡◌, List, ℕ, Ok};
ghost use Rattle.dlp_args.specs.Fields.{FieldsFit};
ghost use Rattle.dlp_requests.specs.Forms.{kinds_of};
ghost use Rattle.dlp_requests.specs.RequestReading.{request_at};
ghost use Rattle.dlp_requests.specs.RequestTexts.{AreShort, IsRequest, RequestText, request_text};
ghost use Rattle.dlp_requests.specs.RequestValues.{RequestValue};

/// The law of writing and reading: what is written of a request is one of its texts, and is read as this request.
pub fn request_round_trip()
    ensures text { (value : RequestValue) → IsRequest value
        → RequestText value (request_text value) }
    ensures again { (value : RequestValue) → IsRequest value → request_at (request_text value)
        ≡ Ok value }
{}

/// A request fits into a message where its fields keep the bounds of its layout and its text is at most 65,500 bytes.
pub fn short_requests_fit()
    ensures { (value : RequestValue) → FieldsFit (kinds_of value.form) value.fields
        → AreShort (kinds_of value.form) value.fields → IsRequest value }
{}
