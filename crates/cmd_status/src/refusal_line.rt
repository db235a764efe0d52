// The line of a refusal.
ghost use Rattle.std.specs.Prelude.{◌≡◌, IfOk, string_bytes};
ghost use Rattle.cmd_status.specs.Lines.{bad_reply_line as line_of_bad_reply, refused_line as line_of_refused};
ghost use Rattle.cmd_status.specs.Lines.{bad_file_line as line_of_bad_file, end_word as word_of_end, export_line as line_of_export, form_word as word_of_form, folder_word as word_of_folder, number_line as line_of_number, record_line as line_of_record, refusal_line as line_of_refusal, same_line as line_of_same, rule_word as word_of_rule, surplus_word as word_of_surplus, users_line as line_of_users, word_line as line_of_word};

use crate::fault_lines::fault_lines;
use crate::flaw_line::flaw_line;
use crate::printed_name::push_name;
use crate::status::{FileSide, Status, Surplus};
use crate::usage::usage_lines;
use dlp_replies::ErrorCode;
use pdb_files::BadKind;
use pdb_values::DbName;
use run_words::ExportForm;
use std::alloc::{AllocError, Global};
use std::fmt::Write;
use trace_check::Rule;
use trace_text::End;

// The line of a refusal; none where standard output failed.
pub(crate) fn refusal_line(alloc: Global, refusal: &Status) -> Result<String, AllocError>
    ensures { IfOk result (λ line. string_bytes line ≡ line_of_refusal refusal.now) }
{
    match refusal {
        Status::Done => String::from_str(alloc, "ended\n"),
        Status::Usage => usage_lines(alloc),
        Status::BadWord {
            command,
            kind,
            word,
        } => fault_lines(alloc, *command, *kind, word.as_str()),
        Status::BadScript(line) => number_line(alloc, "bad script line ", u64::from(*line)),
        Status::TooLong => String::from_str(alloc, "source too long\n"),
        Status::BadFile {
            side,
            name,
            kind,
            place,
        } => bad_file_line(alloc, *side, name.as_str(), *kind, *place),
        Status::CannotExport { name, form } => export_line(alloc, name, *form),
        Status::BadRecord { index, place } => record_line(alloc, *index, *place),
        Status::BadText { line, flaw } => flaw_line(alloc, *line, *flaw),
        Status::Overfull(what) => word_line(alloc, "too many ", surplus_word(*what)),
        Status::BadTrace(line) => number_line(alloc, "bad trace line ", u64::from(*line)),
        Status::NotProper(rule) => word_line(alloc, "not proper ", rule_word(*rule)),
        Status::TooMany(end) => word_line(alloc, "too many databases ", end_word(*end)),
        Status::WrongSide(end) => word_line(alloc, "wrong side ", folder_word(*end)),
        Status::HandheldFolder => String::from_str(alloc, "handheld folder failed\n"),
        Status::DesktopFolder => String::from_str(alloc, "desktop folder failed\n"),
        Status::InUse(end) => word_line(alloc, end_word(*end), " folder in use"),
        Status::SourceRead => String::from_str(alloc, "source read failed\n"),
        Status::TraceWrite => String::from_str(alloc, "trace write failed\n"),
        Status::OutWrite => Ok(String::new(alloc)),
        Status::NoMemory => String::from_str(alloc, "no memory\n"),
        Status::LineDown(end) => word_line(alloc, "line down ", end_word(*end)),
        Status::Unplugged(number) => number_line(alloc, "unplugged ", *number),
        Status::Aborted(number) => number_line(alloc, "aborted ", *number),
        Status::Undetected(number) => number_line(alloc, "undetected ", *number),
        Status::OtherUser { handheld, desktop } => users_line(alloc, *handheld, *desktop),
        Status::TooManyUsers => String::from_str(alloc, "too many users\n"),
        Status::Limit(name) => limit_line(alloc, name),
        Status::NewHandheld(name) => new_handheld_line(alloc, name),
        Status::BadCategories(name) => bad_categories_line(alloc, name),
        Status::CannotInstall(name) => cannot_install_line(alloc, name),
        Status::NotBackupFolder => String::from_str(alloc, "not a backup folder\n"),
        Status::SameDatabase { first, second } => same_line(alloc, first.as_str(), second.as_str()),
        Status::StreamEnded => String::from_str(alloc, "stream ended\n"),
        Status::StreamAborted => String::from_str(alloc, "stream aborted\n"),
        Status::BadHello => String::from_str(alloc, "bad hello\n"),
        Status::PortFailed => String::from_str(alloc, "port failed\n"),
        Status::NoHandheld => String::from_str(alloc, "no handheld\n"),
        Status::LineSilent => String::from_str(alloc, "line silent\n"),
        Status::LineEndless => String::from_str(alloc, "line endless\n"),
        Status::PeerAborted => String::from_str(alloc, "handheld aborted\n"),
        Status::PeerBeganAnew => String::from_str(alloc, "handheld began anew\n"),
        Status::Refused { function, code } => refused_line(alloc, *function, *code),
        Status::BadReply(function) => bad_reply_line(alloc, *function),
    }
}

// The letter of a rule.
fn rule_word(rule: Rule) -> &'static str
    ensures { result.now ≡ word_of_rule rule }
{
    match rule {
        Rule::A => "a",
        Rule::B => "b",
        Rule::C => "c",
        Rule::D => "d",
        Rule::E => "e",
        Rule::F => "f",
        Rule::G => "g",
    }
}

// The word of an end of the line.
fn end_word(end: End) -> &'static str
    ensures { result.now ≡ word_of_end end }
{
    match end {
        End::Handheld => "handheld",
        End::Desktop => "desktop",
    }
}

// The word that stands for the folder of an end where a run is called.
fn folder_word(end: End) -> &'static str
    ensures { result.now ≡ word_of_folder end }
{
    match end {
        End::Handheld => "HANDHELD",
        End::Desktop => "DESKTOP",
    }
}

// A line of words and a number.
#[tactic(auto, unfolding(crate::specs::Lines::number_line))]
fn number_line(alloc: Global, words: &str, number: u64) -> Result<String, AllocError>
    ensures { IfOk result (λ line. string_bytes line ≡ line_of_number words.now number) }
{
    let mut line = String::from_str(alloc, words)?;
    write!(line, "{number}\n")?;
    Ok(line)
}

// A line of words and another word.
#[tactic(auto, unfolding(crate::specs::Lines::word_line))]
fn word_line(alloc: Global, words: &str, word: &str) -> Result<String, AllocError>
    ensures { IfOk result (λ line. string_bytes line ≡ line_of_word words.now word.now) }
{
    let mut line = String::from_str(alloc, words)?;
    line.push_str(word)?;
    line.push_str("\n")?;
    Ok(line)
}

// The line of two users.
#[tactic(auto, unfolding(crate::specs::Lines::users_line))]
fn users_line(alloc: Global, handheld: u32, desktop: u32) -> Result<String, AllocError>
    ensures { IfOk result (λ line. string_bytes line ≡ line_of_users handheld desktop) }
{
    let one = hex::encode(alloc, handheld.to_be_bytes())?;
    let two = hex::encode(alloc, desktop.to_be_bytes())?;
    let mut line = String::from_str(alloc, "other user ")?;
    line.push_str(one.as_str())?;
    line.push_str(" ")?;
    line.push_str(two.as_str())?;
    line.push_str("\n")?;
    Ok(line)
}

// The line of a request that the handheld refused.
#[tactic(auto, unfolding(crate::specs::Lines::refused_line))]
fn refused_line(alloc: Global, function: u8, code: ErrorCode) -> Result<String, AllocError>
    ensures { IfOk result (λ line. string_bytes line ≡ line_of_refused function code.0) }
{
    let function = hex::encode(alloc, [function])?;
    let mut line = String::from_str(alloc, "handheld refused ")?;
    line.push_str(function.as_str())?;
    let ErrorCode(number) = code;
    write!(line, " error {number}\n")?;
    Ok(line)
}

// The line of a reply that can't be read.
#[tactic(auto, unfolding(crate::specs::Lines::bad_reply_line))]
fn bad_reply_line(alloc: Global, function: u8) -> Result<String, AllocError>
    ensures { IfOk result (λ line. string_bytes line ≡ line_of_bad_reply function) }
{
    let function = hex::encode(alloc, [function])?;
    let mut line = String::from_str(alloc, "bad reply ")?;
    line.push_str(function.as_str())?;
    line.push_str("\n")?;
    Ok(line)
}

// The word of a form.
fn form_word(form: ExportForm) -> &'static str
    ensures { result.now ≡ word_of_form form }
{
    match form {
        ExportForm::Text => "txt",
        ExportForm::Cards => "vcf",
        ExportForm::Table => "csv",
        ExportForm::Calendar(_) => "ics",
    }
}

// The word of what a text has too many of.
fn surplus_word(what: Surplus) -> &'static str
    ensures { result.now ≡ word_of_surplus what }
{
    match what {
        Surplus::Categories => "categories",
        Surplus::Records => "records",
    }
}

// The line of a record that is out of its form.
#[tactic(auto, unfolding(crate::specs::Lines::record_line))]
fn record_line(alloc: Global, index: u64, place: u64) -> Result<String, AllocError>
    ensures { IfOk result (λ line. string_bytes line ≡ line_of_record index place) }
{
    let mut line = String::from_str(alloc, "bad record ")?;
    write!(line, "{index} {place}\n")?;
    Ok(line)
}

// The line of a database that has no such form.
#[tactic(auto, unfolding(crate::specs::Lines::export_line))]
fn export_line(alloc: Global, name: &DbName, form: ExportForm) -> Result<String, AllocError>
    ensures { IfOk result (λ line. string_bytes line ≡ line_of_export name.now form) }
{
    let mut line = String::from_str(alloc, "cannot export ")?;
    let stem = name.file_stem(alloc)?;
    line.push_str(stem.as_str())?;
    line.push_str(" as ")?;
    line.push_str(form_word(form))?;
    line.push_str("\n")?;
    Ok(line)
}

// The line of a database that would pass a limit.
fn limit_line(alloc: Global, name: &DbName) -> Result<String, AllocError>
    ensures { IfOk result (λ line. string_bytes line ≡ line_of_refusal (Status.Limit name.now)) }
{
    let stem = name.file_stem(alloc)?;
    word_line(alloc, "limit ", stem.as_str())
}

// The line of a database by which a new handheld would cost the desktop live rows.
fn new_handheld_line(alloc: Global, name: &DbName) -> Result<String, AllocError>
    ensures { IfOk result (λ line. string_bytes line
        ≡ line_of_refusal (Status.NewHandheld name.now)) }
{
    let stem = name.file_stem(alloc)?;
    word_line(alloc, "new handheld ", stem.as_str())
}

// The line of a database whose app block is not one of categories.
fn bad_categories_line(alloc: Global, name: &DbName) -> Result<String, AllocError>
    ensures { IfOk result (λ line. string_bytes line
        ≡ line_of_refusal (Status.BadCategories name.now)) }
{
    let stem = name.file_stem(alloc)?;
    word_line(alloc, "bad categories ", stem.as_str())
}

// The line of a read-only database that was to be installed.
fn cannot_install_line(alloc: Global, name: &DbName) -> Result<String, AllocError>
    ensures { IfOk result (λ line. string_bytes line
        ≡ line_of_refusal (Status.CannotInstall name.now)) }
{
    let stem = name.file_stem(alloc)?;
    word_line(alloc, "cannot install ", stem.as_str())
}

// The line of a bad file.
#[tactic(auto, unfolding(crate::specs::Lines::bad_file_line))]
fn bad_file_line(
    alloc: Global,
    side: FileSide,
    name: &str,
    kind: BadKind,
    place: u64,
) -> Result<String, AllocError>
    ensures { IfOk result (λ line. string_bytes line ≡ line_of_bad_file side name.now kind place) }
{
    let mut line = String::from_str(alloc, "bad file ")?;
    line.push_str(side.word())?;
    line.push_str(" ")?;
    push_name(&mut line, name)?;
    line.push_str(" ")?;
    line.push_str(kind.word())?;
    write!(line, " {place}\n")?;
    Ok(line)
}

// The line of two files with databases of one name.
#[tactic(auto, unfolding(crate::specs::Lines::same_line))]
fn same_line(alloc: Global, first: &str, second: &str) -> Result<String, AllocError>
    ensures { IfOk result (λ line. string_bytes line ≡ line_of_same first.now second.now) }
{
    let mut line = String::from_str(alloc, "same database ")?;
    push_name(&mut line, first)?;
    line.push_str(" and ")?;
    push_name(&mut line, second)?;
    line.push_str("\n")?;
    Ok(line)
}
