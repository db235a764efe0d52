// The database of a text of memos, in the categories of another file.
ghost use Rattle.std.specs.Prelude.{◌≡◌, ◌⊎◌, ◌≤◌, IfErr, IfOk, IsErrOf, None, OnOk, false, map, string_bytes};
ghost use Rattle.hs_folders.specs.Causes.{Rose};
ghost use Rattle.pdb_values.specs.Heads.{holds_resources};
ghost use Rattle.cmd_status.specs.Opening.{Opens, OpensAtMost};
ghost use Rattle.cmd_status.specs.Told.{sink_told, source_told};
ghost use Rattle.hotsync_looks.specs.JointFaults as faults;
ghost use Rattle.hotsync_looks.specs.Likings as likings;
ghost use Rattle.hotsync_looks.specs.Likings.{IsLikedFile, IsLikedIn, IsLiking, IsLikingCall, RefusesLiking, SaysUnlike};
ghost use Rattle.hotsync_looks.specs.Misuses.{TellsFault};
ghost use Rattle.run_words.specs.Helps.{command_named as named_by_first};
ghost use Rattle.run_words.specs.Likes.{liking_of};
ghost use Rattle.run_words.specs.Views.{like_view};

use crate::bad_file::fault_status;
use crate::imported::imported_database;
use crate::joint_fault::word_at_fault;
use crate::misuse::print_misuse;
use category_tables::{LikeFault, file_like};
use cmd_status::{FileSide, Status, Surplus, print_refusal, print_text, read_source};
use hs_folders::{Sink, Source};
use pdb_files::{read_database, write_database};
use pdb_values::{Database, DbName};
use run_clap::{WordsFault, read_liking};
use run_words::{LikeWords, command_named};
use std::alloc::Global;

/// Reads a text and another file, as the words ask for, and prints the file of the database that the memos of the text make, in
/// the categories of the other file, on `out`, or why there is none on `err`.
///
/// `words` are those after the program's name, `import` first.
pub fn import_like<S: Source, L: Source, O: Sink, E: Sink>(
    alloc: Global,
    words: &[String],
    source: &mut S,
    like: &mut L,
    out: &mut O,
    err: &mut E,
) -> Status
    ensures call { IsLikingCall (liking_of (map string_bytes words.now))
        (source_told S.Source source.old) (source_told S.Source source.new)
        (source_told L.Source like.old) (source_told L.Source like.new)
        (sink_told O.Sink out.old) (sink_told O.Sink out.new)
        (sink_told E.Sink err.old) (sink_told E.Sink err.new) result }

    // Words out of the form touch neither file, and the status names the word at fault.
    ensures untouched { liking_of (map string_bytes words.now) ≡ None
        → (source.new ≡ source.old) × (like.new ≡ like.old) }
    ensures fault { liking_of (map string_bytes words.now) ≡ None
        → TellsFault (named_by_first (map string_bytes words.now))
        (faults.word_at_fault None (map string_bytes words.now)) result }
{
    match read_liking(alloc, words) {
        Ok(words) => import_file(alloc, words, source, like, out, err),
        Err(WordsFault::Usage) => print_misuse(
            alloc,
            command_named(words),
            word_at_fault(None, words),
            err,
        ),
        Err(WordsFault::NoMemory) => print_refusal(alloc, Status::NoMemory, err),
    }
}

// The same of words in their form.
fn import_file<S: Source, L: Source, O: Sink, E: Sink>(
    alloc: Global,
    words: LikeWords<'_>,
    source: &mut S,
    like: &mut L,
    out: &mut O,
    err: &mut E,
) -> Status
    ensures { IsLiking (like_view words.entry)
        (source_told S.Source source.old) (source_told S.Source source.new)
        (source_told L.Source like.old) (source_told L.Source like.new)
        (sink_told O.Sink out.old) (sink_told O.Sink out.new)
        (sink_told E.Sink err.old) (sink_told E.Sink err.new) result }
{
    match like_into(alloc, words, source, like) {
        Ok(file) => print_text(&file, out),
        Err(refusal) => print_refusal(alloc, refusal, err),
    }
}

// The file of the database of both files.
fn like_into<S: Source, L: Source>(
    alloc: Global,
    words: LikeWords<'_>,
    source: &mut S,
    like: &mut L,
) -> Result<Vec<u8>, Status>
    ensures file { IfOk result (λ file. IsLikedIn (S.left source.old) (L.left like.old) file.items) }
    ensures refused { IfErr result (RefusesLiking words.entry.like.now (S.left source.old) (L.left like.old)) }
    ensures failed { IsErrOf result Status.SourceRead
        → Rose (S.faults source.old) (S.faults source.new) ⊎ Rose (L.faults like.old) (L.faults like.new) }

    ensures source_opened { OnOk result (Opens words.entry.file.now (S.paths source.old) (S.paths source.new)) }
    ensures like_opened { OnOk result (Opens words.entry.like.now (L.paths like.old) (L.paths like.new)) }
    ensures source_path { OpensAtMost words.entry.file.now (S.paths source.old) (S.paths source.new) }
    ensures like_path { OpensAtMost words.entry.like.now (L.paths like.old) (L.paths like.new) }
{
    let text = read_source(alloc, source, words.file)?;
    let database = imported_database(alloc, &text)?;
    let bytes = read_source(alloc, like, words.like)?;
    let file = liked_file(alloc, words.like, &database, &bytes)?;
    Ok(file)
}

// The file of a database in the categories of these bytes of the other file.
fn liked_file(
    alloc: Global,
    path: &str,
    database: &Database,
    bytes: &[u8],
) -> Result<Vec<u8>, Status>
    requires { holds_resources database.now.head.attributes ≡ false }
    ensures file { IfOk result (λ file. IsLikedFile database.now bytes.now file.items) }
    ensures refused { IfErr result (SaysUnlike path.now database.now bytes.now) }
{
    let other = match read_database(alloc, bytes) {
        Ok(other) => other,
        Err(fault) => return Err(fault_status(alloc, FileSide::Source, path, fault)),
    };
    let name = &other.head().name;
    let Some(block) = other.app() else {
        return Err(Status::BadCategories(name.copy()));
    };
    match file_like(alloc, database, block) {
        Ok(like) => Ok(write_database(alloc, &like)?),
        Err(fault) => Err(like_status(name, fault)),
    }
}

// What it makes of the call that the database of this name gives no categories.
fn like_status(name: &DbName, fault: LikeFault) -> Status
    ensures { result ≡ likings.like_status name.now fault }
{
    match fault {
        LikeFault::BadTable => Status::BadCategories(name.copy()),
        LikeFault::TooMany => Status::Overfull(Surplus::Categories),
        LikeFault::NoMemory => Status::NoMemory,
    }
}
