// The program where its words ask for an import in the categories of another file.
ghost use Rattle.std.specs.Prelude.{◌≡◌, drop, map, string_bytes};
ghost use Rattle.std.specs.Process.{exit_status};
ghost use Rattle.cmd_status.specs.Told.{sink_told, source_told};
ghost use Rattle.hotsync_looks.specs.LikingSystems.{AreFilesUntold, IsSystemLiking};
ghost use Rattle.run_words.specs.Likes.{begins_like, liking_of};

use crate::liked::import_like;
use cmd_status::StderrSink;
use hs_folders::{FileSource, Sink, Source, StdoutSink};
use run_words::is_liking;
use std::alloc::Global;
use std::fs::File;
use std::process::ExitCode;
use std::rt::Files;

/// Whether the words behind the program's name ask for an import in the categories of another file, and not for help.
pub fn asks_liking(args: &[String]) -> bool
    ensures { result ≡ begins_like (map string_bytes (drop 1 args.now)) }
{
    is_liking(words_of(args))
}

// The words behind the program's name.
fn words_of(args: &[String]) -> &[String]
    ensures { result.now ≡ drop 1 args.now }
{
    args.get(1..).unwrap_or(&[])
}

/// Has the import that these words ask for, the program's name first, over the files, the standard output and the standard
/// error of the system.
pub fn import_on_system<R: Files<File = File> + Print + Eprint + AllocGlobal>(
    rt: &R,
    args: &[String],
) -> ExitCode
    ensures { IsSystemLiking (liking_of (map string_bytes (drop 1 args.now)))
        (exit_status result) }
{
    let code = import_untold(
        rt.alloc(),
        words_of(args),
        &mut FileSource::new(rt),
        &mut FileSource::new(rt),
        &mut StdoutSink::new(rt),
        &mut StderrSink::new(rt),
    );
    ExitCode::from(code)
}

// The call over objects that tell nothing, and the exit status of the program.
fn import_untold<S: Source, L: Source, O: Sink, E: Sink>(
    alloc: Global,
    words: &[String],
    source: &mut S,
    like: &mut L,
    out: &mut O,
    err: &mut E,
) -> u8
    requires { AreFilesUntold (source_told S.Source source.old) (source_told L.Source like.old)
        (sink_told O.Sink out.old) }
    ensures { IsSystemLiking (liking_of (map string_bytes words.now)) result }
{
    import_like(alloc, words, source, like, out, err).code()
}
