// The script of a run.
ghost use Rattle.std.specs.Prelude.{◌≡◌, ◌≤◌, IfErr, IfOk, IfSome, IsErrOf, None, OnOk, Some, length, option_copied};
ghost use Rattle.hs_folders.specs.Causes.{Rose};
ghost use Rattle.cmd_status.specs.Sources.{source_limit};
ghost use Rattle.cmd_status.specs.Opening.{Opens, OpensAtMost, OpensGiven, OpensGivenAtMost};
ghost use Rattle.call_parts.specs.Scripts.{IsScript, IsScriptRefusal, IsScripted, ScriptRefuses, ScriptShows};

use cmd_status::{Status, read_source};
use hs_folders::Source;
use line_script::{Script, ScriptFault, read_script};
use std::alloc::Global;

/// The script of a run: that of all bytes of the source where the words name one, and else no line.
pub fn script_of<S: Source>(
    alloc: Global,
    source: &mut S,
    path: Option<&str>,
) -> Result<Script, Status>
    ensures script { IfOk result (IsScripted (option_copied path.entry) (S.left source.old)) }
    ensures refused { IfErr result (ScriptRefuses (option_copied path.entry) (S.left source.old)) }
    ensures failed { IsErrOf result Status.SourceRead → Rose (S.faults source.old)
        (S.faults source.new) }
    ensures untouched { path.entry ≡ None → source.new ≡ source.old }

    ensures opened { OnOk result (OpensGiven (option_copied path.entry) (S.paths source.old)
        (S.paths source.new)) }
    ensures path { OpensGivenAtMost (option_copied path.entry) (S.paths source.old)
        (S.paths source.new) }
{
    match path {
        Some(path) => named_script(alloc, source, path),
        None => Ok(Script::empty(alloc)),
    }
}

// The script of all bytes of the source at this path.
fn named_script<S: Source>(alloc: Global, source: &mut S, path: &str) -> Result<Script, Status>
    ensures script { IfOk result (λ script. IfSome (S.left source.old)
        (λ bytes. IsScript bytes script)) }
    ensures shown { IfErr result (λ refusal. IfSome (S.left source.old) (ScriptShows refusal)) }
    ensures refusal { IfErr result IsScriptRefusal }
    ensures failed { IsErrOf result Status.SourceRead → Rose (S.faults source.old)
        (S.faults source.new) }

    ensures opened { OnOk result (Opens path.now (S.paths source.old) (S.paths source.new)) }
    ensures path { OpensAtMost path.now (S.paths source.old) (S.paths source.new) }
{
    let bytes = read_source(alloc, source, path)?;
    let script = script_in(alloc, &bytes)?;
    Ok(script)
}

// The script of these bytes.
fn script_in(alloc: Global, bytes: &[u8]) -> Result<Script, Status>
    requires { length bytes.now ≤ source_limit }
    ensures script { IfOk result (IsScript bytes.now) }
    ensures shown { IfErr result (λ refusal. ScriptShows refusal bytes.now) }
    ensures refusal { IfErr result IsScriptRefusal }
    ensures failed { ¬ IsErrOf result Status.SourceRead }
{
    match read_script(alloc, bytes) {
        Ok(script) => Ok(script),
        Err(ScriptFault::TooLong) => Err(Status::TooLong),
        Err(ScriptFault::BadLine(line)) => Err(Status::BadScript(line)),
        Err(ScriptFault::NoMemory) => Err(Status::NoMemory),
    }
}
