//! The sentences of the README's "What you can rely on", as laws over what the contract of `hotsync_run::hotsync` says of
//! a call, and what else holds of calls. Each function here does nothing: its contract is the law.
ghost use Rattle.std.specs.Prelude.{◌≡◌, ◌<◌, ℕ, List, [], ◌∷◌, None, Some, true};
ghost use Rattle.std.specs.List.{AllByRecursion};
ghost use Rattle.line_script.specs.Rules.{RuleValue};
ghost use Rattle.handheld_files.specs.Openings.{Stands};
ghost use Rattle.palm_device.specs.Devices.{Device};
ghost use Rattle.pdb_values.specs.Contents.{ContentValue};
ghost use Rattle.trace_check.specs.Judging.{IsProperTrace};
ghost use Rattle.run_words.specs.Commands.{Backup, DryRun, Emulate, Categories, Install, LookAt, Make, Restore};
ghost use Rattle.run_words.specs.declared.look.Look.{Look};
ghost use Rattle.run_words.specs.Runs.{Run};
ghost use Rattle.desk_store.specs.Desks.{StaysOpenable};
ghost use Rattle.session_plan.specs.Tasks.{Meeting};
ghost use Rattle.front_laws.specs.Answered.{IsAnsweredExchange};
ghost use Rattle.front_laws.specs.Lives.{IsUnarchived};
ghost use Rattle.front_laws.specs.Parts.{IsReadAnew, TakesNoPart};
ghost use Rattle.run_promises.specs.Again.{AllRan, AreOfOneKind, AreTold, EndsAsOne, IsRepeat};
ghost use Rattle.cmd_files.specs.Backups.{BackupLeft, backup_command};
ghost use Rattle.install_backup.specs.InstallActs.{install_mark, restore_mark};
ghost use Rattle.cmd_files.specs.Besides.{StandsBeside};
ghost use Rattle.run_promises.specs.Calls.{Call, IsAnsweredCall};
ghost use Rattle.hotsync_run.specs.Calls.{IsNothing};
ghost use Rattle.call_parts.specs.Causes.{HasBegun};
ghost use Rattle.run_promises.specs.Clean.{GoesThrough, HasNoLines};
ghost use Rattle.cmd_files.specs.Emulations.{SaysAll};
ghost use Rattle.run_promises.specs.Equal.{AreEqualBehind};
ghost use Rattle.run_promises.specs.FilingCalls.{IsSecondCall, StandsTogether};
ghost use Rattle.cmd_session.specs.Filings.{EndedFiling, StoppedFiling, categories_command};
ghost use Rattle.run_promises.specs.Headline.{ActsOnce, FairStaysUp, Headline, IsDoneUndisturbed, IsWhatItSays, LeavesTheMerge, TellsCause};
ghost use Rattle.run_promises.specs.RunCalls.{IsAnsweredRun, RunCall};
ghost use Rattle.run_promises.specs.Lives.{AllLetBe, BeginsAnew, BeginsLife, LiveCall, RanBetween, RunsBehind, Sides, StandForSides, held_of, is_there_still, was_there};
ghost use Rattle.cmd_files.specs.Installs.{EndedInstall, install_command};
ghost use Rattle.call_parts.specs.LineRuns.{exchanges_in, frames_in};
ghost use Rattle.hotsync_looks.specs.Looks.{IsLook};
ghost use Rattle.cmd_session.specs.Ends.{EndedSession};
ghost use Rattle.cmd_session.specs.Meetings.{Meets};
ghost use Rattle.cmd_status.specs.PrintedNames.{is_printable, printed_name};
ghost use Rattle.run_promises.specs.Promises.{BackupSession, EachCall, FilingSession, HandheldStays, IfCommitted, InstallSession, IsCalmRun, IsReadWhole, IsReadWholeOrSame, LeavesDesktop, PassesNoLimit, RestoreSession, RunsOverTheSame, filing_in};
ghost use Rattle.cmd_files.specs.Loads.{EndedLoad};
ghost use Rattle.cmd_files.specs.Restores.{restore_command};
ghost use Rattle.cmd_status.specs.declared.status.Status.TheVariants.{Done};
ghost use Rattle.cmd_session.specs.Runs.{run_command};
ghost use Rattle.call_parts.specs.Scripts.{IsScripted};
ghost use Rattle.call_parts.specs.SessionCalls.{SentNothing};
ghost use Rattle.call_parts.specs.Stays.{StaysAsItWas};
ghost use Rattle.call_parts.specs.Told.{CallTold, sides_of};
ghost use Rattle.call_parts.specs.Undisturbed.{AreGood, EndsWell};
ghost use Rattle.call_parts.specs.declared.report.SessionEnd.TheVariants.{Ended, NotStarted, Stopped};

/// What is promised of each run whose session began, on one page.
pub fn a_run_keeps_what_it_promises()
    ensures { (call : RunCall) → IsAnsweredRun call → HasBegun call.report.end
        → (rules : List RuleValue) × (meeting : Meeting) × Headline rules meeting call }
{}

/// What is sent acts at most once.
pub fn what_is_sent_acts_at_most_once()
    ensures { (call : RunCall) → IsAnsweredRun call → HasBegun call.report.end
        → (meeting : Meeting) × (reached : Device) × Meets call.run call.before meeting
        × Stands call.after.palm.contents reached.databases reached.user
        × ActsOnce meeting reached call }
{}

/// A line is what it says.
pub fn a_line_is_what_it_says()
    ensures { (call : RunCall) → IsAnsweredRun call → HasBegun call.report.end
        → (rules : List RuleValue) × IsScripted call.run.script call.before.source.left rules
        × IsWhatItSays rules call }
{}

/// The trace of a run is proper by nothing but itself: whatever the script did, `verify` calls what `--trace` wrote proper.
/// So is what goes over the line of a session between made folders.
pub fn a_runs_trace_is_proper()
    ensures run { (call : RunCall) → IsAnsweredRun call → HasBegun call.report.end
        → IsProperTrace (frames_in call.report) }
    ensures made { (call : Call) (seed count : ℕ) → IsAnsweredCall call
        → call.task ≡ Some (Make seed count) → HasBegun call.report.end
        → IsProperTrace (frames_in call.report) }
{}

/// A stop has the cause that is told.
pub fn a_stop_has_the_cause_that_is_told()
    ensures { (call : RunCall) → IsAnsweredRun call → HasBegun call.report.end
        → (meeting : Meeting) × Meets call.run call.before meeting × TellsCause meeting call }
{}

/// Where a line is fair, it does not go down.
pub fn where_a_line_is_fair_it_does_not_go_down()
    ensures { (call : RunCall) → IsAnsweredRun call → HasBegun call.report.end
        → (rules : List RuleValue) × IsScripted call.run.script call.before.source.left rules
        × FairStaysUp rules call }
{}

/// A run that nothing disturbs is done.
pub fn a_run_that_nothing_disturbs_is_done()
    ensures { (call : RunCall) → IsAnsweredRun call → IsDoneUndisturbed call }
{}

/// What a run leaves can be opened, however it ended: good folders stay good. So a run over what one left,
/// which nothing else disturbs, is done. And where no limit would be passed, the desktop's folder could be
/// opened at each moment.
pub fn what_a_run_leaves_can_be_opened()
    ensures after { (call : RunCall) → IsAnsweredRun call → AreGood call.before
        → AreGood call.after }
    ensures again { (call next : RunCall) → IsAnsweredRun call → AreGood call.before
        → IsAnsweredRun next → IsRepeat call next → IsCalmRun next
        → EndsWell next.status next.report }
    ensures moments { (call : RunCall) → IsAnsweredRun call → AreGood call.before
        → PassesNoLimit call → let desk = call.after.desk in
        StaysOpenable desk.contents call.before.desk.moments desk.moments }
{}

/// What is refused changes nothing: a run before its session, and words that are out of the form.
pub fn what_is_refused_changes_nothing()
    ensures run { (call : RunCall) → IsAnsweredRun call → call.report.end ≡ NotStarted
        → SentNothing (run_command call.run) call.before call.after call.status call.report }
    ensures words { (call : Call) → IsAnsweredCall call → call.task ≡ None
        → IsNothing call.out call.out_after call.err call.err_after call.status }
{}

/// An ended session leaves both sides at the merge; one that stopped leaves the desktop as it was, or merged.
pub fn an_ended_session_leaves_both_sides_at_the_merge()
    ensures { (call : RunCall) → IsAnsweredRun call → HasBegun call.report.end
        → (meeting : Meeting) × (reached : Device) × Meets call.run call.before meeting
        × Stands call.after.palm.contents reached.databases reached.user
        × LeavesTheMerge meeting reached call }
{}

/// An ended run leaves both sides equal: of each database that wasn't skipped and was shown whole, read
/// slow or honest, the handheld and the slot of its user hold the same records, none marked.
pub fn an_ended_run_leaves_both_sides_equal()
    ensures { (call : RunCall) → IsAnsweredRun call → call.report.end ≡ Ended
        → (meeting : Meeting) × Meets call.run call.before meeting
        × EndedSession meeting call.after.palm call.after.desk call.report
        × AreEqualBehind meeting call }
{}

/// Stopped and run again: any number of runs of one pair of folders, one behind another, whatever became of each but the last,
/// which ended, leave on both sides what one whole session would have left, up to the ids of new records.
pub fn stopped_runs_end_as_one()
    ensures { (call : RunCall) (later : List RunCall) → AllRan call later → EndsAsOne call later }
{}

/// A database that took no part in a run that ended is read whole by the next one over both folders as it left them, whatever the words
/// of both, and its gone rows count there. The handheld has a slot by the words of the next one, which ask for the same name where it has no
/// number.
pub fn what_took_no_part_is_read_whole_next()
    ensures { (call : RunCall) → IsAnsweredRun call → AreGood call.before → call.report.end ≡ Ended
        → (first : Meeting) × Meets call.run call.before first × ((next : RunCall)
        (second : Meeting) (name : List ℕ) → RunsBehind call next second
        → TakesNoPart first name → IsReadAnew second name) }
{}

/// A lifetime loses nothing: over any list of runs of one pair of folders, whatever their words and whatever became of each, with edits of
/// both sides between them that mark what they change on the handheld, a content of a database that was on a side before one of them, and
/// that no edit and no action of one side let go, is live on a side or archived behind the last. A handheld that has no number yet is asked
/// for by one name, or by none. A life begins where both sides never met, and anew behind each run that ended, for what is live there. Folders
/// that could be opened before a run stand for both sides behind it.
pub fn a_life_of_runs_loses_nothing()
    ensures life { (c : ContentValue) (name : List ℕ) (one : LiveCall) (later : List LiveCall)
        → BeginsLife c name one.before → AllLetBe c name one later
        → was_there c name one later ≡ true → is_there_still c name one later ≡ true }
    ensures first { (c : ContentValue) (name : List ℕ) (sides : Sides)
        → (held_of sides name).base ≡ [] → IsUnarchived c (held_of sides name)
        → BeginsLife c name sides }
    ensures again { (one : LiveCall) → RanBetween one → one.call.report.end ≡ Ended
        → (meeting : Meeting) × Meets one.call.run one.call.before meeting
        × BeginsAnew one meeting }
    ensures left { (call : RunCall) (before : Sides) → IsAnsweredRun call → AreGood call.before
        → StandForSides call.before before → (after : Sides) × StandForSides call.after after }
{}

/// A dry run changes nothing: at each moment both folders hold what they held.
pub fn a_dry_run_changes_nothing()
    ensures { EachCall DryRun (λ call run. StaysAsItWas call.before.palm call.after.palm
        × StaysAsItWas call.before.desk call.after.desk) }
{}

/// Status, report, trace and lines of a dry run are those of a run over folders that hold the same.
pub fn a_dry_run_is_a_run_over_the_same()
    ensures { EachCall DryRun RunsOverTheSame }
{}

/// Every file that is looked at is read, or refused by the first rule of its format that it breaks.
pub fn every_file_is_read_or_refused()
    ensures { (call : Call) (look : Look) (file : List ℕ) → IsAnsweredCall call
        → call.task ≡ Some (LookAt look file)
        → IsLook look file call.before.source call.after.source call.out call.out_after
        call.err call.err_after call.status }
{}

/// Folders that are told stand for one handheld and one desktop: whatever meets them meets the same.
pub fn folders_make_one_meeting()
    ensures { (run : Run) (before : CallTold) (meeting other : Meeting) → AreTold before
        → Meets run before meeting → Meets run before other → AreOfOneKind meeting other }
{}

/// A run without a script, or by one of no lines, as an empty file is: neither end says anything twice, and the line stops
/// nothing.
pub fn a_line_without_harm_repeats_nothing()
    ensures { (call : RunCall) → HasNoLines call.run.script call.before.source.left
        → IsAnsweredRun call → GoesThrough call.status call.report }
{}

/// The handheld of a run refuses no request: each reply in the report is no error, but error 5 where the
/// request's call has an answer of its own for it. So it is of a session between made folders.
pub fn a_run_is_never_refused()
    ensures run { (call : RunCall) → IsAnsweredRun call
        → AllByRecursion IsAnsweredExchange (exchanges_in call.report) }
    ensures made { (call : Call) (seed count : ℕ) → IsAnsweredCall call
        → call.task ≡ Some (Make seed count)
        → AllByRecursion IsAnsweredExchange (exchanges_in call.report) }
{}

/// An install that is refused before its session changes nothing. In its session neither end says anything twice, and no line stops
/// it. Once it ended, the handheld has the file's database in place of the one of its name, and all else as it was. However it stopped,
/// at each moment the handheld has its user and all other databases, and where there is room, of that one what it had, or nothing, or as
/// much of the file's as came.
pub fn an_install_keeps_what_it_promises()
    ensures refused { EachCall Install (λ call words. call.report.end ≡ NotStarted
        → SentNothing (install_command words) call.before call.after call.status call.report) }
    ensures through { EachCall Install (λ call words. HasBegun call.report.end
        → GoesThrough call.status call.report) }
    ensures ended { EachCall Install (λ call words. call.report.end ≡ Ended
        → (ran : InstallSession call words)
        × EndedInstall ran.device ran.database call.after.palm call.report) }
    ensures stopped { EachCall Install (λ call words. HasBegun call.report.end
        → (ran : InstallSession call words)
        × HandheldStays (StandsBeside (install_mark ran.database) ran.device (ran.database ∷ [])) call) }
{}

/// A backup that is refused before its session changes nothing. However it went, the handheld stands at each moment for what it
/// was, and the folder has the files of a first part of its databases, each as the handheld has it, over those that were there. Once
/// it ended, that is all of them.
pub fn a_backup_keeps_what_it_promises()
    ensures refused { EachCall Backup (λ call words. call.report.end ≡ NotStarted
        → SentNothing (backup_command words) call.before call.after call.status call.report) }
    ensures left { EachCall Backup (λ call words. HasBegun call.report.end
        → (ran : BackupSession call words)
        × BackupLeft ran.device (sides_of call.before) (sides_of call.after) call.report) }
{}

/// A restore that is refused before its session changes nothing, and however it goes nothing in its folder is changed. Once it ended,
/// the handheld has each database of the folder that is not read-only in place of the one of its name, and all else as it was. However
/// it stopped, the handheld has its user and all databases that are not installed, and at each moment those in front of one are.
pub fn a_restore_keeps_what_it_promises()
    ensures refused { EachCall Restore (λ call words. call.report.end ≡ NotStarted
        → SentNothing (restore_command words) call.before call.after call.status call.report) }
    ensures folder { EachCall Restore (λ call words.
        StaysAsItWas call.before.desk call.after.desk) }
    ensures ended { EachCall Restore (λ call words. call.report.end ≡ Ended
        → (ran : RestoreSession call words)
        × EndedLoad (restore_mark ran.databases) ran.device ran.databases call.after.palm
        call.report) }
    ensures stopped { EachCall Restore (λ call words. HasBegun call.report.end
        → (ran : RestoreSession call words)
        × HandheldStays (StandsBeside (restore_mark ran.databases) ran.device ran.databases) call) }
{}

/// What is installed counts for no desktop as agreed on. Behind an install of records that ended, and a restore that installed one, no run
/// reads a database fast, whatever its words and its desktop. Wherever they stopped that is so, or the run meets the handheld as it was.
pub fn what_is_installed_is_read_next()
    ensures installed { EachCall Install (λ call words. call.report.end ≡ Ended
        → (ran : InstallSession call words) × IsReadWhole (install_mark ran.database) call) }
    ensures restored { EachCall Restore (λ call words. call.report.end ≡ Ended
        → (ran : RestoreSession call words) × IsReadWhole (restore_mark ran.databases) call) }
    ensures install_stopped { EachCall Install (λ call words. HasBegun call.report.end
        → (ran : InstallSession call words)
        × IsReadWholeOrSame (install_mark ran.database) ran.device call) }
    ensures restore_stopped { EachCall Restore (λ call words. HasBegun call.report.end
        → (ran : RestoreSession call words)
        × IsReadWholeOrSame (restore_mark ran.databases) ran.device call) }
{}

/// A handheld over captured bytes whose talk ended said all that is to be said to their packets up to that, and no other byte; it did
/// each of their requests once.
pub fn a_handheld_says_what_is_to_be_said()
    ensures { EachCall Emulate (λ call capture. call.status ≡ Done
        → SaysAll call.before call.after call.report) }
{}

/// Categories that are refused before their session change nothing of the handheld, nor what the desktop's folder stands for. Once their
/// session ended, both folders stand for what it makes of both sides; one that stopped left the desktop's folder standing for what it stood
/// for, or for what the session makes of it.
pub fn categories_keep_what_they_promise()
    ensures refused { EachCall Categories (λ call words. call.report.end ≡ NotStarted
        → SentNothing (categories_command words) call.before call.after call.status call.report) }
    ensures ended { EachCall Categories (λ call words. call.report.end ≡ Ended
        → (ran : FilingSession call words)
        × EndedFiling (filing_in ran) call.after.palm call.after.desk call.report) }
    ensures stopped { EachCall Categories (λ call words. call.report.end ≡ Stopped
        → (ran : FilingSession call words)
        × StoppedFiling (filing_in ran) call.before.desk call.after.desk call.report) }
{}

/// Categories that were brought together stay as they are: a session behind one that ended, or that stopped behind the desktop's commit,
/// with nothing edited between them and whatever the words of both are, leaves the desktop's folder alone. One that ends behind a session
/// that began, however that went, leaves both sides as the first alone would have left them, had it ended.
pub fn categories_that_are_together_stay()
    ensures untouched { (first second : Call) → IsSecondCall first second
        → first.report.end ≡ Ended → HasBegun second.report.end → LeavesDesktop second }
    ensures committed { (first second : Call) → (is : IsSecondCall first second)
        → (ran : FilingSession first is.words)
        → IfCommitted (filing_in ran) first (HasBegun second.report.end → LeavesDesktop second) }
    ensures again { (first second : Call) → (is : IsSecondCall first second)
        → HasBegun first.report.end → second.report.end ≡ Ended
        → (ran : FilingSession first is.words) × StandsTogether (filing_in ran) second.after }
{}

/// No two names of files are printed alike, and each is printed in ASCII from the space to `~`.
pub fn no_two_names_are_printed_alike()
    ensures apart { (name other : List ℕ) → AllByRecursion (λ byte. byte < 256) name
        → AllByRecursion (λ byte. byte < 256) other → printed_name name ≡ printed_name other
        → name ≡ other }
    ensures printable { (name : List ℕ) → AllByRecursion (λ byte. byte < 256) name
        → AllByRecursion (λ byte. is_printable byte ≡ true) (printed_name name) }
{}
