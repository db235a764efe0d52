//! What holds of every session over a cable. Each function here does nothing: its contract is the law.
ghost use Rattle.std.specs.Prelude.{◌≡◌};
ghost use Rattle.cmd_status.specs.declared.status.Status.{Status};
ghost use Rattle.call_parts.specs.declared.report.SessionEnd.TheVariants.{Ended};
ghost use Rattle.port_run.specs.Equal.{LeavesEqual};
ghost use Rattle.port_run.specs.Links.{link_over};
ghost use Rattle.port_run.specs.Names.{NamesTouched};
ghost use Rattle.port_run.specs.Syncs.{SessionRan};
ghost use Rattle.port_run.specs.Told.{SyncTold};
ghost use Rattle.port_run.specs.declared.synced.CableReport.{CableReport};
ghost use Rattle.run_words.specs.Cables.{Cable};

/// An ended session over a cable leaves both sides equal, where the port told a handheld on which nothing
/// was open.
pub fn an_ended_session_over_a_cable_leaves_both_sides_equal()
    ensures { (cable : Cable) (before after : SyncTold) (status : Status) (report : CableReport)
        → (ran : SessionRan cable before after status report) → report.end ≡ Ended
        → LeavesEqual ran }
{}

/// Whatever stands behind the port, a session over a cable opens, makes or takes away no database by its name but those that the words touch.
pub fn a_session_over_a_cable_names_no_other_database()
    ensures { (cable : Cable) (before after : SyncTold) (status : Status) (report : CableReport)
        → (ran : SessionRan cable before after status report)
        → NamesTouched cable (link_over ran.opened) ran.link.last }
{}
