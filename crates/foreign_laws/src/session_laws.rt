//! A session over a handheld of another make is one over our own device. Each function here does nothing: its contract
//! is the law.
ghost use Rattle.std.specs.Prelude.{◌≡◌, List, None, Ok};
ghost use Rattle.std.specs.Global.{Vec};
ghost use Rattle.pdb_values.specs.declared.head.DbHead.{DbHead};
ghost use Rattle.pdb_values.specs.declared.user.Marks.{Marks};
ghost use Rattle.pdb_values.specs.declared.user.UserInfo.{UserInfo};
ghost use Rattle.dlp_commands.specs.DeviceSteps.{DeviceStep};
ghost use Rattle.desk_store.specs.Shelves.{ShelvesValue};
ghost use Rattle.desk_store.specs.Views.{DeskValue};
ghost use Rattle.desktop_session.specs.Following.{Follows};
ghost use Rattle.desktop_session.specs.Inquiries.{Inquiry};
ghost use Rattle.session_parts.specs.declared.outcome.Outcome.{Outcome};
ghost use Rattle.session_parts.specs.declared.report.DbReport.{DbReport};
ghost use Rattle.session_plan.specs.declared.planned.Planned.{Planned};
ghost use Rattle.session_plan.specs.declared.wishes.Wishes.{Wishes};
ghost use Rattle.sync_session.specs.ByReplies.{AsksSession};
ghost use Rattle.sync_session.specs.Inquiries.{finishes, reads_all, sends};
ghost use Rattle.foreign_laws.specs.Endings.{EndsOver, TakesEach};
ghost use Rattle.foreign_laws.specs.Foreign.{Foreign, ForeignStep, IsForeign};
ghost use Rattle.foreign_laws.specs.Links.{LeadsTo};
ghost use Rattle.foreign_laws.specs.Sessions.{EndedWith, EndsSession};
ghost use Rattle.foreign_laws.specs.Twins.{EndsAlike};

use dlp_commands::Link;
use hs_folders::Folder;

/// All databases are read alike.
pub fn databases_are_read_alike<F: Folder>()
    ensures { (wishes : Wishes) (desk : DeskValue F) (user : UserInfo) (heads : List DbHead)
        → EndsAlike (reads_all wishes desk user heads) }
{}

/// All news of a session go alike.
pub fn the_news_go_alike()
    ensures { (shelves : ShelvesValue) (user : UserInfo) (planned : List Planned)
        → EndsAlike (sends shelves user planned) }
{}

/// And so does all that follows the desktop's commit.
pub fn what_follows_the_commit_goes_alike()
    ensures { (user : UserInfo) (done : Marks) (planned : List Planned)
        → EndsAlike (finishes user done planned) }
{}

/// A session that ended over such a handheld ended so over our own device: it was told the same ids, left the same
/// desktop, and the device is as the handheld's is.
pub fn a_session_has_a_twin<F: Folder>()
    ensures { (wishes : Wishes) (old new : Foreign) (desk after : DeskValue F) → IsForeign old
        → EndsSession ForeignStep F.Folder wishes old desk new after
        → EndsSession DeviceStep F.Folder wishes old.device desk new.device after }
{}

/// What was followed over a link to its end, and what the handheld behind it took, ended over the handheld.
pub fn what_was_followed_ended<L: Link, A>()
    ensures { (asked : Inquiry A) (old new : L) (x : A)
        (follows : Follows L.Link asked old new (Ok x)) (before after : Foreign) → L.fault old ≡ None
        → TakesEach ForeignStep before follows.tries after
        → EndsOver ForeignStep asked before x after }
{}

/// Where a session over a link that leads to such a handheld ended, it ended so over our own device, with the folder
/// that it left.
pub fn a_session_over_a_link_has_a_twin<L: Link, F: Folder>()
    ensures { (hand : L → Foreign) (wishes : Wishes) (old : L) (desk : DeskValue F)
        (left : Outcome L F) (reports : Vec DbReport) → LeadsTo L.Link hand → IsForeign (hand old)
        → L.fault old ≡ None → AsksSession L.Link F.Folder wishes old desk left
        → left.end ≡ Ok reports
        → EndedWith DeviceStep F.Folder wishes (λ link. (hand link).device) old desk left }
{}
