//! What a session makes of a handheld. Each function here does nothing: its contract is the law.
ghost use Rattle.std.specs.Prelude.{◌≡◌, ◌≤◌, ℕ, List, [], None, Some, length, map, take};
ghost use Rattle.std.specs.List.{AllByRecursion};
ghost use Rattle.pdb_values.specs.Databases.{DatabaseValue};
ghost use Rattle.palm_device.specs.Devices.{Device};
ghost use Rattle.dlp_commands.specs.Changes.{given_in};
ghost use Rattle.dlp_commands.specs.Talks.{Talk};
ghost use Rattle.desktop_session.specs.declared.fault.SessionFault.{SessionFault};
ghost use Rattle.desktop_session.specs.Acts.{Act, text};
ghost use Rattle.desktop_session.specs.Lasts.{IsByLastReply};
ghost use Rattle.desktop_session.specs.Orders.{AreAnswered, AreInOrder, IsNoRefusal};
ghost use Rattle.desktop_session.specs.Tellings.{AreSayable, device_after, exchanges};
ghost use Rattle.session_plan.specs.Limits.{first_over};
ghost use Rattle.session_plan.specs.Merges.{merged_device};
ghost use Rattle.sync_session.specs.Sessions.{adds_of, after_commit, before_commit, before_writes, session, requests, writes_before_commit};
ghost use Rattle.session_plan.specs.Tasks.{Meeting, task_of};
ghost use Rattle.front_laws.specs.Meetings.{GotAllAt, IsActive};
ghost use Rattle.front_laws.specs.Again.{AllRunAgain, AllSkip, AreAllFresh, AreRunAgain, EndsAsWhole, EndsAtMerge, GivesNewIds, IsRunAgain, IsSkipped, LeavesTheSame, LosesNone};
ghost use Rattle.front_laws.specs.Again.{Later, RunsAgain, last_run};
ghost use Rattle.front_laws.specs.Answered.{IsAnsweredExchange, RefusesNone};
ghost use Rattle.front_laws.specs.Equal.{HoldsEqual, IsShownWhole};
ghost use Rattle.front_laws.specs.Losses.{LeavesEach, MightLose};
ghost use Rattle.front_laws.specs.Filled.{HasBlocks, IsMade, KeepsBlocks};
ghost use Rattle.front_laws.specs.Given.{GetFreeIds, TellIds, ids_in};
ghost use Rattle.front_laws.specs.Sound.{FitsLimits, IsSoundMeeting};
ghost use Rattle.front_laws.specs.Stops.{IsFittingFront, StandsAmongNews, StandsBehindCommit};
ghost use Rattle.front_laws.specs.Acts.{ClosesBeforeEnd, LeadToFront};

/// The acts of a whole session that passes no limit make the merged handheld, where each new record got an
/// id that no record had at its turn.
pub fn the_merge_is_reached()
    ensures { (meeting : Meeting) (given : List ℕ) → FitsLimits meeting
        → GetFreeIds (session meeting given) meeting.device
        → device_after (session meeting given) meeting.device ≡ merged_device meeting given }
{}

/// Behind a whole session both sides hold the same records of a database that wasn't skipped, live and
/// without a mark, where all of it was read, or what was passed over was honest.
pub fn both_sides_end_equal()
    ensures { (meeting : Meeting) (given name : List ℕ) → IsSoundMeeting meeting
        → IsActive meeting name → IsShownWhole meeting name
        → GotAllAt meeting given name → HoldsEqual meeting given name }
{}

/// A database that a session made on the handheld has the desktop's blocks, those that have bytes: behind the
/// whole session, and from the desktop's commit on wherever it stopped. A database that the handheld had keeps
/// its own.
pub fn a_made_database_has_the_desktops_blocks()
    ensures whole { (meeting : Meeting) (given name : List ℕ) → IsMade meeting name
        → HasBlocks meeting (merged_device meeting given) name }
    ensures commit { (meeting : Meeting) (writes : ℕ) (given name : List ℕ) (device : Device)
        → IsFittingFront meeting writes given device
        → writes_before_commit meeting ≤ writes → IsMade meeting name
        → HasBlocks meeting device name }
    ensures kept { (meeting : Meeting) (given name : List ℕ) (database : DatabaseValue)
        → IsActive meeting name → (task_of meeting name).handheld ≡ Some database
        → KeepsBlocks meeting (merged_device meeting given) name }
{}

/// A session that isn't refused costs the desktop no live row of a database that it merges by both sides and
/// their base, behind a handheld that is a stranger to it or lost the database: the content of each live
/// row is live on the desktop still, or in its archive.
pub fn a_lost_database_costs_no_live_row()
    ensures { (meeting : Meeting) (given name : List ℕ) → IsSoundMeeting meeting
        → IsActive meeting name → IsShownWhole meeting name
        → GotAllAt meeting given name → LosesNone meeting
        → MightLose meeting name → LeavesEach meeting given name }
{}

/// What a session says fits into messages: so any beginning of it can be said whose new records get free
/// ids, and whatever can be said gives free ids.
pub fn a_session_can_be_said()
    ensures said { (meeting : Meeting) (given : List ℕ) (n : ℕ) → IsSoundMeeting meeting
        → let acts = take n (session meeting given) in
        GetFreeIds acts meeting.device → AreSayable acts meeting.device }
    ensures free { (acts : List Act) (device : Device) → AreSayable acts device
        → GetFreeIds acts device }
{}

/// Each request of a session may be asked at its turn: what it names is there, of the right kind and open
/// where it has to be. While nothing is written that is so whether or not a limit would be passed. So no
/// reply of the handheld's is an error, but error 5 where the call has an answer of its own for it. A whole
/// session closes what it opens before it asks for its end.
pub fn a_session_keeps_its_order()
    ensures read { (meeting : Meeting) (n : ℕ) → IsSoundMeeting meeting
        → AreInOrder (take n (before_writes meeting)) meeting.device }
    ensures whole { (meeting : Meeting) (given : List ℕ) (n : ℕ) → FitsLimits meeting
        → let acts = take n (session meeting given) in
        GetFreeIds acts meeting.device → AreInOrder acts meeting.device }
    ensures answered { (meeting : Meeting) (given : List ℕ) (n : ℕ) → FitsLimits meeting
        → let acts = take n (session meeting given) in
        GetFreeIds acts meeting.device → AreAnswered acts meeting.device }
    ensures closed { (meeting : Meeting) (given : List ℕ) → IsSoundMeeting meeting
        → first_over meeting ≡ None → GetFreeIds (session meeting given) meeting.device
        → ClosesBeforeEnd meeting given }
{}

/// A handheld that runs by requests of a session, up to any of them, refuses none, whichever ids it gives:
/// each reply is no error, but error 5 where the call has an answer of its own for it. While nothing is
/// written that is so whether or not a limit would be passed.
pub fn a_session_is_never_refused()
    ensures read { (meeting : Meeting) (count : ℕ) → IsSoundMeeting meeting
        → RefusesNone meeting.device (take count (map text (before_writes meeting))) }
    ensures whole { (meeting : Meeting) (count : ℕ) → FitsLimits meeting
        → RefusesNone meeting.device (take count (requests meeting)) }
{}

/// A session all of whose exchanges were answered stops for no refusal, and for no reply that can't be read.
pub fn answered_sessions_are_never_refused()
    ensures { (talk : Talk) (cause : SessionFault)
        → AllByRecursion IsAnsweredExchange talk.exchanges → IsByLastReply (Some talk) cause
        → IsNoRefusal cause }
{}

/// Any beginning of a session's acts leads to a front, which has as many writes as the acts have, and the
/// ids that these gave.
pub fn acts_lead_to_fronts()
    ensures { (meeting : Meeting) (given : List ℕ) (n : ℕ) → FitsLimits meeting
        → let acts = take n (session meeting given) in
        GetFreeIds acts meeting.device
        → LeadToFront meeting acts }
{}

/// The ids that a session's new records get are those that its replies tell, in order, and as many as there
/// are adds; behind the desktop's commit no request gives one, whatever is replied.
pub fn given_ids_are_told()
    ensures counted { (meeting : Meeting) (given : List ℕ) → IsSoundMeeting meeting
        → length given ≡ adds_of meeting
        → (ids_in (before_commit meeting given) ≡ given)
        × (ids_in (session meeting given) ≡ given) }
    ensures commit { (meeting : Meeting) (given : List ℕ) → FitsLimits meeting
        → let acts = before_commit meeting given in
        GetFreeIds acts meeting.device → TellIds acts meeting.device }
    ensures whole { (meeting : Meeting) (given : List ℕ) → FitsLimits meeting
        → let acts = session meeting given in
        GetFreeIds acts meeting.device → TellIds acts meeting.device }
    ensures beginning { (meeting : Meeting) (given : List ℕ) (n : ℕ) → FitsLimits meeting
        → let acts = take n (session meeting given) in
        GetFreeIds acts meeting.device → TellIds acts meeting.device }
    ensures behind { (meeting : Meeting) → IsSoundMeeting meeting
        → AllByRecursion (λ (request : List ℕ). (reply : List ℕ) → given_in request reply ≡ [])
        (map text (after_commit meeting)) }
{}

/// A front with no more writes than stand before the desktop's commit is among the news of the databases,
/// and one with no fewer is behind the commit.
pub fn fronts_stand()
    ensures news { (meeting : Meeting) (writes : ℕ) (given : List ℕ) (device : Device)
        → IsFittingFront meeting writes given device
        → writes ≤ writes_before_commit meeting → StandsAmongNews meeting given device }
    ensures commit { (meeting : Meeting) (writes : ℕ) (given : List ℕ) (device : Device)
        → IsFittingFront meeting writes given device
        → writes_before_commit meeting ≤ writes → StandsBehindCommit meeting given device }
{}

/// A session that is run again behind one that stopped, wherever that stopped, ends as the first would have
/// ended, whichever ids that would have given to its new records; and it skips no database that the first
/// didn't.
pub fn a_stopped_session_is_run_again()
    ensures { (meeting next : Meeting) (given later name : List ℕ)
        → IsRunAgain meeting next given later name → EndsAsWhole meeting next later name }
{}

/// A session that is run again behind one that stopped isn't refused for live rows that it would cost the
/// desktop, where the one that stopped wasn't: not among its news, where the handheld is no stranger that
/// was none and has each record that it had, and not behind the desktop's commit, where the desktop has the
/// date of a session that the handheld never ended.
pub fn a_stopped_session_makes_no_new_handheld()
    ensures { (meeting next : Meeting) (writes : ℕ) (given later : List ℕ) → FitsLimits meeting
        → LosesNone meeting → RunsAgain meeting next writes given
        → AreAllFresh meeting next given later → LosesNone next }
{}

/// After any number of sessions that stopped, wherever each did, the one that ends leaves what the first
/// would have left, whichever ids that would have given to its new records; and it skips no database that
/// the first didn't.
pub fn stopped_sessions_are_run_again()
    ensures { (meeting : Meeting) (es : List Later) (later name : List ℕ)
        → AreRunAgain meeting es later name
        → EndsAsWhole meeting (last_run meeting es) later name }
{}

/// After any number of sessions that stopped the one that ends leaves of each database the merge of what the
/// first one found: under all ids that they gave it, or, where it goes by the desktop, under some of them.
pub fn stopped_sessions_end_at_the_merge()
    ensures { (meeting : Meeting) (es : List Later) (later name : List ℕ)
        → AreRunAgain meeting es later name → EndsAtMerge meeting es later name }
{}

/// A session leaves a database that it skips as both sides had it, and the sessions that are run again behind
/// it skip it too, find it so and leave it so, whichever ids they give.
pub fn a_skipped_database_is_left_alone()
    ensures whole { (meeting : Meeting) (given name : List ℕ) → IsSkipped meeting name
        → LeavesTheSame meeting meeting given name }
    ensures again { (meeting : Meeting) (es : List Later) (later name : List ℕ)
        → AllRunAgain meeting es → IsSkipped meeting name
        → AllSkip meeting es name × LeavesTheSame meeting (last_run meeting es) later name }
{}

/// There are ids that a handheld may give to all new records of a session that passes no limit: in each
/// database each is free at its turn, and nothing had one.
pub fn new_ids_can_be_given()
    ensures { (meeting : Meeting) → FitsLimits meeting
        → (new : List ℕ) × ((name : List ℕ) → IsActive meeting name → GivesNewIds meeting new name) }
{}
