// What a handheld gets before the desktop commits.
ghost use Rattle.std.specs.Prelude.{◌≡◌, ◌+◌, ◌↔◌, ◌∷◌, ◌++◌, [], IfErr, IsTrue, OnOk, false, length};
ghost use Rattle.std.specs.Option.{option_copied};
ghost use Rattle.desk_store.specs.Views.{shelves_in};
ghost use Rattle.desktop_session.specs.declared.fault.SessionFault.TheVariants as session;
ghost use Rattle.desktop_session.specs.Answers.{mapped};
ghost use Rattle.desktop_session.specs.Asking.{makes, opens};
ghost use Rattle.desktop_session.specs.Following.{Follows};
ghost use Rattle.desktop_session.specs.Requests.{making, marking, opening};
ghost use Rattle.mirrors.specs.News.{news_of};
ghost use Rattle.mirrors.specs.WriteInquiries.{sends_news};
ghost use Rattle.session_parts.specs.Inquiries.{each, under};
ghost use Rattle.session_plan.specs.Blocks.{blocks_of};
ghost use Rattle.session_plan.specs.Heads as heads;
ghost use Rattle.session_plan.specs.Takes.{each_of};
ghost use Rattle.sync_session.specs.Inquiries as inquiries;
ghost use Rattle.sync_session.specs.Inquiries.{gives_old, gives_one, sends};
ghost use Rattle.sync_session.specs.Phases.{Fills, GainsEach, GainsIds, GainsMade, gained, made_within, news_under, news_within, opened_news};
ghost use Rattle.session_parts.specs.Causes.{IsLater};
ghost use Rattle.session_parts.specs.Spans.{Spans};
ghost use Rattle.session_plan.specs.Users as users;
ghost use Rattle.session_parts.specs.Stretches.{SpansBehind, SpansEach};

use crate::blocks::write_blocks;
use crate::marking::begin;
use conduit_rules::Plan;
use desk_store::Desk;
use desktop_session::{Linked, OpenDb, SessionFault};
use dlp_commands::Link;
use hs_folders::Folder;
use mirrors::send_news;
use pdb_values::{Content, Database, DbHead, DbName, RecordId};
use session_plan::{Planned, made_head};
use std::alloc::{AllocError, Global};

/// Gives the handheld's database of a name what its plan says: the replacements, then the adds, whose ids are answered. The database
/// is opened for it and closed. After a refusal it may be left open, and only `halt` may follow.
pub fn give_one<L: Link>(
    alloc: Global,
    linked: &mut Linked<L>,
    name: &DbName,
    plan: &Plan,
) -> Result<Vec<RecordId>, SessionFault>
    requires { linked.old.abandoned ≡ false }
    ensures spans { Spans L.talk L.since L.fault L.downs (news_within (opening name.now) plan.now)
        (GainsIds (opening name.now) (L.talk linked.old.link) plan.now)
        linked.old linked.new result }
    ensures follows { Follows L.Link (under (opens 0xD0 name.now) (λ handle. sends_news handle plan.now))
        linked.old.link linked.new.link (mapped (λ ids. ids.items) result) }
{
    let mut opened = linked.open(name)?;
    let ids = match send_news(alloc, &mut opened, plan) {
        Ok(ids) => ids,
        Err(fault) => {
            opened.abandon();
            return Err(fault);
        }
    };
    opened.close()?;
    Ok(ids)
}

// Writes the blocks of the desktop's rows into a database that was just made, and then what its plan says.
fn fill<L: Link>(
    alloc: Global,
    db: &mut OpenDb<'_, L>,
    rows: Option<&Database>,
    plan: &Plan,
) -> Result<Vec<RecordId>, SessionFault>
    ensures same_reference { db.new.linked.ghost_name ≡ db.old.linked.ghost_name }
    ensures same_handle { db.new.handle ≡ db.old.handle }
    ensures fills { Fills L.talk L.since L.fault L.downs db.old.handle
        (blocks_of (option_copied rows.entry)) plan.now db.old.linked.now db.new.linked.now result }
    ensures follows { Follows L.Link
        (inquiries.fills db.old.handle (blocks_of (option_copied rows.entry)) plan.now)
        db.old.linked.now.link db.new.linked.now.link (mapped (λ ids. ids.items) result) }
    ensures cause { IfErr result (IsLater (L.talk db.new.linked.now.link)
        (L.fault db.new.linked.now.link)) }
{
    write_blocks(db, rows)?;
    send_news(alloc, db, plan)
}

/// Makes a database by a head on the handheld, writes the blocks of the desktop's rows that have bytes, and gives it what its plan says,
/// as `give_one` does.
pub fn make_one<L: Link>(
    alloc: Global,
    linked: &mut Linked<L>,
    head: &DbHead,
    rows: Option<&Database>,
    plan: &Plan,
) -> Result<Vec<RecordId>, SessionFault>
    requires { linked.old.abandoned ≡ false }
    ensures spans { let blocks = blocks_of (option_copied rows.entry) in
        Spans L.talk L.since L.fault L.downs (made_within head.now blocks (news_of plan.now))
        (λ handle given ids. GainsMade head.now blocks (L.talk linked.old.link) plan.now handle given
        ids.items) linked.old linked.new result }
    ensures follows { let blocks = blocks_of (option_copied rows.entry) in
        Follows L.Link (under (makes head.now) (λ handle. inquiries.fills handle blocks plan.now))
        linked.old.link linked.new.link (mapped (λ ids. ids.items) result) }
{
    let mut opened = linked.create(head)?;
    let ids = match fill(alloc, &mut opened, rows, plan) {
        Ok(ids) => ids,
        Err(fault) => {
            opened.abandon();
            return Err(fault);
        }
    };
    opened.close()?;
    Ok(ids)
}

// Whether there is nothing to put.
fn is_nothing(replace: &[(RecordId, Content)], adds: &[Content]) -> bool
    ensures { IsTrue result ↔ (length replace.now + length adds.now ≡ 0) }
{
    replace.len() == 0 && adds.len() == 0
}

// Gives a database that the handheld has what its plan says, if that is anything.
fn give_old<L: Link>(
    alloc: Global,
    linked: &mut Linked<L>,
    name: &DbName,
    plan: &Plan,
) -> Result<Vec<RecordId>, SessionFault>
    requires { linked.old.abandoned ≡ false }
    ensures spans { Spans L.talk L.since L.fault L.downs
        (opened_news name.now (news_of plan.now))
        (GainsIds (opening name.now) (L.talk linked.old.link) plan.now)
        linked.old linked.new result }
    ensures follows { Follows L.Link (gives_old name.now plan.now (news_of plan.now)) linked.old.link
        linked.new.link (mapped (λ ids. ids.items) result) }
{
    if is_nothing(&plan.replace, &plan.adds) {
        return Ok(Vec::new(alloc));
    }
    give_one(alloc, linked, name, plan)
}

// Gives a database what its plan says, unless it is skipped; one that the handheld lacks is made.
fn give_planned<L: Link, D: Folder>(
    alloc: Global,
    linked: &mut Linked<L>,
    desk: &Desk<D>,
    one: &Planned,
) -> Result<Vec<RecordId>, SessionFault>
    requires { linked.old.abandoned ≡ false }
    ensures spans { Spans L.talk L.since L.fault L.downs
        (news_under (shelves_in desk.now) (L.talk linked.old.link) one.now)
        (λ handle given ids. gained (shelves_in desk.now) (L.talk linked.old.link) one.now handle
        given ids.items)
        linked.old linked.new result }
    ensures follows { Follows L.Link (gives_one (shelves_in desk.now) one.now) linked.old.link
        linked.new.link (mapped (λ ids. ids.items) result) }
{
    match &one.job.skip {
        Some(_) => Ok(Vec::new(alloc)),
        None => match &one.job.handheld {
            Some(_) => give_old(alloc, linked, &one.job.name, &one.plan),
            None => match &one.job.rows {
                Some(rows) => {
                    let own = desk.rows(&one.job.name);
                    make_one(alloc, linked, &made_head(rows), own, &one.plan)
                }
                None => Ok(Vec::new(alloc)),
            },
        },
    }
}

// Puts the ids of one database behind those of others.
fn push_ids(ids: &mut Vec<Vec<RecordId>>, more: Vec<RecordId>) -> Result<(), SessionFault>
    ensures ids { OnOk result (ids.new.items ≡ ids.old.items ++ more ∷ []) }
    ensures memory { IfErr result (λ fault. fault ≡ session.NoMemory) }
{
    ids.push(more).map_err(AllocError::from)?;
    Ok(())
}

/// Gives each of these databases of the handheld what its plan says, one database after another, and answers the ids that the new
/// records of each got. A database that the handheld lacks is made by the head of the desktop's rows, with their blocks, and one that
/// gets nothing or is skipped is not opened.
pub fn give_all<L: Link, D: Folder>(
    alloc: Global,
    linked: &mut Linked<L>,
    desk: &Desk<D>,
    planned: &[Planned],
) -> Result<Vec<Vec<RecordId>>, SessionFault>
    requires { linked.old.abandoned ≡ false }
    ensures gives { SpansEach L.talk L.since L.fault L.downs (news_under (shelves_in desk.now))
        (GainsEach (shelves_in desk.now)) planned.now
        (λ made. made.items) linked.old linked.new result }
    ensures follows { Follows L.Link (each (gives_one (shelves_in desk.now)) [] planned.now)
        linked.old.link linked.new.link (mapped (λ made. each_of made.items) result) }
{
    let mut ids = Vec::new(alloc);
    for one in planned {
        let more = give_planned(alloc, linked, desk, one)?;
        push_ids(&mut ids, more)?;
    }
    Ok(ids)
}

/// Marks the handheld as one whose session is under way, then gives each of these databases what its plan says, as `give_all` does.
pub fn send_all<L: Link, D: Folder>(
    alloc: Global,
    linked: &mut Linked<L>,
    desk: &Desk<D>,
    planned: &[Planned],
) -> Result<Vec<Vec<RecordId>>, SessionFault>
    requires { linked.old.abandoned ≡ false }
    ensures sends { SpansBehind L.talk L.since L.fault L.downs
        (marking (users.begun_user linked.old.user) 0x40) (news_under (shelves_in desk.now))
        (GainsEach (shelves_in desk.now)) planned.now
        (λ made. made.items) linked.old linked.new result }
    ensures follows { Follows L.Link (sends (shelves_in desk.now) linked.old.user planned.now)
        linked.old.link linked.new.link (mapped (λ made. each_of made.items) result) }
{
    begin(linked)?;
    give_all(alloc, linked, desk, planned)
}
