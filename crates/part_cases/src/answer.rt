// What an open database answers.
use crate::plans::{content_in, plan_in, rows_in};
use crate::said::{block, done, found, ids_text, record_text, refused, view_text};
use case_words::{bytes_in, number_in, part, short_in};
use desktop_session::{OpenDb, SessionFault};
use dlp_commands::Link;
use pdb_values::{Bytes, FourCc, RecordId, Resource};
use std::alloc::{AllocError, Global};

/// Asks what a word says of an open database.
pub fn answer<L: Link + Drop>(
    alloc: Global,
    base: &mut OpenDb<'_, L>,
    call: &str,
) -> Result<String, AllocError> {
    let place = short_in(part(call, 1));
    match part(call, 0) {
        "count" => match base.count() {
            Ok(count) => format!(in alloc; "{count}"),
            Err(fault) => refused(alloc, fault),
        },
        "ids" => match base.ids(alloc, place) {
            Ok(ids) => ids_text(alloc, &ids),
            Err(fault) => refused(alloc, fault),
        },
        "at" => match base.at(place) {
            Ok(lent) => record_text(alloc, &lent),
            Err(fault) => refused(alloc, fault),
        },
        "next" => found(alloc, base.next_changed()),
        "code" => match base.resource_at(place) {
            Ok(lent) => {
                let kind = hex::encode(alloc, &lent.kind().0)?;
                let bytes = hex::encode(alloc, lent.bytes())?;
                format!(in alloc; "resource {kind} {} {bytes}.", lent.id())
            }
            Err(fault) => refused(alloc, fault),
        },
        "app" => block(alloc, base.read_app(alloc)),
        "sort" => block(alloc, base.read_sort(alloc)),
        "slow" | "fast" | "news" | "purge" => mirrored(alloc, base, call),
        _ => written(alloc, base, call),
    }
}

// Asks for a record by its id, or for a change.
fn written<L: Link + Drop>(
    alloc: Global,
    base: &mut OpenDb<'_, L>,
    call: &str,
) -> Result<String, AllocError> {
    let bytes = bytes_in(alloc, part(call, 1));
    let said = match (part(call, 0), RecordId::new(number_in(part(call, 1)))) {
        ("id", Some(id)) => return found(alloc, base.by_id(id)),
        ("put", Some(id)) => match content_in(alloc, part(call, 2), part(call, 3)) {
            Some(content) => match base.put(id, &content) {
                Ok(id) => return format!(in alloc; "id {}", id.number()),
                Err(fault) => Err(fault),
            },
            None => Ok("what?"),
        },
        ("remove", Some(id)) => base.remove(id).map(|gone| if gone { "yes" } else { "no" }),
        ("clean", _) => base.clean_up().map(|()| "done"),
        ("reset", _) => base.reset_flags().map(|()| "done"),
        ("set-app", _) if bytes.len() <= 65_500 => base.write_app(&bytes).map(|()| "done"),
        ("set-sort", _) if bytes.len() <= 65_500 => base.write_sort(&bytes).map(|()| "done"),
        ("set-code", _) => put_code(alloc, base, call),
        ("abandon", _) => Ok("abandoned"),
        _ => Ok("what?"),
    };
    done(alloc, said)
}

// Puts a resource of type `CODE`.
fn put_code<L: Link + Drop>(
    alloc: Global,
    base: &mut OpenDb<'_, L>,
    call: &str,
) -> Result<&'static str, SessionFault> {
    let bytes = bytes_in(alloc, part(call, 2));
    if bytes.len() > 65_500 {
        return Ok("what?");
    }
    let resource = Resource {
        kind: FourCc(*b"CODE"),
        id: short_in(part(call, 1)),
        bytes: Bytes::new(bytes),
    };
    base.put_resource(&resource).map(|()| "done")
}

// Does with it what a mirror does.
fn mirrored<L: Link + Drop>(
    alloc: Global,
    base: &mut OpenDb<'_, L>,
    call: &str,
) -> Result<String, AllocError> {
    let (word, rest) = call.split_once(':').unwrap_or((call, ""));
    let view = match word {
        "slow" => mirrors::read_slowly(alloc, base),
        "fast" => mirrors::read_fast(alloc, base, &rows_in(alloc, rest)?),
        "news" => {
            let plan = plan_in(alloc, rest)?;
            return match mirrors::send_news(alloc, base, &plan) {
                Ok(ids) => ids_text(alloc, &ids),
                Err(fault) => refused(alloc, fault),
            };
        }
        _ => {
            let plan = plan_in(alloc, rest)?;
            return done(alloc, mirrors::purge_side(base, &plan).map(|()| "done"));
        }
    };
    match view {
        Ok(view) => view_text(alloc, &view),
        Err(fault) => refused(alloc, fault),
    }
}
