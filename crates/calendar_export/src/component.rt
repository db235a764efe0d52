// What components have in common.
ghost use Rattle.std.specs.Prelude.{◌≡◌, ◌++◌, ◌∷◌, [], OnOk, true};
ghost use Rattle.content_lines.specs.Properties.{is_plain};
ghost use Rattle.calendar_export.specs.Components.{IsOrigin, head_properties, journal_properties, opening, origin_value, source_value};
ghost use Rattle.calendar_export.specs.Moments.{stamp_property};

use crate::moment::{moment_of, push_stamp};
use content_lines::{Properties, Text};
use pdb_values::{PalmDate, RecordId};
use std::alloc::{AllocError, Global};

/// When a text is made, and the stem of its database.
#[derive(Clone, Copy)]
pub struct Source<'a> {
    pub made: PalmDate,
    pub stem: &'a str,
}

/// What each component says of its record.
#[derive(Clone, Copy)]
pub struct Origin<'a> {
    pub id: RecordId,
    pub secret: bool,
    /// The label of its category, empty where there is none.
    pub label: &'a [u8],
}

impl<'a> Origin<'a> {
    /// The origin of a record with this id, of 24 bits.
    pub fn new(id: RecordId, secret: bool, label: &'a [u8]) -> Origin<'a>
        ensures value { origin_value result
            ≡ record { id = id; secret = secret; label = label.entry.now } }
        ensures form { IsOrigin (origin_value result) }
    {
        let _number = id.number();
        Origin { id, secret, label }
    }
}

// Appends when the text is made.
#[tactic(auto, using(std::proofs::Common::append_assoc))]
fn push_made(alloc: Global, calendar: &mut Properties, made: PalmDate) -> Result<(), AllocError>
    ensures { OnOk result (calendar.new ≡ calendar.old ++ stamp_property made ∷ []) }
{
    let mut value = Text::new(alloc, "")?;
    push_stamp(&mut value, moment_of(made))?;
    calendar.push(alloc, "DTSTAMP", value)?;
    Ok(())
}

/// Appends the properties that each component begins with.
pub fn push_head(
    alloc: Global,
    calendar: &mut Properties,
    source: &Source<'_>,
    id: RecordId,
) -> Result<(), AllocError>
    requires { is_plain source.now.stem.now ≡ true }
    ensures { OnOk result (calendar.new
        ≡ calendar.old ++ head_properties (source_value source.now) id) }
{
    calendar.push_uid(alloc, id, source.stem)?;
    push_made(alloc, calendar, source.made)?;
    Ok(())
}

/// Appends a record that is out of its form, as a journal entry with its bytes.
pub fn push_journal(
    alloc: Global,
    calendar: &mut Properties,
    source: &Source<'_>,
    origin: &Origin<'_>,
    bytes: &[u8],
) -> Result<(), AllocError>
    requires { is_plain source.now.stem.now ≡ true }
    ensures { OnOk result (calendar.new ≡ calendar.old
        ++ journal_properties (source_value source.now) (origin_value origin.now) bytes.now) }
{
    calendar.push_plain(alloc, "BEGIN", "VJOURNAL")?;
    push_head(alloc, calendar, source, origin.id)?;
    calendar.push_unread_name(alloc, "SUMMARY", origin.id)?;
    calendar.push_unread_bytes(alloc, bytes)?;
    calendar.push_marks(alloc, origin.label, origin.secret)?;
    calendar.push_plain(alloc, "END", "VJOURNAL")?;
    Ok(())
}

/// Appends the properties that an object begins with.
pub fn push_opening(alloc: Global, calendar: &mut Properties) -> Result<(), AllocError>
    ensures { OnOk result (calendar.new ≡ calendar.old ++ opening) }
{
    calendar.push_plain(alloc, "BEGIN", "VCALENDAR")?;
    calendar.push_plain(alloc, "VERSION", "2.0")?;
    calendar.push_plain(alloc, "PRODID", "-//hotsync//Palm calendar//EN")?;
    Ok(())
}
