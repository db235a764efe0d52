// An entry of a list of databases: its cells, and what they say.
ghost use Rattle.std.specs.Prelude.{◌≡◌, ◌<◌, ◌^◌, ◌∷◌, [], is_none, IfSome};
ghost use Rattle.std.specs.Option.{option_map};
ghost use Rattle.pdb_values.specs.Names.{name_fault};
ghost use Rattle.pdb_values.specs.PalmDates.{read_wire};
ghost use Rattle.dlp_args.specs.Views.{Gives};
ghost use Rattle.dlp_args.specs.Cells.{Half, Run, Text, Word};
ghost use Rattle.dlp_args.specs.Fields.{fields_in};
ghost use Rattle.dlp_replies.specs.Checks.{date_or_zero, first_bad, is_date};
ghost use Rattle.dlp_replies.specs.EntryLists.{entry};
ghost use Rattle.dlp_replies.specs.EntryReading.{entry_at, item_of, row_checks};
ghost use Rattle.dlp_replies.specs.Faults.{or_place};
ghost use Rattle.dlp_replies.specs.Views.{entry_row};

use dlp_args::{take_4, take_8, take_u8, take_u16, take_u32, text_of};
use pdb_values::{DbHead, DbName, FourCc, PalmDate};

// The cells of an entry, with its name lent.
#[derive(Clone, Copy)]
pub(crate) struct EntryCells<'a> {
    pub(crate) size: u8,
    attributes: u16,
    kind: FourCc,
    creator: FourCc,
    version: u16,
    modnum: u32,
    created: [u8; 8],
    modified: [u8; 8],
    backup: [u8; 8],
    index: u16,
    name: &'a [u8],
}

// The entry at the front of bytes and the bytes behind it, or None where there is none.
#[tactic(auto, unfolding(crate::specs::EntryReading::entry_at, dlp_args::specs::CellReading::number_at, dlp_args::specs::CellReading::some_at))]
pub(crate) fn take_entry(bytes: &[u8]) -> Option<(EntryCells<'_>, &[u8])>
    ensures entry { option_map (λ found. (entry_row found.0, found.1.now)) result
        ≡ entry_at bytes.now }
    ensures small { IfSome result (λ found. found.0.size < 256) }
{
    let (size, _) = take_u8(bytes)?;
    if bytes.len() < usize::from(size) {
        return None;
    }
    let (whole, rest) = bytes.split_at(usize::from(size));
    let cells = entry_cells(whole)?;
    Some((cells, rest))
}

// The cells of all of the bytes.
fn entry_cells(bytes: &[u8]) -> Option<EntryCells<'_>>
    ensures cells { option_map entry_row result ≡ fields_in entry bytes.now }
    ensures small { IfSome result (λ cells. cells.size < 256) }
{
    let (size, rest) = take_u8(bytes)?;
    let (_, rest) = take_u8(rest)?;
    let (attributes, rest) = take_u16(rest)?;
    let (kind, rest) = take_4(rest)?;
    let (creator, rest) = take_4(rest)?;
    let dated = dated_cells(rest)?;
    Some(EntryCells {
        size,
        attributes,
        kind: FourCc(kind),
        creator: FourCc(creator),
        version: dated.version,
        modnum: dated.modnum,
        created: dated.created,
        modified: dated.modified,
        backup: dated.backup,
        index: dated.index,
        name: dated.name,
    })
}

// The cells of an entry from its version on.
#[derive(Clone, Copy)]
struct DatedCells<'a> {
    version: u16,
    modnum: u32,
    created: [u8; 8],
    modified: [u8; 8],
    backup: [u8; 8],
    index: u16,
    name: &'a [u8],
}

// The cells from the version on, which are all of the bytes.
fn dated_cells(bytes: &[u8]) -> Option<DatedCells<'_>>
    ensures { option_map (λ dated. (
      dated.version,
      (
        dated.modnum,
        (
          dated.created,
          (dated.modified, (dated.backup, (dated.index, (dated.name.now, tt)))),
        ),
      ),
    )) result ≡ fields_in (Half ∷ Word ∷ Run 8 ∷ Run 8 ∷ Run 8 ∷ Half ∷ Text ∷ []) bytes.now }
{
    let (version, rest) = take_u16(bytes)?;
    let (modnum, rest) = take_u32(rest)?;
    let (created, rest) = take_8(rest)?;
    let (modified, rest) = take_8(rest)?;
    let (backup, rest) = take_8(rest)?;
    let (index, rest) = take_u16(rest)?;
    let name = text_of(rest)?;
    Some(DatedCells {
        version,
        modnum,
        created,
        modified,
        backup,
        index,
        name,
    })
}

impl EntryCells<'_> {
    // Index and head, or the place of the first value that is none, where the entry begins at this place.
    #[tactic(auto, unfolding(crate::specs::EntryReading::row_checks, crate::specs::EntryReading::item_of))]
    pub(crate) fn item(&self, place: usize) -> Result<(u16, DbHead), usize>
        requires { place < 2 ^ 32 }
        ensures { Gives (λ item. item) result
            (or_place (first_bad (row_checks place (entry_row self.now)))
            (item_of (entry_row self.now))) }
    {
        let created = date_of(self.created, place + 18)?;
        let modified = date_of(self.modified, place + 26)?;
        let backup = date_of(self.backup, place + 34)?;
        let name = name_of(self.name, place + 44)?;
        Ok((
            self.index,
            DbHead {
                name,
                attributes: self.attributes,
                version: self.version,
                created,
                modified,
                backup,
                modnum: self.modnum,
                seed: 0,
                kind: self.kind,
                creator: self.creator,
            },
        ))
    }
}

// A date, or the place where it stands.
pub(crate) fn date_of(bytes: [u8; 8], place: usize) -> Result<PalmDate, usize>
    ensures { Gives (λ date. date) result (or_place (first_bad ((
      place,
      is_date bytes,
    ) ∷ [])) (date_or_zero (read_wire bytes))) }
{
    match PalmDate::from_wire(bytes) {
        Ok(date) => Ok(date),
        Err(_) => Err(place),
    }
}

// The name of a database, or the place where it stands.
fn name_of(bytes: &[u8], place: usize) -> Result<DbName, usize>
    ensures { Gives (λ name. name) result (or_place (first_bad ((
      place,
      is_none (name_fault bytes.now),
    ) ∷ [])) bytes.now) }
{
    match DbName::new(bytes) {
        Ok(name) => Ok(name),
        Err(_) => Err(place),
    }
}
