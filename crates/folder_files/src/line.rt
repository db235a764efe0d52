// A cursor over the lines of an information file.
ghost use Rattle.std.specs.Prelude.{◌≡◌, ◌==◌, ◌<◌, [], Some, None, if◌then◌else◌, length, position, IfSome};
ghost use Rattle.std.specs.Option.{option_map};
ghost use Rattle.folder_files.specs.Lines.{Title, Number, Positive, Date, Name as UserText, Password as SecretText, Count, Slot, Stem};
ghost use Rattle.folder_files.specs.InfoFiles.{is_parted_line, parting_at};
ghost use Rattle.folder_files.specs.Reading.{line_at, lines_at, split_at_key as split_key};
ghost use Rattle.folder_files.specs.Views.{Finds, FindsUnless};

use crate::fault::LineFault;
use crate::parted::Parting;
use crate::stem::name_of_stem;
use crate::unread::Unread;
use crate::value::{behind, count_of, date_of, name_of, number_of, positive_of, slot_of, word_of};
use pdb_values::{DbName, PalmDate, Password, UserName};
use std::alloc::Global;

// Where the line at the front ends.
fn line_end(bytes: &[u8]) -> Option<usize>
    ensures first { result ≡ position (λ byte. byte == 10) bytes.now }
    ensures bound { IfSome result (λ end. end < length bytes.now) }
{
    bytes.iter().position(|byte| *byte == b'\n')
}

// What stands behind the key in the line at the front, and the bytes behind the line.
#[tactic(auto, unfolding(crate::specs::Reading::split_at_key))]
fn split_at_key<'a>(key: &[u8], bytes: &'a [u8]) -> Option<(&'a [u8], &'a [u8])>
    ensures { option_map (λ parts. (parts.0.now, parts.1.now)) result
        ≡ split_key key.now bytes.now }
{
    let end = line_end(bytes)?;
    let text = behind(key, &bytes[..end])?;
    Some((text, &bytes[end + 1..]))
}

// The lines that are not read yet.
#[derive(Drop)]
pub(crate) struct Lines<'a> {
    pub(crate) rest: &'a [u8],
}

impl Lines<'_> {
    // A line that is this text.
    pub(crate) fn title(&mut self, text: &[u8]) -> Result<(), Unread>
        ensures { Finds (λ _. (tt, self.new.rest.now)) result
            (line_at (record { key = text.now; kind = Title }) self.old.rest.now) }
    {
        match split_at_key(text, self.rest) {
            Some((behind, rest)) if behind.is_empty() => {
                self.rest = rest;
                Ok(())
            }
            _ => Err(Unread(self.rest.len())),
        }
    }

    // A number.
    pub(crate) fn number(&mut self, key: &[u8]) -> Result<u32, Unread>
        ensures { Finds (λ found. (found, self.new.rest.now)) result
            (line_at (record { key = key.now; kind = Number }) self.old.rest.now) }
    {
        let unread = Unread(self.rest.len());
        let (text, rest) = split_at_key(key, self.rest).ok_or(unread)?;
        let found = number_of(text).ok_or(unread)?;
        self.rest = rest;
        Ok(found)
    }

    // A number above 0.
    pub(crate) fn positive(&mut self, key: &[u8]) -> Result<u32, Unread>
        ensures { Finds (λ found. (found, self.new.rest.now)) result
            (line_at (record { key = key.now; kind = Positive }) self.old.rest.now) }
    {
        let unread = Unread(self.rest.len());
        let (text, rest) = split_at_key(key, self.rest).ok_or(unread)?;
        let found = positive_of(text).ok_or(unread)?;
        self.rest = rest;
        Ok(found)
    }

    // A date.
    pub(crate) fn date(&mut self, key: &[u8]) -> Result<PalmDate, Unread>
        ensures { Finds (λ found. (found, self.new.rest.now)) result
            (line_at (record { key = key.now; kind = Date }) self.old.rest.now) }
    {
        let unread = Unread(self.rest.len());
        let (text, rest) = split_at_key(key, self.rest).ok_or(unread)?;
        let found = date_of(text).ok_or(unread)?;
        self.rest = rest;
        Ok(found)
    }

    // The name of a user.
    pub(crate) fn name(&mut self, key: &[u8]) -> Result<UserName, Unread>
        ensures { Finds (λ found. (found, self.new.rest.now)) result
            (line_at (record { key = key.now; kind = UserText }) self.old.rest.now) }
    {
        let unread = Unread(self.rest.len());
        let (text, rest) = split_at_key(key, self.rest).ok_or(unread)?;
        let found = name_of(text).ok_or(unread)?;
        self.rest = rest;
        Ok(found)
    }

    // A password.
    pub(crate) fn password(&mut self, key: &[u8]) -> Result<Password, Unread>
        ensures { Finds (λ found. (found, self.new.rest.now)) result
            (line_at (record { key = key.now; kind = SecretText }) self.old.rest.now) }
    {
        let unread = Unread(self.rest.len());
        let (text, rest) = split_at_key(key, self.rest).ok_or(unread)?;
        let found = word_of(text).ok_or(unread)?;
        self.rest = rest;
        Ok(found)
    }

    // How many slots there are.
    pub(crate) fn count(&mut self, key: &[u8]) -> Result<usize, Unread>
        ensures { Finds (λ found. (found, self.new.rest.now)) result
            (line_at (record { key = key.now; kind = Count }) self.old.rest.now) }
    {
        let unread = Unread(self.rest.len());
        let (text, rest) = split_at_key(key, self.rest).ok_or(unread)?;
        let found = count_of(text).ok_or(unread)?;
        self.rest = rest;
        Ok(found)
    }

    // What is known of the user of a slot.
    pub(crate) fn slot(&mut self, key: &[u8]) -> Result<(u32, PalmDate, UserName), Unread>
        ensures { Finds (λ found. (found, self.new.rest.now)) result
            (line_at (record { key = key.now; kind = Slot }) self.old.rest.now) }
    {
        let unread = Unread(self.rest.len());
        let (text, rest) = split_at_key(key, self.rest).ok_or(unread)?;
        let found = slot_of(text).ok_or(unread)?;
        self.rest = rest;
        Ok(found)
    }

    // The name of a database as its stem.
    pub(crate) fn stem(&mut self, alloc: Global, key: &[u8]) -> Result<DbName, LineFault>
        ensures { FindsUnless (λ found. (found, self.new.rest.now)) result
            (line_at (record { key = key.now; kind = Stem }) self.old.rest.now) }
    {
        let unread = Unread(self.rest.len());
        let (text, rest) = split_at_key(key, self.rest).ok_or(unread)?;
        let name = name_of_stem(alloc, text)?;
        let found = name.ok_or(unread)?;
        self.rest = rest;
        Ok(found)
    }

    // The word of the line at the front, where it has that of a database that took no part.
    pub(crate) fn parting(&self) -> Option<Parting>
        ensures { result ≡ (if is_parted_line self.now.rest.now then Some
            (parting_at self.now.rest.now) else None) }
    {
        if self.rest.starts_with(b"apart ") {
            Some(Parting::Apart)
        } else if self.rest.starts_with(b"unmet ") {
            Some(Parting::Unmet)
        } else {
            None
        }
    }

    // Nothing stands behind the last line.
    pub(crate) fn end(&self) -> Result<(), Unread>
        ensures { result ≡ lines_at [] self.now.rest.now }
    {
        if self.rest.is_empty() {
            Ok(())
        } else {
            Err(Unread(self.rest.len()))
        }
    }
}
