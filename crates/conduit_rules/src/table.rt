// The table: what becomes of a record that the base has, by its state on both sides.
ghost use Rattle.std.specs.Prelude.{◌≡◌};
ghost use Rattle.conduit_rules.specs.Table.{decision, kept, put_away, nothing_left, both_kept, with_same, with_changed, with_deleted, with_archived_same, with_archived_changed};

/// What a side says of a record that the last synchronisation left on both sides, its base row.
#[derive(Clone, Copy)]
pub enum Side {
    /// It is there with the content of the base row.
    Same,
    /// It is there with another content.
    Changed,
    /// It is not there, or was deleted without leave to archive it.
    Deleted,
    /// The user deleted it with leave to archive it, and it has the content of the base row.
    ArchivedSame,
    /// The user deleted it with leave to archive it, and it has another content.
    ArchivedChanged,
    /// The desktop alone: an earlier synchronisation took it from the desktop, and the handheld may not yet know.
    Gone,
}

/// Whose content both sides keep under the id.
#[derive(Clone, Copy)]
pub enum Keep {
    /// No record stays under the id.
    None,
    /// That of the base row.
    Base,
    /// That of the handheld.
    Handheld,
    /// That of the desktop.
    Desktop,
}

/// Whose contents are archived under the id.
#[derive(Clone, Copy)]
pub enum Archive {
    /// None is.
    None,
    /// That of the base row.
    Base,
    /// That of the handheld.
    Handheld,
    /// That of the desktop.
    Desktop,
    /// That of the handheld, and after it that of the desktop.
    Both,
}

/// One cell of the table.
#[derive(Clone, Copy)]
pub struct Outcome {
    /// What both sides keep under the id.
    pub keep: Keep,
    /// What is archived.
    pub archive: Archive,
    /// Whether the desktop's content is kept besides, as a new record.
    pub news: bool,
}

impl Outcome {
    // Both sides keep this content under the id.
    fn kept(keep: Keep) -> Outcome
        ensures { result ≡ kept keep }
    {
        Outcome {
            keep,
            archive: Archive::None,
            news: false,
        }
    }

    // The record goes from both sides into the archive.
    fn put_away(archive: Archive) -> Outcome
        ensures { result ≡ put_away archive }
    {
        Outcome {
            keep: Keep::None,
            archive,
            news: false,
        }
    }

    // The record goes from both sides.
    fn nothing() -> Outcome
        ensures { result ≡ nothing_left }
    {
        Outcome::put_away(Archive::None)
    }

    // Both changed it: the handheld's content stays under the id, and the desktop's becomes a new record.
    fn both_kept() -> Outcome
        ensures { result ≡ both_kept }
    {
        Outcome {
            keep: Keep::Handheld,
            archive: Archive::None,
            news: true,
        }
    }
}

/// The cell of a record that has a base row. `equal` says whether both sides hold equal contents, and is looked
/// at only where both contents differ from the base row's. A handheld that is `Gone` keeps nothing.
pub fn decide(handheld: Side, desktop: Side, equal: bool) -> Outcome
    ensures { result ≡ decision handheld desktop equal }
{
    match handheld {
        Side::Same => beside_same(desktop),
        Side::Changed => beside_changed(desktop, equal),
        Side::Deleted => beside_deleted(desktop),
        Side::ArchivedSame => beside_archived_same(desktop),
        Side::ArchivedChanged => beside_archived_changed(desktop, equal),
        Side::Gone => Outcome::nothing(),
    }
}

// The handheld has the content of the base row.
fn beside_same(desktop: Side) -> Outcome
    ensures { result ≡ with_same desktop }
{
    match desktop {
        Side::Same => Outcome::kept(Keep::Base),
        Side::Changed => Outcome::kept(Keep::Desktop),
        Side::Deleted | Side::Gone => Outcome::nothing(),
        Side::ArchivedSame => Outcome::put_away(Archive::Base),
        Side::ArchivedChanged => Outcome::put_away(Archive::Desktop),
    }
}

// The handheld changed the record.
fn beside_changed(desktop: Side, equal: bool) -> Outcome
    ensures { result ≡ with_changed desktop equal }
{
    match desktop {
        Side::Same | Side::Deleted | Side::ArchivedSame | Side::Gone => {
            Outcome::kept(Keep::Handheld)
        }
        Side::Changed if equal => Outcome::kept(Keep::Handheld),
        Side::ArchivedChanged if equal => Outcome::put_away(Archive::Handheld),
        Side::Changed | Side::ArchivedChanged => Outcome::both_kept(),
    }
}

// The handheld has no record, or a deleted one.
fn beside_deleted(desktop: Side) -> Outcome
    ensures { result ≡ with_deleted desktop }
{
    match desktop {
        Side::Same | Side::Deleted | Side::Gone => Outcome::nothing(),
        Side::Changed => Outcome::kept(Keep::Desktop),
        Side::ArchivedSame => Outcome::put_away(Archive::Base),
        Side::ArchivedChanged => Outcome::put_away(Archive::Desktop),
    }
}

// The handheld archived the record as it was.
fn beside_archived_same(desktop: Side) -> Outcome
    ensures { result ≡ with_archived_same desktop }
{
    match desktop {
        Side::Same | Side::Deleted | Side::ArchivedSame => Outcome::put_away(Archive::Base),
        Side::Changed => Outcome::kept(Keep::Desktop),
        Side::ArchivedChanged => Outcome::put_away(Archive::Desktop),
        Side::Gone => Outcome::nothing(),
    }
}

// The handheld changed the record and archived it.
fn beside_archived_changed(desktop: Side, equal: bool) -> Outcome
    ensures { result ≡ with_archived_changed desktop equal }
{
    match desktop {
        Side::Same | Side::Deleted | Side::ArchivedSame | Side::Gone => {
            Outcome::put_away(Archive::Handheld)
        }
        Side::Changed if equal => Outcome::put_away(Archive::Handheld),
        Side::Changed => Outcome::both_kept(),
        Side::ArchivedChanged if equal => Outcome::put_away(Archive::Handheld),
        Side::ArchivedChanged => Outcome::put_away(Archive::Both),
    }
}
