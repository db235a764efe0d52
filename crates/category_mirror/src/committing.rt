// How the desktop commits what changes.
ghost use Rattle.std.specs.Prelude.{◌≡◌, IsTrue};
ghost use Rattle.category_mirror.specs.Changes.{AreCommittable, CommitsFiled, KeepsParted, MayCommit};

use desk_store::{CommitFault, DbChange, Desk, DeskChange};
use folder_files::Parted;
use hs_folders::Folder;
use pdb_values::{Database, Marks};

// The same marks once more.
fn same_marks(marks: &Marks) -> Marks
    ensures { result ≡ marks.now }
{
    Marks {
        pc: marks.pc,
        user: marks.user,
        last: marks.last,
        name: marks.name.copy(),
    }
}

// Commits these changes of the picked slot, all at once, where there are any. The slot keeps its marks, and which
// databases took no part in its last session.
pub(crate) fn commit_filed<D: Folder>(
    desk: Desk<D>,
    changes: Vec<DbChange>,
    parted: Vec<Parted>,
) -> Result<Desk<D>, (CommitFault, D)>
    requires fit { AreCommittable changes.items desk }
    requires kept { KeepsParted parted.items desk }
    ensures { CommitsFiled D.contents D.moments D.paths D.faults changes.items desk result }
{
    if changes.is_empty() {
        return Ok(desk);
    }
    let marks = same_marks(desk.marks());
    desk.commit(DeskChange {
        marks,
        parted,
        databases: changes,
    })
}

// Whether the desktop takes these changes: there are at most as many as it can have databases, and the picked slot may keep its marks.
pub(crate) fn may_commit<D: Folder>(desk: &Desk<D>, changes: &[DbChange]) -> bool
    ensures { IsTrue result → MayCommit changes.now desk.now }
{
    changes.len() <= Database::MOST && desk.may_bear(desk.marks())
}
