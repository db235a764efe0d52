// Whether a fast reading may be made.
ghost use Rattle.std.specs.Prelude.{◌≡◌};
ghost use Rattle.mirrors.specs.Agreements.{agreed};

use pdb_values::{Marks, UserInfo};

/// Whether the handheld was synchronized last with this desktop, and last well when the desktop
/// says so.
pub fn agree(handheld: &UserInfo, desktop: &Marks) -> bool
    ensures { result ≡ agreed handheld.now desktop.now }
{
    handheld.pc == desktop.pc && handheld.good == desktop.last
}
