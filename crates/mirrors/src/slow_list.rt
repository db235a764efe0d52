// Lists that grow.
ghost use Rattle.std.specs.Prelude.{◌≡◌, ◌++◌, ◌∷◌, [], IfErr, OnOk};
ghost use Rattle.desktop_session.specs.declared.fault.SessionFault.TheVariants as session;

use desktop_session::SessionFault;
use std::alloc::AllocError;

// Appends one more.
pub(crate) fn push<T: Drop>(items: &mut Vec<T>, item: T) -> Result<(), SessionFault>
    ensures items { OnOk result (items.new.items ≡ items.old.items ++ item ∷ []) }
    ensures memory { IfErr result (λ fault. fault ≡ session.NoMemory) }
{
    items.push(item).map_err(AllocError::from)?;
    Ok(())
}
