// What properties say of a record of a Palm.
ghost use Rattle.std.specs.Prelude.{◌≡◌, ◌<◌, ◌++◌, ◌∷◌, [], OnOk, true};
ghost use Rattle.content_lines.specs.Properties.{IsBytes, is_name, is_plain};
ghost use Rattle.content_lines.specs.Records.{id_limit, mark_properties, uid, unread_bytes, unread_name};

use crate::property::Properties;
use crate::text::Text;
use pdb_values::RecordId;
use std::alloc::{AllocError, Global};

impl Properties {
    /// Appends the name that no other record has.
    pub fn push_uid(&mut self, alloc: Global, id: RecordId, stem: &str) -> Result<(), AllocError>
        requires { is_plain stem.now ≡ true }
        ensures property { OnOk result (self.new ≡ self.old ++ uid id stem.now ∷ []) }
        ensures id { OnOk result (id < id_limit) }
    {
        let mut value = Text::new(alloc, "")?;
        value.push_id(alloc, id)?;
        value.push_plain(".")?;
        value.push_plain(stem)?;
        value.push_plain("@palm")?;
        self.push(alloc, "UID", value)?;
        Ok(())
    }

    /// Appends what is said of a record that is out of its form.
    pub fn push_unread_name(
        &mut self,
        alloc: Global,
        name: &str,
        id: RecordId,
    ) -> Result<(), AllocError>
        requires { is_name name.now ≡ true }
        ensures { OnOk result (self.new ≡ self.old ++ unread_name name.now id ∷ []) }
    {
        let mut value = Text::new(alloc, "(unreadable record ")?;
        value.push_id(alloc, id)?;
        value.push_plain(")")?;
        self.push(alloc, name, value)?;
        Ok(())
    }

    /// Appends the bytes of such a record.
    pub fn push_unread_bytes(&mut self, alloc: Global, bytes: &[u8]) -> Result<(), AllocError>
        ensures { OnOk result (self.new ≡ self.old ++ unread_bytes bytes.now ∷ []) }
    {
        let mut value = Text::new(alloc, "")?;
        value.push_hex(alloc, bytes)?;
        self.push(alloc, "X-PALM-RECORD", value)?;
        Ok(())
    }

    /// Appends the label of a record's category and the mark of a private one.
    pub fn push_marks(
        &mut self,
        alloc: Global,
        label: &[u8],
        secret: bool,
    ) -> Result<(), AllocError>
        ensures marks { OnOk result (self.new ≡ self.old ++ mark_properties label.now secret) }
        ensures label { IsBytes label.now }
    {
        self.push_given(alloc, "CATEGORIES", label)?;
        if secret {
            self.push_plain(alloc, "CLASS", "PRIVATE")?;
        }
        Ok(())
    }
}
