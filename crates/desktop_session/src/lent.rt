// Records and resources that are lent from a reply.
ghost use Rattle.std.specs.Prelude.{◌≡◌, ◌≤◌};

use pdb_values::{Category, FourCc, Kind, RecordId};

/// A record, lent from the reply without a copy. While it lives no other command can be sent.
#[derive(Drop)]
pub struct RecordLent<'o> {
    pub(crate) id: u32,
    pub(crate) attributes: u8,
    pub(crate) category: u8,
    pub(crate) bytes: &'o [u8],
    ghost bound: { id ≤ 16777215 },
    ghost sort: { category ≤ 15 },
}

impl<'o> RecordLent<'o> {
    ghost use Rattle.pdb_values.specs.Heads.{has_bit};
    ghost use Rattle.desktop_session.specs.Lent.{lent_kind};

    /// The record's id.
    pub fn id(&self) -> RecordId
        ensures { result ≡ self.now.id }
    {
        match RecordId::new(self.id) {
            Some(id) => id,
            None => unreachable!(),
        }
    }

    /// What the record stands for. An archived one was deleted and is to be kept in an archive, whether or not its handheld
    /// tells it as deleted, too.
    pub fn kind(&self) -> Kind
        ensures { result ≡ lent_kind self.now.attributes }
    {
        if self.attributes & 0x08 != 0 {
            Kind::Archived
        } else if self.attributes & 0x80 != 0 {
            Kind::Deleted
        } else {
            Kind::Live
        }
    }

    /// Whether it changed since the last HotSync.
    pub fn dirty(&self) -> bool
        ensures { result ≡ has_bit 0x40 self.now.attributes }
    {
        self.attributes & 0x40 != 0
    }

    /// Its category.
    pub fn category(&self) -> Category
        ensures { result ≡ self.now.category }
    {
        match Category::new(self.category) {
            Some(category) => category,
            None => unreachable!(),
        }
    }

    /// Whether the user marked it private.
    pub fn secret(&self) -> bool
        ensures { result ≡ has_bit 0x10 self.now.attributes }
    {
        self.attributes & 0x10 != 0
    }

    /// Its bytes.
    pub fn bytes(&self) -> &[u8]
        ensures { result.now ≡ self.now.bytes.now }
    {
        self.bytes
    }
}

/// A resource, lent from the reply without a copy. While it lives no other command can be sent.
#[derive(Drop)]
pub struct ResourceLent<'o> {
    pub(crate) kind: FourCc,
    pub(crate) id: u16,
    pub(crate) bytes: &'o [u8],
}

impl<'o> ResourceLent<'o> {
    /// Its type.
    pub fn kind(&self) -> FourCc
        ensures { result ≡ self.now.kind }
    {
        self.kind
    }

    /// Its id.
    pub fn id(&self) -> u16
        ensures { result ≡ self.now.id }
    {
        self.id
    }

    /// Its bytes.
    pub fn bytes(&self) -> &[u8]
        ensures { result.now ≡ self.now.bytes.now }
    {
        self.bytes
    }
}
