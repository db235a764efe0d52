//! What was said and heard over a cable.

/// A packet that came.
#[derive(Drop)]
pub struct HeardPacket {
    pub dest: u8,
    pub source: u8,
    pub kind: u8,
    pub id: u8,
    pub body: Vec<u8>,
}

/// What was said or heard over a cable.
#[derive(Drop)]
pub enum Entry {
    /// The bytes of the packet that the desktop said.
    Said(Vec<u8>),
    /// A packet that came.
    Heard(HeardPacket),
    /// A tick that brought nothing.
    Silent,
}
