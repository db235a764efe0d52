// Types and creators.

/// A code of four characters, as the type and the creator of a database or the type of a resource.
#[derive(Clone, Copy, PartialEq, Eq)]
pub struct FourCc(pub [u8; 4]);
