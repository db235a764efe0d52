// The limits of a side.
/// How much a database would make, with those before it.
#[derive(Clone, Copy, PartialEq, Eq)]
pub struct Sizes {
    /// The databases of the handheld with it, where the handheld gets it; else 0.
    pub handhelds: usize,
    /// The databases of the desktop with it, where the desktop gets it; else 0.
    pub desktops: usize,
    /// The handheld's records with the new ones.
    pub records: usize,
    /// The desktop's rows.
    pub rows: usize,
    /// The base rows, gone ones too.
    pub base: usize,
    /// The entries of the archive.
    pub archive: usize,
}
