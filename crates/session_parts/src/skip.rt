// Why a session leaves a database alone.

/// Why a database is skipped: nothing of it changes on either side.
#[derive(Clone, Copy, PartialEq, Eq)]
pub enum Skip {
    /// That is what its action asks for.
    Nothing,
    /// A side's database holds resources (attribute 0x0001).
    Resource,
    /// A side's database is not to be changed (attribute 0x0002).
    ReadOnly,
    /// A side's database is a stream (attribute 0x0080).
    Stream,
    /// Its type or its creator differs between the sides.
    Differs,
    /// The side that its action goes by lacks it, or the handheld lost what an earlier session left on both.
    Missing,
    /// Its categories are to be brought together, and the app block of a side begins with no table of them.
    Blocks,
}
