// Records out of their form.

/// A record that is not in its form, and the place in it where that shows.
#[derive(Clone, Copy, Debug)]
pub struct BadRecord {
    pub place: usize,
}
