//! What follows when a desktop's end has heard something.

/// What follows when a desktop's end has heard something.
#[derive(Clone, Copy)]
pub enum Turn {
    /// It goes on.
    GoesOn,
    /// The last piece of its own message was acknowledged.
    Delivered,
    /// The message that it awaits is whole.
    Whole,
    /// A piece was said ten times, with a tick of silence behind each, and never acknowledged.
    Spent,
    /// A tick brought nothing while nothing of its own waits, and it bears more.
    Quiet,
    /// Nothing of its own waits, and no packet came for as many ticks as it has patience.
    Silent,
    /// The other end ended the connection.
    Aborted,
    /// A piece of the other end's greeting came, and told nothing new.
    Greeted,
}
