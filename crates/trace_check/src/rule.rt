// The rules of a proper trace, and what is found of one.

/// A rule of a proper trace, in the order in which they are judged. `specs/Judging.antt` says each.
#[derive(Clone, Copy)]
pub enum Rule {
    /// The frames are numbered from 1 on, and none stands behind one that ends the run.
    A,
    /// Each frame bears a fragment in a packet.
    B,
    /// The frames of a direction come in order.
    C,
    /// Each end says the fragments of messages, none more than ten times in a row, and again only for a fault.
    D,
    /// An end goes on once it knows that its fragment was taken.
    E,
    /// A message begins once what it answers was taken.
    F,
    /// What came is acknowledged in order.
    G,
}

/// What a trace is.
#[derive(Clone, Copy)]
pub enum Verdict {
    /// It is proper, with so many whole requests and whole replies.
    Proper { requests: u32, replies: u32 },
    /// This is the first rule that it breaks.
    Not(Rule),
}
