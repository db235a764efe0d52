// What is done with one database.
ghost use Rattle.std.specs.Prelude.{◌≡◌};
ghost use Rattle.conduit_rules.specs.Fates.{looks_at_base};

/// Which side a synchronisation of one database goes by.
#[derive(Clone, Copy)]
pub enum Action {
    /// Both: the table decides, and no change of either side is lost.
    Sync,
    /// The handheld: the desktop gets what the handheld has.
    Handheld,
    /// The desktop: the handheld gets what the desktop has.
    Desktop,
    /// Both, as if they had never met: no base is looked at, and what is live on a side stays.
    Both,
}

impl Action {
    // Whether the base is looked at.
    pub(crate) fn looks_at_base(self) -> bool
        ensures { result ≡ looks_at_base self }
    {
        match self {
            Action::Sync | Action::Handheld | Action::Desktop => true,
            Action::Both => false,
        }
    }
}
