//! The calls of a port in memory, and from where on they fail.
ghost use Rattle.std.specs.Prelude.{◌≡◌, ◌-◌, ◌↔◌, IsTrue, Some, None, option_map};
ghost use Rattle.hs_folders.specs.Causes.{HasCause};

#[derive(Drop)]
pub(crate) struct Calls {
    // How many of the next ones don't fail. None says all.
    pub(crate) good: Option<u64>,
    pub(crate) faults: u64,
}

impl Calls {
    // Counts a call, and answers whether it is to fail.
    pub(crate) fn count(&mut self) -> bool
        ensures good { self.new.good ≡ option_map (λ good. good - 1) self.old.good }
        ensures exactly { IsTrue result ↔ (self.old.good ≡ Some 0) }
        ensures cause { HasCause self.old.faults self.new.faults (IsTrue result) }
    {
        match self.good {
            None => false,
            Some(0) => {
                self.faults = self.faults.saturating_add(1);
                true
            }
            Some(good) => {
                self.good = Some(good - 1);
                false
            }
        }
    }
}
