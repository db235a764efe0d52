// The calls of an object in memory: how many were made, and which of them are to fail.
ghost use Rattle.std.specs.Prelude.{◌≡◌, ◌+◌, ◌-◌, ◌^◌, ◌<◌, ◌↔◌, [], All, Contains, IsTrue};
ghost use Rattle.hs_folders.specs.Calls.{CountsCall};
ghost use Rattle.hs_folders.specs.Causes.{HasCause};

use std::alloc::Global;

#[derive(Drop)]
pub(crate) struct Calls {
    // The numbers of the calls that are to fail. The first call is number 1.
    pub(crate) failing: Vec<u32>,
    pub(crate) made: u64,
    pub(crate) faults: u64,
}

impl Calls {
    pub(crate) fn new(alloc: Global) -> Self
        ensures none_fails { result.failing.items ≡ [] }
        ensures none_made { result.made ≡ 0 }
        ensures no_faults { result.faults ≡ 0 }
    {
        Calls {
            failing: Vec::new(alloc),
            made: 0,
            faults: 0,
        }
    }

    // Counts a call, and answers whether it is to fail. If so, that is a fault.
    pub(crate) fn count(&mut self) -> bool
        ensures counted { CountsCall self.old.made self.new.made
            self.old.failing.items self.new.failing.items (IsTrue result) }
        ensures cause { HasCause self.old.faults self.new.faults (IsTrue result) }
    {
        self.made = self.made.saturating_add(1);
        let is_failing = is_listed(&self.failing, self.made);
        if is_failing {
            self.faults = self.faults.saturating_add(1);
        }
        is_failing
    }
}

fn is_listed(numbers: &[u32], number: u64) -> bool
    ensures listed { IsTrue result ↔ Contains numbers.now number }
    ensures small { All (λ listed. listed < 2 ^ 32) numbers.now }
{
    match u32::try_from(number) {
        Ok(number) => numbers.contains(&number),
        Err(_) => false,
    }
}
