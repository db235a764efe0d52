//! Laws of the line. Each function here does nothing: its contract is the law.
ghost use Rattle.std.specs.Prelude.{◌≡◌, ◌≤◌, ℕ, List, length};
ghost use Rattle.line_laws.specs.Promises.{HasProperTrace, HasTenFaults};
ghost use Rattle.trace_text.specs.Past.{PastFrame, at};

/// The past when so many frames had been sent has so many frames.
pub fn past_grows()
    ensures { (n : ℕ) (past : List PastFrame) → n ≤ length past → length (at n past) ≡ n }
{}

/// The frames of a running line are a proper trace, whatever the script did with them.
pub fn a_running_line_has_a_proper_trace()
    ensures { HasProperTrace }
{}

/// Where an end waits with its last try and nothing can be delivered any more, ten faults stand among the last 53 frames.
pub fn a_dead_line_has_ten_faults()
    ensures { HasTenFaults }
{}
