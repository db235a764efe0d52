//! What holds of the examples. Each function here does nothing: its contract is the law.
ghost use Rattle.std.specs.Prelude.{ℕ};
ghost use Rattle.trace_text.specs.Fates.{FateValue};
ghost use Rattle.trace_text.specs.Proper.{IsProper};
ghost use Rattle.trace_text.specs.Talks.{Talk};
ghost use Rattle.line_laws.specs.Examples.{changed_frames, losing, losing_frames, quiet, quiet_frames, talk};

/// A session between two empty folders over a line that loses nothing.
pub fn a_quiet_line_has_a_proper_trace()
    ensures { IsProper quiet talk quiet_frames }
{}

/// The same over a line that loses the acknowledgement of the first request, and the first reply.
pub fn a_losing_line_has_a_proper_trace()
    ensures { IsProper losing talk losing_frames }
{}

/// With one digit changed the trace is proper by no script and for no messages.
pub fn a_changed_digit_is_noticed()
    ensures { (script : ℕ → FateValue) (messages : Talk)
        → ¬ (IsProper script messages changed_frames) }
{}
