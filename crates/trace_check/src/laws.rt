//! What holds of all traces. The functions do nothing: their contracts are the laws.
ghost use Rattle.std.specs.Prelude.{◌≡◌, List, ℕ, Result, Ok, Err};
ghost use Rattle.trace_text.specs.TraceLines.{FrameValue, trace_text};
ghost use Rattle.trace_check.specs.Judging.{HasOneVerdict, HasSevenRules, SaysItsFates, SaysItsMessages, SpeaksForItself};
ghost use Rattle.trace_check.specs.Readings.{AreTraced, IsTraceReading};
ghost use Rattle.trace_check.specs.declared.fault.TraceFault.{TraceFault};
ghost use Rattle.trace_check.specs.declared.fault.TraceFault.TheVariants.{NoMemory};

/// A text is one trace, or has one fault: so each answer of `read_trace` comes exactly where it is that, unless memory ran out.
pub fn a_text_is_one_trace()
    ensures { (bytes : List ℕ) (x y : Result (List FrameValue) TraceFault)
        → IsTraceReading bytes x → IsTraceReading bytes y
        → ¬ (x ≡ Err NoMemory) → ¬ (y ≡ Err NoMemory) → x ≡ y }
{}

/// What is read of the text of a trace is that trace, unless memory ran out.
pub fn a_written_trace_is_read()
    ensures { (frames : List FrameValue) (read : Result (List FrameValue) TraceFault)
        → AreTraced 1 frames → IsTraceReading (trace_text frames) read
        → ¬ (read ≡ Err NoMemory) → read ≡ Ok frames }
{}

/// A trace is proper exactly where it keeps the seven rules.
pub fn the_rules_are_the_definition()
    ensures { HasSevenRules }
{}

/// A trace is proper, with one number of requests and one of replies, or has one first rule that it breaks.
pub fn a_trace_has_one_verdict()
    ensures { HasOneVerdict }
{}

/// A trace speaks for itself: what is proper by some script and some messages, as the trace of every run is, is proper by the
/// fates and the messages that its frames say. Where the messages begin with the greetings, it is a proper trace.
pub fn a_trace_speaks_for_itself()
    ensures fates { SaysItsFates }
    ensures messages { SaysItsMessages }
    ensures trace { SpeaksForItself }
{}
