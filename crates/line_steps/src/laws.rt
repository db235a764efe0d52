//! Laws of a line. Each function here does nothing: its contract is the law.
ghost use Rattle.line_steps.specs.Promising.{FairIsNeverDown, HaltedIsProper, HaltedTells, RunningIsProper, TurnTellsAll};

/// The frames of a running line are a proper trace by its script, whatever this says.
pub fn a_running_trace_is_proper()
    ensures { RunningIsProper }
{}

/// So are the frames of a line that halted, for whatever reason.
pub fn a_halted_trace_is_proper()
    ensures { HaltedIsProper }
{}

/// A line whose script has at most nine faults among any 64 neighbouring frames never goes down.
pub fn a_fair_line_is_never_down()
    ensures { FairIsNeverDown }
{}

/// The frames of a line that halted tell each end the messages of the other one: all that were begun, or all but the last.
pub fn a_halted_trace_tells_its_messages()
    ensures { HaltedTells }
{}

/// Where it is the turn of an end, they tell both ends all of them.
pub fn a_turn_tells_all_messages()
    ensures { TurnTellsAll }
{}
