//! What holds of all scripts. The function does nothing: its contract is the law.
ghost use Rattle.std.specs.Prelude.{◌≡◌, List, ℕ, Result, Err};
ghost use Rattle.line_script.specs.Rules.{RuleValue};
ghost use Rattle.line_script.specs.Scripts.{IsReading};
ghost use Rattle.line_script.specs.declared.fault.ScriptFault.{ScriptFault};
ghost use Rattle.line_script.specs.declared.fault.ScriptFault.TheVariants.{NoMemory};

/// A text is one script, or has one fault: so each answer of `read_script` comes exactly where it is that, unless memory ran
/// out.
pub fn a_text_has_one_reading()
    ensures { (bytes : List ℕ) (x y : Result (List RuleValue) ScriptFault) → IsReading bytes x
        → IsReading bytes y →
        ¬ (x ≡ Err NoMemory) → ¬ (y ≡ Err NoMemory) → x ≡ y }
{}
