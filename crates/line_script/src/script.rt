// A script, and what it says of a frame.
ghost use Rattle.std.specs.Prelude.{◌≡◌, []};
ghost use Rattle.trace_text.specs.Fates.{fate_value};
ghost use Rattle.line_script.specs.Scripts.{fate_by};

use std::alloc::Global;
use std::marker::Model;
use trace_text::Fate;

/// A line of a script: a frame's number, and its fate.
#[derive(Drop)]
pub struct Rule {
    pub number: u32,
    pub fate: Fate,
}

/// What a line does with each frame of a run.
#[derive(Drop)]
pub struct Script {
    rules: Vec<Rule>,
    // The fate of a frame that no line names.
    unnamed: Fate,
}

impl Model for Script {
    ghost use Rattle.std.specs.Prelude.{◌≡◌, List, map};
    ghost use Rattle.trace_text.specs.Fates.{Untouched, fate_value};
    ghost use Rattle.line_script.specs.Rules.{RuleValue, rule_value};
    ghost use Rattle.line_script.specs.Scripts.{Rise};

    ghost Value = { List RuleValue };

    ghost view = { λ script. map rule_value script.rules.items };

    ghost invariant = { λ script. Rise 0 (map rule_value script.rules.items)
        × (fate_value script.unnamed ≡ Untouched) };
}

impl Script {
    ghost use Rattle.std.specs.Prelude.{map};
    ghost use Rattle.line_script.specs.Rules.{rule_value};
    ghost use Rattle.line_script.specs.Scripts.{Rise};

    /// A script of no lines. It takes no memory.
    pub fn empty(alloc: Global) -> Script
        ensures { result ≡ [] }
    {
        Script {
            rules: Vec::new(alloc),
            unnamed: Fate::Ok,
        }
    }

    // The script of these lines, whose numbers rise.
    pub(crate) fn of(rules: Vec<Rule>) -> Script
        requires { Rise 0 (map rule_value rules.items) }
        ensures { result ≡ map rule_value rules.items }
    {
        Script {
            rules,
            unnamed: Fate::Ok,
        }
    }

    /// The fate of the frame of this number.
    pub fn fate(&self, number: u64) -> &Fate
        ensures { fate_value result.now ≡ fate_by self.now number }
    {
        match self
            .rules
            .binary_search_by_key(&number, |rule| u64::from(rule.number))
        {
            Ok(place) => &self.rules[place].fate,
            Err(_) => &self.unnamed,
        }
    }
}
