// What holds of the texts.
ghost use Rattle.std.specs.Prelude.{◌≡◌, All, Bool, List, true};
ghost use Rattle.palm_events.specs.declared.rule.Rule.{Rule};
ghost use Rattle.content_lines.specs.Properties.{is_plain};
ghost use Rattle.calendar_export.specs.Components.{SourceValue};
ghost use Rattle.calendar_export.specs.Dates.{IsRule};
ghost use Rattle.calendar_export.specs.RuleValues.{rule_value};
ghost use Rattle.calendar_export.specs.Items.{IsItem, Item, calendar_text};
ghost use Rattle.calendar_export.specs.declared.kind.Kind.TheVariants.{Dates, Tasks};

/// One text is that of one list of tasks: their ids, labels and privacy, their days, priorities and texts, which of them
/// are done, and the bytes of those that are out of their form.
pub fn a_text_is_that_of_one_list_of_tasks()
    ensures { (source : SourceValue) (a b : List Item) → is_plain source.stem ≡ true
        → All (IsItem Tasks) a → All (IsItem Tasks) b
        → calendar_text source a ≡ calendar_text source b → a ≡ b }
{}

/// One text is that of one list of dates: their ids, labels and privacy, their days, times, rules, exceptions, alarms and
/// texts, and the bytes of those that are out of their form.
pub fn a_text_is_that_of_one_list_of_dates()
    ensures { (source : SourceValue) (a b : List Item) → is_plain source.stem ≡ true
        → All (IsItem Dates) a → All (IsItem Dates) b
        → calendar_text source a ≡ calendar_text source b → a ≡ b }
{}

/// One value is that of one rule of recurrence, of a date that has a time or not.
pub fn a_value_is_that_of_one_rule()
    ensures { (timed : Bool) (a b : Rule) → IsRule a → IsRule b
        → rule_value timed a ≡ rule_value timed b → a ≡ b }
{}
