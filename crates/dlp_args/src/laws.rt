// What holds of the texts of arguments.
ghost use Rattle.std.specs.Prelude.{◌≡◌, ℕ, List, length, Ok};
ghost use Rattle.std.specs.List.{AllByRecursion};
ghost use Rattle.dlp_args.specs.Arguments.{Argument, IsArgument, ArgTexts, arg_texts};
ghost use Rattle.dlp_args.specs.Reading.{arguments_at};

/// The law of writing and reading: what is written of arguments is one of their texts, and is read as these arguments
/// at every place.
pub fn round_trip()
    ensures text { (arguments : List Argument) → AllByRecursion IsArgument arguments
        → ArgTexts arguments (arg_texts arguments) }
    ensures again { (arguments : List Argument) (place : ℕ) → AllByRecursion IsArgument arguments
        → arguments_at (length arguments) place (arg_texts arguments) ≡ Ok arguments }
{}
