// Arguments, as `clap` is told of them.
ghost use Rattle.std.specs.Prelude.{◌≡◌, IfOk, false};
ghost use Rattle.clap.specs.Words.{app_of, rule_of, with_rule};
ghost use Rattle.run_clap.specs.Apps.{empty_app, option_rule, plain_rule};
ghost use Rattle.run_words.specs.Views.{option_view};

use clap::{Arg, ArgAction, Command};
use run_words::{FormOption, name_of};
use std::alloc::{AllocError, Global};

// A plain word that has to stand.
pub fn plain_arg<'a>(alloc: Global, id: &'a str) -> Arg<'a>
    ensures rule { rule_of result ≡ plain_rule id.entry.now }
    ensures local { result.global ≡ false }
{
    Arg::new(alloc, id).required(true)
}

// An option with a value, or a flag.
pub fn option_arg<'a>(alloc: Global, option: &FormOption<'a>) -> Arg<'a>
    ensures rule { rule_of result ≡ option_rule (option_view option.now) }
    ensures local { result.global ≡ false }
{
    let name = name_of(option);
    let arg = Arg::new(alloc, name).long(name);
    match option {
        FormOption::Needed(_) => arg.required(true),
        FormOption::Allowed(_) => arg,
        FormOption::Flag(_) => arg.action(ArgAction::SetTrue),
    }
}

// With one more argument.
pub fn with_arg<'a>(command: Command<'a>, arg: Arg<'a>) -> Result<Command<'a>, AllocError>
    requires { arg.global ≡ false }
    ensures { IfOk result (λ more.
        app_of more ≡ with_rule (app_of command.entry) (rule_of arg.entry)) }
{
    let more = command.arg(arg)?;
    Ok(more)
}

// With no argument, and no help.
pub fn empty_command<'a>(alloc: Global) -> Command<'a>
    ensures { app_of result ≡ empty_app }
{
    Command::new(alloc, "hotsync").disable_help_flag(true)
}
