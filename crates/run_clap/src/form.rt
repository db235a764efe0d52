// The form of words, as `clap` is told of it.
ghost use Rattle.std.specs.Prelude.{◌≡◌, IfOk, map};
ghost use Rattle.clap.specs.Words.{app_of};
ghost use Rattle.run_clap.specs.Apps.{empty_app, form_app, option_rule, plain_rule, with_rules};
ghost use Rattle.run_words.specs.Views.{form_view, option_view};

use crate::argument::{empty_command, option_arg, plain_arg, with_arg};
use clap::Command;
use run_words::{FormOption, WordForm};
use std::alloc::{AllocError, Global};

// With plain words of these names.
fn with_plain<'a>(
    alloc: Global,
    command: Command<'a>,
    names: &'a [&'a str],
) -> Result<Command<'a>, AllocError>
    ensures { IfOk result (λ more. app_of more
        ≡ with_rules (app_of command.entry) (map plain_rule (map (λ name. name.now) names.entry.now))) }
{
    let mut more = command;
    for name in names {
        more = with_arg(more, plain_arg(alloc, *name))?;
    }
    Ok(more)
}

// With these options.
fn with_options<'a>(
    alloc: Global,
    command: Command<'a>,
    options: &'a [FormOption<'a>],
) -> Result<Command<'a>, AllocError>
    ensures { IfOk result (λ more. app_of more
        ≡ with_rules (app_of command.entry) (map option_rule (map option_view options.entry.now))) }
{
    let mut more = command;
    for option in options {
        more = with_arg(more, option_arg(alloc, option))?;
    }
    Ok(more)
}

/// The command of a form.
pub fn form_command<'a>(alloc: Global, form: &WordForm<'a>) -> Result<Command<'a>, AllocError>
    ensures { IfOk result (λ command. app_of command ≡ form_app (form_view form.now)) }
{
    let plain = with_plain(alloc, empty_command(alloc), form.plain)?;
    let whole = with_options(alloc, plain, form.options)?;
    Ok(whole)
}
