// The table of commands: the form of the words behind each.
ghost use Rattle.std.specs.Prelude.{◌≡◌, map, option_map, string_bytes};
ghost use Rattle.run_words.specs.Tables.{form_at_port as ported_form_of_command, form_behind as form_of_command, form_of as form_of_words};
ghost use Rattle.run_words.specs.Views.{form_view};

use crate::form::FormOption::{Allowed, Flag, Needed};
use crate::form::{WordForm, value_of};
use crate::topic::CommandWord;

const RUN: WordForm<'static> = WordForm {
    plain: &["handheld", "desktop"],
    options: &[
        Needed("date"),
        Allowed("script"),
        Allowed("trace"),
        Allowed("only"),
        Allowed("actions"),
        Allowed("user"),
        Flag("slow"),
        Flag("add-user"),
        Flag("dry-run"),
    ],
};

/// The form of the words behind `sync`.
pub const CABLE: WordForm<'static> = WordForm {
    plain: &["port", "desktop"],
    options: &[
        Needed("date"),
        Allowed("only"),
        Allowed("trace"),
        Allowed("actions"),
        Allowed("user"),
        Flag("slow"),
        Flag("add-user"),
    ],
};

const FILE: WordForm<'static> = WordForm {
    plain: &["file"],
    options: &[],
};

const SHOW: WordForm<'static> = WordForm {
    plain: &["file"],
    options: &[Flag("records")],
};

const EXPORT: WordForm<'static> = WordForm {
    plain: &["file"],
    options: &[
        Needed("as"),
        Allowed("date"),
        Flag("without-private"),
        Flag("keep-broken"),
        Flag("raw"),
    ],
};

/// The form of the words behind `import`.
pub const IMPORT: WordForm<'static> = WordForm {
    plain: &["file"],
    options: &[Needed("as"), Allowed("like")],
};

const PACKET: WordForm<'static> = WordForm {
    plain: &["hex"],
    options: &[],
};

const MAKE: WordForm<'static> = WordForm {
    plain: &["seed", "count"],
    options: &[],
};

// Its line loses nothing, so there is no script.
const INSTALL: WordForm<'static> = WordForm {
    plain: &["handheld", "file"],
    options: &[Allowed("trace")],
};

const BETWEEN: WordForm<'static> = WordForm {
    plain: &["handheld", "other"],
    options: &[Allowed("script"), Allowed("trace")],
};

const CAPTURE: WordForm<'static> = WordForm {
    plain: &["handheld"],
    options: &[Needed("in"), Needed("out")],
};

/// The form of the words behind `device` where a port is named.
pub const DOCK: WordForm<'static> = WordForm {
    plain: &["handheld"],
    options: &[Needed("port"), Allowed("trace")],
};

/// The form of the words behind `run` where a port is named, which then lack a script and a dry run.
pub const PORTED_RUN: WordForm<'static> = WordForm {
    plain: &["desktop"],
    options: &[
        Needed("date"),
        Needed("port"),
        Allowed("only"),
        Allowed("trace"),
        Allowed("actions"),
        Allowed("user"),
        Flag("slow"),
        Flag("add-user"),
    ],
};

/// The form of the words behind `backup` where a port is named.
pub const PORTED: WordForm<'static> = WordForm {
    plain: &["other"],
    options: &[Needed("port"), Allowed("trace")],
};

/// The form of the words behind a command.
pub fn form_behind(command: CommandWord) -> WordForm<'static>
    ensures { form_view result ≡ form_of_command command }
{
    match command {
        CommandWord::Run => RUN,
        CommandWord::Check => FILE,
        CommandWord::Show => SHOW,
        CommandWord::Export => EXPORT,
        CommandWord::Import => IMPORT,
        CommandWord::Verify => FILE,
        CommandWord::Picture => FILE,
        CommandWord::Packet => PACKET,
        CommandWord::Install => INSTALL,
        CommandWord::Backup => BETWEEN,
        CommandWord::Restore => BETWEEN,
        CommandWord::Device => CAPTURE,
        CommandWord::Categories => BETWEEN,
        CommandWord::Sync => CABLE,
        CommandWord::Make => MAKE,
    }
}

// The form of the words behind a command where one of them names a port, if it has one.
fn form_at_port(command: CommandWord) -> Option<WordForm<'static>>
    ensures { option_map form_view result ≡ ported_form_of_command command }
{
    match command {
        CommandWord::Run => Some(PORTED_RUN),
        CommandWord::Backup => Some(PORTED),
        _ => None,
    }
}

/// The form by which these words behind a command are judged.
pub(crate) fn form_of(command: CommandWord, words: &[String]) -> WordForm<'static>
    ensures { form_view result ≡ form_of_words command (map string_bytes words.now) }
{
    if value_of(words, "port").is_none() {
        return form_behind(command);
    }
    match form_at_port(command) {
        Some(form) => form,
        None => form_behind(command),
    }
}
