// What is said beside a word at fault.
ghost use Rattle.std.specs.Prelude.{◌≡◌};
ghost use Rattle.cmd_status.specs.Reasons as reasons;

use run_words::{CommandWord, FaultKind};

// The forms that a command knows.
fn known_forms(command: Option<CommandWord>) -> &'static str
    ensures { result.now ≡ reasons.known_forms command }
{
    match command {
        Some(CommandWord::Import) => ": import takes txt alone",
        _ => ": one of txt, vcf, csv, ics",
    }
}

// What the value of the option of this name is not.
fn value_reason(command: Option<CommandWord>, name: &str) -> &'static str
    ensures { result.now ≡ reasons.value_reason command name.now }
{
    match name {
        "date" => ": not YYYY-MM-DDTHH:MM:SS from 1904 to 2040, nor now",
        "as" => known_forms(command),
        "actions" => {
            ": not STEM:WORD,STEM:WORD.. with WORD one of sync, both, handheld, desktop, nothing"
        }
        "only" => ": not STEM,STEM.., the names of files without .pdb",
        "user" => ": not 1 to 40 characters that a handheld has",
        _ => "",
    }
}

// Who wants a date.
fn date_wish(command: Option<CommandWord>) -> &'static str
    ensures { result.now ≡ reasons.date_wish command }
{
    match command {
        Some(CommandWord::Export) => ": --as=ics wants it, so write --date=now",
        _ => ": write --date=now",
    }
}

// What stands in the place of the option of this name.
fn missing_reason(command: Option<CommandWord>, name: &str) -> &'static str
    ensures { result.now ≡ reasons.missing_reason command name.now }
{
    match name {
        "date" => date_wish(command),
        "as" => known_forms(command),
        "in" | "out" => ": write --in=F and --out=F, or --port=PORT",
        _ => "",
    }
}

// What the plain words of a command are.
fn plain_wish(command: Option<CommandWord>) -> &'static str
    ensures { result.now ≡ reasons.plain_wish command }
{
    match command {
        Some(CommandWord::Packet) => ": not pairs of the digits 0 to 9 and a to f",
        Some(CommandWord::Make) => ": not a seed below 2^64, or a count from 1 to 5000",
        _ => "",
    }
}

// Why a plain word means nothing.
fn plain_reason(command: Option<CommandWord>, word: &str) -> &'static str
    ensures { result.now ≡ reasons.plain_reason command word.now }
{
    if word.is_empty() {
        "that is empty"
    } else {
        plain_wish(command)
    }
}

// A shell makes two words of a name with a space.
const QUOTES_WISH: &str = ": a name with a space in it wants quotes";

// Why none is to stand there.
fn extra_reason(command: Option<CommandWord>, word: &str) -> &'static str
    ensures { result.now ≡ reasons.extra_reason command word.now }
{
    match command {
        Some(CommandWord::Packet) => ": the digits stand in one word",
        Some(CommandWord::Export) if word == "--date" => ": it stands beside --as=ics alone",
        Some(CommandWord::Make) | None => "",
        Some(_) => QUOTES_WISH,
    }
}

// The plain words that stand behind a command.
fn few_reason(command: Option<CommandWord>) -> &'static str
    ensures { result.now ≡ reasons.few_reason command }
{
    let Some(command) = command else {
        return "";
    };
    match command {
        CommandWord::Run => ": HANDHELD or --port=PORT, and DESKTOP",
        CommandWord::Check => ": FILE",
        CommandWord::Show => ": FILE",
        CommandWord::Export => ": FILE",
        CommandWord::Import => ": FILE",
        CommandWord::Verify => ": FILE",
        CommandWord::Picture => ": FILE",
        CommandWord::Packet => ": HEX",
        CommandWord::Install => ": HANDHELD and FILE",
        CommandWord::Backup => ": HANDHELD or --port=PORT, and FOLDER",
        CommandWord::Restore => ": HANDHELD and FOLDER",
        CommandWord::Device => ": HANDHELD",
        CommandWord::Categories => ": HANDHELD and DESKTOP",
        CommandWord::Sync => ": PORT and DESKTOP",
        CommandWord::Make => ": SEED and N",
    }
}

/// What is said beside a word with this fault, which is a word or the name of an option: what it is not, or what stands in its
/// place. It is empty where the fault says all.
pub(crate) fn reason(command: Option<CommandWord>, kind: FaultKind, word: &str) -> &'static str
    ensures { result.now ≡ reasons.reason command kind word.now }
{
    match kind {
        FaultKind::NoValue => ": its value stands behind =",
        FaultKind::ExtraValue => ": it has no value",
        FaultKind::Twice => ": leave one of both away",
        FaultKind::TooFew => few_reason(command),
        FaultKind::Extra => extra_reason(command, word),
        FaultKind::Missing => missing_reason(command, word),
        FaultKind::BadOption => value_reason(command, word),
        FaultKind::BadWord => plain_reason(command, word),
        _ => "",
    }
}
