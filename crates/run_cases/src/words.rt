// What words say.
use pdb_values::DbName;
use run_clap::{
    BetweenWords, CaptureWords, Command, ExportForm, ImportForm, Look, LookWords, RunWords, Topic,
    WordsFault, read_command,
};
use run_words::{
    ActionWord, CableWords, CommandWord, DockWords, PortedWords, Target, action_of, command_of,
    docking_words, help_of, is_docking, is_sync, names_port, ported_words, run_actions, sync_words,
};
use std::alloc::{AllocError, Global};
use std::fmt::Write;

/// What the words of a line are read as.
pub fn words_text(alloc: Global, now: Option<u32>, line: &str) -> Result<String, AllocError> {
    let mut words = Vec::new(alloc);
    for word in line.split(' ') {
        words.push(String::from_str(alloc, word)?)?;
    }
    if is_docking(&words) {
        return docking_text(alloc, docking_words(&words));
    }
    if is_sync(&words) {
        return match sync_words(now, &words) {
            Some(cable) => cable_text(alloc, &cable),
            None => String::from_str(alloc, "usage\n"),
        };
    }
    if names_port(&words, "backup") && help_of(&words).is_none() {
        return ported_text(alloc, ported_words("backup", &words));
    }
    let in_form = command_of(now, &words).is_some();
    match read_command(alloc, now, &words) {
        Ok(Command::Run(run)) => run_text(alloc, "run", &run),
        Ok(Command::DryRun(run)) => run_text(alloc, "dry run", &run),
        Ok(Command::Look(look)) => look_text(alloc, &look),
        Ok(Command::Packet(packet)) => format!(in alloc; "packet hex {}\n", packet.hex),
        Ok(Command::Make(make)) => {
            format!(in alloc; "make seed {} count {}\n", make.seed, make.count)
        }
        Ok(Command::Install(words)) => install_text(alloc, &words),
        Ok(Command::Backup(words)) => between_text(alloc, "backup", &words),
        Ok(Command::Restore(words)) => between_text(alloc, "restore", &words),
        Ok(Command::Categories(words)) => categories_text(alloc, &words),
        Ok(Command::Device(words)) => device_text(alloc, &words),
        Ok(Command::Help(topic)) => String::from_str(alloc, topic_text(topic)),
        Err(WordsFault::Usage) if !in_form => String::from_str(alloc, "usage\n"),
        Err(_) => String::from_str(alloc, "no memory\n"),
    }
}

fn topic_text(topic: Topic) -> &'static str {
    match topic {
        Topic::Program => "help\n",
        Topic::Version => "version\n",
        Topic::Of(command) => command_text(command),
    }
}

fn command_text(command: CommandWord) -> &'static str {
    match command {
        CommandWord::Run => "help run\n",
        CommandWord::Check => "help check\n",
        CommandWord::Show => "help show\n",
        CommandWord::Export => "help export\n",
        CommandWord::Import => "help import\n",
        CommandWord::Verify => "help verify\n",
        CommandWord::Picture => "help picture\n",
        CommandWord::Packet => "help packet\n",
        CommandWord::Install => "help install\n",
        CommandWord::Backup => "help backup\n",
        CommandWord::Restore => "help restore\n",
        CommandWord::Device => "help device\n",
        CommandWord::Categories => "help categories\n",
        CommandWord::Sync => "help sync\n",
        CommandWord::Make => "help make\n",
    }
}

fn install_text(alloc: Global, words: &BetweenWords<'_>) -> Result<String, AllocError> {
    format!(in alloc;
        "install handheld {} other {} trace {}\n",
        words.handheld,
        words.other,
        words.trace.unwrap_or("-")
    )
}

fn between_text(
    alloc: Global,
    command: &str,
    words: &BetweenWords<'_>,
) -> Result<String, AllocError> {
    format!(in alloc;
        "{command} handheld {} other {} script {} trace {}\n",
        words.handheld,
        words.other,
        words.script.unwrap_or("-"),
        words.trace.unwrap_or("-")
    )
}

fn categories_text(alloc: Global, words: &BetweenWords<'_>) -> Result<String, AllocError> {
    format!(in alloc;
        "categories handheld {} other {} script {} trace {}\n",
        words.handheld,
        words.other,
        words.script.unwrap_or("-"),
        words.trace.unwrap_or("-")
    )
}

fn device_text(alloc: Global, words: &CaptureWords<'_>) -> Result<String, AllocError> {
    format!(in alloc;
        "device handheld {} in {} out {}\n",
        words.handheld, words.input, words.output
    )
}

// A handheld at a port.
fn docking_text(alloc: Global, words: Option<DockWords<'_>>) -> Result<String, AllocError> {
    match words {
        Some(dock) => format!(in alloc;
            "device handheld {} port {} trace {}\n",
            dock.handheld,
            dock.port,
            dock.trace.unwrap_or("-")
        ),
        None => String::from_str(alloc, "usage\n"),
    }
}

// A session over a cable.
fn cable_text(alloc: Global, cable: &CableWords<'_>) -> Result<String, AllocError> {
    format!(in alloc;
        "sync port {} desktop {} date {} trace {} only {} slow {} user {} add-user {} actions {}\n",
        cable.port,
        cable.desktop,
        cable.date.seconds(),
        cable.trace.unwrap_or("-"),
        cable.only.unwrap_or("-"),
        cable.slow,
        cable.user.unwrap_or("-"),
        cable.add_user,
        cable.actions.unwrap_or("-")
    )
}

// A backup of the handheld at a port.
fn ported_text(alloc: Global, words: Option<PortedWords<'_>>) -> Result<String, AllocError> {
    match words {
        Some(ported) => format!(in alloc;
            "backup port {} other {} trace {}\n",
            ported.port,
            ported.other,
            ported.trace.unwrap_or("-")
        ),
        None => String::from_str(alloc, "usage\n"),
    }
}

fn look_text(alloc: Global, words: &LookWords<'_>) -> Result<String, AllocError> {
    let file = words.file;
    match words.look {
        Look::Check => format!(in alloc; "check file {file}\n"),
        Look::Show => format!(in alloc; "show file {file}\n"),
        Look::Records => format!(in alloc; "show file {file} records\n"),
        Look::Verify => format!(in alloc; "verify file {file}\n"),
        Look::Picture => format!(in alloc; "picture file {file}\n"),
        Look::Export(export) => {
            let form = form_text(alloc, export.form)?;
            let (without, keep) = (export.without_private, export.keep_broken);
            let raw = export.raw;
            format!(in alloc;
                "export file {file} as {form} without-private {without} keep-broken {keep} raw {raw}\n"
            )
        }
        Look::Import(ImportForm::Text) => format!(in alloc; "import file {file} as txt\n"),
    }
}

fn form_text(alloc: Global, form: ExportForm) -> Result<String, AllocError> {
    match form {
        ExportForm::Text => String::from_str(alloc, "txt"),
        ExportForm::Cards => String::from_str(alloc, "vcf"),
        ExportForm::Table => String::from_str(alloc, "csv"),
        ExportForm::Calendar(made) => format!(in alloc; "ics date {}", made),
    }
}

fn run_text(alloc: Global, command: &str, run: &RunWords<'_>) -> Result<String, AllocError> {
    let actions = actions_text(alloc, run)?;
    format!(in alloc;
        "{command} handheld {} desktop {} date {} script {} trace {} only {} slow {} user {} add-user {} actions{actions}\n",
        run.handheld,
        run.desktop,
        run.date.seconds(),
        run.script.unwrap_or("-"),
        run.trace.unwrap_or("-"),
        run.choice.only.unwrap_or("-"),
        run.slow,
        run.user.unwrap_or("-"),
        run.add_user
    )
}

// The names with their actions, and what is done with `MemoDB`.
fn actions_text(alloc: Global, run: &RunWords<'_>) -> Result<String, AllocError> {
    let mut said = String::new(alloc);
    let actions = run_actions(alloc, run)?;
    if actions.is_empty() {
        said.push_str(" -")?;
        return Ok(said);
    }
    for item in &actions {
        let target = target_text(alloc, &item.target)?;
        write!(said, " {target} {}", action_word(item.action))?;
    }
    if let Ok(name) = DbName::new(b"MemoDB") {
        let memos = action_word(action_of(&actions, &name));
        write!(said, "; MemoDB {memos}")?;
    }
    Ok(said)
}

// `*`, or the stem of a name.
fn target_text(alloc: Global, target: &Target) -> Result<String, AllocError> {
    match target {
        Target::Others => String::from_str(alloc, "*"),
        Target::One(name) => name.file_stem(alloc),
    }
}

fn action_word(action: ActionWord) -> &'static str {
    match action {
        ActionWord::Sync => "sync",
        ActionWord::Handheld => "handheld",
        ActionWord::Desktop => "desktop",
        ActionWord::Both => "both",
        ActionWord::Nothing => "nothing",
    }
}
