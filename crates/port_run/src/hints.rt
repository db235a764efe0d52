// Hints for whoever called, on standard error. Nothing is promised of them: what can't be said is left out.
use cmd_status::Status;
use pdb_values::DbName;
use run_words::{CableWords, NamedAction, Target, cable_actions, sync_words};
use session_parts::DbReport;

/// Says which names of `--only` and `--actions` are those of no database, where a session ended.
pub(crate) fn hint_names<R: Eprint + AllocGlobal>(
    rt: &R,
    now: Option<u32>,
    words: &[String],
    status: &Status,
    databases: &[DbReport],
) {
    let Status::Done = status else {
        return;
    };
    if let Some(cable) = sync_words(now, words) {
        hint_cable(rt, &cable, databases);
    }
}

// The same by what the words ask for. Where they name nothing, none is told.
fn hint_cable<R: Eprint + AllocGlobal>(rt: &R, cable: &CableWords<'_>, databases: &[DbReport]) {
    if cable.only.is_none() && cable.actions.is_none() {
        return;
    }
    let option = if cable.only.is_some() {
        "--only"
    } else {
        "--actions"
    };
    if let Ok(items) = cable_actions(rt.alloc(), cable) {
        for item in &items {
            hint_item(rt, option, item, databases);
        }
    }
}

fn hint_item<R: Eprint + AllocGlobal>(
    rt: &R,
    option: &str,
    item: &NamedAction,
    databases: &[DbReport],
) {
    let Target::One(name) = &item.target else {
        return;
    };
    if is_told(name, databases) {
        return;
    }
    if let Ok(stem) = name.file_stem(rt.alloc()) {
        let _ = eprintln!(rt;
            "hint: no database is called {stem}, so its item of {option} did nothing"
        );
    }
}

fn is_told(name: &DbName, databases: &[DbReport]) -> bool {
    databases
        .iter()
        .any(|database| database.name.as_bytes() == name.as_bytes())
}
