// Contents, plans and base rows, as lines write them.
use case_words::{bytes_in, number_in, part};
use conduit_rules::Plan;
use pdb_values::{Category, Content, Record, RecordId};
use std::alloc::{AllocError, Global};

/// A content, which is secret where the number of its category is above 15.
pub fn content_in(alloc: Global, category: &str, text: &str) -> Option<Content> {
    let number = number_in(category);
    let category = Category::new((number % 16) as u8)?;
    Content::new(category, number > 15, bytes_in(alloc, text)).ok()
}

/// The plan of a text: its replacements, adds and purges.
pub fn plan_in(alloc: Global, text: &str) -> Result<Plan, AllocError> {
    let mut plan = Plan {
        kept: Vec::new(alloc),
        replace: Vec::new(alloc),
        archive: Vec::new(alloc),
        gone: Vec::new(alloc),
        adds: Vec::new(alloc),
        purge: Vec::new(alloc),
        twice: 0,
    };
    for text in part(text, 0).split(',') {
        if let Some(pair) = entry(alloc, text) {
            plan.replace.push(pair)?;
        }
    }
    for text in part(text, 1).split(',') {
        let (category, bytes) = text.split_once('.').unwrap_or(("16", ""));
        if let (Some(content), true) = (content_in(alloc, category, bytes), !text.is_empty()) {
            plan.adds.push(content)?;
        }
    }
    for text in part(text, 2).split(',') {
        if let (Some(id), true) = (RecordId::new(number_in(text)), !text.is_empty()) {
            plan.purge.push(id)?;
        }
    }
    Ok(plan)
}

/// The base rows of a text. One is gone where a `-` stands before it.
pub fn rows_in(alloc: Global, text: &str) -> Result<Vec<Record>, AllocError> {
    let mut rows = Vec::new(alloc);
    for text in text.split(',') {
        let live = text.strip_prefix("-").unwrap_or(text);
        if let Some((id, content)) = entry(alloc, live) {
            rows.push(Record {
                id,
                deleted: text.starts_with("-"),
                dirty: false,
                busy: false,
                content,
            })?;
        }
    }
    Ok(rows)
}

// A content behind its id and the number of its category, with a point between them.
fn entry(alloc: Global, text: &str) -> Option<(RecordId, Content)> {
    let (id, rest) = text.split_once('.')?;
    let (category, bytes) = rest.split_once('.')?;
    Some((
        RecordId::new(number_in(id))?,
        content_in(alloc, category, bytes)?,
    ))
}
