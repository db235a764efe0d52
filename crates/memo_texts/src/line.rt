// Lines of a text.
ghost use Rattle.std.specs.Prelude.{◌≡◌, ◌<◌, ◌≤◌, ◌∷◌, ◌==◌, length, position};
ghost use Rattle.memo_texts.specs.Lines.{lines_in, without_mark, without_return};
ghost use Rattle.memo_texts.specs.Readings.{line_text};

// The byte order mark, in UTF-8.
const MARK: [u8; 3] = [0xEF, 0xBB, 0xBF];

/// A text without the byte order mark in front of it.
pub fn without_mark(text: &[u8]) -> &[u8]
    ensures text { result.now ≡ without_mark text.now }
    ensures bound { length result.now ≤ length text.now }
{
    if text.starts_with(&MARK) {
        &text[3..]
    } else {
        text
    }
}

/// The first line of a text that isn't empty, and what is behind it.
pub fn split_line(text: &[u8]) -> (&[u8], &[u8])
    requires { 0 < length text.now }
    ensures lines { lines_in text.now ≡ result.0.now ∷ lines_in result.1.now }
    ensures shorter { length result.1.now < length text.now }
{
    match feed_place(text) {
        Some(place) => (&text[..place], &text[place + 1..]),
        None => (text, &[]),
    }
}

// The place of the first line feed.
fn feed_place(text: &[u8]) -> Option<usize>
    ensures { result ≡ position (λ byte. byte == 10) text.now }
{
    text.iter().position(|byte| *byte == b'\n')
}

/// A line without the carriage return in front of its line feed.
pub fn without_return(line: &[u8]) -> &[u8]
    ensures { result.now ≡ without_return line.now }
{
    match line {
        [front @ .., b'\r'] => front,
        _ => line,
    }
}

/// The text of a memo's line: one that begins with four dashes stands for one with a dash less.
pub fn line_text(bytes: &[u8]) -> &[u8]
    ensures { result.now ≡ line_text bytes.now }
{
    if bytes.starts_with(b"----") {
        &bytes[1..]
    } else {
        bytes
    }
}
