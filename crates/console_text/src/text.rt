//! The text of a session, made from its log.
ghost use Rattle.std.specs.Prelude.{◌≡◌, ◌<◌, ◌≤◌, ◌++◌, length, IfOk, string_bytes, OnOk};
ghost use Rattle.console_text.specs.Texts.{read_count, answers, marked_text};

use crate::show::{Answer, Opened, Shown, Unread};
use channel::state::Limits;
use replay::log::Entry;
use std::alloc::{AllocError, Global};

// Adds the answers to marked lines, by the log's entries of the calls.
fn put_answers<V: Shown>(
    text: &mut String,
    marks: &[bool],
    log: &[Entry<V>],
) -> Result<(), AllocError>
    requires { read_count marks.now ≤ length log.now }
    ensures { OnOk result (string_bytes text.new ≡ string_bytes text.old ++ answers V.Shown.fields 1 marks.now log.now) }
{
    let mut entries = log.iter();
    for (i, is_call) in marks.iter().enumerate() {
        if *is_call {
            let entry = entries.next().unwrap();
            writeln!(text, "{}", Answer(entry))?;
        } else {
            writeln!(text, "{}", Unread(i + 1))?;
        }
    }
    Ok(())
}

/// The text: the first line, then the answer to each marked line, by a log that begins with the entry of open.
pub(crate) fn session_text<V: Shown>(
    heap: Global,
    kind: &str,
    limits: Option<Limits>,
    marks: &[bool],
    log: &[Entry<V>],
) -> Result<String, AllocError>
    requires { read_count marks.now < length log.now }
    ensures { IfOk result (λ s. string_bytes s ≡ marked_text V.Shown.fields kind.now limits marks.now log.now) }
{
    let mut text = String::new(heap);
    writeln!(text, "{}", Opened { kind, limits })?;
    put_answers(&mut text, marks, &log[1..])?;
    Ok(text)
}
