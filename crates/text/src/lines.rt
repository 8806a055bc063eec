//! Reading the lines of a text.

ghost use Rattle.std.specs.Prelude.{◌≡◌, ◌<◌, ◌++◌, IfSome, OnOk, length, option_map, option_to_list};
ghost use Rattle.std.specs.List.{position};
ghost use Rattle.text.specs.Text.{cut, is_byte};
ghost use Rattle.text.specs.Answers.{IsItem};
ghost use Rattle.text.specs.Reading.{IsReading, adds, list_of, reading};

use crate::fields::{Parts, is_comment};
use crate::line_reader::LineReader;
use fab_types::{ScriptCause, ScriptFault};
use memchr::memchr;
use std::alloc::{AllocError, Global};

fn line_feed(text: &[u8]) -> Option<usize>
    ensures place { result ≡ position (is_byte 10) text.now }
    ensures within { IfSome result (λ at. at < length text.now) }
{
    memchr(b'\n', text)
}

/// Cuts a text behind its first line, if it has a line feed.
fn first_line(text: &[u8]) -> Option<Parts<'_>>
    ensures parts { option_map (λ parts. (parts.before.now, parts.after.now)) result ≡ cut 10 text.now }
    ensures shorter { IfSome result (λ parts. length parts.after.now < length text.now) }
{
    match line_feed(text) {
        Some(at) => Some(Parts {
            before: &text[..at],
            after: &text[at + 1..],
        }),
        None => None,
    }
}

/// What one line adds: none that is behind the last, and a comment nothing.
fn item_at<R: LineReader>(
    alloc: Global,
    last: u32,
    reader: &R,
    number: u32,
    line: &[u8],
) -> Result<Option<R::Item>, ScriptCause>
    ensures { IsItem (adds last (R.said reader.now) number line.now) result }
{
    if number > last {
        return Err(ScriptCause::Line);
    }
    if is_comment(line) {
        return Ok(None);
    }
    reader.item(alloc, number, line)
}

/// Puts an item behind the others, if there is one.
fn keep<T: Drop>(items: &mut Vec<T>, item: Option<T>) -> Result<(), AllocError>
    ensures { OnOk result (items.new.items ≡ items.old.items ++ option_to_list item) }
{
    if let Some(item) = item {
        items.push(item)?;
    }
    Ok(())
}

/// What the lines of a text say, in their order. A line that begins with `#` is a comment, which is counted
/// and says nothing; a line behind the number `last` is faulty.
///
/// # Errors
///
/// `Line` and the first faulty line, counted from 1; or `NoMemory` and the line at which memory was
/// refused, which is not faulty, and before which no line is.
pub fn read_lines<R: LineReader>(
    alloc: Global,
    text: &str,
    last: u32,
    reader: &R,
) -> Result<Vec<R::Item>, ScriptFault>
    requires { last < u32.MAX }
    ensures { IsReading (reading last (R.said reader.now) text.now) (list_of result) }
{
    let mut items = Vec::new(alloc);
    let mut line: u32 = 1;
    let mut rest = text.as_bytes();
    while let Some(parts) = first_line(rest) {
        let item = match item_at(alloc, last, reader, line, parts.before) {
            Ok(item) => item,
            Err(cause) => return Err(ScriptFault { cause, line }),
        };
        let Ok(()) = keep(&mut items, item) else {
            let cause = ScriptCause::NoMemory;
            return Err(ScriptFault { cause, line });
        };
        line += 1;
        rest = parts.after;
    }
    if !rest.is_empty() {
        let cause = ScriptCause::Line;
        return Err(ScriptFault { cause, line });
    }
    Ok(items)
}
