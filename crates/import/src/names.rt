//! What a dump calls its devices, for the comments of a layout.

ghost use Rattle.std.specs.Prelude.{◌≡◌, ◌≤◌, IfOk, IfSome, MatchOption, drop, length, option_map, slice_get, string_bytes};
ghost use Rattle.lspci.specs.Acs.{acs_of};
ghost use Rattle.text.specs.Text.{pieces};
ghost use Rattle.text_writers.specs.Comments.{IsPrintable};
ghost use Rattle.import.specs.Names.{is_name, line_at, name_of, remark_of};

use crate::comments::is_printable;
use lspci::{Acs, ConfigSpace, Location, trimmed};
use std::alloc::{AllocError, Global};
use std::marker::Model;
use text::cut;

/// The longest name, in bytes.
const LONGEST: usize = 120;

/// The lines of a dump, one after another. A contract sees its text.
#[derive(Drop)]
pub struct Names<'a> {
    text: &'a [u8],
    rest: &'a [u8],
    passed: u32,
}

impl<'a> Model for Names<'a> {
    ghost use Rattle.std.specs.Prelude.{ℕ, List};

    ghost Value = { List ℕ };

    ghost use Rattle.import.specs.NameViews.{HasPassed, text_of};

    ghost view = { text_of };

    ghost invariant = { HasPassed };
}

/// Is it short, with printable characters of ASCII alone?
fn is_name(line: &[u8]) -> bool
    ensures { result ≡ is_name line.now }
{
    line.len() <= LONGEST && is_printable(line)
}

/// What stands in a text behind so many of its lines.
fn behind(text: &[u8], count: u32) -> Option<&[u8]>
    ensures { MatchOption result (length (pieces text.now) ≤ count) (λ rest. pieces rest.now ≡ drop count (pieces text.now)) }
{
    let mut rest = text;
    for _ in 0..count {
        let parts = cut(rest, b'\n')?;
        rest = parts.after;
    }
    Some(rest)
}

/// The first line of a text.
fn first_line(text: &[u8]) -> &[u8]
    ensures { slice_get (pieces text.now) 0 ≡ Some result.now }
{
    match cut(text, b'\n') {
        Some(parts) => parts.before,
        None => text,
    }
}

/// These characters as a text.
fn printed(alloc: Global, words: &[u8]) -> Result<String, AllocError>
    requires { IsPrintable words.now }
    ensures { IfOk result (λ text. string_bytes text ≡ words.now) }
{
    match std::str::from_utf8(words) {
        Ok(words) => String::from_str(alloc, words),
        Err(_) => unreachable!(),
    }
}

impl<'a> Names<'a> {
    /// The lines of this text.
    pub fn new(text: &'a str) -> Names<'a>
        ensures { result ≡ text.entry.now }
    {
        let text = text.as_bytes();
        Names {
            text,
            rest: text,
            passed: 0,
        }
    }

    /// What stands behind so many lines. Those that were passed before are passed over, if they are no more.
    fn behind(&self, count: u32) -> Option<&'a [u8]>
        ensures { MatchOption result (length (pieces self.now) ≤ count) (λ rest. pieces rest.now ≡ drop count (pieces self.now)) }
    {
        if count < self.passed {
            return behind(self.text, count);
        }
        behind(self.rest, count - self.passed)
    }

    /// The line of this number, counted from 1. It is found soonest where it stands behind those that were asked for before.
    fn line(&mut self, number: u32) -> Option<&'a [u8]>
        ensures found { option_map (λ line. line.now) result ≡ line_at self.old number }
        ensures same { self.new ≡ self.old }
    {
        let count = number.saturating_sub(1);
        let rest = self.behind(count)?;
        self.rest = rest;
        self.passed = count;
        Some(first_line(rest))
    }

    /// The name of the device that begins in this line. It is that line, or only where the device is.
    pub fn name_of(
        &mut self,
        alloc: Global,
        line: u32,
        location: &Location,
    ) -> Result<String, AllocError>
        ensures name { IfOk result (λ name. string_bytes name ≡ name_of self.old line location.now) }
        ensures printable { IfOk result (λ name. IsPrintable (string_bytes name)) }
        ensures same { self.new ≡ self.old }
    {
        match self.line(line) {
            Some(words) if is_name(trimmed(words)) => printed(alloc, trimmed(words)),
            _ => format!(in alloc; "{location}"),
        }
    }
}

/// What has to be told of a port's controls.
pub fn remark_on(space: &ConfigSpace<'_>) -> Option<&'static str>
    ensures remark { option_map (λ remark. remark.now) result ≡ remark_of (acs_of space.now.bytes.now) }
    ensures printable { IfSome result (λ remark. IsPrintable remark.now) }
{
    match space.acs() {
        Acs::Absent => Some("it has no ACS, so no controls"),
        Acs::Unknown => { Some("its ACS isn't shown, so taken as none: let root run lspci -xxxx") }
        Acs::Standard { .. } => None,
        Acs::Wide { .. } => Some("its ACS has registers of 32 bits, an erratum"),
    }
}
