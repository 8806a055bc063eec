//! The words of the command line, and what they ask for.

ghost use Rattle.std.specs.Prelude.{◌≡◌, MatchResult, codes, map, option_map};
ghost use Rattle.std.specs.Option.{option_and_then};
ghost use Rattle.clap.specs.Words.{first_of, found_of, rows_of};
ghost use Rattle.command_line.specs.CommandLine.{Ask, Asked, IsAsked, asked_by, asked_in, domain_in, explain_in, files_in, import_in, is_flag, number_in, root_in};

use crate::description::definition;
use clap::ArgMatches;
use clap::error::ErrorKind;
use lspci::{Location, location_of};
use std::alloc::{AllocError, Global};
use std::convert::AsStr;
use text::decimal;
use thiserror::Error;

/// The most turns that a worker may be asked to make.
const MOST_TURNS: u32 = 1_000_000;

/// Why words ask for nothing.
#[derive(Clone, Copy, Debug, PartialEq, Eq, Error)]
pub enum WordsFault {
    /// They are no command.
    #[error("usage")]
    Usage,
    /// Memory was refused.
    #[error("out of memory")]
    NoMemory,
}

impl From<AllocError> for WordsFault {
    ghost use Rattle.command_line.specs.declared.request.WordsFault.TheVariants as fault;

    ghost from_gives = { λ _ f. f ≡ fault.NoMemory };

    fn from(_error: AllocError) -> Self {
        WordsFault::NoMemory
    }
}

/// What the words ask for.
#[derive(Drop)]
pub enum Request<'a> {
    /// To print this text.
    Help(String),
    /// To submit the packet that the word stands for.
    First {
        packet: &'a str,
    },
    /// To run the fabric of a layout by a script.
    /// What it ends in is printed.
    Run {
        files: Files<'a>,
    },
    /// To run the same, and to print this domain from its journal.
    Alone {
        files: Files<'a>,
        domain: u32,
    },
    /// To run the same, and to print the journal of this domain.
    Journal {
        files: Files<'a>,
        domain: u32,
    },
    /// To print this domain of a layout from the journal in a file.
    Replay {
        layout: &'a str,
        journal: &'a str,
        domain: u32,
    },
    /// To run the fabric on threads.
    /// Each of them makes so many turns, 1 to 1,000,000.
    Threads {
        files: Files<'a>,
        turns: u32,
    },
    /// To print the drawing of a layout.
    Draw {
        layout: &'a str,
    },
    /// To print whether the domains of a layout are kept apart.
    Explain {
        asked: Explaining<'a>,
    },
    /// To print the layout of what a dump shows below a root port.
    Import {
        asked: Importing<'a>,
    },
}

/// The names of the files of a run.
#[derive(Clone, Copy, Debug, PartialEq, Eq)]
pub struct Files<'a> {
    /// The name of the layout's file.
    pub layout: &'a str,
    /// The name of the script's file.
    pub script: &'a str,
}

/// What `explain` is asked for.
#[derive(Clone, Copy, Debug, PartialEq, Eq)]
pub struct Explaining<'a> {
    /// The name of the layout's file.
    pub layout: &'a str,
    /// The name of the folder where scripts are to be written, if they are wanted.
    pub scripts: Option<&'a str>,
    /// Are Linux's groups wanted?
    pub groups: bool,
}

/// What `import` is asked for.
#[derive(Clone, Copy, Debug, PartialEq, Eq)]
pub struct Importing<'a> {
    /// The name of the dump's file.
    pub dump: &'a str,
    /// The name of the file of a list of owners, if there is one.
    pub owners: Option<&'a str>,
    /// The only root port whose tree is wanted.
    pub root: Option<Location>,
    /// May endpoints be left out?
    pub partial: bool,
}

/// Reads the words of the command line, without the program's name.
/// Words that ask for a command are refused only where memory was refused.
pub fn read_request<'a, S: AsStr>(alloc: Global, words: &'a [S]) -> Result<Request<'a>, WordsFault>
    ensures asked { (asked : Asked) → Ask (map S.text words.entry.now) asked → MatchResult result (λ request. IsAsked request asked) (λ fault. fault ≡ WordsFault.NoMemory) }
{
    match definition(alloc)?.try_get_matches_from(words) {
        Ok(matches) => match requested(&matches) {
            Some(request) => Ok(request),
            None => Err(WordsFault::Usage),
        },
        Err(error) => match error.kind() {
            ErrorKind::DisplayHelp => Ok(Request::Help(format!(in alloc; "{error}")?)),
            ErrorKind::OutOfMemory => Err(WordsFault::NoMemory),
            _ => Err(WordsFault::Usage),
        },
    }
}

fn requested<'a>(matches: &ArgMatches<'a>) -> Option<Request<'a>>
    ensures { option_and_then asked_by result ≡ asked_in matches.now }
{
    match matches.subcommand()? {
        ("first", words) => {
            let packet = word_in(words, "HEX")?;
            Some(Request::First { packet })
        }
        ("run", words) => {
            let (layout, script) = files_in(words, "SCRIPT")?;
            let files = Files { layout, script };
            Some(Request::Run { files })
        }
        ("alone", words) => {
            let (layout, script, domain) = domain_in(words, "SCRIPT")?;
            let files = Files { layout, script };
            Some(Request::Alone { files, domain })
        }
        ("journal", words) => {
            let (layout, script, domain) = domain_in(words, "SCRIPT")?;
            let files = Files { layout, script };
            Some(Request::Journal { files, domain })
        }
        ("replay", words) => {
            let (layout, journal, domain) = domain_in(words, "JOURNAL")?;
            Some(Request::Replay {
                layout,
                journal,
                domain,
            })
        }
        ("threads", words) => {
            let (layout, script, turns) = number_in(words, "SCRIPT", "TURNS")?;
            if !(1..=MOST_TURNS).contains(&turns) {
                return None;
            }
            let files = Files { layout, script };
            Some(Request::Threads { files, turns })
        }
        ("draw", words) => {
            let layout = word_in(words, "LAYOUT")?;
            Some(Request::Draw { layout })
        }
        ("explain", words) => explain_in(words),
        ("import", words) => import_in(words),
        _ => None,
    }
}

/// The word of this name.
fn word_in<'a>(words: &ArgMatches<'a>, name: &str) -> Option<&'a str>
    ensures { option_map (λ word. word.now) result ≡ first_of name.now (rows_of (found_of words.now)) }
{
    words.get_str(name)
}

/// The place that the word behind `--root` names, if it is there. None where it names none.
fn root_in<'a>(words: &ArgMatches<'a>) -> Option<Option<Location>>
    ensures { result ≡ root_in (first_of (codes "root") (rows_of (found_of words.now))) }
{
    match word_in(words, "root") {
        None => Some(None),
        Some(word) => Some(Some(location_of(word.as_bytes())?)),
    }
}

/// Is this name there behind `--`?
fn is_flag<'a>(words: &ArgMatches<'a>, name: &str) -> bool
    ensures { result ≡ is_flag (first_of name.now (rows_of (found_of words.now))) }
{
    match word_in(words, name) {
        Some(word) => word == "true",
        None => false,
    }
}

/// What the words of `explain` ask for.
fn explain_in<'a>(words: &ArgMatches<'a>) -> Option<Request<'a>>
    ensures { option_and_then asked_by result ≡ explain_in (rows_of (found_of words.now)) }
{
    let layout = word_in(words, "LAYOUT")?;
    let scripts = word_in(words, "scripts");
    let groups = is_flag(words, "linux");
    let asked = Explaining {
        layout,
        scripts,
        groups,
    };
    Some(Request::Explain { asked })
}

/// What the words of `import` ask for.
fn import_in<'a>(words: &ArgMatches<'a>) -> Option<Request<'a>>
    ensures { option_and_then asked_by result ≡ import_in (rows_of (found_of words.now)) }
{
    let dump = word_in(words, "DUMP")?;
    let owners = word_in(words, "owners");
    let root = root_in(words)?;
    let partial = is_flag(words, "partial");
    let asked = Importing {
        dump,
        owners,
        root,
        partial,
    };
    Some(Request::Import { asked })
}

/// The names of the files of a layout and of this.
fn files_in<'a>(words: &ArgMatches<'a>, second: &str) -> Option<(&'a str, &'a str)>
    ensures { option_map (λ files. (files.0.now, files.1.now)) result ≡ files_in second.now (rows_of (found_of words.now)) }
{
    let layout = word_in(words, "LAYOUT")?;
    let other = word_in(words, second)?;
    Some((layout, other))
}

/// The same, and the number that a further word is. None where that is no decimal number of one to nine digits.
fn number_in<'a>(
    words: &ArgMatches<'a>,
    second: &str,
    third: &str,
) -> Option<(&'a str, &'a str, u32)>
    ensures { option_map (λ files. (files.0.now, files.1.now, files.2)) result ≡ number_in second.now third.now (rows_of (found_of words.now)) }
{
    let (layout, other) = files_in(words, second)?;
    let number = decimal(word_in(words, third)?.as_bytes())?;
    Some((layout, other, number))
}

/// The same, and the number of a domain.
fn domain_in<'a>(words: &ArgMatches<'a>, second: &str) -> Option<(&'a str, &'a str, u32)>
    ensures { option_map (λ files. (files.0.now, files.1.now, files.2)) result ≡ domain_in second.now (rows_of (found_of words.now)) }
{
    number_in(words, second, "DOMAIN")
}
