//! The program over given words, files and outputs.

ghost use Rattle.std.specs.Prelude.{◌≡◌, IfOk, MatchResult, Err, Ok, false, map, true};
ghost use Rattle.command_line.specs.CommandLine.{Ask, Asked, IsAsked};
ghost use Rattle.inputs.specs.Endings.{is_done, status_of};
ghost use Rattle.inputs.specs.Files.{WroteBoth};
ghost use Rattle.pciefab.specs.Asked.{AskedDoes, begins_with_import};

use command_line::Request;
use commands::draw::draw;
use commands::explain::explain;
use commands::first::first;
use commands::import_layout::{Imported, import_layout};
use commands::replay::replay;
use commands::run::{alone, journal, run};
use inputs::{ExitStatus, Fault, FileGiver, FileTaker};
use std::alloc::Global;
use std::convert::AsStr;
use std::io::Write;
use std::sync::Wait;
use std::thread::Threads;
use std::time::Clock;
use threads_command::threads;

/// Carries out the command that the words are, without the program's name. What it prints goes to
/// `out`, and where it stops before its work is done, one line of why goes to `err`. The files are those that
/// the words name; scripts go to `scripts`. Where the words ask for a command and it is done, it has written what that prints,
/// and the status is that of what was printed; and where they begin with `import`, lines go to `err` on what a layout hasn't
/// of the machine, and on what of the dump was passed over, if there is anything.
#[tactic(auto, using(crate::proofs::Endings::not_done))]
pub fn command<R, S: AsStr, F: FileGiver, T: FileTaker, O: Write, E: Write>(
    rt: &R,
    alloc: Global,
    words: &[S],
    files: &F,
    scripts: &mut T,
    out: &mut O,
    err: &mut E,
) -> ExitStatus
where
    R: Threads + Wait + Clock + Copy + Send + Sync + Drop + 'static,
    ensures asked { (asked : Asked) → Ask (map S.text words.now) asked → is_done result ≡ true → WroteBoth (O.contents out.old) (O.contents out.new) (T.written scripts.old) (T.written scripts.new) (AskedDoes (F.holds files.now) asked result) }
    ensures silent { is_done result ≡ true → begins_with_import (map S.text words.now) ≡ false → err.new ≡ err.old }
{
    let mut imported = None;
    match carried_out(rt, alloc, words, files, scripts, out, &mut imported) {
        Ok(status) => {
            if begins_with_import(words) {
                tell_imported(imported, err);
            }
            status
        }
        Err(fault) => stopped(fault, err),
    }
}

/// Is the first word `import`?
fn begins_with_import<S: AsStr>(words: &[S]) -> bool
    ensures { result ≡ begins_with_import (map S.text words.now) }
{
    match words.first() {
        Some(word) => word.as_str() == "import",
        None => false,
    }
}

/// Tells how many endpoints have no place in a layout.
fn tell_left_out<E: Write>(imported: &Imported, err: &mut E) {
    let out = imported.endpoints_out;
    let all = imported.functions.saturating_add(out);
    let have = if out == 1 { "has" } else { "have" };
    if out > 0 {
        // Where the line cannot be written, the comments of the layout and the status tell.
        let _ = writeln!(
            err,
            "{out} of {all} endpoints {have} no place in this layout: see its lines \"# left out\""
        );
    }
}

/// Tells what of a dump was passed over.
fn tell_passed<E: Write>(imported: &Imported, err: &mut E) {
    let (lines, ends) = (imported.passed.lines, imported.passed.ends);
    if lines > 0 {
        let _ = writeln!(err, "passed over: {lines} lines that are no part of a dump");
    }
    if ends > 0 {
        let _ = writeln!(err, "passed over: what is blank at the end of {ends} lines");
    }
}

/// Tells what a layout hasn't of a machine, and what of the dump was passed over.
fn tell_imported<E: Write>(imported: Option<Imported>, err: &mut E) {
    if let Some(imported) = imported {
        tell_left_out(&imported, err);
        tell_passed(&imported, err);
        let _ = err.flush();
    }
}

fn carried_out<'a, R, S: AsStr, F: FileGiver, T: FileTaker, O: Write>(
    rt: &R,
    alloc: Global,
    words: &'a [S],
    files: &F,
    scripts: &mut T,
    out: &mut O,
    imported: &mut Option<Imported>,
) -> Result<ExitStatus, Fault<'a>>
where
    R: Threads + Wait + Clock + Copy + Send + Sync + Drop + 'static,
    ensures { (asked : Asked) → Ask (map S.text words.entry.now) asked → IfOk result (λ status. WroteBoth (O.contents out.old) (O.contents out.new) (T.written scripts.old) (T.written scripts.new) (AskedDoes (F.holds files.now) asked status)) }
{
    let request = command_line::read_request(alloc, words)?;
    let status = perform(rt, alloc, request, files, scripts, out, imported)?;
    out.flush()?;
    Ok(status)
}

/// The status of a command that ends in no other than `Done`.
fn done(ended: Result<(), Fault<'_>>) -> Result<ExitStatus, Fault<'_>>
    ensures { MatchResult ended.entry (λ _. result ≡ Ok ExitStatus.Done) (λ fault. result ≡ Err fault) }
{
    match ended {
        Ok(()) => Ok(ExitStatus::Done),
        Err(fault) => Err(fault),
    }
}

fn perform<'a, R, F: FileGiver, T: FileTaker, O: Write>(
    rt: &R,
    alloc: Global,
    request: Request<'a>,
    files: &F,
    scripts: &mut T,
    out: &mut O,
    imported: &mut Option<Imported>,
) -> Result<ExitStatus, Fault<'a>>
where
    R: Threads + Wait + Clock + Copy + Send + Sync + Drop + 'static,
    ensures { (asked : Asked) → IsAsked request.entry asked → IfOk result (λ status. WroteBoth (O.contents out.old) (O.contents out.new) (T.written scripts.old) (T.written scripts.new) (AskedDoes (F.holds files.now) asked status)) }
{
    match request {
        Request::Help(help) => {
            out.write_all(help.as_bytes())?;
            Ok(ExitStatus::Done)
        }
        Request::First { packet } => done(first(alloc, packet, out)),
        Request::Run { files: names } => done(run(alloc, files, names, out)),
        Request::Alone {
            files: names,
            domain,
        } => done(alone(alloc, files, names, domain, out)),
        Request::Journal {
            files: names,
            domain,
        } => done(journal(alloc, files, names, domain, out)),
        Request::Replay {
            layout,
            journal: text,
            domain,
        } => done(replay(alloc, files, layout, text, domain, out)),
        Request::Threads {
            files: names,
            turns,
        } => done(threads(rt, alloc, files, names, turns, out)),
        Request::Draw { layout } => done(draw(alloc, files, layout, out)),
        Request::Explain { asked } => explain(alloc, files, asked, scripts, out),
        Request::Import { asked } => {
            let made = import_layout(alloc, files, asked, out)?;
            *imported = Some(made);
            Ok(made.status)
        }
    }
}

/// Writes the line of the fault, and gives its exit status.
pub fn stopped<E: Write>(fault: Fault<'_>, err: &mut E) -> ExitStatus
    ensures { result ≡ status_of fault.entry }
{
    // Where the line cannot be written either, the status alone tells.
    let _ = writeln!(err, "{fault}");
    let _ = err.flush();
    fault.status()
}
