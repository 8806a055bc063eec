//! An example of embedding: two threads of a program begin what two functions do, while the workers of the fabric run, and
//! take the completions; then the fabric is stopped, and what each domain holds is printed.
#![tactic(auto)]

mod fabric;
mod tenant;

use fabric::{Ran, run};
use reports::write_domains;
use std::alloc::Global;
use std::io;
use std::io::Write;
use std::process::ExitCode;

/// Writes what each thread read back, and each domain.
fn write_all<W: Write>(alloc: Global, out: &mut W, ran: &Ran) -> io::Result<()> {
    for record in &ran.records {
        let digits = hex::encode(alloc, record.bytes())?;
        let reader = record.owner().id();
        writeln!(out, "{reader} got {digits}")?;
    }
    write_domains(alloc, out, &ran.domains)
}

fn main(rt: HostRuntime) -> ExitCode {
    let mut out = io::writer(&rt);
    match run(rt, rt.alloc()) {
        Ok(ran) => match write_all(rt.alloc(), &mut out, &ran) {
            Ok(()) => ExitCode::SUCCESS,
            Err(_) => ExitCode::FAILURE,
        },
        Err(fault) => {
            let _ = writeln!(rt.stderr(), "{fault}");
            ExitCode::FAILURE
        }
    }
}
