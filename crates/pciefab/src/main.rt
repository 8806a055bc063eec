//! The program `pciefab`: runs a fabric of PCI Express switches, and prints what the memory of its
//! domains (the tenants) then holds.
#![tactic(auto)]

mod host;
mod program;

use host::HostFiles;
use program::{command, stopped};
use std::process::ExitCode;

fn main(rt: HostRuntime) -> ExitCode {
    let mut err = rt.stderr();
    let mut scripts = HostFiles::new(&rt);
    let status = match host::words_and_output(&rt) {
        Ok((words, mut out)) => command(
            &rt,
            rt.alloc(),
            words.as_slice(),
            &HostFiles::new(&rt),
            &mut scripts,
            &mut out,
            &mut err,
        ),
        Err(fault) => stopped(fault, &mut err),
    };
    ExitCode::from(status.code())
}
