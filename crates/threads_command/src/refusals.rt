//! How many begins of each function and host were refused.

ghost use Rattle.std.specs.Prelude.{◌≡◌, ◌++◌, [], OnOk};
ghost use Rattle.std.specs.List.{flat_map};
ghost use Rattle.std.specs.Io.KnownBytes.{Appends};
ghost use Rattle.threads_command.specs.Refusals.{all_added, count_of, host_refusals, refused_by, refused_line, refused_lines, with_more};

use fab_types::{Bdf, NoMemory};
use port_threads::{Parts, Remains};
use std::alloc::Global;
use std::collections::BTreeMap;
use std::io;
use std::io::Write;
use std::marker::Model;
use thread_workers::DomainHost;

/// By the ID of a function or of a domain's host, how many of its begins were refused. A contract sees the list of both, by
/// rising ID.
#[derive(Drop)]
pub(crate) struct Refusals {
    counts: BTreeMap<Bdf, u64>,
}

impl Model for Refusals {
    ghost use Rattle.std.specs.Prelude.{List, ℕ};

    ghost Value = { List (ℕ × ℕ) };

    ghost view = { λ r. r.counts.entries };
}

impl Refusals {
    /// No refusal of any function or host.
    pub fn new(alloc: Global) -> Refusals
        ensures { result ≡ [] }
    {
        Refusals {
            counts: BTreeMap::new(alloc),
        }
    }

    /// How many there are of this ID.
    fn count(&self, id: Bdf) -> u64
        ensures { result ≡ count_of self.now id }
    {
        match self.counts.get(&id) {
            Some(count) => *count,
            None => 0,
        }
    }

    /// So many more of this ID. The count stops at the greatest that there is.
    pub fn add(&mut self, id: Bdf, count: u64) -> Result<(), NoMemory>
        ensures { OnOk result (self.new ≡ with_more self.old (id, count)) }
    {
        let count = self.count(id).saturating_add(count);
        match self.counts.insert(id, count) {
            Ok(_) => Ok(()),
            Err(_) => Err(NoMemory),
        }
    }

    /// Those that the host's worker has of these domains.
    fn add_hosts(&mut self, hosts: &[DomainHost]) -> Result<(), NoMemory>
        ensures { OnOk result (self.new ≡ all_added self.old (host_refusals hosts.now)) }
    {
        for host in hosts {
            self.add(host.outbox.origin().id(), host.ends.begins.refused())?;
        }
        Ok(())
    }

    /// Those that a worker has.
    fn add_of(&mut self, remains: &Remains) -> Result<(), NoMemory>
        ensures { OnOk result (self.new ≡ all_added self.old (refused_by remains.now)) }
    {
        match &remains.parts {
            Parts::Port(_) => Ok(()),
            Parts::Function(function) => self.add(function.function, function.begins.refused()),
            Parts::Host(host) => self.add_hosts(&host.hosts),
        }
    }

    /// Adds the refused begins that these workers counted.
    #[tactic(auto, using(crate::proofs::Adding::added_append))]
    pub fn add_all(&mut self, remains: &[Remains]) -> Result<(), NoMemory>
        ensures { OnOk result (self.new ≡ all_added self.old (flat_map refused_by remains.now)) }
    {
        for worker in remains {
            self.add_of(worker)?;
        }
        Ok(())
    }

    /// Writes a line of each ID of which there are any, by rising ID.
    pub fn write<W: Write>(&self, out: &mut W) -> io::Result<()>
        ensures { OnOk result (Appends (W.contents out.old) (W.contents out.new) (refused_lines self.now)) }
    {
        for (id, count) in &self.counts {
            write_line(out, *id, *count)?;
        }
        Ok(())
    }
}

fn write_line<W: Write>(out: &mut W, id: Bdf, count: u64) -> io::Result<()>
    ensures { OnOk result (Appends (W.contents out.old) (W.contents out.new) (refused_line (id, count))) }
{
    if count == 0 {
        return Ok(());
    }
    writeln!(out, "refused {id} {count}")
}
