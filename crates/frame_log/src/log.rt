ghost use Rattle.std.specs.Prelude.{◌≡◌, ◌≤◌, IfOk, length};

use crate::entry::TlpEntry;
use crate::frame::Frame;
use crate::row::Row;
use crate::token::Token;
use fab_types::{DomainId, Head, NoMemory, PacketBytes};
use std::alloc::Global;
use std::marker::Model;

/// How many domains there may be: their numbers are 1 to 31.
const DOMAINS: usize = 31;

/// A log of packets, shared by all who emit, in any thread. Entries are added, and stay as they are where they are
/// until the log ends. Those of a domain stand in a row of their own, so that threads which emit for different domains
/// share nothing. A contract sees where the rows stand.
#[derive(Drop)]
pub struct Log {
    alloc: Global,
    rows: Vec<Row>,
}

impl Model for Log {
    ghost use Rattle.std.specs.Prelude.{◌≡◌, List, length};
    ghost use Rattle.boxcar.specs.Slot.{Named, named_coded};
    ghost use base.Stored.{coded_list};

    ghost Value = { List (List Named) };

    ghost coded = { coded_list (coded_list named_coded) };

    ghost view = { λ l. l.rows.items };

    ghost invariant = { λ l. length l.rows.items ≡ 31 };
}

impl Log {
    ghost use Rattle.frame_log.specs.Words.{Shown, entry_of, row_of};

    /// A log with no entry. It answers `NoMemory` where memory was refused.
    pub fn new(alloc: Global) -> Result<Log, NoMemory> {
        let mut rows = Vec::with_capacity(alloc, DOMAINS)?;
        for _ in 0..DOMAINS {
            rows.push_reserved(Row::new(alloc)?);
        }
        Ok(Log { alloc, rows })
    }

    /// Where the entries of this domain stand.
    fn row(&self, domain: DomainId) -> &Row
        ensures { result.now ≡ row_of self.now domain }
    {
        &self.rows[usize::from(domain.get()) - 1]
    }

    /// Adds a packet, of at most 272 bytes: 16 of header and 256 of payload. It answers `NoMemory` where
    /// memory was refused; then no token names an entry of it. It waits for nobody.
    pub fn emit(
        &self,
        domain: DomainId,
        number: u64,
        head: Head,
        bytes: &[u8],
    ) -> Result<(Frame, Token), NoMemory>
        requires { length bytes.now ≤ 272 }
        ensures frame { IfOk result (λ r.
            r.0 ≡ record { domain = domain; number = number; head = head }) }
        ensures entry { IfOk result (λ r.
            entry_of r.1 ≡ record { domain = domain; number = number; bytes = bytes.now }) }
        ensures token { IfOk result (λ r. Shown self.now r.1) }
    {
        let bytes = PacketBytes::copy_of(self.alloc, bytes)?;
        self.emit_bytes(domain, number, head, bytes)
    }

    /// The same of bytes that need no copy.
    pub fn emit_bytes(
        &self,
        domain: DomainId,
        number: u64,
        head: Head,
        bytes: PacketBytes,
    ) -> Result<(Frame, Token), NoMemory>
        requires { length bytes ≤ 272 }
        ensures frame { IfOk result (λ r.
            r.0 ≡ record { domain = domain; number = number; head = head }) }
        ensures entry { IfOk result (λ r.
            entry_of r.1 ≡ record { domain = domain; number = number; bytes = bytes }) }
        ensures token { IfOk result (λ r. Shown self.now r.1) }
    {
        let entry = TlpEntry {
            domain,
            number,
            bytes,
        };
        let at = self.row(domain).store(self.alloc, entry)?;
        let token = Token { domain, at };
        Ok((Frame::of(domain, number, head), token))
    }

    /// Lends the entry that the token names.
    /// It is lent for as long as the log is, whatever becomes of the token.
    pub fn lend<'a>(&'a self, token: &Token) -> &'a TlpEntry
        requires { Shown self.now token.now }
        ensures { result.now ≡ entry_of token.now }
    {
        self.row(token.domain).lend(&token.at)
    }
}
