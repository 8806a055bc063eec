//! The enabled bytes of a memory write.

ghost use Rattle.std.specs.Prelude.{◌≡◌, ◌+◌, ◌<◌, ◌≤◌, ℕ, length, true, false};
ghost use Rattle.std.specs.Iterator.{YieldsFirstBy, item_count};
ghost use Rattle.tlp_view.specs.Runs.{enables_all, is_enabled};

use crate::bits::is_set;
use crate::enables::Enables;
use std::marker::Model;

/// The runs of enabled bytes that are left, as an iterator.
/// Each item is a run's offset from the address, and its part of the payload. A contract sees them as a list.
#[derive(Debug, Drop)]
pub struct Runs<'a> {
    payload: &'a [u8],
    enables: Enables,
    // where the search for the next run begins
    at: usize,
}

impl<'a> Model for Runs<'a> {
    ghost use Rattle.std.specs.Prelude.{ℕ, ◌≤◌, List, length, drop};

    ghost Value = { List (ℕ × List ℕ) };

    ghost use Rattle.tlp_view.specs.Runs.{is_enabled, runs_from};

    ghost view = { λ r. runs_from (is_enabled r.enables (length r.payload.now)) r.at (drop r.at r.payload.now) };

    ghost invariant = { λ r. r.at ≤ length r.payload.now };
}

impl<'a> Runs<'a> {
    ghost use Rattle.std.specs.Prelude.{◌≡◌, length};
    ghost use Rattle.tlp_view.specs.Runs.{is_enabled, runs_from};

    /// The runs of this payload under these enables.
    pub(crate) fn new(payload: &'a [u8], enables: Enables) -> Runs<'a>
        ensures { result ≡ runs_from (is_enabled enables (length payload.now)) 0 payload.now }
    {
        Runs {
            payload,
            enables,
            at: 0,
        }
    }
}

impl<'a> Iterator for Runs<'a> {
    type Item = (usize, &'a [u8]);

    ghost next_gives = { YieldsFirstBy (λ run. (run.0, run.1.now)) (λ runs. runs) };

    ghost remaining = { item_count (λ runs. runs) };

    fn next(&mut self) -> Option<(usize, &'a [u8])> {
        let count = self.payload.len();
        let start = first_enabled(self.enables, count, self.at);
        let end = first_disabled(self.enables, count, start);
        self.at = end;
        if start == count {
            return None;
        }
        Some((start, &self.payload[start..end]))
    }
}

/// Is byte `i` of so many enabled? Its bit stands in the first DW's field, or in the last DW's; between
/// these DWs all are.
fn is_enabled(enables: Enables, count: usize, i: usize) -> bool
    ensures { result ≡ is_enabled enables count i }
{
    if i / 4 == 0 {
        is_set(enables.first, (i % 4) as u32)
    } else if i / 4 + 1 == count / 4 {
        is_set(enables.last, (i % 4) as u32)
    } else {
        true
    }
}

/// Are all bytes enabled, of so many in whole DW? It is asked of each write, and mostly they are.
fn are_all_enabled(enables: Enables, count: usize) -> bool
    ensures value { result ≡ enables_all enables count }
    ensures all { (i : ℕ) → i < count → result ≡ true → is_enabled enables count i ≡ true }
{
    enables.first == 15 && (count < 8 || enables.last == 15)
}

/// The first enabled byte from `at` on, or `count`.
fn first_enabled(enables: Enables, count: usize, at: usize) -> usize
    requires { at ≤ count }
    ensures low { at ≤ result }
    ensures high { result ≤ count }
    ensures before { (k : ℕ) → at ≤ k → k < result → is_enabled enables count k ≡ false }
    ensures here { result < count → is_enabled enables count result ≡ true }
{
    let mut i = at;
    while i < count && !is_enabled(enables, count, i) {
        i += 1;
    }
    i
}

/// The first byte from `at` on that isn't enabled, or `count`.
fn first_disabled(enables: Enables, count: usize, at: usize) -> usize
    requires { at ≤ count }
    ensures low { at ≤ result }
    ensures high { result ≤ count }
    ensures before { (k : ℕ) → at ≤ k → k < result → is_enabled enables count k ≡ true }
    ensures here { result < count → is_enabled enables count result ≡ false }
{
    if are_all_enabled(enables, count) {
        return count;
    }
    let mut i = at;
    while i < count && is_enabled(enables, count, i) {
        // From the second DW to the last but one there is nothing to test.
        i = if i == 4 && 12 <= count {
            (count / 4 - 1) * 4
        } else {
            i + 1
        };
    }
    i
}
