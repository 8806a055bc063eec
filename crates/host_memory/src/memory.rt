//! All pages of a domain.

ghost use Rattle.std.specs.Prelude.{true, ◌≡◌, ◌≢◌, ℕ, ◌+◌, ◌<◌, ◌≤◌, IfOk, IfSome, IsSome, MatchOption};
ghost use Rattle.std.specs.Prelude.{is_some, length, map, None, slice_index, slice_index_or, Some, vec_capacity};
ghost use Rattle.std.specs.List.Sorted.{IsStrictlyIncreasing};
ghost use Rattle.std.specs.Option.{option_copied, option_copied_mut};
ghost use Rattle.std.specs.Borrow.{sem};
ghost use Rattle.host_memory.specs.Additions.{added, is_operand};
ghost use Rattle.host_memory.specs.Memory.{ArePlaced, page_at};
ghost use Rattle.host_memory.specs.Pages.{zeroed, page_of, part_of, written};

use crate::addition::{sum_of_4, sum_of_8};
use crate::page::{Page, zero_bytes};
use fab_types::NoMemory;
use layout::Start;
use std::alloc::Global;
use std::marker::Model;
use std::ops::Range;

/// The frames of a domain's host memory. A contract sees each frame's number and bytes, in rising
/// order of the numbers.
#[derive(Debug, Drop)]
pub struct HostMemory {
    numbers: Vec<u16>,
    // for each number where its page stands, once it was lent to be written; till then it is zero
    places: Vec<Option<usize>>,
    // with room for a page of each number
    pages: Vec<Page>,
}

impl Model for HostMemory {
    ghost use Rattle.std.specs.Prelude.{List, ℕ};

    ghost Value = { List (ℕ × List ℕ) };

    ghost use Rattle.host_memory.specs.Memory.{pages_of, IsMemory};

    ghost view = { pages_of };

    ghost invariant = { IsMemory };
}

// Where a number stands if none between it and the first is left out, as is most often so.
fn place_by_count(numbers: &[u16], frame: u16) -> Option<usize>
    ensures { IfSome result (λ at. (at < length numbers.now) × (slice_index numbers.now at ≡ frame)) }
{
    let first = *numbers.first()?;
    let at = usize::from(frame.checked_sub(first)?);
    if *numbers.get(at)? == frame {
        Some(at)
    } else {
        None
    }
}

// Where a number stands among numbers that rise.
fn place_by_halves(numbers: &[u16], frame: u16) -> Option<usize>
    requires { IsStrictlyIncreasing numbers.now }
    ensures { MatchOption result
        ((k : ℕ) → k < length numbers.now → slice_index numbers.now k ≢ frame)
        (λ at. (at < length numbers.now) × (slice_index numbers.now at ≡ frame)) }
{
    numbers.binary_search(&frame).ok()
}

// The same, which looks first where it is found at once.
fn place(numbers: &[u16], frame: u16) -> Option<usize>
    requires { IsStrictlyIncreasing numbers.now }
    ensures { MatchOption result
        ((k : ℕ) → k < length numbers.now → slice_index numbers.now k ≢ frame)
        (λ at. (at < length numbers.now) × (slice_index numbers.now at ≡ frame)) }
{
    match place_by_count(numbers, frame) {
        Some(at) => Some(at),
        None => place_by_halves(numbers, frame),
    }
}

/// The bytes of the page at this place; zero where there is none.
fn bytes_at(pages: &[Page], place: Option<usize>) -> &[u8]
    requires { IfSome place (λ at. at < length pages.now) }
    ensures value { result.now ≡ page_at pages.now place }
    ensures size { length result.now ≡ 4096 }
{
    match place {
        Some(at) => &pages[at].bytes,
        None => zero_bytes(),
    }
}

/// The place of the page of the number that stands here, which gets one where it has none.
fn place_of_page(places: &mut [Option<usize>], pages: &mut Vec<Page>, at: usize) -> usize
    requires placed { ArePlaced places.old pages.old.items (vec_capacity pages.old) }
    requires within { at < length places.old }
    ensures placed { ArePlaced places.new pages.new.items (vec_capacity pages.new) }
    ensures same { map (page_at pages.new.items) places.new ≡ map (page_at pages.old.items) places.old }
    ensures place { slice_index_or places.new at None ≡ Some result }
    ensures as_many { length places.new ≡ length places.old }
{
    match places[at] {
        Some(place) => place,
        None => {
            let place = pages.len();
            pages.push_reserved(Page::zero());
            places[at] = Some(place);
            place
        }
    }
}

impl HostMemory {
    ghost use Rattle.host_memory.specs.MemoryLends.{LendsPart, LendsPartIf};

    /// The memory of a domain at its start: its frames, all zero. It answers `NoMemory` where memory
    /// was refused. No other call takes memory.
    pub fn new(alloc: Global, start: &Start) -> Result<HostMemory, NoMemory>
        ensures { IfOk result (λ memory. memory ≡ zeroed start.now.frames) }
    {
        let frames = start.frames();
        let numbers = Vec::from_slice(alloc, frames)?;
        let places = vec![in alloc; None; frames.len()]?;
        let pages = Vec::with_capacity(alloc, frames.len())?;
        Ok(HostMemory {
            numbers,
            places,
            pages,
        })
    }

    /// The bytes of this frame, if it is of the domain.
    pub fn page(&self, frame: u16) -> Option<&[u8]>
        ensures bytes { option_copied result ≡ page_of self.now frame }
        ensures size { IfSome result (λ page. length page.now ≡ 4096) }
    {
        match place(&self.numbers, frame) {
            Some(at) => Some(bytes_at(&self.pages, self.places[at])),
            None => None,
        }
    }

    /// The bytes of this range in this frame.
    /// There are none where the frame isn't of the domain, or hasn't the range.
    pub fn part(&self, frame: u16, range: Range<usize>) -> Option<&[u8]>
        ensures part { option_copied result ≡ part_of self.now frame range.start range.end }
        ensures size { IfSome result (λ part. length part.now + range.start ≡ range.end) }
    {
        let page = self.page(frame)?;
        page.get(range)
    }

    /// Lends the bytes of this range in this frame to be written.
    /// There are none where the frame isn't of the domain, or hasn't the range: then the memory stays as it is. Once a
    /// loan ends, the memory has there what was left in it, and all other bytes stay.
    pub fn part_mut(&mut self, frame: u16, range: Range<usize>) -> Option<&mut [u8]>
        ensures* writes_back { sem 𝓛 (LendsPartIf self.entry frame range.start result) }
        ensures part { option_copied_mut result ≡ part_of self.old frame range.start range.end }
        ensures size { IfSome result (λ part. length part.now + range.start ≡ range.end) }
    {
        if self.has_part(frame, range.start, range.end) {
            Some(self.known_part_mut(frame, range.start, range.end))
        } else {
            None
        }
    }

    // Is there such a part? It is asked of a memory that may be written, since `part_mut` lends its own again for it.
    fn has_part(&mut self, frame: u16, start: usize, end: usize) -> bool
        ensures found { result ≡ is_some (part_of self.old frame start end) }
        ensures kept { self.new ≡ self.old }
    {
        self.part(frame, start..end).is_some()
    }

    // Lends a part that is there to be written.
    fn known_part_mut(&mut self, frame: u16, start: usize, end: usize) -> &mut [u8]
        requires { IsSome (part_of self.old frame start end) }
        ensures* writes_back { sem 𝓛 (LendsPart self.entry frame start result) }
        ensures part { part_of self.old frame start end ≡ Some result.now }
        ensures size { length result.now + start ≡ end }
    {
        let at = place(&self.numbers, frame).unwrap();
        let place = place_of_page(&mut self.places, &mut self.pages, at);
        self.pages[place].part_mut(start, end)
    }

    /// Adds an operand of 4 or 8 bytes to the bytes from `offset` on.
    /// The lowest byte comes first, and what goes over is lost. Where the frame isn't of the domain nothing
    /// changes.
    pub fn fetch_add(&mut self, frame: u16, offset: usize, operand: &[u8])
        requires size { is_operand (length operand.now) ≡ true }
        requires within { offset + length operand.now ≤ 4096 }
        ensures { self.new ≡ added self.old frame offset operand.now }
    {
        let end = offset + operand.len();
        let Some(old) = self.part(frame, offset..end) else {
            return;
        };
        if operand.len() == 4 {
            let sum = sum_of_4(old, operand);
            self.write(frame, offset, &sum);
        } else {
            let sum = sum_of_8(old, operand);
            self.write(frame, offset, &sum);
        }
    }

    /// Writes these bytes from `offset` on, if the frame is of the domain.
    pub fn write(&mut self, frame: u16, offset: usize, bytes: &[u8])
        requires { offset + length bytes.now ≤ 4096 }
        ensures { self.new ≡ written self.old frame offset bytes.now }
    {
        let end = offset + bytes.len();
        if self.has_part(frame, offset, end) {
            self.known_part_mut(frame, offset, end)
                .copy_from_slice(bytes);
        }
    }
}
