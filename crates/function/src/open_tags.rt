//! The Tags that a domain's requesters have open.

ghost use Rattle.std.specs.Prelude.{◌≡◌, ◌+◌, ◌^◌, ◌≤◌, ◌<◌, ◌==◌, true, [], filter, IfOk, OnOk, length, not, option_map, slice_index_or, unwrap_or};
ghost use Rattle.std.specs.List.{find, list_any};
ghost use Rattle.fab_types.specs.Origins.{same_origin};
ghost use Rattle.function.specs.declared.tags.TagUse.TheVariants.{Raw};
ghost use Rattle.function.specs.Tags.{and_open, awaits_line, closed, free_tag, is_line, is_open, line_numbers, use_of};

use crate::tags::{OpenTag, TagUse};
use fab_types::{Bdf, NoMemory, Origin, same_origin};
use std::alloc::Global;
use std::marker::Model;

/// How many Tags there are (PCIe 4.0, 2.2.6.2).
const TAGS: usize = 256;

/// Those that the read lines of a program take.
const LINE_NUMBERS: [u8; 8] = [0, 1, 2, 3, 4, 5, 6, 7];

/// The Tags that a domain's functions and its host have open.
/// They stand by rising number; those of one number in the order in which they were opened. A contract sees them in that
/// order, and for how many more of each number there is room.
#[derive(Drop)]
pub struct OpenTags {
    // for each number those who have it open
    numbers: Vec<Vec<OpenTag>>,
    // how many there are
    count: usize,
}

impl Model for OpenTags {
    ghost use Rattle.function.specs.OpenTags.{Tags};

    ghost Value = { Tags };

    ghost use Rattle.function.specs.OpenTags.{AreTags, tags_of};

    ghost view = { tags_of };

    ghost invariant = { AreTags };
}

/// Does this owner have one of them?
fn has_owner(tags: &[OpenTag], owner: Origin) -> bool
    ensures { result ≡ list_any (λ open_tag. same_origin open_tag.owner owner) tags.now }
{
    tags.iter().any(|open| same_origin(open.owner, owner))
}

/// What the first of this owner was opened for.
fn use_by(tags: &[OpenTag], owner: Origin) -> TagUse
    ensures { result ≡ unwrap_or (option_map (λ open_tag. open_tag.usage) (find (λ open_tag. same_origin open_tag.owner owner) tags.now)) Raw }
{
    match tags.iter().find(|open| same_origin(open.owner, owner)) {
        Some(open) => open.usage,
        None => TagUse::Raw,
    }
}

/// Does a read line of this function's program await its data at one of these?
fn has_line(tags: &[OpenTag], function: Bdf) -> bool
    ensures { result ≡ awaits_line tags.now function }
{
    tags.iter().any(|open| same_origin(open.owner, Origin::Function(function))
        && open.usage.is_line())
}

/// Takes out those of this owner, and tells how many there were.
fn take_out(tags: &mut Vec<OpenTag>, owner: Origin) -> usize
    ensures tags { tags.new.items ≡ filter (λ open_tag. not (same_origin open_tag.owner owner)) tags.old.items }
    ensures count { length tags.new.items + result ≡ length tags.old.items }
{
    let before = tags.len();
    tags.retain(|open| !same_origin(open.owner, owner));
    before - tags.len()
}

impl OpenTags {
    /// No open Tag. It answers `NoMemory` where memory was refused.
    pub fn new(alloc: Global) -> Result<OpenTags, NoMemory>
        ensures { IfOk result (λ made. made.items ≡ []) }
    {
        let mut numbers = Vec::with_capacity(alloc, TAGS)?;
        for _ in 0..TAGS {
            numbers.push_reserved(Vec::new(alloc));
        }
        Ok(OpenTags { numbers, count: 0 })
    }

    /// How many are open.
    pub fn len(&self) -> usize
        ensures { result ≡ length self.now.items }
    {
        self.count
    }

    /// Those of this number.
    pub fn with_number(&self, number: u8) -> &[OpenTag]
        ensures { result.now ≡ filter (λ open_tag. open_tag.tag == number) self.now.items }
    {
        &self.numbers[usize::from(number)]
    }

    /// Does this owner have this Tag open?
    pub fn is_open(&self, owner: Origin, tag: u8) -> bool
        ensures { result ≡ is_open self.now.items owner tag }
    {
        has_owner(self.with_number(tag), owner)
    }

    /// What this Tag of this owner was opened for.
    pub fn use_of(&self, owner: Origin, tag: u8) -> TagUse
        ensures { result ≡ use_of self.now.items owner tag }
    {
        use_by(self.with_number(tag), owner)
    }

    /// Does one of the numbers that read lines take await the data of a line of this function?
    fn awaits_at_line_number(&self, function: Bdf) -> bool
        ensures { result ≡ list_any (λ number. awaits_line (filter (λ open_tag. open_tag.tag == number) self.now.items) function) line_numbers }
    {
        LINE_NUMBERS
            .iter()
            .any(|number| has_line(self.with_number(*number), function))
    }

    /// Does a read line of this function's program await its data?
    pub(crate) fn awaits_line(&self, function: Bdf) -> bool
        ensures { result ≡ awaits_line self.now.items function }
    {
        // for the proof: no read line has another number
        let _ = &self.numbers;
        self.awaits_at_line_number(function)
    }

    /// The lowest of the Tags of read lines that the function doesn't have open.
    #[tactic(auto, unfolding(crate::specs::Tags::free_tag))]
    pub(crate) fn free_tag(&self, function: Bdf) -> Option<u8>
        ensures { result ≡ free_tag self.now.items function }
    {
        LINE_NUMBERS
            .iter()
            .copied()
            .find(|tag| !self.is_open(Origin::Function(function), *tag))
    }

    /// Makes room for one more of this number. It answers `NoMemory` where memory was refused.
    pub fn reserve(&mut self, number: u8) -> Result<(), NoMemory>
        ensures same { self.new.items ≡ self.old.items }
        ensures room { OnOk result (1 ≤ slice_index_or self.new.room number 0) }
    {
        Ok(self.numbers[usize::from(number)].reserve(1)?)
    }

    /// Opens this Tag of this owner, for which there is room. That of a read line is one of 0 to 7.
    pub fn open_reserved(&mut self, owner: Origin, tag: u8, usage: TagUse)
        requires room { 1 ≤ slice_index_or self.old.room tag 0 }
        requires fits { length self.old.items + 1 < 2 ^ 64 }
        requires line { is_line usage ≡ true → tag < 8 }
        ensures { self.new.items ≡ and_open self.old.items (record { owner = owner; tag = tag; usage = usage }) }
    {
        self.numbers[usize::from(tag)].push_reserved(OpenTag { owner, tag, usage });
        self.count += 1;
    }

    /// Closes this Tag of this owner.
    pub fn close(&mut self, owner: Origin, tag: u8)
        ensures { self.new.items ≡ closed self.old.items owner tag }
    {
        self.count -= take_out(&mut self.numbers[usize::from(tag)], owner);
    }
}
