//! The map lines of a requester, by groups of 512 pages.

ghost use Rattle.std.specs.Prelude.{◌≡◌, ◌≢◌, ◌∷◌, All, Contains, IfOk, IfSome, MatchOption, OnOk};
ghost use Rattle.std.specs.List.Sorted.{IsPermutation};
ghost use Rattle.platform.specs.declared.parts.Mapping.{Mapping};
ghost use Rattle.host_table.specs.Rising.{IsAt, IsPlaceOf, RisesBy};
ghost use Rattle.host_table.specs.Groups.{HaveOneMore, IsGroup, StandsIn, group_number, group_of};

use fab_types::NoMemory;
use platform::Mapping;
use std::alloc::Global;
use std::marker::Model;

/// How many pages a group has: 2 MB of a requester's addresses.
const GROUP_PAGES: u64 = 512;

/// The map lines of one requester whose pages lie in one group.
/// A group has 512 pages. The lines stand by rising page. A contract sees the group's number and its lines.
#[derive(Debug, Drop)]
pub struct Group {
    number: u64,
    lines: Vec<Mapping>,
}

impl Model for Group {
    ghost use Rattle.host_table.specs.Groups.{PageGroup};

    ghost Value = { PageGroup };

    ghost view = { λ group. record { number = group.number; lines = group.lines.items } };
}

/// The number of the group that a page belongs to.
fn group_number(page: u64) -> u64
    ensures { result ≡ group_number page }
{
    page / GROUP_PAGES
}

/// The place of the line of this page, if none between it and the first is left out, as is most often so.
fn place_by_count(lines: &[Mapping], page: u64) -> Option<usize>
    ensures { IfSome result (IsAt (λ line. line.page) lines.now page) }
{
    let first = lines.first()?.page;
    let place = page.checked_sub(first)? as usize;
    if lines.get(place)?.page == page {
        Some(place)
    } else {
        None
    }
}

/// The place of the line of this page, or where one would go.
fn place_by_halves(lines: &[Mapping], page: u64) -> Result<usize, usize>
    requires { RisesBy (λ line. line.page) lines.now }
    ensures { IsPlaceOf (λ line. line.page) lines.now page result }
{
    lines.binary_search_by_key(&page, |line| line.page)
}

/// The same, which looks first where it is found at once.
fn place_of_page(lines: &[Mapping], page: u64) -> Result<usize, usize>
    requires { RisesBy (λ line. line.page) lines.now }
    ensures { IsPlaceOf (λ line. line.page) lines.now page result }
{
    match place_by_count(lines, page) {
        Some(place) => Ok(place),
        None => place_by_halves(lines, page),
    }
}

/// The place of the group of this number, or where it would go.
fn place_of_group(groups: &[Group], number: u64) -> Result<usize, usize>
    requires { RisesBy (λ group. group.number) groups.now }
    ensures { IsPlaceOf (λ group. group.number) groups.now number result }
{
    groups.binary_search_by_key(&number, |group| group.number())
}

impl Group {
    /// The group of this line alone.
    fn of(alloc: Global, line: Mapping) -> Result<Group, NoMemory>
        ensures { IfOk result (λ group. group ≡ group_of line) }
    {
        Ok(Group {
            number: group_number(line.page),
            lines: vec![in alloc; line]?,
        })
    }

    /// Each of its pages, divided by 512.
    pub fn number(&self) -> u64
        ensures { result ≡ self.now.number }
    {
        self.number
    }

    /// Its lines, by rising page. There is at least one.
    pub fn lines(&self) -> &[Mapping]
        ensures { result.now ≡ self.now.lines }
    {
        &self.lines
    }

    /// One line more, of a page that no line of the group has.
    fn add(&mut self, line: Mapping) -> Result<(), NoMemory>
        requires group { IsGroup self.old }
        requires own { group_number line.page ≡ self.old.number }
        requires free { (other : Mapping) → Contains self.old.lines other → other.page ≢ line.page }
        ensures number { self.new.number ≡ self.old.number }
        ensures group { OnOk result (IsGroup self.new) }
        ensures lines { OnOk result (IsPermutation (line ∷ self.old.lines) self.new.lines) }
    {
        let place = self.lines.partition_point(|other| other.page < line.page);
        self.lines.insert(place, line)?;
        Ok(())
    }
}

/// One line more, of a page that no line of the groups has.
pub(crate) fn add_to_groups(
    alloc: Global,
    groups: &mut Vec<Group>,
    line: Mapping,
) -> Result<(), NoMemory>
    requires rising { RisesBy (λ group. group.number) groups.old.items }
    requires each { All IsGroup groups.old.items }
    requires free { (other : Mapping) → StandsIn groups.old.items other → other.page ≢ line.page }
    ensures rising { OnOk result (RisesBy (λ group. group.number) groups.new.items) }
    ensures each { OnOk result (All IsGroup groups.new.items) }
    ensures lines { OnOk result (HaveOneMore groups.old.items line groups.new.items) }
{
    match place_of_group(groups, group_number(line.page)) {
        Ok(place) => groups[place].add(line),
        Err(place) => Ok(groups.insert(place, Group::of(alloc, line)?)?),
    }
}

/// The line of this page, if the groups have one.
pub(crate) fn line_of(groups: &[Group], page: u64) -> Option<&Mapping>
    requires rising { RisesBy (λ group. group.number) groups.now }
    requires each { All IsGroup groups.now }
    ensures { MatchOption result
        ((line : Mapping) → StandsIn groups.now line → line.page ≢ page)
        (λ line. StandsIn groups.now line.now × (line.now.page ≡ page)) }
{
    let group = place_of_group(groups, group_number(page)).ok()?;
    let lines = groups[group].lines();
    let line = place_of_page(lines, page).ok()?;
    Some(&lines[line])
}
