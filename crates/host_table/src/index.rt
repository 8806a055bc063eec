//! The groups of each requester.

ghost use Rattle.std.specs.Prelude.{◌+◌, ◌<◌, IfOk, OnOk, length, take};
ghost use Rattle.platform.specs.Tables.{MapsOnce};
ghost use Rattle.host_table.specs.Rising.{IsPlaceOf, RisesBy};
ghost use Rattle.host_table.specs.Index.{IsIndex};

use crate::groups::{Group, add_to_groups};
use fab_types::{Bdf, NoMemory};
use platform::Mapping;
use std::alloc::Global;

/// The lines of a requester, in groups by rising number.
#[derive(Debug, Drop)]
pub(crate) struct RequesterGroups {
    pub(crate) requester: Bdf,
    pub(crate) groups: Vec<Group>,
}

/// The place of a requester, or where it would go.
pub(crate) fn place_of_requester(index: &[RequesterGroups], requester: Bdf) -> Result<usize, usize>
    requires { RisesBy (λ entry. entry.requester) index.now }
    ensures { IsPlaceOf (λ entry. entry.requester) index.now requester result }
{
    index.binary_search_by_key(&requester.bits(), |entry| entry.requester.bits())
}

/// The index of the lines before this place, with the line that stands there.
fn add_line(
    alloc: Global,
    index: &mut Vec<RequesterGroups>,
    lines: &[Mapping],
    place: usize,
) -> Result<(), NoMemory>
    requires once { MapsOnce lines.now }
    requires within { place < length lines.now }
    requires index { IsIndex (take place lines.now) index.old.items }
    ensures { OnOk result (IsIndex (take (place + 1) lines.now) index.new.items) }
{
    let line = lines[place];
    match place_of_requester(index, line.requester) {
        Ok(known) => add_to_groups(alloc, &mut index[known].groups, line),
        Err(gap) => {
            let mut groups = Vec::new(alloc);
            add_to_groups(alloc, &mut groups, line)?;
            let requester = line.requester;
            Ok(index.insert(gap, RequesterGroups { requester, groups })?)
        }
    }
}

/// The index of these lines.
pub(crate) fn index_of(alloc: Global, lines: &[Mapping]) -> Result<Vec<RequesterGroups>, NoMemory>
    requires { MapsOnce lines.now }
    ensures { IfOk result (λ index. IsIndex lines.now index.items) }
{
    let mut index = Vec::new(alloc);
    for place in 0..lines.len() {
        add_line(alloc, &mut index, lines, place)?;
    }
    Ok(index)
}
