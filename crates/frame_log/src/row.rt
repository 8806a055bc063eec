//! The row of a domain: places for the entries of its packets, each written once, none ever moved.

ghost use Rattle.std.specs.Prelude.{◌≡◌, ◌<◌, IfErr, IfOk, IfSome};
ghost use Rattle.frame_log.specs.Rows.{IsIn};

use crate::entry::TlpEntry;
use crate::place::Place;
use boxcar::slot::{OnceSlot, SlotRule, Written};
use boxcar::tag::Tag;
use fab_types::NoMemory;
use std::alloc::Global;
use std::marker::Model;

/// Nothing is asked of what stands in a place.
#[derive(Debug)]
pub struct Anything;

impl<T> SlotRule<T> for Anything {
    ghost use Rattle.std.specs.Prelude.{⊤};

    ghost holds = { λ _ _. ⊤ };
}

/// Places, each of which is free or holds its value for good.
pub(crate) type Places<T> = Vec<OnceSlot<T, Anything>>;

/// Places for entries.
pub(crate) type Bucket = Places<TlpEntry>;

/// Places for the buckets of one size.
pub(crate) type Tier = Places<Bucket>;

/// The row of a domain. A contract sees the places of its tiers.
#[derive(Drop)]
pub struct Row {
    tiers: Places<Tier>,
}

impl Model for Row {
    ghost use Rattle.std.specs.Prelude.{List};
    ghost use Rattle.boxcar.specs.Slot.{Named, named_coded};
    ghost use base.Stored.{coded_list};

    ghost Value = { List Named };

    ghost coded = { coded_list named_coded };

    ghost view = { λ r. r.tiers.items };
}

/// So many free places.
fn places<T: Drop>(alloc: Global, count: usize) -> Result<Places<T>, NoMemory> {
    let mut places = Vec::with_capacity(alloc, count)?;
    for _ in 0..count {
        places.push(OnceSlot::new(&Tag::empty()))?;
    }
    Ok(places)
}

/// Shows the places that stand here. Where there are none yet, it makes so many. It answers `None` where another
/// thread stores its own here at this moment.
fn made<T: Drop>(
    alloc: Global,
    here: &OnceSlot<Places<T>, Anything>,
    count: usize,
) -> Result<Option<Written<Places<T>>>, NoMemory>
    ensures { IfOk result (λ made. IfSome made (λ written. written.of ≡ here.now.id)) }
{
    if let Some(made) = here.witness() {
        return Ok(Some(made));
    }
    Ok(here.set_written(places(alloc, count)?).ok())
}

impl Row {
    /// A row with no entry.
    pub(crate) fn new(alloc: Global) -> Result<Row, NoMemory> {
        Ok(Row {
            tiers: places(alloc, Place::TIERS)?,
        })
    }

    /// Stores an entry at this place. It gives the entry back where the place is taken, or another thread makes room
    /// there at this moment.
    fn store_at(
        &self,
        alloc: Global,
        place: Place,
        entry: TlpEntry,
    ) -> Result<Result<Placed, TlpEntry>, NoMemory>
        requires { place.tier < 32 }
        ensures shown { IfOk result (λ stored. IfOk stored (λ placed. IsIn self.now placed)) }
        ensures entry { IfOk result (λ stored. IfOk stored (λ placed. placed.item.value ≡ entry) × IfErr stored (λ back. back ≡ entry)) }
    {
        let Some(tier) = self.tiers.get(place.tier()) else {
            return Ok(Err(entry));
        };
        let Some(buckets) = made(alloc, tier, place.buckets())? else {
            return Ok(Err(entry));
        };
        let Some(bucket) = tier.value(&buckets).get(place.bucket()) else {
            return Ok(Err(entry));
        };
        let Some(entries) = made(alloc, bucket, place.slots())? else {
            return Ok(Err(entry));
        };
        let Some(slot) = bucket.value(&entries).get(place.slot()) else {
            return Ok(Err(entry));
        };
        Ok(
            slot.set_written(entry).map(|item| Placed {
                place,
                buckets,
                entries,
                item,
            }),
        )
    }

    /// Stores an entry at the place of its number, or at the next that is free. It answers `NoMemory` where memory was
    /// refused, and waits for nobody.
    pub(crate) fn store(&self, alloc: Global, entry: TlpEntry) -> Result<Placed, NoMemory>
        ensures shown { IfOk result (λ placed. IsIn self.now placed) }
        ensures entry { IfOk result (λ placed. placed.item.value ≡ entry) }
    {
        let mut left = entry;
        for number in left.number..=u64::MAX {
            match self.store_at(alloc, Place::of(number), left)? {
                Ok(placed) => return Ok(placed),
                Err(back) => left = back,
            }
        }
        Err(NoMemory)
    }

    /// Lends an entry, for as long as the row is lent.
    pub(crate) fn lend<'a>(&'a self, placed: &Placed) -> &'a TlpEntry
        requires { IsIn self.now placed.now }
        ensures { result.now ≡ placed.now.item.value }
    {
        let Placed {
            place,
            buckets,
            entries,
            item,
        } = placed;
        let bucket = &self.tiers[place.tier()].value(buckets)[place.bucket()];
        bucket.value(entries)[place.slot()].value(item)
    }
}

/// Shows where an entry stands in a row.
#[derive(Drop)]
pub struct Placed {
    pub(crate) place: Place,
    pub(crate) buckets: Written<Tier>,
    pub(crate) entries: Written<Bucket>,
    pub(crate) item: Written<TlpEntry>,
}
