//! Where in a row the entry of a packet stands.

ghost use Rattle.std.specs.Prelude.{◌≡◌, ◌<◌};

/// How many places a bucket of the first tier has.
const FIRST: u64 = 32;

/// A place of a row. Tier k has 2^k buckets of 32 * 2^k places each: so a row of n entries has room for some
/// 10 * sqrt(n) more at most, and what is there never moves.
#[derive(Debug, Clone, Copy, Drop)]
pub struct Place {
    tier: u8,
    bucket: usize,
    slot: usize,
}

impl Place {
    /// How many tiers there are places in: enough for each number.
    pub(crate) const TIERS: usize = 31;

    /// The place of the packet of this number.
    pub(crate) fn of(number: u64) -> Place
        ensures { result.tier < 32 }
    {
        let tier = (number / FIRST * 3 + 1).ilog2() / 2;
        let before = FIRST.saturating_mul(((1u64 << (2 * tier)) - 1) / 3);
        let offset = number.saturating_sub(before);
        let slots = FIRST << tier;
        Place {
            tier: tier as u8,
            bucket: (offset / slots) as usize,
            slot: (offset % slots) as usize,
        }
    }

    /// Which tier it is in.
    pub(crate) fn tier(&self) -> usize
        ensures { result ≡ self.now.tier }
    {
        usize::from(self.tier)
    }

    /// How many buckets that tier has.
    pub(crate) fn buckets(&self) -> usize
        requires { self.now.tier < 32 }
    {
        1usize << self.tier
    }

    /// Which bucket of the tier it is in.
    pub(crate) fn bucket(&self) -> usize
        ensures { result ≡ self.now.bucket }
    {
        self.bucket
    }

    /// How many places that bucket has.
    pub(crate) fn slots(&self) -> usize
        requires { self.now.tier < 32 }
    {
        (FIRST as usize) << self.tier
    }

    /// Which place of the bucket it is.
    pub(crate) fn slot(&self) -> usize
        ensures { result ≡ self.now.slot }
    {
        self.slot
    }
}
