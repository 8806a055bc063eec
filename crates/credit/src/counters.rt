//! The counters of the six kinds.

ghost use Rattle.std.specs.Prelude.{◌≡◌, ◌<◌};
ghost use Rattle.credit.specs.Limits.{ahead, back, credits_at, further, counted, uncounted, zero_counters};

use crate::counter::Counter;
use fab_types::{Class, Cost};

/// A counter of header credits: 8 bits.
pub type HeaderCounter = Counter<256>;

/// A counter of data credits: 12 bits.
pub type DataCounter = Counter<4096>;

/// The two counters of a class.
#[derive(Clone, Copy, Debug, PartialEq, Eq)]
pub struct Credits {
    /// Header credits, one for each packet.
    pub headers: HeaderCounter,
    /// Data credits, of 4 DW each.
    pub payload: DataCounter,
}

impl Credits {
    /// So many header credits and data credits, `payload` below 4,096.
    pub fn new(headers: u8, payload: u16) -> Credits
        requires { payload < 4096 }
        ensures headers { result.headers ≡ headers }
        ensures payload { result.payload ≡ payload }
    {
        Credits {
            headers: Counter::new(u16::from(headers)),
            payload: Counter::new(payload),
        }
    }

    fn plus(self, payload: u16) -> Credits
        ensures { result ≡ further self payload }
    {
        Credits {
            headers: self.headers.plus(1),
            payload: self.payload.plus(payload),
        }
    }

    fn minus(self, payload: u16) -> Credits
        ensures { result ≡ back self payload }
    {
        Credits {
            headers: self.headers.minus(1),
            payload: self.payload.minus(payload),
        }
    }

    /// How many credits these counters are behind `limit`.
    pub(crate) fn left_to(self, limit: Credits) -> Credits
        ensures { result ≡ ahead self limit }
    {
        Credits {
            headers: Counter::new(self.headers.distance_to(limit.headers)),
            payload: Counter::new(self.payload.distance_to(limit.payload)),
        }
    }
}

/// A counter of each of the six kinds of credits (PCIe 4.0, 2.6.1).
#[derive(Clone, Copy, Debug, PartialEq, Eq)]
pub struct Counters {
    /// PH and PD: for posted requests.
    pub posted: Credits,
    /// NPH and NPD: for non-posted requests.
    pub non_posted: Credits,
    /// CPLH and CPLD: for completions.
    pub completion: Credits,
}

/// How far a sender may go, as a receiver advertises it.
pub type Limits = Counters;

impl Counters {
    pub(crate) fn zero() -> Counters
        ensures { result ≡ zero_counters }
    {
        Counters {
            posted: Credits::new(0, 0),
            non_posted: Credits::new(0, 0),
            completion: Credits::new(0, 0),
        }
    }

    /// The counters of a class.
    pub fn of(self, class: Class) -> Credits
        ensures { result ≡ credits_at self class }
    {
        match class {
            Class::Posted => self.posted,
            Class::NonPosted => self.non_posted,
            Class::Completion => self.completion,
        }
    }

    /// The counters once a packet of this cost is counted.
    pub(crate) fn plus(self, cost: Cost) -> Counters
        ensures { result ≡ counted self cost }
    {
        let Counters {
            posted,
            non_posted,
            completion,
        } = self;
        let data = cost.data.get();
        match cost.class {
            Class::Posted => Counters {
                posted: posted.plus(data),
                non_posted,
                completion,
            },
            Class::NonPosted => Counters {
                posted,
                non_posted: non_posted.plus(data),
                completion,
            },
            Class::Completion => Counters {
                posted,
                non_posted,
                completion: completion.plus(data),
            },
        }
    }

    /// The counters from which a packet of this cost leads to these.
    pub(crate) fn minus(self, cost: Cost) -> Counters
        ensures { result ≡ uncounted self cost }
    {
        let Counters {
            posted,
            non_posted,
            completion,
        } = self;
        let data = cost.data.get();
        match cost.class {
            Class::Posted => Counters {
                posted: posted.minus(data),
                non_posted,
                completion,
            },
            Class::NonPosted => Counters {
                posted,
                non_posted: non_posted.minus(data),
                completion,
            },
            Class::Completion => Counters {
                posted,
                non_posted,
                completion: completion.minus(data),
            },
        }
    }
}
