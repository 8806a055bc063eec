//! The words by which a line names places and parties.

ghost use Rattle.std.specs.Prelude.{Some};
ghost use Rattle.journal_text.specs.Words.{addressee_text, answerer_text, direction_text, offset_text, origin_text, parties_text, place_text, way_text};

use fab_types::{Answerer, Direction, Origin, Parties, Place, Way};
use std::fmt;

/// As `03:00.0`, or `host1` for the host of domain 1.
#[derive(Clone, Copy)]
struct OriginWord(Origin);

impl fmt::Display for OriginWord {
    ghost output = { λ o. Some (origin_text o.0) };

    fn fmt<W: fmt::Write>(&self, f: &mut fmt::Formatter<W>) -> fmt::Result {
        match self.0 {
            Origin::Function(function) => write!(f, "{function}"),
            Origin::Host(domain) => write!(f, "host{domain}"),
        }
    }
}

#[derive(Clone, Copy)]
struct WayWord(Way);

impl fmt::Display for WayWord {
    ghost output = { λ w. Some (way_text w.0) };

    fn fmt<W: fmt::Write>(&self, f: &mut fmt::Formatter<W>) -> fmt::Result {
        match self.0 {
            Way::Up => write!(f, "up"),
            Way::Down => write!(f, "down"),
        }
    }
}

/// As `01:00.0 up`.
#[derive(Clone, Copy)]
struct DirectionWords(Direction);

impl fmt::Display for DirectionWords {
    ghost output = { λ d. Some (direction_text d.0) };

    fn fmt<W: fmt::Write>(&self, f: &mut fmt::Formatter<W>) -> fmt::Result {
        let (lower, way) = (self.0.lower, WayWord(self.0.way));
        write!(f, "{lower} {way}")
    }
}

/// As `ingress 01:00.0 up`.
#[derive(Clone, Copy)]
pub(crate) struct PlaceWords(pub(crate) Place);

impl fmt::Display for PlaceWords {
    ghost output = { λ p. Some (place_text p.0) };

    fn fmt<W: fmt::Write>(&self, f: &mut fmt::Formatter<W>) -> fmt::Result {
        match self.0 {
            Place::Outbox(origin) => {
                let origin = OriginWord(origin);
                write!(f, "outbox {origin} -")
            }
            Place::Egress(direction) => {
                let direction = DirectionWords(direction);
                write!(f, "egress {direction}")
            }
            Place::Wire(direction) => {
                let direction = DirectionWords(direction);
                write!(f, "wire {direction}")
            }
            Place::Ingress(direction) => {
                let direction = DirectionWords(direction);
                write!(f, "ingress {direction}")
            }
        }
    }
}

#[derive(Clone, Copy)]
struct AnswererWord(Answerer);

impl fmt::Display for AnswererWord {
    ghost output = { λ a. Some (answerer_text a.0) };

    fn fmt<W: fmt::Write>(&self, f: &mut fmt::Formatter<W>) -> fmt::Result {
        match self.0 {
            Answerer::Port => write!(f, "port"),
            Answerer::Host => write!(f, "host"),
            Answerer::Function(function) => write!(f, "{function}"),
        }
    }
}

#[derive(Clone, Copy)]
struct AddresseeWord(Option<Origin>);

impl fmt::Display for AddresseeWord {
    ghost output = { λ a. Some (addressee_text a.0) };

    fn fmt<W: fmt::Write>(&self, f: &mut fmt::Formatter<W>) -> fmt::Result {
        match self.0 {
            None => write!(f, "-"),
            Some(origin) => {
                let origin = OriginWord(origin);
                write!(f, "{origin}")
            }
        }
    }
}

/// As `from 03:00.0 -`, or `by host 03:00.0` of an answer.
#[derive(Clone, Copy)]
pub(crate) struct PartiesWords(pub(crate) Parties);

impl fmt::Display for PartiesWords {
    ghost output = { λ p. Some (parties_text p.0) };

    fn fmt<W: fmt::Write>(&self, f: &mut fmt::Formatter<W>) -> fmt::Result {
        match self.0 {
            Parties::Upward(function) => write!(f, "from {function} -"),
            Parties::Downward(function) => write!(f, "to {function} -"),
            Parties::Answer(answerer, addressee) => {
                let (who, whom) = (AnswererWord(answerer), AddresseeWord(addressee));
                write!(f, "by {who} {whom}")
            }
        }
    }
}

/// A place in a page of 4,096 bytes, in three hexadecimal digits.
#[derive(Clone, Copy)]
pub(crate) struct OffsetWord(pub(crate) u16);

impl fmt::Display for OffsetWord {
    ghost output = { λ o. Some (offset_text o.0) };

    fn fmt<W: fmt::Write>(&self, f: &mut fmt::Formatter<W>) -> fmt::Result {
        let (high, low) = (self.0 / 256, self.0 % 256);
        write!(f, "{high:x}{low:02x}")
    }
}
