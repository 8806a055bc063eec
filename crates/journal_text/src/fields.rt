//! What a line of a journal's text says.

ghost use Rattle.std.specs.Prelude.{◌≡◌};
ghost use Rattle.text.specs.Answers.{IsRead};
ghost use Rattle.text.specs.Text.{wide_decimal};
ghost use Rattle.journal_text.specs.Fields.{addressee_of, alien_of, answer_of, access_by, answerer_of, direction_of, entry_of, entry_of_word, origin_of, outbox_of, parties_of, place_of, way_of};

use domain::Entry;
use fab_types::{Answerer, Direction, DomainId, Origin, Parties, Place, ScriptCause, Way};
use script::{access_of, domain_of, packet_bytes, submission_of};
use std::alloc::Global;
use text::{at_blank, id, is_keyword, wide_decimal};

fn origin_of(word: &[u8]) -> Option<Origin>
    ensures { result ≡ origin_of word.now }
{
    if word.len() >= 4 && is_keyword(&word[..4], "host") {
        Some(Origin::Host(domain_of(&word[4..])?))
    } else {
        Some(Origin::Function(id(word)?))
    }
}

fn way_of(word: &[u8]) -> Option<Way>
    ensures { result ≡ way_of word.now }
{
    if is_keyword(word, "up") {
        Some(Way::Up)
    } else if is_keyword(word, "down") {
        Some(Way::Down)
    } else {
        None
    }
}

fn direction_of(lower: &[u8], way: &[u8]) -> Option<Direction>
    ensures { result ≡ direction_of lower.now way.now }
{
    Some(Direction {
        lower: id(lower)?,
        way: way_of(way)?,
    })
}

fn outbox_of(whose: &[u8], way: &[u8]) -> Option<Place>
    ensures { result ≡ outbox_of whose.now way.now }
{
    if is_keyword(way, "-") {
        Some(Place::Outbox(origin_of(whose)?))
    } else {
        None
    }
}

fn place_of(word: &[u8], whose: &[u8], way: &[u8]) -> Option<Place>
    ensures { result ≡ place_of word.now whose.now way.now }
{
    if is_keyword(word, "outbox") {
        outbox_of(whose, way)
    } else if is_keyword(word, "egress") {
        Some(Place::Egress(direction_of(whose, way)?))
    } else if is_keyword(word, "wire") {
        Some(Place::Wire(direction_of(whose, way)?))
    } else if is_keyword(word, "ingress") {
        Some(Place::Ingress(direction_of(whose, way)?))
    } else {
        None
    }
}

fn answerer_of(word: &[u8]) -> Option<Answerer>
    ensures { result ≡ answerer_of word.now }
{
    if is_keyword(word, "port") {
        Some(Answerer::Port)
    } else if is_keyword(word, "host") {
        Some(Answerer::Host)
    } else {
        Some(Answerer::Function(id(word)?))
    }
}

fn addressee_of(word: &[u8]) -> Option<Option<Origin>>
    ensures { result ≡ addressee_of word.now }
{
    if is_keyword(word, "-") {
        Some(None)
    } else {
        Some(Some(origin_of(word)?))
    }
}

fn answer_of(who: &[u8], whom: &[u8]) -> Option<Parties>
    ensures { result ≡ answer_of who.now whom.now }
{
    Some(Parties::Answer(answerer_of(who)?, addressee_of(whom)?))
}

fn parties_of(word: &[u8], who: &[u8], whom: &[u8]) -> Option<Parties>
    ensures { result ≡ parties_of word.now who.now whom.now }
{
    if is_keyword(word, "by") {
        answer_of(who, whom)
    } else if !is_keyword(whom, "-") {
        None
    } else if is_keyword(word, "from") {
        Some(Parties::Upward(id(who)?))
    } else if is_keyword(word, "to") {
        Some(Parties::Downward(id(who)?))
    } else {
        None
    }
}

fn alien_of(alloc: Global, rest: &[u8]) -> Result<Entry, ScriptCause>
    ensures { IsRead (alien_of rest.now) result }
{
    let kind = at_blank(rest).ok_or(ScriptCause::Line)?;
    let whose = at_blank(kind.after).ok_or(ScriptCause::Line)?;
    let way = at_blank(whose.after).ok_or(ScriptCause::Line)?;
    let word = at_blank(way.after).ok_or(ScriptCause::Line)?;
    let who = at_blank(word.after).ok_or(ScriptCause::Line)?;
    let whom = at_blank(who.after).ok_or(ScriptCause::Line)?;
    let place = place_of(kind.before, whose.before, way.before).ok_or(ScriptCause::Line)?;
    let sender = parties_of(word.before, who.before, whom.before).ok_or(ScriptCause::Line)?;
    Ok(Entry::Alien(place, sender, packet_bytes(alloc, whom.after)?))
}

fn access_by(alloc: Global, domain: DomainId, rest: &[u8]) -> Result<Entry, ScriptCause>
    ensures { IsRead (access_by domain rest.now) result }
{
    let field = at_blank(rest).ok_or(ScriptCause::Line)?;
    let number = domain_of(field.before).ok_or(ScriptCause::Line)?;
    if number == domain {
        Ok(Entry::Mmio(access_of(alloc, field.after)?))
    } else {
        Err(ScriptCause::Line)
    }
}

fn number_of(rest: &[u8]) -> Result<u64, ScriptCause>
    ensures { IsRead (wide_decimal rest.now) result }
{
    wide_decimal(rest).ok_or(ScriptCause::Line)
}

fn entry_of_word(
    alloc: Global,
    domain: DomainId,
    word: &[u8],
    rest: &[u8],
) -> Result<Entry, ScriptCause>
    ensures { IsRead (entry_of_word domain word.now rest.now) result }
{
    if is_keyword(word, "submit") {
        let (function, bytes) = submission_of(alloc, rest)?;
        Ok(Entry::Submit(function, bytes))
    } else if is_keyword(word, "tick") {
        Ok(Entry::Tick(id(rest).ok_or(ScriptCause::Line)?))
    } else if is_keyword(word, "mmio") {
        access_by(alloc, domain, rest)
    } else if is_keyword(word, "refuse") {
        Ok(Entry::Refuse(number_of(rest)?))
    } else if is_keyword(word, "carry") {
        Ok(Entry::Carry(number_of(rest)?))
    } else if is_keyword(word, "deliver") {
        Ok(Entry::Deliver(number_of(rest)?))
    } else if is_keyword(word, "alien") {
        alien_of(alloc, rest)
    } else {
        Err(ScriptCause::Line)
    }
}

/// What a line says in the journal of this domain.
///
/// # Errors
///
/// `Line` where it has none of the forms, and `NoMemory` where memory was refused.
#[tactic(auto, unfolding(crate::specs::Fields::entry_of))]
pub fn entry_of(alloc: Global, domain: DomainId, line: &[u8]) -> Result<Entry, ScriptCause>
    ensures { IsRead (entry_of domain line.now) result }
{
    let field = at_blank(line).ok_or(ScriptCause::Line)?;
    entry_of_word(alloc, domain, field.before, field.after)
}
