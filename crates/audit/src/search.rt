//! The audit of a layout.

ghost use Rattle.std.specs.Prelude.{◌≡◌, ◌≢◌, ◌↔◌, ◌++◌, false, true, IfOk, OnOk, map};
ghost use Rattle.std.specs.List.{list_all};
ghost use Rattle.std.specs.Option.{option_to_list};
ghost use Rattle.platform.specs.Share.{is_guarded_port};
ghost use Rattle.attacks.specs.Owners.{has_nothing_to_keep};
ghost use Rattle.attacks.specs.declared.findings.Findings.TheVariants.{Guarded, NothingToKeep};
ghost use Rattle.audit.specs.Settings.{IsSetting};
ghost use Rattle.audit.specs.Telling.{Adds, AddsFound, AreFound, ArePairsOf, IsFound, IsPairOf, Tell, attempts, candidates, couple_of, couples, couples_of, is_answer, target, trier, ways, witness_by};

use crate::landing::witness_of;
use crate::setting::Setting;
use attacks::{Attack, Findings, Pair, Way, Witness, has_nothing_to_keep, own_functions, tries};
use domain::Domain;
use fab_types::{Bdf, DomainId, NoMemory};
use layout::{Layout, Start};
use std::alloc::Global;

/// Says whether the domains of a layout are kept apart.
///
/// Where fewer than two domains own a function there is nothing to keep apart, and nothing is tried.
/// Where they aren't kept apart, it says what shows it. A layout is guarded where each downstream port has all five ACS controls set.
/// Then no domain can tell the others from none, and nothing is tried. In any other, for each two domains and each way of
/// harm, the functions of the one try requests against the other (`attacks::tries`), each in a fresh fabric, until one is
/// seen to land; where the one only answers, those of the other try. That one is told, and none where none of them lands. That there is no other attack isn't claimed.
///
/// It answers `NoMemory` where memory was refused.
pub fn audit(alloc: Global, layout: &Layout) -> Result<Findings, NoMemory>
    ensures nothing { IfOk result (λ findings. (findings ≡ NothingToKeep) ↔ (has_nothing_to_keep layout.now ≡ true)) }
    ensures guarded { IfOk result (λ findings. (findings ≡ Guarded) ↔ ((has_nothing_to_keep layout.now ≡ false) × (list_all is_guarded_port layout.now.ports ≡ true))) }
    ensures told { IfOk result (Tell layout.now) }
{
    if has_nothing_to_keep(layout) {
        return Ok(Findings::NothingToKeep);
    }
    let setting = Setting::new(alloc, layout)?;
    if layout.is_guarded() {
        return Ok(Findings::Guarded);
    }
    let pairs = all_pairs(alloc, &setting, setting.start.domains())?;
    Ok(Findings::Unguarded(pairs))
}

/// What each of these domains was seen to do to each other.
fn all_pairs(
    alloc: Global,
    setting: &Setting<'_>,
    domains: &[Domain],
) -> Result<Vec<Pair>, NoMemory>
    requires { IsSetting setting.now }
    ensures { IfOk result (λ pairs. ArePairsOf setting.now.layout.now (couples domains.now) pairs.items) }
{
    let mut pairs = Vec::new(alloc);
    for attacker in domains {
        add_pairs(alloc, setting, attacker, domains, &mut pairs)?;
    }
    Ok(pairs)
}

/// Adds what the attacker was seen to do to each other of these domains.
fn add_pairs(
    alloc: Global,
    setting: &Setting<'_>,
    attacker: &Domain,
    domains: &[Domain],
    pairs: &mut Vec<Pair>,
) -> Result<(), NoMemory>
    requires { IsSetting setting.now }
    ensures { OnOk result (Adds setting.now.layout.now (couples_of domains.now attacker.now) pairs.old.items pairs.new.items) }
{
    for victim in domains {
        add_pair(alloc, setting, attacker, victim, pairs)?;
    }
    Ok(())
}

/// Adds what the attacker was seen to do to the victim, if that is another domain.
fn add_pair(
    alloc: Global,
    setting: &Setting<'_>,
    attacker: &Domain,
    victim: &Domain,
    pairs: &mut Vec<Pair>,
) -> Result<(), NoMemory>
    requires { IsSetting setting.now }
    ensures { OnOk result (Adds setting.now.layout.now (couple_of attacker.now victim.now) pairs.old.items pairs.new.items) }
{
    let (attacker, victim) = (attacker.start(), victim.start());
    if attacker.domain() == victim.domain() {
        return Ok(());
    }
    let pair = pair_of(alloc, setting, attacker, victim)?;
    pairs.push(pair)?;
    Ok(())
}

/// What one domain was seen to do to another.
fn pair_of(
    alloc: Global,
    setting: &Setting<'_>,
    attacker: &Start,
    victim: &Start,
) -> Result<Pair, NoMemory>
    requires setting { IsSetting setting.now }
    requires other { attacker.now.domain ≢ victim.now.domain }
    ensures { IfOk result (IsPairOf setting.now.layout.now attacker.now victim.now) }
{
    let witnesses = all_found(alloc, setting, attacker, victim)?;
    Ok(Pair {
        attacker: attacker.domain(),
        victim: victim.domain(),
        witnesses,
    })
}

/// All ways of harm, the worst first.
fn ways() -> [Way; 8]
    ensures { result ≡ ways }
{
    [
        Way::FrameWritten,
        Way::FrameRead,
        Way::RegistersWritten,
        Way::RegistersRead,
        Way::TagClosed,
        Way::Completion,
        Way::Counts,
        Way::AnswersReads,
    ]
}

/// The first witness of each way of harm, if there is one, the worst first.
fn all_found(
    alloc: Global,
    setting: &Setting<'_>,
    attacker: &Start,
    victim: &Start,
) -> Result<Vec<Witness>, NoMemory>
    requires setting { IsSetting setting.now }
    requires other { attacker.now.domain ≢ victim.now.domain }
    ensures { IfOk result (λ witnesses. AreFound setting.now.layout.now attacker.now victim.now ways witnesses.items) }
{
    let ways = ways();
    let mut all = Vec::new(alloc);
    for way in &ways {
        add_found(alloc, setting, *way, attacker, victim, &mut all)?;
    }
    Ok(all)
}

/// Adds the first witness of this way of harm, if there is one.
fn add_found(
    alloc: Global,
    setting: &Setting<'_>,
    way: Way,
    attacker: &Start,
    victim: &Start,
    witnesses: &mut Vec<Witness>,
) -> Result<(), NoMemory>
    requires setting { IsSetting setting.now }
    requires other { attacker.now.domain ≢ victim.now.domain }
    ensures { OnOk result (AddsFound setting.now.layout.now (candidates setting.now.layout.now attacker.now victim.now way) witnesses.old.items witnesses.new.items) }
{
    let found = found(alloc, setting, way, attacker, victim)?;
    add_some(witnesses, found)?;
    Ok(())
}

fn add_some(witnesses: &mut Vec<Witness>, found: Option<Witness>) -> Result<(), NoMemory>
    ensures { OnOk result (witnesses.new.items ≡ witnesses.old.items ++ option_to_list found) }
{
    match found {
        Some(witness) => {
            witnesses.push(witness)?;
            Ok(())
        }
        None => Ok(()),
    }
}

/// Does the attacker only answer in this way of harm?
fn is_answer(way: Way) -> bool
    ensures { result ≡ is_answer way }
{
    matches!(way, Way::AnswersReads)
}

/// Whose functions try: the attacker's, or, where that only answers, the victim's.
fn trier<'a>(way: Way, attacker: &'a Start, victim: &'a Start) -> &'a Start
    ensures { result.now ≡ trier way attacker.entry.now victim.entry.now }
{
    if is_answer(way) { victim } else { attacker }
}

/// Against whom they try: the other.
fn target<'a>(way: Way, attacker: &'a Start, victim: &'a Start) -> &'a Start
    ensures { result.now ≡ target way attacker.entry.now victim.entry.now }
{
    if is_answer(way) { attacker } else { victim }
}

/// The first witness of this way of harm.
fn found(
    alloc: Global,
    setting: &Setting<'_>,
    way: Way,
    attacker: &Start,
    victim: &Start,
) -> Result<Option<Witness>, NoMemory>
    requires setting { IsSetting setting.now }
    requires other { attacker.now.domain ≢ victim.now.domain }
    ensures { IfOk result (IsFound setting.now.layout.now (candidates setting.now.layout.now attacker.now victim.now way)) }
{
    let (one, other) = (attacker.domain(), victim.domain());
    let own = own_functions(alloc, trier(way, attacker, victim))?;
    let target = target(way, attacker, victim);
    let found = found_by(alloc, setting, way, one, other, &own, target)?;
    Ok(found)
}

/// The witness of the first request of these functions against the target that lands. What a function tries is listed
/// once nothing landed of what those before it tried.
fn found_by(
    alloc: Global,
    setting: &Setting<'_>,
    way: Way,
    attacker: DomainId,
    victim: DomainId,
    functions: &[Bdf],
    target: &Start,
) -> Result<Option<Witness>, NoMemory>
    requires setting { IsSetting setting.now }
    requires other { attacker ≢ victim }
    ensures { IfOk result (IsFound setting.now.layout.now (map (witness_by attacker victim) (attempts setting.now.layout.now way functions.now target.now))) }
{
    for function in functions {
        let attacks = tries(alloc, setting.layout, way, *function, target)?;
        let found = first_of(alloc, setting, attacker, victim, &attacks)?;
        if found.is_some() {
            return Ok(found);
        }
    }
    Ok(None)
}

/// The witness of the first of these attacks that lands.
fn first_of(
    alloc: Global,
    setting: &Setting<'_>,
    attacker: DomainId,
    victim: DomainId,
    attacks: &[Attack],
) -> Result<Option<Witness>, NoMemory>
    requires setting { IsSetting setting.now }
    requires other { attacker ≢ victim }
    ensures { IfOk result (IsFound setting.now.layout.now (map (witness_by attacker victim) attacks.now)) }
{
    for attack in attacks {
        if let Some(witness) = witness_of(alloc, setting, attacker, victim, attack)? {
            return Ok(Some(witness));
        }
    }
    Ok(None)
}
