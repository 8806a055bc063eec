//! Whether an attack lands.

ghost use Rattle.std.specs.Prelude.{◌≡◌, ◌≢◌, ◌↔◌, IfOk, IsTrue, MatchOption, Some, None, if◌then◌else◌};
ghost use Rattle.attacks.specs.Packets.{own_read};
ghost use Rattle.audit.specs.Settings.{IsSetting};
ghost use Rattle.audit.specs.Landing.{Fails, IsClosedByAnother, IsTried, Lands, Shows};
ghost use Rattle.audit.specs.Harms.{is_answering};
ghost use Rattle.audit.specs.Telling.{witness_by};

use crate::seen::{is_answering, is_closed_otherwise, is_seen};
use crate::setting::Setting;
use crate::trial::{raced, ran};
use attacks::{Attack, Harm, OwnRead, Witness, is_clear};
use fab_types::{Bdf, DomainId, NoMemory, PacketBytes};
use fabric_core::Fabric;
use std::alloc::Global;

/// Is the harm seen in a fabric of one who attacked, and of one who was attacked?
fn shows(
    setting: &Setting<'_>,
    end: &Fabric,
    attacker: DomainId,
    victim: DomainId,
    harm: Harm,
    function: Bdf,
    bytes: &PacketBytes,
) -> bool
    ensures { IsTrue result ↔ Shows setting.now.start end.now attacker victim harm function bytes.now }
{
    let Some(old) = setting.start.domain(victim) else {
        return false;
    };
    let Some(new) = end.domain(victim) else {
        return false;
    };
    let Some(attacker) = end.domain(attacker) else {
        return false;
    };
    !old.has_same_journal(new) && is_seen(harm, function, bytes, old, new, attacker)
}

/// The domain whose function submits the packet: the attacker, or, where that only answers, the victim.
fn submitter(attacker: DomainId, victim: DomainId, harm: &Harm) -> DomainId
    ensures { result ≡ (if is_answering harm.now then victim else attacker) }
{
    if is_answering(harm) { victim } else { attacker }
}

/// Is harm seen after the packet alone?
fn harms(
    alloc: Global,
    setting: &Setting<'_>,
    attacker: DomainId,
    victim: DomainId,
    attack: &Attack,
) -> Result<bool, NoMemory>
    requires { IsSetting setting.now }
    ensures { IfOk result (λ harms. IsTried harms setting.now.layout.now (witness_by attacker victim attack.now) None) }
{
    let function = attack.function;
    let by = submitter(attacker, victim, &attack.harm);
    let packet = attack.bytes(alloc)?;
    let Some(end) = ran(alloc, setting, by, function, packet)? else {
        return Ok(false);
    };
    let bytes = attack.bytes(alloc)?;
    let is_shown = shows(
        setting,
        &end,
        attacker,
        victim,
        attack.harm,
        function,
        &bytes,
    );
    Ok(is_shown)
}

/// Has the victim's function its request closed in both fabrics, and by two different completions?
fn is_closed_by_another(alone: &Fabric, raced: &Fabric, victim: DomainId, function: Bdf) -> bool
    ensures { IsTrue result ↔ IsClosedByAnother alone.now raced.now victim function }
{
    let Some(own) = alone.domain(victim) else {
        return false;
    };
    let Some(other) = raced.domain(victim) else {
        return false;
    };
    is_closed_otherwise(own, other, function)
}

/// Is the victim's read closed otherwise behind the packet than by itself?
fn closes(
    alloc: Global,
    setting: &Setting<'_>,
    attacker: DomainId,
    victim: DomainId,
    attack: &Attack,
    read: &OwnRead,
) -> Result<bool, NoMemory>
    requires { IsSetting setting.now }
    ensures { IfOk result (λ closes. IsTried closes setting.now.layout.now (witness_by attacker victim attack.now) (Some read.now)) }
{
    let by = submitter(attacker, victim, &attack.harm);
    let packet = attack.bytes(alloc)?;
    let Some(raced) = raced(alloc, setting, by, attack.function, packet, read)? else {
        return Ok(false);
    };
    let own = read.bytes(alloc)?;
    let Some(alone) = ran(alloc, setting, victim, read.function, own)? else {
        return Ok(false);
    };
    let is_closed = is_closed_by_another(&alone, &raced, victim, read.function);
    Ok(is_closed)
}

/// Is harm seen: of a read that is closed by two runs, of any other by one?
fn lands(
    alloc: Global,
    setting: &Setting<'_>,
    attacker: DomainId,
    victim: DomainId,
    attack: &Attack,
) -> Result<bool, NoMemory>
    requires { IsSetting setting.now }
    ensures { IfOk result (λ lands. IsTried lands setting.now.layout.now (witness_by attacker victim attack.now) (own_read attack.now.harm)) }
{
    match attack.harm.own_read() {
        Some(read) => closes(alloc, setting, attacker, victim, attack, &read),
        None => harms(alloc, setting, attacker, victim, attack),
    }
}

/// The witness of an attack, if the attack lands.
pub(crate) fn witness_of(
    alloc: Global,
    setting: &Setting<'_>,
    attacker: DomainId,
    victim: DomainId,
    attack: &Attack,
) -> Result<Option<Witness>, NoMemory>
    requires setting { IsSetting setting.now }
    requires other { attacker ≢ victim }
    ensures { IfOk result (λ found. MatchOption found (Fails setting.now.layout.now (witness_by attacker victim attack.now)) (λ w. (w ≡ witness_by attacker victim attack.now) × Lands setting.now.layout.now w)) }
{
    if !is_clear(setting.layout.ports(), attack.port, attack.control) {
        return Ok(None);
    }
    if !lands(alloc, setting, attacker, victim, attack)? {
        return Ok(None);
    }
    let bytes = attack.bytes(alloc)?;
    Ok(Some(Witness {
        attacker,
        victim,
        harm: attack.harm,
        function: attack.function,
        port: attack.port,
        control: attack.control,
        bytes,
    }))
}
