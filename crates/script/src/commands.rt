//! What a line asks for.

ghost use Rattle.std.specs.Prelude.{◌≡◌, ◌≤◌, IfSome};
ghost use Rattle.text.specs.Text.{hexadecimal};
ghost use Rattle.text.specs.Answers.{IsRead};
ghost use Rattle.script.specs.Commands.{decimal_within, domain_text, submission_of, submit_text, tick_text, operation_text, access_text, access_of, mmio_text, sweep_text, command_of_word, command_of};

use crate::lines::Command;
use crate::packet_word::packet_bytes;
use fab_types::{Bdf, DomainId, HostAccess, Operation, PacketBytes, ScriptCause};
use std::alloc::Global;
use text::{at_blank, decimal, hexadecimal, id, is_keyword};

/// The most turns that a `sweep` may ask for.
const MOST_TURNS: u32 = 1_000_000;

fn decimal_within(field: &[u8], least: u32, most: u32) -> Option<u32>
    ensures value { result ≡ decimal_within least most field.now }
    ensures range { IfSome result (λ number. (least ≤ number) × (number ≤ most)) }
{
    let number = decimal(field)?;
    if least <= number && number <= most {
        Some(number)
    } else {
        None
    }
}

/// The number of a domain in decimal digits.
pub fn domain_of(field: &[u8]) -> Option<DomainId>
    ensures { result ≡ domain_text field.now }
{
    DomainId::new(decimal_within(field, 1, 31)? as u8)
}

fn offset_text(field: &[u8]) -> Option<u16>
    ensures { result ≡ hexadecimal 3 3 field.now }
{
    Some(hexadecimal(field, 3, 3)? as u16)
}

/// A function and the bytes that it submits: `ID HEX`.
///
/// # Errors
///
/// `Line` where the text has another form, and `NoMemory` where memory was refused.
pub fn submission_of(alloc: Global, rest: &[u8]) -> Result<(Bdf, PacketBytes), ScriptCause>
    ensures { IsRead (submission_of rest.now) result }
{
    let fields = at_blank(rest).ok_or(ScriptCause::Line)?;
    let function = id(fields.before).ok_or(ScriptCause::Line)?;
    Ok((function, packet_bytes(alloc, fields.after)?))
}

fn submit_text(alloc: Global, rest: &[u8]) -> Result<Command, ScriptCause>
    ensures { IsRead (submit_text rest.now) result }
{
    let (function, bytes) = submission_of(alloc, rest)?;
    Ok(Command::Submit(function, bytes))
}

fn tick_text(rest: &[u8]) -> Result<Command, ScriptCause>
    ensures { IsRead (tick_text rest.now) result }
{
    Ok(Command::Tick(id(rest).ok_or(ScriptCause::Line)?))
}

fn operation_text(alloc: Global, word: &[u8], operand: &[u8]) -> Result<Operation, ScriptCause>
    ensures { IsRead (operation_text word.now operand.now) result }
{
    if is_keyword(word, "read") {
        return Ok(Operation::Read(decimal(operand).ok_or(ScriptCause::Line)?));
    }
    if is_keyword(word, "write") {
        return Ok(Operation::Write(packet_bytes(alloc, operand)?));
    }
    Err(ScriptCause::Line)
}

#[derive(Clone, Copy)]
struct AccessFields<'a> {
    word: &'a [u8],
    function: &'a [u8],
    offset: &'a [u8],
    operand: &'a [u8],
}

fn access_text(alloc: Global, fields: &AccessFields<'_>) -> Result<HostAccess, ScriptCause>
    ensures { IsRead (access_text fields.now.word.now fields.now.function.now fields.now.offset.now fields.now.operand.now) result }
{
    let function = id(fields.function).ok_or(ScriptCause::Line)?;
    let offset = offset_text(fields.offset).ok_or(ScriptCause::Line)?;
    let operation = operation_text(alloc, fields.word, fields.operand)?;
    Ok(HostAccess {
        function,
        offset,
        operation,
    })
}

/// What a host asks of a register page. The text is `read ID OFF DWS` or `write ID OFF HEX`.
///
/// # Errors
///
/// `Line` where the text has another form, and `NoMemory` where memory was refused.
pub fn access_of(alloc: Global, rest: &[u8]) -> Result<HostAccess, ScriptCause>
    ensures { IsRead (access_of rest.now) result }
{
    let word = at_blank(rest).ok_or(ScriptCause::Line)?;
    let function = at_blank(word.after).ok_or(ScriptCause::Line)?;
    let offset = at_blank(function.after).ok_or(ScriptCause::Line)?;
    access_text(
        alloc,
        &AccessFields {
            word: word.before,
            function: function.before,
            offset: offset.before,
            operand: offset.after,
        },
    )
}

fn mmio_text(alloc: Global, rest: &[u8]) -> Result<Command, ScriptCause>
    ensures { IsRead (mmio_text rest.now) result }
{
    let domain = at_blank(rest).ok_or(ScriptCause::Line)?;
    let number = domain_of(domain.before).ok_or(ScriptCause::Line)?;
    Ok(Command::Mmio(number, access_of(alloc, domain.after)?))
}

fn sweep_text(rest: &[u8]) -> Result<Command, ScriptCause>
    ensures { IsRead (sweep_text rest.now) result }
{
    let turns = decimal_within(rest, 1, MOST_TURNS).ok_or(ScriptCause::Line)?;
    Ok(Command::Sweep(turns))
}

fn command_of_word(alloc: Global, word: &[u8], rest: &[u8]) -> Result<Command, ScriptCause>
    ensures { IsRead (command_of_word word.now rest.now) result }
{
    if is_keyword(word, "submit") {
        submit_text(alloc, rest)
    } else if is_keyword(word, "tick") {
        tick_text(rest)
    } else if is_keyword(word, "mmio") {
        mmio_text(alloc, rest)
    } else if is_keyword(word, "sweep") {
        sweep_text(rest)
    } else {
        Err(ScriptCause::Line)
    }
}

/// What a line asks for, if it has one of the forms.
#[tactic(auto, unfolding(crate::specs::Commands::command_of))]
pub(crate) fn command_of(alloc: Global, line: &[u8]) -> Result<Command, ScriptCause>
    ensures { IsRead (command_of line.now) result }
{
    let first = at_blank(line).ok_or(ScriptCause::Line)?;
    command_of_word(alloc, first.before, first.after)
}
