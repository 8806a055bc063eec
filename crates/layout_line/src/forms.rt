//! What a line says, before any rule is tested.

ghost use Rattle.std.specs.Prelude.{◌≡◌};
ghost use Rattle.layout_line.specs.LayoutLines.{frames_text, switch_below, switch_text, port_fields, port_text, function_text, rights_text, target_text, map_fields, map_text, budget_text, credit_fields, credit_text, egress_text, layout_line_of_word, layout_line_of};

use crate::lines::{
    BudgetText, CreditText, EgressText, FunctionText, LayoutLine, MapText, PortText, RightsText,
    SwitchText, TargetText,
};
use fab_types::Bdf;
use text::{at_blank, decimal, hex_byte, hex_word, hexadecimal, id, is_keyword};

fn frames_text(rest: &[u8]) -> Option<LayoutLine>
    ensures { result ≡ frames_text rest.now }
{
    Some(LayoutLine::Frames(decimal(rest)?))
}

fn switch_below(id: Bdf, above: &[u8]) -> Option<LayoutLine>
    ensures { result ≡ switch_below id above.now }
{
    if is_keyword(above, "root") {
        return Some(LayoutLine::Root(id));
    }
    let above = text::id(above)?;
    Some(LayoutLine::Switch(SwitchText { id, above }))
}

fn switch_text(rest: &[u8]) -> Option<LayoutLine>
    ensures { result ≡ switch_text rest.now }
{
    let first = at_blank(rest)?;
    switch_below(id(first.before)?, first.after)
}

#[derive(Clone, Copy)]
struct PortFields<'a> {
    id: &'a [u8],
    secondary: &'a [u8],
    subordinate: &'a [u8],
    base: &'a [u8],
    limit: &'a [u8],
    controls: &'a [u8],
    owner: &'a [u8],
}

fn port_fields(fields: &PortFields<'_>) -> Option<LayoutLine>
    ensures { result ≡ port_fields fields.now.id.now fields.now.secondary.now fields.now.subordinate.now fields.now.base.now fields.now.limit.now fields.now.controls.now fields.now.owner.now }
{
    let port = PortText {
        id: id(fields.id)?,
        secondary: hex_byte(fields.secondary)?,
        subordinate: hex_byte(fields.subordinate)?,
        base: hex_word(fields.base)?,
        limit: hex_word(fields.limit)?,
        controls: hex_byte(fields.controls)?,
        owner: decimal(fields.owner)?,
    };
    Some(LayoutLine::Port(port))
}

fn port_text(rest: &[u8]) -> Option<LayoutLine>
    ensures { result ≡ port_text rest.now }
{
    let id = at_blank(rest)?;
    let secondary = at_blank(id.after)?;
    let subordinate = at_blank(secondary.after)?;
    let base = at_blank(subordinate.after)?;
    let limit = at_blank(base.after)?;
    let controls = at_blank(limit.after)?;
    port_fields(&PortFields {
        id: id.before,
        secondary: secondary.before,
        subordinate: subordinate.before,
        base: base.before,
        limit: limit.before,
        controls: controls.before,
        owner: controls.after,
    })
}

fn function_text(rest: &[u8]) -> Option<LayoutLine>
    ensures { result ≡ function_text rest.now }
{
    let first = at_blank(rest)?;
    let id = id(first.before)?;
    let bar = hex_word(first.after)?;
    Some(LayoutLine::Function(FunctionText { id, bar }))
}

fn rights_text(field: &[u8]) -> Option<RightsText>
    ensures { result ≡ rights_text field.now }
{
    let (read, write) = if is_keyword(field, "r") {
        (true, false)
    } else if is_keyword(field, "w") {
        (false, true)
    } else if is_keyword(field, "rw") {
        (true, true)
    } else {
        return None;
    };
    Some(RightsText { read, write })
}

fn target_text(word: &[u8], field: &[u8]) -> Option<TargetText>
    ensures { result ≡ target_text word.now field.now }
{
    if is_keyword(word, "frame") {
        return Some(TargetText::Frame(decimal(field)?));
    }
    if is_keyword(word, "peer") {
        return Some(TargetText::Peer(id(field)?));
    }
    None
}

fn map_fields(
    requester: &[u8],
    number: &[u8],
    word: &[u8],
    target: &[u8],
    rights: &[u8],
) -> Option<LayoutLine>
    ensures { result ≡ map_fields requester.now number.now word.now target.now rights.now }
{
    let requester = id(requester)?;
    let page = hexadecimal(number, 1, 13)?;
    let target = target_text(word, target)?;
    let rights = rights_text(rights)?;
    Some(LayoutLine::Map(MapText {
        requester,
        page,
        target,
        rights,
    }))
}

fn map_text(rest: &[u8]) -> Option<LayoutLine>
    ensures { result ≡ map_text rest.now }
{
    let id = at_blank(rest)?;
    let page = at_blank(id.after)?;
    let word = at_blank(page.after)?;
    let target = at_blank(word.after)?;
    map_fields(
        id.before,
        page.before,
        word.before,
        target.before,
        target.after,
    )
}

fn budget_text(rest: &[u8]) -> Option<LayoutLine>
    ensures { result ≡ budget_text rest.now }
{
    let first = at_blank(rest)?;
    let domain = decimal(first.before)?;
    let begins = decimal(first.after)?;
    Some(LayoutLine::Budget(BudgetText { domain, begins }))
}

#[derive(Clone, Copy)]
struct CreditFields<'a> {
    id: &'a [u8],
    posted_headers: &'a [u8],
    posted_data: &'a [u8],
    non_posted_headers: &'a [u8],
    non_posted_data: &'a [u8],
    completion_headers: &'a [u8],
    completion_data: &'a [u8],
}

fn credit_fields(fields: &CreditFields<'_>) -> Option<LayoutLine>
    ensures { result ≡ credit_fields fields.now.id.now fields.now.posted_headers.now fields.now.posted_data.now fields.now.non_posted_headers.now fields.now.non_posted_data.now fields.now.completion_headers.now fields.now.completion_data.now }
{
    let credit = CreditText {
        id: id(fields.id)?,
        posted_headers: decimal(fields.posted_headers)?,
        posted_data: decimal(fields.posted_data)?,
        non_posted_headers: decimal(fields.non_posted_headers)?,
        non_posted_data: decimal(fields.non_posted_data)?,
        completion_headers: decimal(fields.completion_headers)?,
        completion_data: decimal(fields.completion_data)?,
    };
    Some(LayoutLine::Credit(credit))
}

fn credit_text(rest: &[u8]) -> Option<LayoutLine>
    ensures { result ≡ credit_text rest.now }
{
    let id = at_blank(rest)?;
    let posted_headers = at_blank(id.after)?;
    let posted_data = at_blank(posted_headers.after)?;
    let non_posted_headers = at_blank(posted_data.after)?;
    let non_posted_data = at_blank(non_posted_headers.after)?;
    let completion_headers = at_blank(non_posted_data.after)?;
    credit_fields(&CreditFields {
        id: id.before,
        posted_headers: posted_headers.before,
        posted_data: posted_data.before,
        non_posted_headers: non_posted_headers.before,
        non_posted_data: non_posted_data.before,
        completion_headers: completion_headers.before,
        completion_data: completion_headers.after,
    })
}

fn egress_text(rest: &[u8]) -> Option<LayoutLine>
    ensures { result ≡ egress_text rest.now }
{
    let first = at_blank(rest)?;
    let port = id(first.before)?;
    let vector = hex_word(first.after)?;
    Some(LayoutLine::Egress(EgressText { port, vector }))
}

fn layout_line_of_word(word: &[u8], rest: &[u8]) -> Option<LayoutLine>
    ensures { result ≡ layout_line_of_word word.now rest.now }
{
    if is_keyword(word, "frames") {
        frames_text(rest)
    } else if is_keyword(word, "switch") {
        switch_text(rest)
    } else if is_keyword(word, "port") {
        port_text(rest)
    } else if is_keyword(word, "function") {
        function_text(rest)
    } else if is_keyword(word, "map") {
        map_text(rest)
    } else if is_keyword(word, "budget") {
        budget_text(rest)
    } else if is_keyword(word, "credit") {
        credit_text(rest)
    } else if is_keyword(word, "egress") {
        egress_text(rest)
    } else {
        None
    }
}

/// What a line says, if it has one of the forms.
pub fn layout_line_of(line: &[u8]) -> Option<LayoutLine>
    ensures { result ≡ layout_line_of line.now }
{
    let first = at_blank(line)?;
    layout_line_of_word(first.before, first.after)
}
