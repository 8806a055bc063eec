//! How the lines are written that devices have in a layout.

ghost use Rattle.std.specs.Prelude.{◌≡◌, ◌++◌, IfOk, codes, false, string_bytes};
ghost use Rattle.std.specs.Fmt.{digits};
ghost use Rattle.layout_line.specs.declared.lines.LayoutLine.TheVariants as written;
ghost use Rattle.text_writers.specs.LayoutLineTexts.{layout_line_text, rights_name, target_kind, target_name};
ghost use Rattle.text_writers.specs.Words.{hex_text, more_words};
ghost use Rattle.text_writers.specs.StatedLines.{IsStated};
ghost use Rattle.text_writers.specs.DraftFields.{map_back, map_front, port_back, port_front};

use layout_line::{
    EgressText, FunctionText, LayoutLine, MapText, PortText, RightsText, SwitchText, TargetText,
};
use std::alloc::{AllocError, Global};
use std::fmt;

/// A number of 8 bits in two hexadecimal digits.
#[derive(Clone, Copy)]
struct Hex2(u8);

impl fmt::Display for Hex2 {
    ghost use Rattle.std.specs.Prelude.{Some};

    ghost output = { λ n. Some (hex_text 2 n.0) };

    fn fmt<W: fmt::Write>(&self, f: &mut fmt::Formatter<W>) -> fmt::Result {
        let number = self.0;
        write!(f, "{number:02x}")
    }
}

/// A number of 32 bits in eight hexadecimal digits.
#[derive(Clone, Copy)]
struct Hex8(u32);

impl fmt::Display for Hex8 {
    ghost use Rattle.std.specs.Prelude.{Some};

    ghost output = { λ n. Some (hex_text 8 n.0) };

    fn fmt<W: fmt::Write>(&self, f: &mut fmt::Formatter<W>) -> fmt::Result {
        let (first, second) = (self.0 / 0x100_0000, self.0 / 0x1_0000 % 256);
        let (third, fourth) = (self.0 / 0x100 % 256, self.0 % 256);
        write!(f, "{first:02x}{second:02x}{third:02x}{fourth:02x}")
    }
}

fn port_front(alloc: Global, port: &PortText) -> Result<String, AllocError>
    ensures { IfOk result (λ text. string_bytes text ≡ codes "port" ++ more_words (port_front port.now)) }
{
    let id = port.id;
    let (secondary, subordinate) = (Hex2(port.secondary), Hex2(port.subordinate));
    format!(in alloc; "port {id} {secondary} {subordinate}")
}

fn port_back(alloc: Global, port: &PortText) -> Result<String, AllocError>
    ensures { IfOk result (λ text. string_bytes text ≡ hex_text 8 port.now.base ++ more_words (port_back port.now)) }
{
    let (base, limit) = (Hex8(port.base), Hex8(port.limit));
    let (controls, owner) = (Hex2(port.controls), port.owner);
    format!(in alloc; "{base} {limit} {controls} {owner}")
}

fn port_text(alloc: Global, port: &PortText) -> Result<String, AllocError>
    ensures { IfOk result (λ text. string_bytes text ≡ layout_line_text (written.Port port.now)) }
{
    let front = port_front(alloc, port)?;
    let back = port_back(alloc, port)?;
    let text = format!(in alloc; "{front} {back}")?;
    Ok(text)
}

fn switch_text(alloc: Global, switch: &SwitchText) -> Result<String, AllocError>
    ensures { IfOk result (λ text. string_bytes text ≡ layout_line_text (written.Switch switch.now)) }
{
    let (id, above) = (switch.id, switch.above);
    format!(in alloc; "switch {id} {above}")
}

fn function_text(alloc: Global, function: &FunctionText) -> Result<String, AllocError>
    ensures { IfOk result (λ text. string_bytes text ≡ layout_line_text (written.Function function.now)) }
{
    let (id, bar) = (function.id, Hex8(function.bar));
    format!(in alloc; "function {id} {bar}")
}

fn rights_name(rights: &RightsText) -> &'static str
    ensures { result.now ≡ rights_name rights.now.read rights.now.write }
{
    match (rights.read, rights.write) {
        (true, true) => "rw",
        (true, false) => "r",
        (false, true) => "w",
        (false, false) => "",
    }
}

fn target_kind(target: &TargetText) -> &'static str
    ensures { result.now ≡ target_kind target.now }
{
    match target {
        TargetText::Frame(_) => "frame",
        TargetText::Peer(_) => "peer",
    }
}

fn target_name(alloc: Global, target: &TargetText) -> Result<String, AllocError>
    ensures { IfOk result (λ text. string_bytes text ≡ target_name target.now) }
{
    match target {
        TargetText::Frame(frame) => format!(in alloc; "{frame}"),
        TargetText::Peer(peer) => format!(in alloc; "{peer}"),
    }
}

fn page_text(alloc: Global, page: u64) -> Result<String, AllocError>
    ensures { IfOk result (λ text. string_bytes text ≡ digits 16 false page) }
{
    format!(in alloc; "{page:x}")
}

fn map_front(alloc: Global, line: &MapText) -> Result<String, AllocError>
    ensures { IfOk result (λ text. string_bytes text ≡ codes "map" ++ more_words (map_front line.now)) }
{
    let requester = line.requester;
    let page = page_text(alloc, line.page)?;
    let text = format!(in alloc; "map {requester} {page}")?;
    Ok(text)
}

fn map_back(alloc: Global, line: &MapText) -> Result<String, AllocError>
    ensures { IfOk result (λ text. string_bytes text ≡ target_kind line.now.target ++ more_words (map_back line.now)) }
{
    let kind = target_kind(&line.target);
    let name = target_name(alloc, &line.target)?;
    let rights = rights_name(&line.rights);
    let text = format!(in alloc; "{kind} {name} {rights}")?;
    Ok(text)
}

fn map_text(alloc: Global, line: &MapText) -> Result<String, AllocError>
    ensures { IfOk result (λ text. string_bytes text ≡ layout_line_text (written.Map line.now)) }
{
    let front = map_front(alloc, line)?;
    let back = map_back(alloc, line)?;
    let text = format!(in alloc; "{front} {back}")?;
    Ok(text)
}

fn egress_text(alloc: Global, egress: &EgressText) -> Result<String, AllocError>
    ensures { IfOk result (λ text. string_bytes text ≡ layout_line_text (written.Egress egress.now)) }
{
    let (port, vector) = (egress.port, Hex8(egress.vector));
    format!(in alloc; "egress {port} {vector}")
}

/// The text of a line that a device has, or of a port's Egress Control Vector, without a line feed.
///
/// # Errors
///
/// `AllocError` where memory was refused.
pub fn line_text(alloc: Global, line: &LayoutLine) -> Result<String, AllocError>
    requires { IsStated line.now }
    ensures { IfOk result (λ text. string_bytes text ≡ layout_line_text line.now) }
{
    match line {
        LayoutLine::Port(port) => port_text(alloc, port),
        LayoutLine::Switch(switch) => switch_text(alloc, switch),
        LayoutLine::Function(function) => function_text(alloc, function),
        LayoutLine::Map(line) => map_text(alloc, line),
        LayoutLine::Egress(egress) => egress_text(alloc, egress),
        LayoutLine::Frames(_)
        | LayoutLine::Root(_)
        | LayoutLine::Budget(_)
        | LayoutLine::Credit(_) => unreachable!(),
    }
}
