//! What a device is to a layout.

ghost use Rattle.std.specs.Prelude.{◌≡◌};
ghost use Rattle.import.specs.Roles.{bridge_role, has_further_window, is_board_class, is_endpoint, is_port, is_root, is_upstream, is_virtual, low_window, port_window, role_of, set_window};

use lspci::{ConfigSpace, HeaderKind, PortType, Window};

/// What a device is to a layout.
#[derive(Clone, Copy, Debug, PartialEq, Eq)]
pub enum Role {
    /// A root port.
    RootPort,
    /// A downstream port of a switch.
    Downstream,
    /// The upstream port of a switch.
    Upstream,
    /// A function that is no bridge.
    Endpoint,
    /// Something that no layout has, as a bridge to conventional PCI.
    Other,
}

/// The addresses that a port sends down.
#[derive(Clone, Copy, Debug, PartialEq, Eq)]
pub struct LowWindow {
    /// The first one.
    pub base: u32,
    /// The last one.
    pub limit: u32,
}

fn bridge_role(port: Option<PortType>) -> Role
    ensures { result ≡ bridge_role port }
{
    match port {
        Some(PortType::RootPort) => Role::RootPort,
        Some(PortType::Downstream) => Role::Downstream,
        Some(PortType::Upstream) => Role::Upstream,
        _ => Role::Other,
    }
}

/// What a device is, by its header, its class and its PCI Express capability.
pub fn role_of(space: &ConfigSpace<'_>) -> Role
    ensures { result ≡ role_of space.now.bytes.now }
{
    match (space.kind(), space.class()) {
        (Some(HeaderKind::Endpoint), _) => Role::Endpoint,
        (Some(HeaderKind::Bridge), Some(0x0604)) => bridge_role(space.port_type()),
        _ => Role::Other,
    }
}

/// Is it a root port, or a downstream port of a switch?
pub fn is_port(role: Role) -> bool
    ensures { result ≡ is_port role }
{
    match role {
        Role::RootPort | Role::Downstream => true,
        _ => false,
    }
}

/// Is it a root port?
pub fn is_root(role: Role) -> bool
    ensures { result ≡ is_root role }
{
    match role {
        Role::RootPort => true,
        _ => false,
    }
}

/// Is it the upstream port of a switch?
pub fn is_upstream(role: Role) -> bool
    ensures { result ≡ is_upstream role }
{
    match role {
        Role::Upstream => true,
        _ => false,
    }
}

/// The window, unless it begins at 0, as one that was never set.
fn set_window(window: Option<Window>) -> Option<Window>
    ensures { result ≡ set_window window }
{
    let window = window?;
    if window.base == 0 {
        return None;
    }
    Some(window)
}

fn low_window(window: Option<Window>) -> Option<LowWindow>
    ensures { result ≡ low_window window }
{
    let window = window?;
    let base = u32::try_from(window.base).ok()?;
    let limit = u32::try_from(window.limit).ok()?;
    Some(LowWindow { base, limit })
}

/// The window of a bridge below 4 GB. It is that for memory, or, without one, the prefetchable one.
pub fn port_window(space: &ConfigSpace<'_>) -> Option<LowWindow>
    ensures { result ≡ port_window space.now.bytes.now }
{
    match set_window(space.memory_window()) {
        Some(window) => low_window(Some(window)),
        None => low_window(set_window(space.prefetchable_window())),
    }
}

/// Has the bridge a prefetchable window besides that for memory?
pub fn has_further_window(space: &ConfigSpace<'_>) -> bool
    ensures { result ≡ has_further_window space.now.bytes.now }
{
    set_window(space.memory_window()).is_some() && set_window(space.prefetchable_window()).is_some()
}

/// Is it a virtual function, which has no IDs of its own (PCIe 4.0, 9.3.4)?
pub fn is_virtual(space: &ConfigSpace<'_>) -> bool
    ensures { result ≡ is_virtual space.now.bytes.now }
{
    match (space.kind(), space.vendor(), space.device()) {
        (Some(HeaderKind::Endpoint), Some(0xffff), Some(0xffff)) => true,
        _ => false,
    }
}

/// Is this the class of a host bridge, an ISA bridge or an SMBus controller?
fn is_board_class(class: u16) -> bool
    ensures { result ≡ is_board_class class }
{
    class == 0x0600 || class == 0x0601 || class == 0x0c05
}

/// Is it a function that somebody may want isolated: no bridge, and no part of the board?
pub fn is_endpoint(space: &ConfigSpace<'_>) -> bool
    ensures { result ≡ is_endpoint space.now.bytes.now }
{
    match (space.kind(), space.class()) {
        (Some(HeaderKind::Endpoint), Some(class)) => !is_board_class(class),
        _ => false,
    }
}
