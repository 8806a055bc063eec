//! What an injector may ask for.

ghost use Rattle.std.specs.Prelude.{◌≡◌};
ghost use Rattle.injector.specs.Asks.{submit_ask, tick_ask};

use crate::begin::Ask;
use domain::copied;
use fab_types::{InjectorFault, Origin};

/// What this origin asks for, if it may submit this packet.
pub(crate) fn submit_ask(origin: Origin, bytes: &[u8]) -> Result<Ask, InjectorFault>
    ensures { result ≡ submit_ask origin bytes.now }
{
    let Origin::Function(function) = origin else {
        return Err(InjectorFault::WrongOrigin);
    };
    if bytes.len() > 272 {
        return Err(InjectorFault::TooLong);
    }
    Ok(Ask::Submit(function, copied(bytes)))
}

/// What this origin asks for, if it may tick.
pub(crate) fn tick_ask(origin: Origin) -> Result<Ask, InjectorFault>
    ensures { result ≡ tick_ask origin }
{
    match origin {
        Origin::Function(function) => Ok(Ask::Tick(function)),
        Origin::Host(_) => Err(InjectorFault::WrongOrigin),
    }
}
