//! What the workers of a fabric share.

ghost use Rattle.std.specs.Prelude.{◌≡◌, IfOk};
ghost use Rattle.std.specs.Arc.{arc_value};

use bridge::Bridge;
use fab_types::NoMemory;
use std::alloc::Global;
use std::sync::Arc;
use thread_domains::Locks;

/// The switches of the layout, which never change, and the domains, each under its lock.
#[derive(Drop)]
pub struct Shared {
    /// The switches of the layout.
    pub bridge: Arc<Bridge, Global>,
    /// The domains, each under its lock.
    pub locks: Arc<Locks, Global>,
}

impl Shared {
    /// One user more of the switches. `NoMemory`: they are shared too often to be shared once more.
    pub fn bridge(&self) -> Result<Arc<Bridge, Global>, NoMemory>
        ensures { IfOk result (λ bridge. arc_value bridge ≡ arc_value self.now.bridge) }
    {
        Ok(Arc::try_clone(&self.bridge)?)
    }

    /// One user more of the domains, as `bridge`.
    pub fn locks(&self) -> Result<Arc<Locks, Global>, NoMemory>
        ensures { IfOk result (λ locks. arc_value locks ≡ arc_value self.now.locks) }
    {
        Ok(Arc::try_clone(&self.locks)?)
    }
}
