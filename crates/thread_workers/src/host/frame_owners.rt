//! Whose a frame of memory is.

ghost use Rattle.std.specs.Prelude.{◌≡◌};
ghost use Rattle.thread_workers.specs.FrameOwners.{owns_frame};

use fab_types::DomainId;
use layout::Start;
use received::OwnsFrames;
use std::marker::Model;

/// Which frames of memory each domain of a layout has. A contract sees the list of what the layout gives each domain.
#[derive(Drop)]
pub struct FrameOwners {
    starts: Vec<Start>,
}

impl Model for FrameOwners {
    ghost use Rattle.std.specs.Prelude.{List};
    ghost use Rattle.platform.specs.Share.{Share};

    ghost Value = { List Share };

    ghost view = { λ o. o.starts.items };
}

fn owns_frame(start: &Start, page: u64) -> bool
    ensures { result ≡ owns_frame page start.now }
{
    let mut frames = start.frames().iter();
    frames.any(|frame| u64::from(*frame) == page)
}

impl FrameOwners {
    /// Whose each frame of memory is, of domains that start so.
    /// It takes no memory.
    pub fn new(starts: Vec<Start>) -> FrameOwners
        ensures { result ≡ starts.items }
    {
        FrameOwners { starts }
    }
}

impl OwnsFrames for FrameOwners {
    ghost use Rattle.thread_workers.specs.FrameOwners.{owner_of_frame};

    ghost owner_of_frame = { λ starts. owner_of_frame starts };

    fn owner_of_frame(&self, number: u64) -> Option<DomainId> {
        let mut starts = self.starts.iter();
        let owner = starts.find(|start| owns_frame(start, number))?;
        Some(owner.domain())
    }
}
