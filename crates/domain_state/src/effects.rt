//! What the end of a packet does with memory, register pages and counts.

ghost use Rattle.std.specs.Prelude.{◌≡◌, ◌+◌, ◌<◌, ◌≤◌, ◌^◌, length};
ghost use Rattle.tlp_view.specs.Runs.{runs};
ghost use Rattle.domain_state.specs.Contents.{with_contents};
ghost use Rattle.domain_state.specs.Ends.{BytesFit, done, stored};
ghost use Rattle.domain_state.specs.State.{Alone};

use crate::counts::Counts;
use crate::registers::access;
use function::Functions;
use host_memory::HostMemory;
use request_handling::Effect;
use tlp_view::TlpView;

/// Writes the enabled bytes of a packet to a frame, `first` being the byte that its address names.
fn write_runs(memory: &mut HostMemory, frame: u16, first: usize, view: &TlpView)
    requires { first + length (view.now).payload ≤ 4096 }
    ensures { memory.new ≡ stored memory.old frame first (runs view.now) }
{
    for (offset, part) in view.runs() {
        memory.write(frame, first + offset, part);
    }
}

/// What the end of a packet may change, beside what is in flight and open.
#[derive(Drop)]
pub struct Contents {
    /// The domain's frames of host memory.
    pub memory: HostMemory,
    /// The register pages of its functions.
    pub registers: Functions,
    /// What it counts.
    pub counts: Counts,
}

impl Contents {
    /// Does what the end of this packet does.
    pub fn perform(&mut self, bytes: &[u8], effect: Effect)
        requires blocks { self.old.counts.blocked + 1 < 2 ^ 64 }
        requires fits { BytesFit bytes.now effect }
        ensures { (s : Alone) → with_contents s self.new ≡ done (with_contents s self.old) bytes.now effect }
    {
        match effect {
            Effect::Leave => {}
            Effect::Block => self.counts.blocked += 1,
            Effect::Store(frame, first) => {
                let view = TlpView::again(bytes);
                write_runs(&mut self.memory, frame, first, &view);
            }
            Effect::Access(function) => {
                let view = TlpView::again(bytes);
                access(&mut self.registers, function, &view);
            }
            Effect::Add(frame, first) => {
                let view = TlpView::again(bytes);
                self.memory.fetch_add(frame, first, view.payload());
            }
        }
    }
}
