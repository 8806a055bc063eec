//! A layout that is made line by line.

ghost use Rattle.std.specs.Prelude.{◌≡◌, IfOk, OnErr};
ghost use Rattle.text_writers.specs.Comments.{IsPrintable};
ghost use Rattle.text_writers.specs.Drafts.{Attempt, noted, start, start_text};
ghost use Rattle.text_writers.specs.StatedLines.{IsStated};

use crate::draft_lines::line_text;
use fab_types::{LayoutCause, NoMemory};
use layout::Layout;
use layout_line::LayoutLine;
use platform::LayoutVersion;
use std::alloc::Global;
use std::marker::Model;

/// The first lines of each layout: its version, as many frames as functions may need, and the top switch.
fn start_text(version: LayoutVersion) -> &'static str
    ensures { result.now ≡ start_text version }
{
    match version {
        LayoutVersion::One => "pciefab 1\nframes 64\nswitch 01:00.0 root\n",
        LayoutVersion::Two => "pciefab 2\nframes 64\nswitch 01:00.0 root\n",
    }
}

/// A text, and the layout that it is read as.
#[derive(Drop)]
pub struct Draft {
    text: String,
    layout: Layout,
}

impl Model for Draft {
    ghost use Rattle.text_writers.specs.DraftViews.{IsDraft, Written, written_of};

    ghost Value = { Written };

    ghost view = { written_of };

    ghost invariant = { IsDraft };
}

impl Draft {
    ghost use Rattle.std.specs.Prelude.{Ok};
    ghost use Rattle.layout.specs.Reading.{reading};

    /// The layout without a port, of this version.
    pub fn start(alloc: Global, version: LayoutVersion) -> Result<Draft, NoMemory>
        ensures { IfOk result (λ draft. draft ≡ record { platform = start version; text = start_text version }) }
    {
        let text = String::from_str(alloc, start_text(version))?;
        match Layout::read(alloc, &text) {
            Ok(layout) => Ok(Draft { text, layout }),
            Err(_) => Err(NoMemory),
        }
    }

    /// The layout, as it is so far.
    pub fn layout(&self) -> &Layout
        ensures { result.now ≡ self.now.platform }
    {
        &self.layout
    }

    /// The text of the layout.
    pub fn text(&self) -> &str
        ensures text { result.now ≡ self.now.text }
        ensures layout { reading result.now ≡ Ok self.now.platform }
    {
        self.text.as_str()
    }

    /// Adds a line, unless a rule of layouts is against it, which is told.
    /// Where memory was refused nothing changes.
    pub fn add(&mut self, alloc: Global, line: &LayoutLine) -> Result<Option<LayoutCause>, NoMemory>
        requires { IsStated line.now }
        ensures added { IfOk result (λ fault. Attempt self.old line.now fault self.new) }
        ensures err { OnErr result (self.new ≡ self.old) }
    {
        let more = line_text(alloc, line)?;
        let text = &self.text;
        let longer = format!(in alloc; "{text}{more}\n")?;
        match Layout::read(alloc, &longer) {
            Ok(layout) => {
                self.text = longer;
                self.layout = layout;
                Ok(None)
            }
            Err(fault) => match fault.cause {
                LayoutCause::NoMemory => Err(NoMemory),
                cause => Ok(Some(cause)),
            },
        }
    }

    /// Adds a comment. Where memory was refused nothing changes.
    pub fn note(&mut self, alloc: Global, comment: &str) -> Result<(), NoMemory>
        requires { IsPrintable comment.now }
        ensures noted { IfOk result (λ _. self.new ≡ noted comment.now self.old) }
        ensures err { OnErr result (self.new ≡ self.old) }
    {
        let text = &self.text;
        self.text = format!(in alloc; "{text}# {comment}\n")?;
        Ok(())
    }
}
