//! The interface that the node is on, and frames of others.
ghost use Rattle.std.specs.Prelude.{◌≡◌, ◌++◌, false, OnOk};
ghost use Rattle.bus_node.specs.Interfaces.{same_iface, shown_on, is_other, other_line, passed_over, joined};

use crate::node::Node;
use log_text::Iface;
use node_lines::NodeLine;
use std::alloc::AllocError;

fn is_same(a: &Iface, b: &Iface) -> bool
    ensures { result ≡ same_iface a.now b.now }
{
    a.name() == b.name()
}

/// The interface that a line shows a frame on.
pub(crate) fn shown_on(line: &NodeLine) -> Option<Iface>
    ensures { result ≡ shown_on line.now }
{
    match line {
        NodeLine::Frame { iface, .. } => Some(*iface),
        NodeLine::Now(_) => None,
        NodeLine::Passed => None,
        NodeLine::Command(_) => None,
    }
}

#[tactic(auto, unfolding(crate::specs::Interfaces::other_line))]
fn print_other(text: &mut Vec<u8>, iface: &Iface) -> Result<(), AllocError>
    ensures { OnOk result (text.new.items ≡ text.old.items ++ other_line iface.now) }
{
    text.extend_from_slice(b"other interface ")?;
    text.extend_from_slice(iface.name())?;
    text.push(b'\n')?;
    Ok(())
}

impl Node {
    /// Its interface is from now on that of the next data frame that it is shown. Until then the frames which it puts are shown on the one that it
    /// has now.
    pub fn join_first_interface(&mut self)
        ensures { self.new ≡ record self.old { knows_iface = false } }
    {
        self.knows_iface = false;
    }

    /// Whether an interface isn't the node's, which is known.
    pub(crate) fn is_other(&self, iface: &Iface) -> bool
        ensures { result ≡ is_other self.now iface.now }
    {
        self.knows_iface && !is_same(iface, &self.iface)
    }

    /// A frame of another interface is passed over, and the first such is reported.
    pub(crate) fn pass_over(&mut self, iface: &Iface) -> Result<(), AllocError>
        ensures { OnOk result (self.new ≡ passed_over self.old iface.now) }
    {
        if self.knows_other {
            return Ok(());
        }
        self.knows_other = true;
        print_other(&mut self.text, iface)
    }

    /// If its interface isn't known, it is this one.
    pub(crate) fn join(&mut self, iface: Iface)
        ensures { self.new ≡ joined self.old iface }
    {
        if !self.knows_iface {
            self.iface = iface;
            self.knows_iface = true;
        }
    }
}
