//! A program that starts again at its address: an answer to a message of its earlier life could acknowledge a new one.
ghost use Rattle.std.specs.Prelude.{◌≡◌, ◌∷◌, ◌↔◌, [], false, IfOk, IsErrOf};
ghost use Rattle.segment_law.specs.Segment.{are_addresses, new_segment};
ghost use Rattle.segment_law.specs.Record.{StandsAt};
ghost use Rattle.segment_law.specs.declared.call.Call.TheVariants.{Tick};
ghost use Rattle.one_station.specs.Node.{again_node, answered};

use crate::durations::SILENCE;
use crate::node::Node;
use pgn_ids::Address;
use segment_core::NewRefused;
use std::alloc::Global;

impl Node {
    /// A node of a program that starts again at its address, 0 to 253 (SAE J1939-81), at this tick of its clock: no port is open, and
    /// nothing was done yet.
    ///
    /// It takes and answers the frames of others at once. But it sends no message before `SILENCE` ticks have passed (`sends_from`):
    /// until then `send` is refused as `Starting`.
    ///
    /// Refused as `BadAddresses` exactly if the address is 254 or 255, and else as `OutOfMemory` if memory is refused.
    pub fn again(alloc: Global, address: Address, tick: u64) -> Result<Node, NewRefused>
        ensures ok { IfOk result (λ node. node ≡ again_node address tick) }
        ensures bad { IsErrOf result NewRefused.BadAddresses ↔ (are_addresses (address ∷ []) ≡ false) }
        ensures stands { IfOk result (λ node. StandsAt (address ∷ []) (answered (new_segment (address ∷ [])) (Tick tick ∷ [])) node.segment) }
    {
        let mut node = Node::new(alloc, address)?;
        if node.clock(tick).is_err() {
            return Err(NewRefused::OutOfMemory);
        }
        node.quiet_until = tick.saturating_add(SILENCE);
        Ok(node)
    }

    /// The tick before which it sends no message: 0 for a node that `new` made. At most the last tick of `u64`.
    pub fn sends_from(&self) -> u64
        ensures { result ≡ self.now.quiet_until }
    {
        self.quiet_until
    }
}
