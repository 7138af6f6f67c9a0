//! Links between an update agent and a device.

ghost use Rattle.std.specs.Prelude.{[], ◌≡◌, ◌∷◌, false, IfOk, OnErr, OnOk, is_some, option_map, option_to_list};
ghost use Rattle.fw_edge.specs.Frames.{frames_of};
ghost use Rattle.fw_edge.specs.Links.{AsksForFrame, LinkBytes, FailsCall, GrowsAt, SendsPacket, packet_if, none_known};
ghost use Rattle.fw_edge.specs.declared.tally.Tally.{Tally};

use crate::frame::FrameFault;
use crate::tally::Tally;
use fw_world::Side;
use mctp_wire::RawPacket;

/// A link between the agent and a device, with both of its ends. A packet sent at one end may
/// arrive at the other late, more than once, or never, and other frames may arrive too.
/// `Side::Agent` is the agent's end, `Side::Device` the device's.
///
/// A link counts its calls. Each count stops at 2^64 - 1, and each method changes only the counts
/// that it names. In contracts, `taken` and `gave` are the bytes of the frames taken and given at
/// each end, if the link knows them.
pub trait Link {
    ghost tally: { Self → Tally };

    ghost taken: { Self → LinkBytes } = { λ _. none_known };

    ghost gave: { Self → LinkBytes } = { λ _. none_known };

    /// Takes a packet that was sent at `side`.
    ///
    /// # Errors
    /// Any fault; it is counted as a failure.
    fn send(&mut self, side: Side, packet: &RawPacket) -> Result<(), FrameFault>
        ensures ok { OnOk result (SendsPacket (tally self.old) (tally self.new)) }
        ensures taken { OnOk result (GrowsAt side (frames_of (packet.now.items ∷ [])) (taken self.old) (taken self.new)) }
        ensures gave { OnOk result (gave self.new ≡ gave self.old) }
        ensures err { OnErr result (FailsCall (tally self.old) (tally self.new)) };

    /// Returns the next packet that arrived at `side`, if there is one.
    ///
    /// # Errors
    /// Any fault, also for bytes that aren't a frame; it is counted as a failure.
    fn receive(&mut self, side: Side) -> Result<Option<RawPacket>, FrameFault>
        ensures ok { IfOk result (λ p. AsksForFrame (is_some p) (tally self.old) (tally self.new)) }
        ensures gave { IfOk result (λ p. GrowsAt side (frames_of
            (option_to_list (option_map (λ q. q.items) p))) (gave self.old) (gave self.new)) }
        ensures taken { OnOk result (taken self.new ≡ taken self.old) }
        ensures err { OnErr result (FailsCall (tally self.old) (tally self.new)) };

    /// Reads the next packet that arrived at `side`, as `receive` does, and replaces the content of
    /// `packet` by it. Returns whether there was one; if not, `packet` is unchanged. After a fault
    /// the content of `packet` is unspecified. A caller in a loop needs only one buffer.
    ///
    /// # Errors
    /// Those of `receive`.
    fn receive_into(&mut self, side: Side, packet: &mut RawPacket) -> Result<bool, FrameFault>
        ensures ok { IfOk result (λ came. AsksForFrame came (tally self.old) (tally self.new)) }
        ensures gave { IfOk result (λ came. GrowsAt side (frames_of
            (packet_if came packet.new.items)) (gave self.old) (gave self.new)) }
        ensures none { IfOk result (λ came. came ≡ false → packet.new.items ≡ packet.old.items) }
        ensures taken { OnOk result (taken self.new ≡ taken self.old) }
        ensures err { OnErr result (FailsCall (tally self.old) (tally self.new)) }
    {
        match self.receive(side) {
            Ok(Some(came)) => {
                *packet = came;
                Ok(true)
            }
            Ok(None) => Ok(false),
            Err(fault) => Err(fault),
        }
    }

    /// Returns the number of failed calls, also those that failed because bytes weren't a frame.
    fn failures(&self) -> u64
        ensures { result ≡ (tally self.now).failures };

    /// Returns the number of packets taken.
    fn sent(&self) -> u64
        ensures { result ≡ (tally self.now).sent };

    /// Returns the number of calls that asked for a frame and didn't fail.
    fn asked(&self) -> u64
        ensures { result ≡ (tally self.now).asked };

    /// Returns the number of frames given.
    fn given(&self) -> u64
        ensures { result ≡ (tally self.now).given };
}
