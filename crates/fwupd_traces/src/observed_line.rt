//! A line whose packets are observed.

ghost use Rattle.std.specs.Prelude.{[], ◌≡◌, ◌∷◌, IfSome, None, ℕ};
ghost use Rattle.exch_lane.specs.Lanes.{Sent};
ghost use Rattle.exch_lane.specs.Steps.{sent_at};
ghost use Rattle.fw_process.specs.Processes.{LineCall, line_with, receive_call};
ghost use Rattle.fwupd_traces.specs.Watches.{Ended};

use crate::process_watch::WatchFault;
use fw_process::Line;
use mctp_wire::RawPacket;

/// An observer of a process, by its units and the packets of its line. In contracts, `receives s p
/// t` says that an observer `s` is `t` after a packet came, with its stamp, and `sends s p t` the
/// same of a packet that is sent.
pub trait PacketObserver {
    ghost receives: { Self → Sent → Self → Type 0 };

    ghost sends: { Self → Sent → Self → Type 0 };

    ghost begins: { Self → (unit : ℕ) → Self → Type 0 };

    ghost begins_round: { Self → (unit : ℕ) → Self → Type 0 };

    ghost ends: { Self → Ended → Self → Type 0 };

    /// The process begins in a unit.
    fn begin(&mut self, unit: u32)
        ensures { begins self.old unit self.new };

    /// A round begins in a unit.
    fn begin_round(&mut self, unit: u32)
        ensures { begins_round self.old unit self.new };

    /// A packet came that was sent in the unit of its stamp.
    fn receive(&mut self, stamp: u32, packet: &RawPacket)
        ensures { receives self.old (sent_at stamp packet.now.items) self.new };

    /// A packet is sent in a unit.
    fn send(&mut self, unit: u32, packet: &RawPacket)
        ensures { sends self.old (sent_at unit packet.now.items) self.new };

    /// The process ended. What was observed is in its files.
    ///
    /// # Errors
    /// The first fault of the observer. It disturbs no traffic.
    fn end(&mut self) -> Result<(), WatchFault>
        ensures { ends self.old result self.new };
}

impl<O: PacketObserver> PacketObserver for Option<O> {
    ghost use Rattle.fwupd_traces.specs.Watches.{Optional, OptionalEnd};

    ghost receives = { λ s p t. Optional O.receives s p t };

    ghost sends = { λ s p t. Optional O.sends s p t };

    ghost begins = { λ s unit t. Optional O.begins s unit t };

    ghost begins_round = { λ s unit t. Optional O.begins_round s unit t };

    ghost ends = { λ s r t. OptionalEnd O.ends s r t };

    fn begin(&mut self, unit: u32) {
        if let Some(observer) = self {
            observer.begin(unit);
        }
    }

    fn begin_round(&mut self, unit: u32) {
        if let Some(observer) = self {
            observer.begin_round(unit);
        }
    }

    fn receive(&mut self, stamp: u32, packet: &RawPacket) {
        if let Some(observer) = self {
            observer.receive(stamp, packet);
        }
    }

    fn send(&mut self, unit: u32, packet: &RawPacket) {
        if let Some(observer) = self {
            observer.send(unit, packet);
        }
    }

    fn end(&mut self) -> Result<(), WatchFault> {
        match self {
            Some(observer) => observer.end(),
            None => Ok(()),
        }
    }
}

/// A line with an observer, which gets each packet that comes and each that is sent.
#[derive(Drop)]
pub struct ObservedLine<L: Line + Drop, O: PacketObserver + Drop> {
    line: L,
    observer: O,
}

impl<L: Line + Drop, O: PacketObserver + Drop> ObservedLine<L, O> {
    /// Creates the line with its observer.
    pub fn new(line: L, observer: O) -> ObservedLine<L, O>
        ensures line { result.line ≡ line }
        ensures observer { result.observer ≡ observer }
    {
        ObservedLine { line, observer }
    }

    /// The process begins in a unit.
    pub fn begin(&mut self, unit: u32)
        ensures begins { O.begins self.old.observer unit self.new.observer }
        ensures line { self.new.line ≡ self.old.line }
    {
        self.observer.begin(unit);
    }

    /// The process ended. What was observed is in its files.
    ///
    /// # Errors
    /// The first fault of the observer.
    pub fn end(&mut self) -> Result<(), WatchFault>
        ensures ends { O.ends self.old.observer result self.new.observer }
        ensures line { self.new.line ≡ self.old.line }
    {
        self.observer.end()
    }
}

impl<L: Line + Drop, O: PacketObserver + Drop> Line for ObservedLine<L, O> {
    ghost known = { λ o. L.known o.line };

    fn begin_round(&mut self, unit: u32)
        ensures known { L.known self.new.line ≡ line_with (L.known self.old.line) (LineCall.Begins unit ∷ []) [] }
        ensures seen { O.begins_round self.old.observer unit self.new.observer }
    {
        self.observer.begin_round(unit);
        self.line.begin_round(unit);
    }

    fn receive(&mut self, packet: &mut RawPacket) -> Option<u32>
        ensures known { L.known self.new.line ≡ line_with (L.known self.old.line) (receive_call result packet.new.items ∷ []) [] }
        ensures seen { IfSome result (λ stamp. O.receives self.old.observer (sent_at stamp packet.new.items) self.new.observer) }
        ensures none { result ≡ None → self.new.observer ≡ self.old.observer }
    {
        let Some(stamp) = self.line.receive(packet) else {
            return None;
        };
        self.observer.receive(stamp, packet);
        Some(stamp)
    }

    fn send(&mut self, unit: u32, packet: &RawPacket)
        ensures known { L.known self.new.line ≡ line_with (L.known self.old.line) [] (sent_at unit packet.now.items ∷ []) }
        ensures seen { O.sends self.old.observer (sent_at unit packet.now.items) self.new.observer }
    {
        self.observer.send(unit, packet);
        self.line.send(unit, packet);
    }
}
