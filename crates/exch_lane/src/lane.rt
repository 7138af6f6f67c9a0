//! A lane.

ghost use Rattle.std.specs.Prelude.{[], ◌&&◌, ◌++◌, ◌==◌, ◌∷◌, ◌≡◌, ◌≤◌, IfErr, None, OnErr, OnOk, is_some, length, map};
ghost use Rattle.pldm_base.specs.Header.{IsPldmHead, pldm_of};
ghost use Rattle.pldm_base.specs.Limits.{reply_limit};
ghost use Rattle.pldm_exch.specs.Caller.{is_quiet, may_begin, tick_of, tick_word};
ghost use Rattle.pldm_exch.specs.Ends.{asker_of, taker_of};
ghost use Rattle.pldm_exch.specs.Kept.{kept_with};
ghost use Rattle.pldm_exch.specs.Requests.{body_in, reply_message};
ghost use Rattle.exch_lane.specs.Journals.{HasJournalRoom, sent_of, with_learnt, with_sent, with_taken};
ghost use Rattle.exch_lane.specs.Lanes.{AreEnds, LaneEntryOf, LaneStepOf, lane_entry_of, is_deaf_in, lane_new, lane_step_of};
ghost use Rattle.exch_lane.specs.Nodes.{asker_after, asker_ticked, call_tick_of, taker_action_in, taker_after};
ghost use Rattle.mctp_wire.specs.Packet.{IsRead, spelling};
ghost use Rattle.pldm_exch.specs.Sides.{answering_row, asker_counts, asker_row, asking_row, reply_in_row, taker_counts, taker_row};
ghost use Rattle.exch_lane.specs.Steps.{IsCause, MayTake, lane_after_abandon, lane_after_begin, lane_after, lane_after_tick, may_step, lane_after_restart, packets_of_message};

use crate::clock::{UNMISSED, may_beat, since_after};
use crate::entry::LaneEntry;
use crate::journal::{Journal, SentPacket};
use crate::step::{End, LaneFault, LaneStep};
use mctp_reasm::Message;
use mctp_wire::{MAX_PACKETS, Packet, Unit};
use pldm_base::{HEADER_SIZE, MAX_REPLY, PldmHead, Reply};
use pldm_exch::{Asker, CallTick, DEAF, Received, Request, Taker, body_of};
use std::alloc::Global;
use std::marker::Model;

/// One direction of requests between two nodes: both ends, and every packet that was ever sent
/// between them.
#[derive(Drop)]
pub struct Lane {
    /// The ticks that the asker counted since its last missed one, at most 8.
    asker_since_miss: u8,
    /// The ticks that the taker counted since its last missed one, at most 8.
    taker_since_miss: u8,
    /// The ticks for which the asker is still deaf after a restart; 0 if it isn't deaf.
    asker_deaf: u8,
    /// The ticks for which the taker is still deaf after a restart; 0 if it isn't deaf.
    taker_deaf: u8,
    /// The end that asks.
    asker: Asker,
    /// The end that answers.
    taker: Taker,
    /// The time, every packet with its date, and the history.
    journal: Journal,
}

impl Model for Lane {
    ghost use Rattle.std.specs.Prelude.{◌≡◌, map};
    ghost use Rattle.exch_lane.specs.Journals.{sent_of};
    ghost use Rattle.pldm_exch.specs.Ends.{asker_of, taker_of};
    ghost use Rattle.exch_lane.specs.Lanes.{LaneOf, lane_entry_of};

    ghost Value = { LaneOf };

    ghost view = { λ l. record {
      unit = l.asker.unit;
      asker_eid = l.asker.own;
      taker_eid = l.asker.peer;
      now = l.journal.time;
      asker_since_miss = l.asker_since_miss;
      taker_since_miss = l.taker_since_miss;
      asker = asker_of l.asker_deaf l.asker;
      taker = taker_of l.taker_deaf l.taker;
      packets = map sent_of l.journal.packets.items;
      entries = map lane_entry_of l.journal.entries.items;
    } };

    ghost invariant = { λ l. (l.taker.unit ≡ l.asker.unit) × (l.taker.own ≡ l.asker.peer) × (l.taker.peer ≡ l.asker.own) };
}

impl Lane {
    /// Returns a lane with an empty history, between two different nodes with endpoint identifiers
    /// of 8 to 254, in a network with this transmission unit.
    pub fn new(alloc: Global, unit: Unit, asker: u8, taker: u8) -> Lane
        requires { AreEnds asker taker }
        ensures { result ≡ lane_new unit asker taker }
    {
        Lane {
            asker_since_miss: UNMISSED,
            taker_since_miss: UNMISSED,
            asker_deaf: 0,
            taker_deaf: 0,
            asker: Asker::new(unit, asker, taker),
            taker: Taker::new(unit, taker, asker),
            journal: Journal::new(alloc),
        }
    }

    /// Returns the units that have passed, at most 4,294,967,295.
    pub fn now(&self) -> u32
        ensures { result ≡ self.now.now }
    {
        self.journal.time
    }

    /// Returns every packet that was sent, in the order of sending. `LaneStep::Deliver` numbers
    /// them from 1.
    pub fn packets(&self) -> &[SentPacket]
        ensures { map sent_of result.now ≡ self.now.packets }
    {
        self.journal.packets.as_slice()
    }

    /// Returns the lane's history, in order.
    pub fn history(&self) -> &[LaneEntry]
        ensures { map lane_entry_of result.now ≡ self.now.entries }
    {
        self.journal.entries.as_slice()
    }

    /// Returns whether an end drops every packet, since it was restarted less than 40 ticks ago.
    pub fn is_deaf(&self, end: End) -> bool
        ensures { result ≡ is_deaf_in self.now end }
    {
        match end {
            End::Asker => self.asker_deaf > 0,
            End::Taker => self.taker_deaf > 0,
        }
    }

    /// Returns whether a request waits for its reply.
    pub fn is_open(&self) -> bool
        ensures { result ≡ is_some self.now.asker.caller.asked }
    {
        self.asker.is_open()
    }

    /// Returns whether the asker is quiet: no request is open, and the last one was answered or
    /// its tag has rested.
    pub fn is_quiet(&self) -> bool
        ensures { result ≡ is_quiet self.now.asker.caller }
    {
        self.asker.is_quiet()
    }

    /// Returns whether a request may begin: the asker isn't deaf and is quiet, and the next tag has
    /// rested.
    pub fn can_begin(&self) -> bool
        ensures { result ≡ ((self.now.asker.deaf == 0) && may_begin self.now.asker.caller) }
    {
        self.asker_deaf == 0 && self.asker.can_begin()
    }

    /// Takes one step, or leaves the lane as it is.
    pub(crate) fn step(&mut self, step: &LaneStep) -> Result<(), LaneFault>
        ensures ok { OnOk result (MayTake self.old (lane_step_of step.now)
            × (self.new ≡ lane_after self.old (lane_step_of step.now))) }
        ensures err { OnErr result (self.new ≡ self.old) }
        ensures cause { IfErr result (λ e. IsCause self.old (lane_step_of step.now) e) }
    {
        match step {
            LaneStep::Begin(command, body) => self.begin(*command, body.as_slice()),
            LaneStep::Abandon => self.abandon(),
            LaneStep::Deliver(number, end, reply) => self.deliver(*number, *end, reply.as_slice()),
            LaneStep::Tick(asker, taker) => self.tick(*asker, *taker),
            LaneStep::Restart(end) => {
                self.restart(*end);
                Ok(())
            }
        }
    }

    /// The asker begins a request.
    #[tactic(auto, using(crate::proofs::LaneRows::rows))]
    fn begin(&mut self, command: u8, body: &[u8]) -> Result<(), LaneFault>
        ensures ok { OnOk result ((may_step self.old (LaneStepOf.Begin command body.now) ≡ None)
            × (self.new ≡ lane_after_begin self.old command body.now)) }
        ensures err { OnErr result (self.new ≡ self.old) }
        ensures cause { IfErr result (λ e. IsCause self.old (LaneStepOf.Begin command body.now) e) }
    {
        let unit = self.asker.unit();
        if body.len() > reply_limit(unit) || !self.can_begin() {
            return Err(LaneFault::NotNow);
        }
        let Ok(()) = self.journal.make_room() else {
            return Err(LaneFault::Memory);
        };
        let message = self.asker.begin(command, body);
        self.journal.send(unit, &message);
        self.journal.note(LaneEntry::Asked(command, data_of(body)));
        Ok(())
    }

    /// The asker abandons its open request.
    fn abandon(&mut self) -> Result<(), LaneFault>
        ensures ok { OnOk result ((may_step self.old LaneStepOf.Abandon ≡ None) × (self.new ≡ lane_after_abandon self.old)) }
        ensures err { OnErr result (self.new ≡ self.old) }
        ensures cause { IfErr result (λ e. IsCause self.old LaneStepOf.Abandon e) }
    {
        if !self.asker.is_open() {
            return Err(LaneFault::NotNow);
        }
        self.asker.abandon();
        Ok(())
    }

    /// Delivers a packet to an end.
    fn deliver(&mut self, number: usize, end: End, reply: &[u8]) -> Result<(), LaneFault>
        ensures ok { OnOk result ((may_step self.old (LaneStepOf.Deliver number end reply.now)
            ≡ None)
            × (self.new ≡ lane_after self.old (LaneStepOf.Deliver number end reply.now))) }
        ensures err { OnErr result (self.new ≡ self.old) }
        ensures cause { IfErr result (λ e. IsCause self.old (LaneStepOf.Deliver number end reply.now) e) }
    {
        if reply.len() > reply_limit(self.taker.unit()) {
            return Err(LaneFault::NotNow);
        }
        let packet = match self.journal.living(number) {
            Ok(packet) => packet,
            Err(fault) => return Err(fault),
        };
        let Ok(()) = self.journal.make_room() else {
            return Err(LaneFault::Memory);
        };
        let bytes = packet.bytes.as_slice();
        match end {
            End::Asker => asker_on_packet(
                self.asker_deaf,
                &mut self.asker,
                &mut self.journal,
                bytes,
            ),
            End::Taker => taker_on_packet(
                self.taker_deaf,
                &mut self.taker,
                &mut self.journal,
                bytes,
                reply,
            ),
        }
        Ok(())
    }

    /// A unit of time passes, and each end counts it or misses it.
    #[tactic(auto, using(crate::proofs::LaneRows::rows))]
    fn tick(&mut self, asker: bool, taker: bool) -> Result<(), LaneFault>
        ensures ok { OnOk result ((may_step self.old (LaneStepOf.Tick asker taker) ≡ None)
            × (self.new ≡ lane_after_tick self.old asker taker)) }
        ensures err { OnErr result (self.new ≡ self.old) }
        ensures cause { IfErr result (λ e. IsCause self.old (LaneStepOf.Tick asker taker) e) }
    {
        if !may_beat(asker, self.asker_since_miss) || !may_beat(taker, self.taker_since_miss) {
            return Err(LaneFault::NotNow);
        }
        let Some(time) = self.journal.time.checked_add(1) else {
            return Err(LaneFault::NotNow);
        };
        let Ok(()) = self.journal.make_room() else {
            return Err(LaneFault::Memory);
        };
        self.journal.time = time;
        self.asker_since_miss = since_after(asker, self.asker_since_miss);
        self.taker_since_miss = since_after(taker, self.taker_since_miss);
        if taker {
            taker_ticks(&mut self.taker_deaf, &mut self.taker);
        }
        if asker {
            if let CallTick::Send = asker_ticks(&mut self.asker_deaf, &mut self.asker) {
                if let Some(message) = self.asker.open_message() {
                    self.journal.send(self.asker.unit(), message);
                }
            }
        }
        Ok(())
    }

    /// Restarts an end.
    fn restart(&mut self, end: End)
        ensures { self.new ≡ lane_after_restart self.old end }
    {
        match end {
            End::Asker => {
                self.asker = Asker::new(self.asker.unit(), self.asker.own(), self.asker.peer());
                self.asker_deaf = DEAF;
            }
            End::Taker => {
                self.taker = Taker::new(self.taker.unit(), self.taker.own(), self.taker.peer());
                self.taker_deaf = DEAF;
            }
        }
    }
}

/// Delivers the bytes of a packet to the asker, which drops them if it is deaf.
fn asker_on_packet(deaf: u8, asker: &mut Asker, journal: &mut Journal, bytes: &[u8])
    requires room { HasJournalRoom journal.old }
    ensures asker { asker_of deaf asker.new
        ≡ asker_after (asker_of deaf asker.old) (asker_row asker.old.unit asker.old.own
        asker.old.peer (asker_of deaf asker.old) bytes.now) }
    ensures between { (asker.new.unit ≡ asker.old.unit) × (asker.new.own ≡ asker.old.own) × (asker.new.peer ≡ asker.old.peer) }
    ensures packets { journal.new.packets ≡ journal.old.packets }
    ensures entries { map lane_entry_of journal.new.entries.items
        ≡ with_learnt (map lane_entry_of journal.old.entries.items)
        (reply_in_row (asker_row asker.old.unit asker.old.own asker.old.peer
        (asker_of deaf asker.old) bytes.now)) }
    ensures time { journal.new.time ≡ journal.old.time }
{
    if deaf > 0 {
        return;
    }
    let Ok(packet) = mctp_wire::decode(asker.unit(), bytes) else {
        return;
    };
    asker_learns(asker, journal, &packet);
}

/// Delivers a packet to the asker, which records the reply that the packet completes.
#[tactic(auto, using(crate::proofs::LaneRows::rows))]
fn asker_learns(asker: &mut Asker, journal: &mut Journal, packet: &Packet<'_>)
    requires read { IsRead packet.now }
    requires room { HasJournalRoom journal.old }
    ensures asker { asker_of 0 asker.new ≡ asker_after (asker_of 0 asker.old) (asking_row asker.old (spelling packet.now)) }
    ensures between { (asker.new.unit ≡ asker.old.unit) × (asker.new.own ≡ asker.old.own) × (asker.new.peer ≡ asker.old.peer) }
    ensures packets { journal.new.packets ≡ journal.old.packets }
    ensures entries { map lane_entry_of journal.new.entries.items
        ≡ with_learnt (map lane_entry_of journal.old.entries.items)
        (reply_in_row (asking_row asker.old (spelling packet.now))) }
    ensures time { journal.new.time ≡ journal.old.time }
{
    let mut message = Message::blank();
    if let Some(_) = asker.on_reply(packet, &mut message) {
        journal.note(LaneEntry::Learnt(data_of(body_of(&message))));
    }
}

/// Delivers the bytes of a packet to the taker, which answers a new request with `reply`. If it is
/// deaf it drops the packet.
fn taker_on_packet(deaf: u8, taker: &mut Taker, journal: &mut Journal, bytes: &[u8], reply: &[u8])
    requires room { HasJournalRoom journal.old }
    requires reply { length reply.now ≤ reply_limit taker.old.unit }
    ensures taker { taker_of deaf taker.new
        ≡ taker_after (taker_of deaf taker.old) reply.now (taker_row taker.old.unit taker.old.own
        taker.old.peer (taker_of deaf taker.old) bytes.now) }
    ensures between { (taker.new.unit ≡ taker.old.unit) × (taker.new.own ≡ taker.old.own) × (taker.new.peer ≡ taker.old.peer) }
    ensures packets { map sent_of journal.new.packets.items
        ≡ with_sent taker.old.unit journal.old.time (map sent_of journal.old.packets.items)
        (taker_action_in reply.now (taker_row taker.old.unit taker.old.own taker.old.peer
        (taker_of deaf taker.old) bytes.now)) }
    ensures entries { map lane_entry_of journal.new.entries.items
        ≡ with_taken reply.now (map lane_entry_of journal.old.entries.items)
        (taker_action_in reply.now (taker_row taker.old.unit taker.old.own taker.old.peer
        (taker_of deaf taker.old) bytes.now)) }
    ensures time { journal.new.time ≡ journal.old.time }
{
    if deaf > 0 {
        return;
    }
    let Ok(packet) = mctp_wire::decode(taker.unit(), bytes) else {
        return;
    };
    taker_answers(taker, journal, &packet, reply);
}

/// Delivers a packet to the taker, which sends the answer to the request that the packet completes:
/// `reply` if the request is new.
#[tactic(auto, using(crate::proofs::LaneRows::rows))]
fn taker_answers(taker: &mut Taker, journal: &mut Journal, packet: &Packet<'_>, reply: &[u8])
    requires read { IsRead packet.now }
    requires room { HasJournalRoom journal.old }
    requires reply { length reply.now ≤ reply_limit taker.old.unit }
    ensures taker { taker_of 0 taker.new
        ≡ taker_after (taker_of 0 taker.old) reply.now (answering_row taker.old
        (spelling packet.now)) }
    ensures between { (taker.new.unit ≡ taker.old.unit) × (taker.new.own ≡ taker.old.own) × (taker.new.peer ≡ taker.old.peer) }
    ensures packets { map sent_of journal.new.packets.items
        ≡ with_sent taker.old.unit journal.old.time (map sent_of journal.old.packets.items)
        (taker_action_in reply.now (answering_row taker.old (spelling packet.now))) }
    ensures entries { map lane_entry_of journal.new.entries.items
        ≡ with_taken reply.now (map lane_entry_of journal.old.entries.items)
        (taker_action_in reply.now (answering_row taker.old (spelling packet.now))) }
    ensures time { journal.new.time ≡ journal.old.time }
{
    let mut message = Message::blank();
    match taker.on_request(packet, &mut message) {
        Received::Nothing | Received::Strays => {}
        Received::Again => journal.send(taker.unit(), &message),
        Received::New(head) => taker_takes(taker, journal, &message, head, reply),
    }
}

/// The taker takes a new request, the message with this head, and answers it with `reply`.
fn taker_takes(
    taker: &mut Taker,
    journal: &mut Journal,
    message: &Message,
    head: PldmHead,
    reply: &[u8],
)
    requires room { HasJournalRoom journal.old }
    requires head { IsPldmHead head }
    requires reply { length reply.now ≤ reply_limit taker.old.unit }
    ensures taker { taker.new ≡ record taker.old { kept = kept_with taker.old.kept (reply_message message.now head reply.now) } }
    ensures packets { map sent_of journal.new.packets.items
        ≡ map sent_of journal.old.packets.items
        ++ packets_of_message taker.old.unit journal.old.time
        (reply_message message.now head reply.now) }
    ensures entries { map lane_entry_of journal.new.entries.items
        ≡ map lane_entry_of journal.old.entries.items
        ++ LaneEntryOf.Taken head.command (body_in (pldm_of message.now.bytes)) reply.now ∷ [] }
    ensures time { journal.new.time ≡ journal.old.time }
{
    let answer = taker.answer(&Request::new(message, head), reply);
    journal.send(taker.unit(), &answer);
    let body = data_of(body_of(message));
    journal.note(LaneEntry::Taken(head.command, body, data_of(reply)));
}

/// Counts a tick at the asker: a deaf count falls by one, and if it is then 0, the asker counts the
/// tick.
#[tactic(auto, using(crate::proofs::LaneRows::rows))]
fn asker_ticks(deaf: &mut u8, asker: &mut Asker) -> CallTick
    ensures answer { result ≡ tick_word (call_tick_of (asker_counts (asker_of deaf.old asker.old))) }
    ensures message { tick_of result asker.new.caller.asked ≡ call_tick_of (asker_counts (asker_of deaf.old asker.old)) }
    ensures after { asker_of deaf.new asker.new ≡ asker_ticked (asker_counts (asker_of deaf.old asker.old)) }
    ensures between { (asker.new.unit ≡ asker.old.unit) × (asker.new.own ≡ asker.old.own) × (asker.new.peer ≡ asker.old.peer) }
{
    if *deaf > 1 {
        *deaf -= 1;
        return CallTick::Nothing;
    }
    *deaf = 0;
    asker.tick()
}

/// Counts a tick at the taker: a deaf count falls by one, and if it is then 0, the taker counts the
/// tick.
fn taker_ticks(deaf: &mut u8, taker: &mut Taker)
    ensures after { taker_of deaf.new taker.new ≡ taker_counts (taker_of deaf.old taker.old) }
    ensures between { (taker.new.unit ≡ taker.old.unit) × (taker.new.own ≡ taker.old.own) × (taker.new.peer ≡ taker.old.peer) }
{
    if *deaf > 1 {
        *deaf -= 1;
        return;
    }
    *deaf = 0;
    taker.tick();
}

/// Returns the most bytes of request data, and of a reply with its code: the bytes of a message
/// after its header.
fn reply_limit(unit: Unit) -> usize
    ensures { result ≡ reply_limit unit }
{
    MAX_PACKETS * unit.bytes() - HEADER_SIZE
}

/// Returns a copy of request data, or of a reply.
fn data_of(bytes: &[u8]) -> Reply
    requires { length bytes.now ≤ MAX_REPLY }
    ensures { result.items ≡ bytes.now }
{
    let mut data = Reply::new();
    let _ = data.try_extend_from_slice(bytes);
    data
}
