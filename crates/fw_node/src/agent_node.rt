//! The node of the update agent.

ghost use Rattle.std.specs.Prelude.{◌≡◌, ◌≤◌, ◌<◌, ◌↔◌, ◌*◌, ◌+◌, ◌++◌, ◌==◌, [], IfErr, IfOk, IfSome, List, None, OnErr, OnOk, Some, false, flat_map, is_some, length, map, not, option_map, slice_get, true, ℕ};
ghost use Rattle.fw_package.specs.Package.{PackageText};
ghost use Rattle.mctp_wire.specs.Packet.{IsRead, spelling};
ghost use Rattle.sel_core.specs.Log.{sel_after, sel_reply};
ghost use Rattle.fw_node.specs.Agents.{AgentOf, any_packet, IsAddressed, IsDeafFor, half_after_activate, free_for, ready_for, again_packets, agent_becomes, agent_on_packet, agent_restarts, agent_tick_sends, agent_ticks, begin_messages, half_after_cancel, session_half_after, ended_packets, session_half_aged, half_at, half_for, agent_on_packet_at, new_agent, new_half, log_after_part, place_of_sender, place_of, half_after_start, session_half_idle};
ghost use Rattle.fw_node.specs.AgentViews.{agent_of, half_in, half_activated, half_cancelled, half_free, half_ready, half_restarted, half_started, halves_called, halves_noted};
ghost use Rattle.fw_node.specs.Cores.{session_core};
ghost use Rattle.fw_node.specs.Halves.{half_ticks};
ghost use Rattle.fw_node.specs.Resumed.{resumed_agent, session_kept};
ghost use Rattle.std.specs.List.{AllByRecursion};

use crate::half::Half;
use crate::identity::Identity;
use crate::noting::{activate, cancel, grow, handle_and_note, start, wait};
use crate::outbox::Outbox;
use crate::resuming::{KeptSession, halves_of};
use fw_package::Package;
use mctp_ctl::Endpoint;
use mctp_wire::{Packet, Unit};
use pldm_base::Tid;
use pldm_exch::DEAF;
use sel_core::{Sel, SelReply};
use std::alloc::{AllocError, Global};
use std::marker::Model;
use ua_core::{NotReady, Session, StartFault};

/// The update agent on a network of MCTP packets: a session and both ends for each of its devices,
/// at most 16, and the event log of their updates. It answers control and base requests too. Its
/// calls borrow the packages that the operator may start updates with.
#[derive(Drop)]
pub struct AgentNode {
    /// Its endpoint and its terminus identifier.
    identity: Identity,
    /// The ticks for which it is still deaf after a restart; 0 if it hears.
    deaf: u8,
    /// The session and both ends for each device, in configured order. Their number never changes.
    halves: Vec<Half<Session>>,
    /// The event log.
    log: Sel,
}

impl Model for AgentNode {
    ghost use Rattle.std.specs.Prelude.{◌≤◌, length};
    ghost use Rattle.fw_node.specs.Agents.{AgentOf};
    ghost use Rattle.fw_node.specs.AgentViews.{agent_of, half_restarted};

    ghost Value = { AgentOf };

    ghost view = { λ n. agent_of n.deaf n.identity n.log n.halves.items };

    ghost invariant = { λ n. length n.halves.items ≤ 16 };
}

impl AgentNode {
    /// Creates the agent of the devices with these endpoint identifiers, at most 16, in a network
    /// with this transmission unit.
    ///
    /// # Errors
    /// `AllocError` if memory for them or for the log is refused.
    pub fn new(
        alloc: Global,
        unit: Unit,
        endpoint: Endpoint,
        devices: &[u8],
    ) -> Result<AgentNode, AllocError>
        requires { length devices.now ≤ 16 }
        ensures { IfOk result (λ n. n ≡ new_agent unit endpoint devices.now) }
    {
        let Ok(log) = Sel::new(alloc) else {
            return Err(AllocError);
        };
        let halves = halves_for(alloc, unit, endpoint.eid, devices)?;
        let identity = Identity {
            endpoint,
            tid: Tid::unassigned(),
        };
        Ok(AgentNode {
            identity,
            deaf: 0,
            halves,
            log,
        })
    }

    /// Creates the agent that goes on with what an earlier life of it kept: the sessions of its
    /// devices, at most 16, and its log. No update is in progress.
    ///
    /// # Errors
    /// `AllocError` if memory for them is refused.
    pub fn resumed(
        alloc: Global,
        unit: Unit,
        endpoint: Endpoint,
        sessions: &[KeptSession],
        log: Sel,
    ) -> Result<AgentNode, AllocError>
        requires { length sessions.now ≤ 16 }
        ensures { IfOk result (λ n. n ≡ resumed_agent unit endpoint (map session_kept sessions.now) log) }
    {
        let halves = halves_of(alloc, unit, endpoint.eid, sessions)?;
        let identity = Identity {
            endpoint,
            tid: Tid::unassigned(),
        };
        Ok(AgentNode {
            identity,
            deaf: 0,
            halves,
            log,
        })
    }

    /// Its endpoint identifier.
    pub fn eid(&self) -> u8
        ensures { result ≡ self.now.endpoint.eid }
    {
        self.identity.endpoint.eid
    }

    /// Whether it drops every packet because it restarted less than 40 ticks ago.
    pub fn is_deaf(&self) -> bool
        ensures deaf { result ≡ not (self.now.deaf == 0) }
        ensures halves { AllByRecursion (IsDeafFor self.now.deaf) self.now.halves }
    {
        self.deaf > 0
    }

    /// The event log.
    pub fn log(&self) -> &Sel
        ensures { result.now ≡ self.now.log }
    {
        &self.log
    }

    /// Returns the session with a device, or `None` if the device isn't one of the agent's.
    #[tactic(auto, using(crate::proofs::Places::places))]
    pub fn session(&self, eid: u8) -> Option<&Session>
        ensures session { option_map (λ s. s.now) result ≡ option_map (λ h. h.core) (half_for self.now eid) }
        ensures known { is_some result ≡ is_some (half_for self.now eid) }
    {
        session_in(self.halves.as_slice(), eid)
    }

    /// The number of its devices.
    pub fn device_count(&self) -> usize
        ensures count { result ≡ length self.now.halves }
        ensures bound { result ≤ 16 }
    {
        self.halves.len()
    }

    /// Returns the device at a place, from 0 on in configured order, and its session. `None` if
    /// there is no device at the place.
    pub fn session_at(&self, place: usize) -> Option<(u8, &Session)>
        ensures device { option_map (λ s. s.0) result ≡ option_map (λ h. h.peer) (slice_get self.now.halves place) }
        ensures session { option_map (λ s. s.1.now) result ≡ option_map (λ h. h.core) (slice_get self.now.halves place) }
    {
        session_at(self.halves.as_slice(), place)
    }

    /// Handles the bytes of a packet, and puts the packets to send into `outbox`, which must be
    /// empty. A packet to another endpoint, or of none of its devices, changes nothing. A deaf
    /// agent drops every packet. Events of a session are noted in the log at `now`.
    pub fn on_packet<'p>(
        &mut self,
        packages: &'p [Package<'p>],
        bytes: &[u8],
        now: u32,
        outbox: &mut Outbox,
    )
        requires { outbox.old ≡ [] }
        ensures after { self.new ≡ (agent_on_packet packages.now self.old bytes.now now).agent }
        ensures sent { outbox.new ≡ (agent_on_packet packages.now self.old bytes.now now).sent }
    {
        let Ok(packet) = mctp_wire::decode(Unit::U128, bytes) else {
            return;
        };
        self.accept(packages, &packet, now, outbox);
    }

    /// Handles a packet of either transmission unit, and puts the packets to send into `outbox`,
    /// which must be empty.
    #[tactic(auto, using(crate::proofs::Places::places))]
    fn accept<'p>(
        &mut self,
        packages: &'p [Package<'p>],
        packet: &Packet<'_>,
        now: u32,
        outbox: &mut Outbox,
    )
        requires read { IsRead packet.now }
        requires outbox { outbox.old ≡ [] }
        ensures after { self.new ≡ (agent_on_packet packages.now self.old (spelling packet.now) now).agent }
        ensures sent { outbox.new ≡ (agent_on_packet packages.now self.old (spelling packet.now) now).sent }
    {
        if self.deaf > 0 {
            return;
        }
        let Some(place) = sender_of(self.halves.as_slice(), packet) else {
            return;
        };
        accept_at(
            self.halves.as_mut_slice(),
            place,
            &mut self.identity,
            &mut self.log,
            packages,
            packet,
            now,
            outbox,
        );
    }

    /// Handles a tick. Each part is done for all devices before the next begins: held packets, kept
    /// answers and open requests grow older, and an open request is sent again or given up; the
    /// sessions tick; an open request that is no longer the pending command is given up, and a
    /// pending command begins. Events of a session are noted in the log at `now`. A deaf agent only
    /// counts the tick.
    pub fn on_tick<'p>(&mut self, packages: &'p [Package<'p>], now: u32, outbox: &mut Outbox)
        requires { outbox.old ≡ [] }
        ensures after { self.new ≡ agent_ticks packages.now now self.old }
        ensures sent { outbox.new ≡ agent_tick_sends packages.now self.old }
        ensures halves { self.new.halves ≡ map (λ h. (half_ticks (session_core packages.now) true h).half) self.old.halves }
        ensures addressed { self.old.deaf ≤ 1 → AllByRecursion (IsAddressed packages.now) self.old.halves }
    {
        if self.deaf > 1 {
            self.deaf -= 1;
            return;
        }
        self.deaf = 0;
        grow_all(
            self.halves.as_mut_slice(),
            &mut self.log,
            packages,
            now,
            outbox,
        );
        wait_all(
            self.halves.as_mut_slice(),
            &mut self.log,
            packages,
            now,
            outbox,
        );
    }

    /// Starts an update of one of its devices with the package of this number, and notes it at
    /// `now`. A deaf agent does so too.
    ///
    /// # Errors
    /// `Busy` if an update of that device is in progress, else `Memory` if memory for its records
    /// is refused. The agent is unchanged on an error.
    pub fn start<'p>(
        &mut self,
        packages: &'p [Package<'p>],
        eid: u8,
        number: usize,
        now: u32,
    ) -> Result<(), StartFault>
        requires { is_some (half_for self.old eid) ≡ true }
        ensures started { OnOk result (self.new ≡ agent_becomes self.old now eid (λ h. half_after_start packages.now h number)) }
        ensures free { OnOk result (free_for self.old eid ≡ Some true) }
        ensures busy { IfErr result (λ e. (e ≡ StartFault.Busy) ↔ (free_for self.old eid ≡ Some false)) }
        ensures kept { OnErr result (self.new ≡ self.old) }
    {
        let Some(place) = place_of(self.halves.as_slice(), eid) else {
            return Err(StartFault::Busy);
        };
        match start_at(
            self.halves.as_mut_slice(),
            place,
            &mut self.log,
            packages,
            number,
            now,
        ) {
            Ok(()) => {}
            Err(fault) => return Err(fault),
        }
        Ok(())
    }

    /// Cancels the update of a device, and notes it at `now`. Nothing changes if the device isn't
    /// one of the agent's. A deaf agent cancels too.
    pub fn cancel<'p>(&mut self, packages: &'p [Package<'p>], eid: u8, now: u32)
        ensures cancelled { self.new ≡ agent_becomes self.old now eid (half_after_cancel packages.now) }
    {
        let Some(place) = place_of(self.halves.as_slice(), eid) else {
            return;
        };
        cancel_at(
            self.halves.as_mut_slice(),
            place,
            &mut self.log,
            packages,
            now,
        );
    }

    /// Has a device activate the images that it applied. A deaf agent does so too.
    ///
    /// # Errors
    /// `NotReady` unless every component of the update for this device is applied. The agent is
    /// unchanged on an error.
    pub fn activate<'p>(
        &mut self,
        packages: &'p [Package<'p>],
        eid: u8,
        now: u32,
    ) -> Result<(), NotReady>
        ensures ready { OnOk result (option_map (λ s. agent_becomes self.old now eid
            (λ h. half_after_activate packages.now h s)) (ready_for self.old eid) ≡ Some self.new) }
        ensures not { OnErr result (ready_for self.old eid ≡ None) }
        ensures kept { OnErr result (self.new ≡ self.old) }
    {
        let Some(place) = place_of(self.halves.as_slice(), eid) else {
            return Err(NotReady);
        };
        match activate_at(
            self.halves.as_mut_slice(),
            place,
            &mut self.log,
            packages,
            now,
        ) {
            Ok(()) => {}
            Err(fault) => return Err(fault),
        }
        Ok(())
    }

    /// Restarts: no update is in progress, and the agent is deaf and silent for 40 ticks. The
    /// records of its sessions and of its log stay.
    pub fn restart(&mut self)
        ensures restarted { (packages : List PackageText) → self.new ≡ agent_restarts packages self.old }
    {
        restart_all(self.halves.as_mut_slice());
        self.identity.tid = Tid::unassigned();
        self.log.restart();
        self.deaf = DEAF;
    }

    /// Answers a request of the event log (IPMI 2.0, section 31) with this command and data, at
    /// `now`. A request without a byte has a wrong length.
    pub fn request(&mut self, command: u8, data: &[u8], now: u32) -> SelReply
        ensures reply { result.items ≡ sel_reply self.old.log command «data».now now }
        ensures after { self.new ≡ record self.old { log = sel_after self.old.log command «data».now now } }
    {
        self.log.request(command, data, now)
    }
}

/// The halves for devices with these endpoint identifiers.
fn halves_for(
    alloc: Global,
    unit: Unit,
    own: u8,
    devices: &[u8],
) -> Result<Vec<Half<Session>>, AllocError>
    ensures { IfOk result (λ halves. map (half_in 0) halves.items ≡ map (new_half unit own) devices.now) }
{
    let mut halves = Vec::new(alloc);
    for device in devices {
        halves.push(Half::new(unit, own, *device, Session::new(alloc, unit)))?;
    }
    Ok(halves)
}

/// The place of a device's half.
fn place_of(halves: &[Half<Session>], eid: u8) -> Option<usize>
    ensures place { result ≡ place_of (map (half_in 0) halves.now) eid }
    ensures within { IfSome result (λ place. place < length halves.now) }
{
    for (place, half) in halves.iter().enumerate() {
        if half.peer() == eid {
            return Some(place);
        }
    }
    None
}

/// The session with a device.
#[tactic(auto, using(crate::proofs::Places::places))]
fn session_in(halves: &[Half<Session>], eid: u8) -> Option<&Session>
    ensures { option_map (λ s. s.now) result
        ≡ option_map (λ h. h.core) (half_at (map (half_in 0) halves.now)
        (place_of (map (half_in 0) halves.now) eid)) }
{
    let Some(place) = place_of(halves, eid) else {
        return None;
    };
    Some(&halves[place].core)
}

/// The device and the session at a place.
fn session_at(halves: &[Half<Session>], place: usize) -> Option<(u8, &Session)>
    ensures device { (deaf : ℕ) → option_map (λ s. s.0) result
        ≡ option_map (λ h. h.peer) (slice_get (map (half_in deaf) halves.now) place) }
    ensures session { (deaf : ℕ) → option_map (λ s. s.1.now) result
        ≡ option_map (λ h. h.core) (slice_get (map (half_in deaf) halves.now) place) }
{
    let Some(half) = halves.get(place) else {
        return None;
    };
    Some((half.peer(), &half.core))
}

/// The place of the half for the device that sent the packet.
#[tactic(auto, using(crate::proofs::Readings::readings))]
fn sender_of(halves: &[Half<Session>], packet: &Packet<'_>) -> Option<usize>
    requires { IsRead packet.now }
    ensures place { result ≡ place_of_sender (map (half_in 0) halves.now) (any_packet (spelling packet.now)) }
    ensures within { IfSome result (λ place. place < length halves.now) }
{
    place_of(halves, packet.head.source)
}

/// The half at a place handles a packet.
#[tactic(auto, using(crate::proofs::Places::places))]
fn accept_at<'p>(
    halves: &mut [Half<Session>],
    place: usize,
    identity: &mut Identity,
    log: &mut Sel,
    packages: &'p [Package<'p>],
    packet: &Packet<'_>,
    now: u32,
    outbox: &mut Outbox,
)
    requires read { IsRead packet.now }
    requires place { place < length halves.old }
    requires outbox { outbox.old ≡ [] }
    ensures after { agent_of 0 identity.new log.new halves.new
        ≡ (agent_on_packet_at packages.now (agent_of 0 identity.old log.old halves.old)
        (spelling packet.now) now (Some place) (slice_get (map (half_in 0) halves.old)
        place)).agent }
    ensures sent { outbox.new ≡ (agent_on_packet_at packages.now
        (agent_of 0 identity.old log.old halves.old) (spelling packet.now) now (Some place)
        (slice_get (map (half_in 0) halves.old) place)).sent }
    ensures count { length halves.new ≡ length halves.old }
{
    handle_and_note(
        &mut halves[place],
        identity,
        log,
        packages,
        packet,
        now,
        outbox,
    );
}

/// Starts an update of the session at a place, and notes it.
fn start_at<'p>(
    halves: &mut [Half<Session>],
    place: usize,
    log: &mut Sel,
    packages: &'p [Package<'p>],
    number: usize,
    now: u32,
) -> Result<(), StartFault>
    requires { place < length halves.old }
    ensures halves { OnOk result (halves.new ≡ halves_called halves.old place (half_started packages.now number)) }
    ensures log { OnOk result (log.new ≡ halves_noted log.old now halves.old place (half_started packages.now number)) }
    ensures free { OnOk result (half_free (slice_get halves.old place) ≡ Some true) }
    ensures busy { IfErr result (λ e. (e ≡ StartFault.Busy) ↔ (half_free (slice_get halves.old place) ≡ Some false)) }
    ensures kept { OnErr result (halves.new ≡ halves.old) }
    ensures unnoted { OnErr result (log.new ≡ log.old) }
    ensures count { length halves.new ≡ length halves.old }
{
    match start(&mut halves[place], log, packages, number, now) {
        Ok(()) => {}
        Err(fault) => return Err(fault),
    }
    Ok(())
}

/// Cancels the update of the session at a place, and notes it.
fn cancel_at<'p>(
    halves: &mut [Half<Session>],
    place: usize,
    log: &mut Sel,
    packages: &'p [Package<'p>],
    now: u32,
)
    requires { place < length halves.old }
    ensures halves { halves.new ≡ halves_called halves.old place (half_cancelled packages.now) }
    ensures log { log.new ≡ halves_noted log.old now halves.old place (half_cancelled packages.now) }
    ensures count { length halves.new ≡ length halves.old }
{
    cancel(&mut halves[place], log, packages, now);
}

/// Has the device of the session at a place activate the images that it applied.
fn activate_at<'p>(
    halves: &mut [Half<Session>],
    place: usize,
    log: &mut Sel,
    packages: &'p [Package<'p>],
    now: u32,
) -> Result<(), NotReady>
    requires { place < length halves.old }
    ensures halves { OnOk result (option_map (λ s. halves_called halves.old place
        (half_activated packages.now s)) (half_ready (slice_get halves.old place))
        ≡ Some halves.new) }
    ensures log { OnOk result (option_map (λ s. halves_noted log.old now halves.old place
        (half_activated packages.now s)) (half_ready (slice_get halves.old place)) ≡ Some log.new) }
    ensures not { OnErr result (half_ready (slice_get halves.old place) ≡ None) }
    ensures kept { OnErr result (halves.new ≡ halves.old) }
    ensures unnoted { OnErr result (log.new ≡ log.old) }
    ensures count { length halves.new ≡ length halves.old }
{
    match activate(&mut halves[place], log, packages, now) {
        Ok(()) => {}
        Err(fault) => return Err(fault),
    }
    Ok(())
}

/// The first part of a tick, for all halves.
fn grow_all<'p>(
    halves: &mut [Half<Session>],
    log: &mut Sel,
    packages: &'p [Package<'p>],
    now: u32,
    outbox: &mut Outbox,
)
    requires { length outbox.old + 4 * length halves.old ≤ 64 }
    ensures halves { map (half_in 0) halves.new ≡ map (session_half_aged packages.now) (map (half_in 0) halves.old) }
    ensures sent { outbox.new ≡ outbox.old ++ flat_map again_packets (map (half_in 0) halves.old) }
    ensures few { length outbox.new + 4 * length (flat_map (begin_messages packages.now)
        (map (session_half_aged packages.now) (map (half_in 0) halves.old)))
        ≤ length outbox.old + 4 * length halves.old }
    ensures log { log.new ≡ log_after_part (session_half_aged packages.now) now log.old (map (half_in 0) halves.old) }
    ensures addressed { AllByRecursion (IsAddressed packages.now) (map (half_in 0) halves.old) }
    ensures count { length halves.new ≡ length halves.old }
{
    for half in halves.iter_mut() {
        grow(half, log, packages, now, outbox);
    }
}

/// The second and third parts of a tick, for all halves.
fn wait_all<'p>(
    halves: &mut [Half<Session>],
    log: &mut Sel,
    packages: &'p [Package<'p>],
    now: u32,
    outbox: &mut Outbox,
)
    requires { length outbox.old + 4 * length (flat_map (begin_messages packages.now) (map (half_in 0) halves.old)) ≤ 64 }
    ensures halves { map (half_in 0) halves.new ≡ map (session_half_after packages.now) (map (half_in 0) halves.old) }
    ensures sent { outbox.new ≡ outbox.old ++ flat_map (ended_packets packages.now) (map (half_in 0) halves.old) }
    ensures log { log.new ≡ log_after_part (session_half_idle packages.now) now log.old (map (half_in 0) halves.old) }
    ensures count { length halves.new ≡ length halves.old }
{
    for half in halves.iter_mut() {
        wait(half, log, packages, now, outbox);
    }
}

/// Restarts all halves.
fn restart_all(halves: &mut [Half<Session>])
    ensures { halves.new ≡ map half_restarted halves.old }
{
    for half in halves.iter_mut() {
        half.restart();
    }
}
