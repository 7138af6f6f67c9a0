//! The world over whole messages: one cell a way, no tags and no time.

ghost use Rattle.std.specs.Prelude.{[], ◌≡◌, ◌≢◌, ◌<◌, ◌++◌, ◌∷◌, Err, IfErr, IfOk, IfSome, None, OnErr, OnOk, Ok, Some, false, length, map, option_map, true};
ghost use Rattle.fw_message.specs.BankCalls.{message_step_calls_bank};
ghost use Rattle.fw_message.specs.Entries.{entry_of};
ghost use Rattle.fw_message.specs.Nodes.{cell_in};
ghost use Rattle.fd_core.specs.Components.{HasComponents};
ghost use Rattle.fw_message.specs.Replays.{BankFailed, RefusesMessageStep, counted_restarted, place_at};
ghost use Rattle.fw_message.specs.WorldLaws.{IsOpeningMessageWorld, new_node};
ghost use Rattle.fw_message.specs.Worlds.{device_of, named_step, node_at, message_world_after};

use crate::cell::CellContent;
use crate::entry::Entry;
use crate::pair::Pair;
use crate::side::Way;
use crate::step::{MessageStep, MessageStepFault};
use fd_core::{Bank, Device};
use fw_package::Package;
use std::alloc::Global;
use std::marker::Model;
use ua_core::Session;

/// An agent, its packages, its devices with the agent's session for each, and the history.
#[derive(Drop)]
pub struct MessageWorld<'a, B: Bank + Drop> {
    /// The allocator of the steps.
    alloc: Global,
    /// The agent's endpoint identifier, which is none of the devices'.
    agent: u8,
    /// The packages that the operator may start updates with.
    packages: &'a [Package<'a>],
    /// The devices, each with its session and both cells.
    pairs: Vec<Pair<'a, B>>,
    /// The history, in order.
    history: Vec<Entry<'a>>,
}

impl<'a, B: Bank + Drop> Model for MessageWorld<'a, B> {
    ghost use Rattle.std.specs.Prelude.{◌≡◌, None, map};
    ghost use Rattle.fw_message.specs.Entries.{entry_of};
    ghost use Rattle.fw_message.specs.Replays.{CountedWorldOf};
    ghost use Rattle.fw_message.specs.Worlds.{node_at};

    ghost Value = { CountedWorldOf };

    ghost view = { λ w. record {
      world = record {
        agent = w.agent;
        packages = w.packages.now;
        nodes = map (λ p. p.node) w.pairs.items;
        history = map entry_of w.history.items;
      };
      faults = map (λ p. p.faults) w.pairs.items;
    } };

    ghost invariant = { λ w. node_at (map (λ p. p.node) w.pairs.items) w.agent ≡ None };
}

impl<'a, B: Bank + Drop> MessageWorld<'a, B> {
    /// Creates an agent with this endpoint identifier and these packages, numbered from 1, without
    /// devices. Later calls allocate from `alloc`.
    pub fn new(alloc: Global, agent: u8, packages: &'a [Package<'a>]) -> MessageWorld<'a, B>
        ensures world { result.world ≡ record { agent = agent; packages = packages.now; nodes = []; history = [] } }
        ensures faults { result.faults ≡ [] }
        ensures opens { IsOpeningMessageWorld result.world }
    {
        MessageWorld {
            alloc,
            agent,
            packages,
            pairs: Vec::new(alloc),
            history: Vec::new(alloc),
        }
    }

    /// Adds a device, which starts now, with a new session. The device has its bank's components.
    /// Its identifier must differ from the agent's and from those of the other devices.
    ///
    /// # Errors
    /// `Memory` if memory for it is refused. The world is unchanged then, and the device is
    /// dropped.
    pub fn add(&mut self, eid: u8, device: Device<B>) -> Result<(), MessageStepFault>
        requires device { HasComponents device.device }
        requires apart { eid ≢ self.old.world.agent }
        requires fresh { node_at self.old.world.nodes eid ≡ None }
        ensures nodes { OnOk result (self.new.world ≡ record self.old.world {
          nodes = self.old.world.nodes ++ new_node eid device.device ∷ [];
        }) }
        ensures faults { OnOk result (self.new.faults ≡ self.old.faults ++ device.faults ∷ []) }
        ensures opens { OnOk result (IsOpeningMessageWorld self.old.world → IsOpeningMessageWorld self.new.world) }
        ensures same { OnErr result (self.new ≡ self.old) }
        ensures memory { IfErr result (λ e. e ≡ MessageStepFault.Memory) }
    {
        let pair = Pair::new(self.alloc, eid, device);
        let Ok(()) = self.pairs.push(pair) else {
            return Err(MessageStepFault::Memory);
        };
        Ok(())
    }

    /// The agent's endpoint identifier, which is none of the devices'.
    pub fn agent(&self) -> u8
        ensures agent { result ≡ self.now.world.agent }
        ensures apart { node_at self.now.world.nodes result ≡ None }
    {
        self.agent
    }

    /// Returns a device.
    pub fn device(&self, eid: u8) -> Option<&Device<B>>
        ensures { option_map (λ d. d.now.device) result ≡ option_map (λ n. n.pair.device) (node_at self.now.world.nodes eid) }
    {
        let pair = pair_of(&self.pairs, eid)?;
        Some(pair.device())
    }

    /// Returns the agent's session for a device.
    pub fn session(&self, eid: u8) -> Option<&Session>
        ensures { option_map (λ s. s.now.session) result ≡ option_map (λ n. n.pair.session) (node_at self.now.world.nodes eid) }
    {
        let pair = pair_of(&self.pairs, eid)?;
        Some(pair.session())
    }

    /// Returns the content of the cell of a way of a device: the command that was asked, its answer
    /// after it was taken, and whether its asker still waits for it. `None` if the cell is empty,
    /// or there is no such device.
    pub fn cell(&self, eid: u8, way: Way) -> Option<&CellContent<'a>>
        ensures { option_map (λ h. h.now) result ≡ cell_in (node_at self.now.world.nodes eid) way }
    {
        let pair = pair_of(&self.pairs, eid)?;
        pair.cell(way)
    }

    /// The history, in order.
    pub fn history(&self) -> &[Entry<'a>]
        ensures { map entry_of result.now ≡ self.now.world.history }
    {
        self.history.as_slice()
    }

    /// Takes a step. Returns whether the bank worked.
    ///
    /// # Errors
    /// As for `message_replay`. The world is unchanged on an error.
    pub(crate) fn step(&mut self, step: MessageStep) -> Result<bool, MessageStepFault>
        ensures step { IfOk result (λ works. message_world_after self.old.world
            (named_step self.old.world.agent works step) ≡ Some self.new.world) }
        ensures worked { result ≡ Ok true → self.new.faults ≡ self.old.faults }
        ensures failed { result ≡ Ok false → BankFailed self.old self.new (device_of step) }
        ensures called { result ≡ Ok false → message_step_calls_bank self.old.world step ≡ true }
        ensures refused { IfErr result (λ e. RefusesMessageStep self.old.world step e) }
        ensures same { OnErr result (self.new ≡ self.old) }
    {
        if step.restarts(self.agent) {
            restart_each(self.pairs.as_mut_slice(), self.packages);
            return Ok(true);
        }
        let Some(place) = place_of(&self.pairs, step.device()) else {
            return Err(MessageStepFault::NoSuchNode);
        };
        let pair = &mut self.pairs[place];
        let works = match pair.step(self.alloc, self.packages, step, &mut self.history) {
            Ok(works) => works,
            Err(fault) => return Err(fault),
        };
        Ok(works)
    }
}

/// Returns the place of the device with this identifier.
fn place_of<B: Bank>(pairs: &[Pair<'_, B>], eid: u8) -> Option<usize>
    ensures place { result ≡ place_at (map (λ p. p.node) pairs.now) eid }
    ensures within { IfSome result (λ place. place < length pairs.now) }
{
    for (place, pair) in pairs.iter().enumerate() {
        if pair.eid() == eid {
            return Some(place);
        }
    }
    None
}

/// Returns the pair with this identifier.
#[tactic(auto, using(crate::proofs::Finding::found_at, crate::proofs::Finding::not_found))]
fn pair_of<'p, 'a, B: Bank>(pairs: &'p [Pair<'a, B>], eid: u8) -> Option<&'p Pair<'a, B>>
    ensures { option_map (λ p. p.now.node) result ≡ node_at (map (λ p. p.node) pairs.now) eid }
{
    let Some(place) = place_of(pairs, eid) else {
        return None;
    };
    Some(&pairs[place])
}

/// Restarts the agent, and so each of its sessions.
fn restart_each<'a, B: Bank>(pairs: &mut [Pair<'a, B>], packages: &'a [Package<'a>])
    ensures { pairs.new ≡ map (counted_restarted packages.now) pairs.old }
{
    for pair in pairs.iter_mut() {
        pair.restart(packages);
    }
}
