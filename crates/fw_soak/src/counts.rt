//! The counts of a run.

ghost use Rattle.std.specs.Prelude.{◌≡◌, ◌+◌, IfOk, false, filter, length, map, not, option_map, replicate, true};
ghost use Rattle.fw_message.specs.Entries.{entry_of};
ghost use Rattle.fw_soak.specs.Counts.{activations_in, capped_count, ends_if, greater, longest_in, losses_in, marked_along, marked_by, no_update, restarts_in, starts_if, update_after, update_along};

use fd_core::Bank;
use fw_message::{Entry, HistoryEvent};
use fw_world::{Step, World};
use std::alloc::{AllocError, Global};

/// The number of images that devices activated.
pub(crate) fn activations(history: &[Entry<'_>]) -> usize
    ensures { result ≡ activations_in (map entry_of history.now) }
{
    let mut count = 0;
    for entry in history {
        if let HistoryEvent::Activated(_) = &entry.event {
            count += 1;
        }
    }
    count
}

/// The number of restarts of nodes.
pub(crate) fn restarts(steps: &[Step]) -> usize
    ensures { result ≡ restarts_in steps.now }
{
    let mut count = 0;
    for step in steps {
        if let Step::Restart(_) = step {
            count += 1;
        }
    }
    count
}

/// Marks the packet of a device that a step delivers, if any.
#[tactic(auto, using(crate::proofs::Counting::unmarked_past))]
fn mark(marks: &mut [bool], device: u8, step: &Step)
    ensures { marks.new ≡ marked_by device marks.old step.now }
{
    let Step::Deliver(pair, number, _) = step else {
        return;
    };
    if *pair != device || *number == 0 {
        return;
    }
    let place = *number - 1;
    if place < marks.len() {
        marks[place] = true;
    }
}

/// Marks the packets of a device that the steps deliver.
fn mark_all(marks: &mut [bool], device: u8, steps: &[Step])
    ensures { marks.new ≡ marked_along device marks.old steps.now }
{
    for step in steps {
        mark(marks, device, step);
    }
}

/// The number of unmarked packets.
fn unmarked(marks: &[bool]) -> usize
    ensures { result ≡ length (filter not marks.now) }
{
    let mut count = 0;
    for mark in marks {
        if !*mark {
            count += 1;
        }
    }
    count
}

/// The number of the device's `packets` packets that no step delivers.
fn lost(alloc: Global, steps: &[Step], device: u8, packets: usize) -> Result<usize, AllocError>
    ensures { IfOk result (λ lost. lost ≡ length (filter not (marked_along device (replicate packets false) steps.now))) }
{
    let mut marks = Vec::new(alloc);
    marks.resize(packets, false)?;
    mark_all(marks.as_mut_slice(), device, steps);
    Ok(unmarked(marks.as_slice()))
}

/// The number of packets that were never delivered in a run of the steps to the world. The count
/// stops at 2^64 - 1.
///
/// # Errors
/// `AllocError` if memory is refused.
#[tactic(auto, using(crate::proofs::Counting::counting))]
pub(crate) fn losses<B: Bank + Drop>(
    alloc: Global,
    world: &World<'_, B>,
    steps: &[Step],
) -> Result<u64, AllocError>
    ensures { IfOk result (λ losses. losses ≡ capped_count (losses_in (record { steps = steps.now; world = world.now }))) }
{
    let mut losses: u64 = 0;
    for place in 0..world.device_count() {
        let Some(node) = world.device_at(place) else {
            unreachable!()
        };
        let Some(packets) = world.packets_at(place) else {
            unreachable!()
        };
        let lost = lost(alloc, steps, node.eid(), packets.len())?;
        losses = losses.saturating_add(lost as u64);
    }
    Ok(losses)
}

/// The current update of a device, and the longest of those that ended.
#[derive(Clone, Copy)]
pub(crate) struct SoakUpdate {
    /// The ticks since the update's start, if one is running.
    since: Option<u64>,
    /// The duration of the longest update in ticks.
    longest: u64,
}

impl SoakUpdate {
    /// Starts an update.
    fn start(&mut self)
        ensures { self.new ≡ starts_if true self.old }
    {
        self.since = Some(0);
    }

    /// Ends the update.
    fn end(&mut self)
        ensures { self.new ≡ ends_if true self.old }
    {
        if let Some(since) = self.since {
            if self.longest < since {
                self.longest = since;
            }
        }
        self.since = None;
    }

    /// Counts a tick.
    fn tick(&mut self)
        ensures since { self.new.since ≡ option_map (λ t. capped_count (t + 1)) self.old.since }
        ensures longest { self.new.longest ≡ self.old.longest }
    {
        if let Some(since) = self.since {
            self.since = Some(since.saturating_add(1));
        }
    }

    /// Applies a step of the run.
    fn follow(&mut self, device: u8, step: &Step)
        ensures { self.new ≡ update_after device self.old step.now }
    {
        match step {
            Step::Start(eid, _) if *eid == device => self.start(),
            Step::Activate(eid) if *eid == device => self.end(),
            Step::Tick(_) => self.tick(),
            _ => {}
        }
    }
}

/// The duration of a device's longest update in ticks.
fn longest_of(steps: &[Step], device: u8) -> u64
    ensures { result ≡ (update_along device no_update steps.now).longest }
{
    let mut update = SoakUpdate {
        since: None,
        longest: 0,
    };
    for step in steps {
        update.follow(device, step);
    }
    update.longest
}

/// The greater of two numbers.
fn greater(one: u64, other: u64) -> u64
    ensures { result ≡ greater one other }
{
    if one < other { other } else { one }
}

/// The duration of the longest update in a run of the steps to the world, in ticks.
#[tactic(auto, using(crate::proofs::Counting::counting))]
pub(crate) fn longest<B: Bank + Drop>(world: &World<'_, B>, steps: &[Step]) -> u64
    ensures { result ≡ longest_in (record { steps = steps.now; world = world.now }) }
{
    let mut longest = 0;
    for place in 0..world.device_count() {
        let Some(node) = world.device_at(place) else {
            unreachable!()
        };
        longest = greater(longest, longest_of(steps, node.eid()));
    }
    longest
}
