//! The turns of a run, with every kind of fault.

ghost use Rattle.std.specs.Prelude.{◌≡◌, ◌<◌, IfOk, IfSome, OnOk, is_some, length, map, min, slice_get};
ghost use Rattle.fw_edge.specs.Drives.{all_over, is_over};
ghost use Rattle.fw_edge.specs.Fates.{word_after};
ghost use Rattle.fw_edge.specs.Turns.{activation_for, awaited_by, due_at};
ghost use Rattle.fw_node.specs.Agents.{half_for, ready_for};
ghost use Rattle.fw_script.specs.Seen.{device_of};
ghost use Rattle.fw_script.specs.Whole.{AreWhole};
ghost use Rattle.fw_steps.specs.Worlds.{full_tick};
ghost use Rattle.fw_soak.specs.Chances.{drawn_package};
ghost use Rattle.fw_soak.specs.Courses.{ContinuesRun, IsCourse, TriesStep};
ghost use Rattle.fw_soak.specs.Looks.{bad_for, generator_after_verdict, is_idle_at, is_idle_half, verdict_at};
ghost use Rattle.fw_soak.specs.Setups.{setup_of};
ghost use Rattle.fw_soak.specs.Turns.{Attends, AttendsOne, GoesOnOver, IsSoakRun, RepeatsTurns, Starts, StartsIdle, StartsIdleOne, StartsOne, StartsSome, TakesSoakTurn, TakesTurnsIf, TriesIf, TurnsIf, UpsetsComing, UpsetsOne, cancel_at, drawn_run, generator_after_kind, restart_at, soaking, upset_step, upsets_left, upsetting};

use crate::chances::Chances;
use crate::course::SoakCourse;
use crate::decisions::{Upset, Upsets, package_drawn, upset_drawn, verdict_drawn};
use crate::setup::Setup;
use crate::traffic::Traffic;
use fd_core::{Device, FailBank, Verdict};
use fw_message::awaits;
use fw_package::Package;
use fw_world::{Missed, Step, World};
use fwupd_base::Roughness;
use std::alloc::{AllocError, Global};
use ua_core::SessionState;

/// The most turns of a run; three images of the largest size take about 66,000.
const TURNS: u32 = 80_000;

/// The average number of turns until the operator restarts an update that a restarted agent has
/// forgotten.
const PAUSE: u32 = 8;

/// Whether the session with a device is idle.
fn is_idle(world: &World<'_, FailBank>, device: u8) -> bool
    ensures { result ≡ is_idle_half (half_for world.now.agent device) }
{
    match world.agent().session(device) {
        Some(session) => matches!(session.state(), SessionState::Idle),
        None => false,
    }
}

/// Whether the session with the device at `place` is idle.
fn is_idle_at(world: &World<'_, FailBank>, place: usize) -> bool
    ensures { result ≡ is_idle_at world.now (slice_get world.now.sites place) }
{
    let Some(node) = world.device_at(place) else {
        return false;
    };
    is_idle(world, node.eid())
}

/// Whether the session with a device is Done or Failed, or there is none.
fn is_over(world: &World<'_, FailBank>, device: u8) -> bool
    ensures { result ≡ is_over (half_for world.now.agent device) }
{
    match world.agent().session(device) {
        Some(session) => matches!(
            session.state(),
            SessionState::Done | SessionState::Failed(_)
        ),
        None => true,
    }
}

/// Whether each session is Done or Failed.
fn all_over(world: &World<'_, FailBank>) -> bool
    ensures { result ≡ all_over world.now }
{
    for place in 0..world.device_count() {
        let Some(node) = world.device_at(place) else {
            return true;
        };
        if !is_over(world, node.eid()) {
            return false;
        }
    }
    true
}

/// Starts the update of the device at `place` with a random package, if the session is free.
#[tactic(auto, using(crate::proofs::Coursing::going))]
fn start(
    course: &mut SoakCourse<'_>,
    place: usize,
    packages: u32,
    chances: &mut Chances,
) -> Result<(), AllocError>
    requires { 0 < packages }
    ensures goes { ContinuesRun course.old course.new }
    ensures started { OnOk result (IfSome (slice_get course.old.world.sites place) (λ x. TriesStep
        (Step.Start x.node.endpoint.eid (drawn_package packages chances.old.generator)) course.old
        course.new)) }
    ensures starts { OnOk result (Starts packages place (drawn_run course.old chances.old)
        (drawn_run course.new chances.new)) }
    ensures after { chances.new.generator ≡ word_after chances.old.generator }
{
    let number = package_drawn(chances, packages);
    let Some(node) = course.world().device_at(place) else {
        return Ok(());
    };
    let start = Step::Start(node.eid(), number);
    match course.take(start) {
        Ok(_) => Ok(()),
        Err(fault) => Err(fault),
    }
}

/// Starts the update of the device at `place` with a probability of 1 in `times`.
#[tactic(auto, using(crate::proofs::Coursing::going))]
fn start_one(
    course: &mut SoakCourse<'_>,
    place: usize,
    packages: u32,
    times: u32,
    chances: &mut Chances,
) -> Result<(), AllocError>
    requires some { 0 < packages }
    requires times { 0 < times }
    ensures goes { ContinuesRun course.old course.new }
    ensures starts { OnOk result (StartsOne packages times place (drawn_run course.old chances.old)
        (drawn_run course.new chances.new)) }
{
    if !chances.one_in(times) {
        return Ok(());
    }
    start(course, place, packages, chances)
}

/// Starts the update of each device, each with a probability of 1 in `times`.
#[tactic(auto, using(crate::proofs::Coursing::going))]
fn start_some(
    course: &mut SoakCourse<'_>,
    packages: u32,
    times: u32,
    chances: &mut Chances,
) -> Result<(), AllocError>
    requires some { 0 < packages }
    requires times { 0 < times }
    ensures goes { ContinuesRun course.old course.new }
    ensures starts { OnOk result (StartsSome packages times (drawn_run course.old chances.old)
        (drawn_run course.new chances.new)) }
{
    for place in 0..course.world().device_count() {
        match start_one(course, place, packages, times, chances) {
            Ok(()) => {}
            Err(fault) => return Err(fault),
        }
    }
    Ok(())
}

/// Starts the update of the device at `place` with a probability of 1 in `PAUSE`, if its session is
/// idle.
#[tactic(auto, using(crate::proofs::Coursing::going))]
fn start_idle_one(
    course: &mut SoakCourse<'_>,
    place: usize,
    packages: u32,
    chances: &mut Chances,
) -> Result<(), AllocError>
    requires { 0 < packages }
    ensures goes { ContinuesRun course.old course.new }
    ensures starts { OnOk result (StartsIdleOne packages place (drawn_run course.old chances.old)
        (drawn_run course.new chances.new)) }
{
    if !is_idle_at(course.world(), place) {
        return Ok(());
    }
    start_one(course, place, packages, PAUSE, chances)
}

/// Starts each update that a restarted agent has forgotten, each with a probability of 1 in
/// `PAUSE`.
#[tactic(auto, using(crate::proofs::Coursing::going))]
fn start_idle(
    course: &mut SoakCourse<'_>,
    packages: u32,
    chances: &mut Chances,
) -> Result<(), AllocError>
    requires { 0 < packages }
    ensures goes { ContinuesRun course.old course.new }
    ensures starts { OnOk result (StartsIdle packages (drawn_run course.old chances.old)
        (drawn_run course.new chances.new)) }
{
    for place in 0..course.world().device_count() {
        match start_idle_one(course, place, packages, chances) {
            Ok(()) => {}
            Err(fault) => return Err(fault),
        }
    }
    Ok(())
}

/// The verdict that a device waits for, as a success.
fn awaited(device: &Device<FailBank>) -> Option<Verdict>
    ensures { result ≡ awaited_by device.now.device }
{
    if awaits(device, Verdict::VerifyOk) {
        return Some(Verdict::VerifyOk);
    }
    if awaits(device, Verdict::ApplyOk) {
        return Some(Verdict::ApplyOk);
    }
    None
}

/// The failure in place of a success.
fn bad_for(good: Verdict) -> Verdict
    ensures { result ≡ bad_for good }
{
    match good {
        Verdict::VerifyOk => Verdict::VerifyFail,
        Verdict::ApplyOk => Verdict::ApplyFail,
        other => other,
    }
}

/// The verdict that the device at `place` waits for; most are successes.
fn verdict_at(world: &World<'_, FailBank>, place: usize, chances: &mut Chances) -> Option<Step>
    ensures value { result ≡ verdict_at (slice_get world.now.sites place) chances.old.generator }
    ensures after { chances.new.generator
        ≡ generator_after_verdict (slice_get world.now.sites place) chances.old.generator }
{
    let Some(node) = world.device_at(place) else {
        return None;
    };
    let Some(good) = awaited(node.device()) else {
        return None;
    };
    let verdict = verdict_drawn(chances, good, bad_for(good));
    Some(Step::Verdict(node.eid(), verdict))
}

/// Whether the session with a device waits for the operator's activation.
fn is_ready(world: &World<'_, FailBank>, device: u8) -> bool
    ensures { result ≡ is_some (ready_for world.now.agent device) }
{
    match world.agent().session(device) {
        Some(session) => session.state() == SessionState::AllApplied,
        None => false,
    }
}

/// The activation that the session with the device at `place` waits for.
fn activation_at(world: &World<'_, FailBank>, place: usize) -> Option<Step>
    ensures { result ≡ due_at activation_for world.now (slice_get world.now.sites place) }
{
    let Some(node) = world.device_at(place) else {
        return None;
    };
    let device = node.eid();
    if !is_ready(world, device) {
        return None;
    }
    Some(Step::Activate(device))
}

/// Takes a step, if there is one and it is allowed.
#[tactic(auto, using(crate::proofs::Coursing::going))]
fn take_if(course: &mut SoakCourse<'_>, step: Option<Step>) -> Result<(), AllocError>
    ensures goes { ContinuesRun course.old course.new }
    ensures tried { OnOk result (TriesIf step course.old course.new) }
{
    let Some(step) = step else {
        return Ok(());
    };
    match course.take(step) {
        Ok(_) => Ok(()),
        Err(fault) => Err(fault),
    }
}

/// Gives the device at `place` the verdict that it waits for.
#[tactic(auto, using(crate::proofs::Coursing::going))]
fn judge(course: &mut SoakCourse<'_>, place: usize, chances: &mut Chances) -> Result<(), AllocError>
    ensures goes { ContinuesRun course.old course.new }
    ensures verdict { OnOk result (TriesIf (verdict_at (slice_get course.old.world.sites place)
        chances.old.generator) course.old course.new) }
    ensures after { chances.new.generator
        ≡ generator_after_verdict (slice_get course.old.world.sites place) chances.old.generator }
{
    let verdict = verdict_at(course.world(), place, chances);
    take_if(course, verdict)
}

/// Activates the session with the device at `place`, if it waits for that.
#[tactic(auto, using(crate::proofs::Coursing::going))]
fn activate(course: &mut SoakCourse<'_>, place: usize) -> Result<(), AllocError>
    ensures goes { ContinuesRun course.old course.new }
    ensures activation { OnOk result (TriesIf (due_at activation_for course.old.world
        (slice_get course.old.world.sites place)) course.old course.new) }
{
    let activation = activation_at(course.world(), place);
    take_if(course, activation)
}

/// Gives the device at `place` its verdict, and then activates its session, if they wait for that.
#[tactic(auto, using(crate::proofs::Coursing::going))]
fn attend_one(
    course: &mut SoakCourse<'_>,
    place: usize,
    chances: &mut Chances,
) -> Result<(), AllocError>
    ensures goes { ContinuesRun course.old course.new }
    ensures attends { OnOk result (AttendsOne place (drawn_run course.old chances.old)
        (drawn_run course.new chances.new)) }
{
    match judge(course, place, chances) {
        Ok(()) => {}
        Err(fault) => return Err(fault),
    }
    match activate(course, place) {
        Ok(()) => {}
        Err(fault) => return Err(fault),
    }
    Ok(())
}

/// Gives each waiting device its verdict, and activates each waiting session.
#[tactic(auto, using(crate::proofs::Coursing::going))]
fn attend(course: &mut SoakCourse<'_>, chances: &mut Chances) -> Result<(), AllocError>
    ensures goes { ContinuesRun course.old course.new }
    ensures attends { OnOk result (Attends (drawn_run course.old chances.old)
        (drawn_run course.new chances.new)) }
{
    for place in 0..course.world().device_count() {
        match attend_one(course, place, chances) {
            Ok(()) => {}
            Err(fault) => return Err(fault),
        }
    }
    Ok(())
}

/// The restart of the device at `place`.
fn restart_at(world: &World<'_, FailBank>, place: usize) -> Option<Step>
    ensures { result ≡ restart_at (slice_get world.now.sites place) }
{
    let Some(node) = world.device_at(place) else {
        return None;
    };
    Some(Step::Restart(node.eid()))
}

/// The end of the update of the device at `place`.
fn cancel_at(world: &World<'_, FailBank>, place: usize) -> Option<Step>
    ensures { result ≡ cancel_at (slice_get world.now.sites place) }
{
    let Some(node) = world.device_at(place) else {
        return None;
    };
    Some(Step::Cancel(node.eid()))
}

/// Restarts the agent or the device at `place`, cancels its update, or repeats one of its packets.
#[tactic(auto, using(crate::proofs::Coursing::going))]
fn upset_by(
    course: &mut SoakCourse<'_>,
    traffic: &Traffic,
    place: usize,
    kind: Upset,
    chances: &mut Chances,
) -> Result<(), AllocError>
    ensures goes { ContinuesRun course.old course.new }
    ensures tried { OnOk result (TriesIf (upset_step kind course.old.world place
        (slice_get traffic.now.met.items place) chances.old.generator) course.old course.new) }
    ensures after { OnOk result (chances.new.generator
        ≡ generator_after_kind kind (slice_get traffic.now.met.items place) chances.old.generator) }
{
    let step = match kind {
        Upset::RestartAgent => Some(Step::Restart(course.world().agent().eid())),
        Upset::RestartDevice => restart_at(course.world(), place),
        Upset::Cancel => cancel_at(course.world(), place),
        Upset::Repeat => return traffic.repeat(course, place, chances),
    };
    take_if(course, step)
}

/// Has an upset of a random kind occur at a random place.
#[tactic(auto, using(crate::proofs::Coursing::going))]
fn upset(
    course: &mut SoakCourse<'_>,
    traffic: &Traffic,
    chances: &mut Chances,
) -> Result<(), AllocError>
    ensures goes { ContinuesRun course.old course.new }
    ensures upset { OnOk result (UpsetsOne traffic.now.met.items (drawn_run course.old chances.old)
        (drawn_run course.new chances.new)) }
{
    let place = chances.below(16) as usize % course.world().device_count();
    let kind = upset_drawn(chances);
    match upset_by(course, traffic, place, kind, chances) {
        Ok(()) => {}
        Err(fault) => return Err(fault),
    }
    Ok(())
}

/// Has an upset occur, if it comes in this turn.
#[tactic(auto, using(crate::proofs::Coursing::going))]
fn upset_if(
    course: &mut SoakCourse<'_>,
    traffic: &Traffic,
    upsets: &mut Upsets,
    chances: &mut Chances,
) -> Result<(), AllocError>
    ensures goes { ContinuesRun course.old course.new }
    ensures left { upsets.new.left ≡ upsets_left upsets.old chances.old.generator }
    ensures among { upsets.new.among ≡ upsets.old.among }
    ensures upset { OnOk result (UpsetsComing upsets.old traffic.now.met.items
        (drawn_run course.old chances.old) (drawn_run course.new chances.new)) }
{
    if !upsets.comes(chances) {
        return Ok(());
    }
    upset(course, traffic, chances)
}

/// Takes a tick, which all nodes count.
#[tactic(auto, using(crate::proofs::Coursing::going))]
fn tick(course: &mut SoakCourse<'_>) -> Result<(), AllocError>
    ensures goes { ContinuesRun course.old course.new }
    ensures tried { OnOk result (TriesStep full_tick course.old course.new) }
{
    match course.take(Step::Tick(Missed::new())) {
        Ok(_) => Ok(()),
        Err(fault) => Err(fault),
    }
}

/// A turn: a tick, packets, verdicts and activations, and at random an upset.
#[tactic(auto, using(crate::proofs::Coursing::going))]
fn turn(
    course: &mut SoakCourse<'_>,
    traffic: &mut Traffic,
    upsets: &mut Upsets,
    chances: &mut Chances,
) -> Result<(), AllocError>
    ensures goes { ContinuesRun course.old course.new }
    ensures turn { OnOk result (TakesSoakTurn (upsetting upsets.old course.old traffic.old chances.old)
        (upsetting upsets.new course.new traffic.new chances.new)) }
{
    match tick(course) {
        Ok(()) => {}
        Err(fault) => return Err(fault),
    }
    match traffic.exchange(course, chances) {
        Ok(()) => {}
        Err(fault) => return Err(fault),
    }
    match attend(course, chances) {
        Ok(()) => {}
        Err(fault) => return Err(fault),
    }
    match upset_if(course, traffic, upsets, chances) {
        Ok(()) => {}
        Err(fault) => return Err(fault),
    }
    Ok(())
}

/// Whether the run goes on. If each session is Done or Failed, it ends with a probability of 1 in
/// 2, or else each device is started with a probability of 1 in 2.
#[tactic(auto, using(crate::proofs::Coursing::going))]
fn go_on(
    course: &mut SoakCourse<'_>,
    packages: u32,
    chances: &mut Chances,
) -> Result<bool, AllocError>
    requires { 0 < packages }
    ensures goes { ContinuesRun course.old course.new }
    ensures on { IfOk result (λ on. GoesOnOver packages on (drawn_run course.old chances.old)
        (drawn_run course.new chances.new)) }
{
    if !all_over(course.world()) {
        return Ok(true);
    }
    if chances.one_in(2) {
        return Ok(false);
    }
    match start_some(course, packages, 2, chances) {
        Ok(()) => Ok(true),
        Err(fault) => Err(fault),
    }
}

/// Takes the next turn, if the run goes on. Returns whether it does.
#[tactic(auto, using(crate::proofs::Coursing::going))]
fn next_turn(
    course: &mut SoakCourse<'_>,
    traffic: &mut Traffic,
    packages: u32,
    upsets: &mut Upsets,
    chances: &mut Chances,
) -> Result<bool, AllocError>
    requires { 0 < packages }
    ensures goes { ContinuesRun course.old course.new }
    ensures next { IfOk result (λ on. TurnsIf on packages
        (upsetting upsets.old course.old traffic.old chances.old)
        (upsetting upsets.new course.new traffic.new chances.new)) }
{
    match go_on(course, packages, chances) {
        Ok(true) => {}
        Ok(false) => return Ok(false),
        Err(fault) => return Err(fault),
    }
    match start_idle(course, packages, chances) {
        Ok(()) => {}
        Err(fault) => return Err(fault),
    }
    match turn(course, traffic, upsets, chances) {
        Ok(()) => {}
        Err(fault) => return Err(fault),
    }
    Ok(true)
}

/// Takes turns until the run ends, at most `TURNS`.
#[tactic(auto, using(crate::proofs::Coursing::going))]
fn repeat_turns(
    course: &mut SoakCourse<'_>,
    traffic: &mut Traffic,
    packages: u32,
    upsets: &mut Upsets,
    chances: &mut Chances,
) -> Result<(), AllocError>
    requires { 0 < packages }
    ensures goes { ContinuesRun course.old course.new }
    ensures turns { OnOk result (RepeatsTurns packages
        (upsetting upsets.old course.old traffic.old chances.old)
        (upsetting upsets.new course.new traffic.new chances.new)) }
{
    for count in 0..TURNS {
        match next_turn(course, traffic, packages, upsets, chances) {
            Ok(true) => {}
            Ok(false) => return Ok(()),
            Err(fault) => return Err(fault),
        }
    }
    Ok(())
}

/// Starts each device, and takes turns until each session is Done or Failed and the operator starts
/// no more, at most `TURNS`. Without a package it takes none.
#[tactic(auto, using(crate::proofs::Coursing::going))]
fn take_turns(
    course: &mut SoakCourse<'_>,
    traffic: &mut Traffic,
    packages: u32,
    chances: &mut Chances,
) -> Result<(), AllocError>
    ensures goes { ContinuesRun course.old course.new }
    ensures turns { OnOk result (TakesTurnsIf packages (soaking course.old traffic.old chances.old)
        (soaking course.new traffic.new chances.new)) }
{
    if packages == 0 {
        return Ok(());
    }
    let mut upsets = Upsets::new(chances);
    match start_some(course, packages, 1, chances) {
        Ok(()) => {}
        Err(fault) => return Err(fault),
    }
    match repeat_turns(course, traffic, packages, &mut upsets, chances) {
        Ok(()) => {}
        Err(fault) => return Err(fault),
    }
    Ok(())
}

/// The number of packages that a run may draw.
fn package_count(packages: &[Package<'_>]) -> u32
    ensures { result ≡ min (length packages.now) 255 }
{
    packages.len().min(255) as u32
}

/// Makes a run of a setup over rough links. The seed and the run's number determine all random
/// numbers.
///
/// # Errors
/// `AllocError` if memory is refused.
#[tactic(auto, using(crate::proofs::Coursing::goes_from))]
pub(crate) fn run<'a>(
    alloc: Global,
    setup: &Setup<'a>,
    roughness: Roughness,
    number: u32,
) -> Result<SoakCourse<'a>, AllocError>
    requires { AreWhole setup.now.agent.eid (map device_of setup.now.devices.now) }
    ensures course { IfOk result (IsCourse (setup_of setup.now)) }
    ensures run { IfOk result (IsSoakRun (setup_of setup.now) roughness number) }
{
    let mut chances = Chances::new(roughness.seed, u64::from(number));
    let mut course = SoakCourse::begin(alloc, setup, &mut chances)?;
    let mut traffic = Traffic::new(alloc, roughness, setup.devices.len())?;
    let packages = package_count(setup.packages);
    match take_turns(&mut course, &mut traffic, packages, &mut chances) {
        Ok(()) => {}
        Err(fault) => return Err(fault),
    }
    Ok(course)
}
