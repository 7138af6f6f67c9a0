//! Time-outs: the ticks without progress that they take.

ghost use Rattle.std.specs.Prelude.{◌≡◌, None, Some, false, if◌then◌else◌, true};
ghost use Rattle.fd_core.specs.Steps.{device_timeout, times_out as device_times_out};
ghost use Rattle.ua_core.specs.Calls.{agent_timeout, times_out as session_times_out};
ghost use Rattle.fw_message.specs.Pairs.{StepOf, step_without_entries, step_of};
ghost use Rattle.fw_message.specs.declared.side.Side.TheVariants as sides;

use crate::pair::Pair;
use fd_core::{Bank, Device, State};
use fw_package::Package;
use ua_core::{IDLE_LIMIT, Session};

impl<'a, B: Bank> Pair<'a, B> {
    /// The session's wait times out. False if the session doesn't wait.
    pub fn time_out_session(&mut self, packages: &'a [Package<'a>]) -> bool
        ensures step { step_of packages.now self.old.node.pair (StepOf.TimeOut sides.Agent)
            ≡ (if result then Some (step_without_entries self.new.node.pair) else None) }
        ensures same { result ≡ false → self.new ≡ self.old }
        ensures eid { self.new.node.eid ≡ self.old.node.eid }
        ensures faults { self.new.faults ≡ self.old.faults }
    {
        if self.session.state().is_free() {
            return false;
        }
        wait_for_session(&mut self.session);
        true
    }

    /// The device's wait times out. False if the device is idle.
    #[tactic(auto, using(fd_core::proofs::Components::timeout_components))]
    pub fn time_out_device(&mut self, packages: &'a [Package<'a>]) -> bool
        ensures step { step_of packages.now self.old.node.pair (StepOf.TimeOut sides.Device)
            ≡ (if result then Some (step_without_entries self.new.node.pair) else None) }
        ensures same { result ≡ false → self.new ≡ self.old }
        ensures eid { self.new.node.eid ≡ self.old.node.eid }
        ensures faults { self.new.faults ≡ self.old.faults }
    {
        if self.device.state() == State::Idle {
            return false;
        }
        wait_for_device(&mut self.device);
        true
    }
}

/// Ticks a session that waits until it times out.
fn wait_for_session(session: &mut Session)
    requires { session_times_out session.old.session.stage ≡ true }
    ensures { session.new.session ≡ agent_timeout session.old.session }
{
    for _ in 0..IDLE_LIMIT {
        session.idle_tick();
        if session.state().is_free() {
            return;
        }
    }
}

/// Ticks a device that isn't idle until it times out.
fn wait_for_device<B: Bank>(device: &mut Device<B>)
    requires { device_times_out device.old.device.phase ≡ true }
    ensures device { device.new.device ≡ device_timeout device.old.device }
    ensures faults { device.new.faults ≡ device.old.faults }
{
    for _ in 0..IDLE_LIMIT {
        device.idle_tick();
        if device.state() == State::Idle {
            return;
        }
    }
}
