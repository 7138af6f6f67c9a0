//! The core of a half: the agent's session with a device, or a device itself.

ghost use Rattle.std.specs.Prelude.{◌≡◌, IfSome, None, false, not, option_map, true, ℕ};
ghost use Rattle.std.specs.Result.{result_map_both};
ghost use Rattle.fd_core.specs.Banks.{CountsFailure};
ghost use Rattle.fd_core.specs.Wishes.{has_failed};
ghost use Rattle.fwup_wire.specs.Answers.{answer_bytes};
ghost use Rattle.fwup_wire.specs.Commands.{CommandRoundTrips};
ghost use Rattle.fwup_wire.specs.Lent.{answer_of, command_of};
ghost use Rattle.ua_core.specs.Calls.{agent_restart};
ghost use Rattle.ua_core.specs.Session.{TimedOf};
ghost use Rattle.fw_node.specs.Cores.{TimedDevice, device_core, session_core, timed_device};
ghost use Rattle.fw_node.specs.Halves.{CoreOf};

use fd_core::{Bank, Device, Progress, State};
use fw_package::Package;
use fwup_wire::{Answer, Command, Malformed, is_asked_of_agent};
use pldm_base::Reply;
use pldm_base::completion::ERROR;
use ua_core::{Lent, Session, SessionState};

/// A core: it has a pending command, answers the peer's commands, and handles the answers to its
/// own. Its calls get the data that they read: the agent's packages, or nothing.
///
/// A call of its bank may fail, if it has one. `take` and `learn` return whether the call
/// succeeded: false only if they called the bank.
pub(crate) trait Core<'p> {
    /// The data that its calls get.
    type Given: Copy;

    ghost Seen: { Type 0 };

    ghost seen: { Self → Seen };

    ghost does: { Self.Given → CoreOf Seen };

    ghost faults: { Self → ℕ };

    /// Returns the pending command, if there is one.
    fn wish(&self, given: Self::Given) -> Option<Command<'p>>
        ensures wish { option_map command_of result ≡ (does given).wish (seen self.now) }
        ensures spoken { IfSome ((does given).wish (seen self.now)) CommandRoundTrips };

    /// Whether a command may be pending: if not, `wish` returns none. It is asked before `wish`,
    /// which makes room for a command.
    fn may_wish(&self, given: Self::Given) -> bool
        ensures { result ≡ false → (does given).wish (seen self.now) ≡ None };

    /// Whether it answers commands of this code.
    fn serves(&self, given: Self::Given, command: u8) -> bool
        ensures { result ≡ (does given).serves command };

    /// Takes a command. Returns the reply, and whether its bank worked. `quiet` says that it has no
    /// request of its own in progress.
    fn take(&mut self, given: Self::Given, command: &Command<'_>, quiet: bool) -> (Reply, bool)
        ensures core { seen self.new ≡ ((does given).take (seen self.old) (command_of command.now) quiet result.1).core }
        ensures reply { result.0.items
            ≡ answer_bytes ((does given).take (seen self.old) (command_of command.now) quiet
            result.1).answer }
        ensures worked { result.1 ≡ true → faults self.new ≡ faults self.old }
        ensures failed { result.1 ≡ false → CountsFailure (faults self.old) (faults self.new) }
        ensures called { result.1 ≡ false → (does given).take_calls_bank (seen self.old) (command_of command.now) quiet ≡ true };

    /// Handles the answer to the pending command. Returns whether its bank worked.
    fn learn(&mut self, given: Self::Given, answer: Result<&Answer<'_>, Malformed>) -> bool
        ensures core { seen self.new
            ≡ (does given).learn (seen self.old) (result_map_both (λ a. answer_of a.now) (λ e. e)
            answer.entry) result }
        ensures worked { result ≡ true → faults self.new ≡ faults self.old }
        ensures failed { result ≡ false → CountsFailure (faults self.old) (faults self.new) }
        ensures called { result ≡ false
            → (does given).learn_calls_bank (seen self.old) (result_map_both (λ a. answer_of a.now) (λ e. e) answer.entry) ≡ true };

    /// Handles that its request was given up.
    fn silent(&mut self, given: Self::Given)
        ensures core { seen self.new ≡ (does given).silent (seen self.old) }
        ensures faults { faults self.new ≡ faults self.old };

    /// Handles a tick.
    fn tick(&mut self, given: Self::Given)
        ensures core { seen self.new ≡ (does given).ticked (seen self.old) }
        ensures faults { faults self.new ≡ faults self.old };

    /// Restarts.
    fn restart(&mut self)
        ensures core { (given : Self.Given) → seen self.new ≡ (does given).restarted (seen self.old) }
        ensures faults { faults self.new ≡ faults self.old };
}

/// A session gets the packages that the operator may start updates with.
impl<'p> Core<'p> for Session {
    type Given = &'p [Package<'p>];

    ghost Seen = { TimedOf };

    ghost seen = { λ s. s };

    ghost does = { λ packages. session_core packages.now };

    ghost faults = { λ s. 0 };

    fn wish(&self, packages: &'p [Package<'p>]) -> Option<Command<'p>> {
        self.wish(&Lent::of(packages, self.package()))
    }

    fn may_wish(&self, _: &'p [Package<'p>]) -> bool {
        !matches!(
            self.state(),
            SessionState::Idle
                | SessionState::Download
                | SessionState::Verify
                | SessionState::Apply
                | SessionState::AllApplied
                | SessionState::Done
                | SessionState::Failed(_)
        )
    }

    fn serves(&self, _: &'p [Package<'p>], command: u8) -> bool {
        is_asked_of_agent(command)
    }

    fn take(
        &mut self,
        packages: &'p [Package<'p>],
        command: &Command<'_>,
        _: bool,
    ) -> (Reply, bool) {
        let lent = Lent::of(packages, self.package());
        (self.take(command, &lent), true)
    }

    fn learn(
        &mut self,
        packages: &'p [Package<'p>],
        answer: Result<&Answer<'_>, Malformed>,
    ) -> bool {
        let lent = Lent::of(packages, self.package());
        self.learn(answer, &lent);
        true
    }

    fn silent(&mut self, _: &'p [Package<'p>]) {
        self.silent();
    }

    fn tick(&mut self, _: &'p [Package<'p>]) {
        self.idle_tick();
    }

    fn restart(&mut self)
        ensures core { self.new ≡ record { session = agent_restart self.old.session; idle = 0 } }
    {
        self.restart();
    }
}

/// A device gets nothing.
impl<'p, B: Bank> Core<'p> for Device<B> {
    type Given = ();

    ghost Seen = { TimedDevice };

    ghost seen = { timed_device };

    ghost does = { λ _. device_core };

    ghost faults = { λ d. d.faults };

    fn wish(&self, _: ()) -> Option<Command<'p>> {
        self.wish()
    }

    fn may_wish(&self, _: ()) -> bool {
        matches!(self.state(), State::Download | State::Verify | State::Apply)
    }

    fn serves(&self, _: (), command: u8) -> bool {
        !is_asked_of_agent(command)
    }

    #[tactic(auto, using(fd_core::proofs::BankCalls::bank_calls))]
    fn take(&mut self, _: (), command: &Command<'_>, quiet: bool) -> (Reply, bool) {
        let reply = self.take(command, quiet);
        let works = reply.first() != Some(&ERROR);
        (reply, works)
    }

    #[tactic(auto, using(crate::proofs::Working::working, fd_core::proofs::BankCalls::bank_calls))]
    fn learn(&mut self, _: (), answer: Result<&Answer<'_>, Malformed>) -> bool {
        let had_failed = has_failed(self);
        self.learn(answer);
        had_failed || !has_failed(self)
    }

    fn silent(&mut self, _: ()) {}

    fn tick(&mut self, _: ()) {
        self.idle_tick();
    }

    fn restart(&mut self) {
        self.restart();
    }
}

/// Whether the work of the device's state failed.
pub(crate) fn has_failed<B: Bank>(device: &Device<B>) -> bool
    ensures { result ≡ has_failed device.now.device.phase }
{
    matches!(device.progress(), Some(Progress::Failed { .. }))
}
