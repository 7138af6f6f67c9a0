//! Whether a step would add to the history, checked before it is taken.

ghost use Rattle.std.specs.Prelude.{◌≡◌, true};
ghost use Rattle.fw_message.specs.Nodes.{completes, follows_cell, may_take, waits};
ghost use Rattle.fw_message.specs.Pairs.{StepOf, adds_entries, step_of};
ghost use Rattle.ua_core.specs.Session.{state_of};

use crate::cell::CellContent;
use crate::pair::Pair;
use crate::verdicts::awaits;
use fd_core::{Bank, Device, Verdict};
use fw_package::Package;
use fwup_wire::Command;
use ua_core::{Session, SessionState};

impl<'a, B: Bank> Pair<'a, B> {
    /// Whether a Take by the device adds to the history, if its bank works: the agent's command
    /// waits to be taken, and the device activates by it.
    #[tactic(auto, using(crate::proofs::Growing::down_adds))]
    pub fn activates(&self, packages: &'a [Package<'a>], quiet: bool) -> bool
        ensures { result ≡ adds_entries (step_of packages.now self.now.node.pair (StepOf.TakeDown quiet true)) }
    {
        self.may_take(quiet) && follows(&self.device, &self.down)
    }

    /// Whether a Take by the session adds to the history: the device's command waits to be taken,
    /// and the session makes a record of it.
    #[tactic(auto, using(crate::proofs::Completing::up_adds))]
    pub fn records(&self, packages: &'a [Package<'a>]) -> bool
        ensures { result ≡ adds_entries (step_of packages.now self.now.node.pair StepOf.TakeUp) }
    {
        waits(&self.up) && completes(&self.session, &self.up)
    }

    /// Whether a verdict adds to the history, if the bank works: the device waits for it, and
    /// applies an image by it.
    #[tactic(auto, using(crate::proofs::Growing::verdict_adds))]
    pub fn applies(&self, packages: &'a [Package<'a>], verdict: Verdict) -> bool
        ensures { result ≡ adds_entries (step_of packages.now self.now.node.pair (StepOf.Judge verdict true)) }
    {
        awaits(&self.device, verdict) && verdict == Verdict::ApplyOk
    }

    /// Whether the agent's command waits, and the device may take it with this `quiet`.
    fn may_take(&self, quiet: bool) -> bool
        ensures { result ≡ may_take self.now.node.pair quiet }
    {
        waits(&self.down) && !(quiet && self.up.is_some())
    }
}

/// Whether a command waits to be taken.
fn waits(cell: &Option<CellContent<'_>>) -> bool
    ensures { result ≡ waits cell.now }
{
    match cell {
        Some(held) => !held.is_taken(),
        None => false,
    }
}

/// Whether a device activates by the command in a cell, if the device takes it and its bank works.
fn follows<B: Bank>(device: &Device<B>, cell: &Option<CellContent<'_>>) -> bool
    ensures { result ≡ follows_cell device.now.device cell.now }
{
    match cell {
        Some(held) if matches!(held.command(), Command::ActivateFirmware { .. }) => {
            device.may_activate()
        }
        _ => false,
    }
}

/// Whether a session makes a record of the command in a cell, if the session takes it.
fn completes(session: &Session, cell: &Option<CellContent<'_>>) -> bool
    ensures { result ≡ completes (state_of session.now.session.stage) cell.now }
{
    match cell {
        Some(held) => matches!(
            (held.command(), session.state()),
            (
                Command::ApplyComplete { result: 0, .. },
                SessionState::Apply
            )
        ),
        None => false,
    }
}
