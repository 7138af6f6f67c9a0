//! A keeper of what the agent keeps over a restart.

ghost use Rattle.std.specs.Prelude.{◌⊎◌, List, OnErr, OnOk};
ghost use Rattle.fw_store.specs.declared.kept_line.KeptLine.{KeptLine};
ghost use Rattle.agent_store.specs.Kept.{kept_lines};

use fw_node::AgentNode;
use thiserror::Error;

/// What the agent keeps couldn't be kept.
#[derive(Clone, Copy, Debug, PartialEq, Eq, Error)]
pub enum KeepFault {
    /// The folder can't be written.
    #[error("unwritable")]
    Unwritable,
    /// Memory could not be allocated.
    #[error("memory")]
    Memory,
}

/// A keeper of what the agent keeps over a restart. `keeps k ls`: an agent that is started anew
/// with the keeper `k` goes on with the lines `ls`.
pub trait AgentKeeper {
    ghost keeps: { Self → List KeptLine → Type 0 };

    /// Keeps what an agent keeps, in place of what was kept before: entirely or not at all.
    ///
    /// # Errors
    /// It can't be kept. Then either it is kept, or what was kept before.
    fn keep(&mut self, agent: &AgentNode) -> Result<(), KeepFault>
        ensures kept { OnOk result (keeps self.new (kept_lines agent.now)) }
        ensures either { OnErr result ((ls : List KeptLine) → keeps self.old ls
            → keeps self.new ls ⊎ keeps self.new (kept_lines agent.now)) };
}

/// A keeper that keeps nothing: an agent that is started anew is a new one.
#[derive(Drop)]
pub struct NoKeeper;

impl AgentKeeper for NoKeeper {
    ghost keeps = { λ k ls. Prim.Unit {0} };

    fn keep(&mut self, _agent: &AgentNode) -> Result<(), KeepFault> {
        Ok(())
    }
}
