//! A keeper that is called only if something changed.

ghost use Rattle.std.specs.Prelude.{◌≡◌, IsSomeAnd, true};

use crate::keeper::{AgentKeeper, KeepFault};
use crate::writing::agent_lines;
use fw_node::AgentNode;
use fw_store::KeptLine;
use std::alloc::Global;
use std::marker::Model;

/// A keeper that calls another only if what the agent keeps isn't what it kept last.
#[derive(Drop)]
pub struct ChangeKeeper<K: AgentKeeper + Drop> {
    alloc: Global,
    keeper: K,
    /// The lines that it kept last, if it keeps them still.
    last: Option<Vec<KeptLine>>,
}

impl<K: AgentKeeper + Drop> Model for ChangeKeeper<K> {
    ghost use Rattle.std.specs.Prelude.{IfSome};

    ghost Value = { K };

    ghost view = { λ c. c.keeper };

    ghost invariant = { λ c. IfSome c.last (λ v. K.keeps c.keeper v.items) };
}

impl<K: AgentKeeper + Drop> ChangeKeeper<K> {
    /// Creates a keeper that calls this one.
    pub fn new(alloc: Global, keeper: K) -> ChangeKeeper<K>
        ensures { result ≡ keeper }
    {
        ChangeKeeper {
            alloc,
            keeper,
            last: None,
        }
    }

    /// Returns the keeper that it calls.
    pub fn keeper(&self) -> &K
        ensures { result.now ≡ self.now }
    {
        &self.keeper
    }
}

/// Whether these are the last lines.
fn are_last(last: &Option<Vec<KeptLine>>, lines: &[KeptLine]) -> bool
    ensures { result ≡ true → IsSomeAnd last.now (λ v. v.items ≡ lines.now) }
{
    match last {
        Some(kept) => kept.as_slice() == lines,
        None => false,
    }
}

impl<K: AgentKeeper + Drop> AgentKeeper for ChangeKeeper<K> {
    ghost keeps = { λ k ls. K.keeps k ls };

    fn keep(&mut self, agent: &AgentNode) -> Result<(), KeepFault> {
        let Ok(lines) = agent_lines(self.alloc, agent) else {
            return Err(KeepFault::Memory);
        };
        if are_last(&self.last, &lines) {
            return Ok(());
        }
        self.last = None;
        match self.keeper.keep(agent) {
            Ok(()) => {}
            Err(fault) => return Err(fault),
        }
        self.last = Some(lines);
        Ok(())
    }
}
