//! A keeper in a folder.

ghost use Rattle.std.specs.Prelude.{◌≡◌, ◌⊎◌, List, OnErr, OnOk, Some, true};
ghost use Rattle.agent_store.specs.Kept.{kept_lines};
ghost use Rattle.agent_store.specs.Packages.{packages_name};
ghost use Rattle.fw_store.specs.AgentKeeping.{agent_lines_in};
ghost use Rattle.fw_store.specs.declared.kept_line.KeptLine.{KeptLine};

use crate::keeper::{AgentKeeper, KeepFault};
use crate::writing::agent_lines;
use fw_node::AgentNode;
use fw_store::{Folder, put_agent};
use std::alloc::Global;
use std::marker::Model;

/// A keeper that writes what the agent keeps into a folder.
#[derive(Drop)]
pub struct FolderKeeper<F: Folder + Drop> {
    alloc: Global,
    folder: F,
}

impl<F: Folder + Drop> Model for FolderKeeper<F> {
    ghost use Rattle.agent_store.specs.Keepers.{FolderKeeperOf};
    ghost use Rattle.agent_store.specs.Packages.{packages_name};
    ghost use Rattle.fw_store.specs.AgentKeeping.{agent_lines_in};

    ghost Value = { FolderKeeperOf };

    ghost view = { λ k. record {
      is_known = F.is_known k.folder;
      packages = F.files k.folder packages_name;
      kept = agent_lines_in (F.files k.folder);
      lasting = agent_lines_in (F.lasting k.folder);
    } };
}

impl<F: Folder + Drop> FolderKeeper<F> {
    /// Creates a keeper in a folder.
    pub fn new(alloc: Global, folder: F) -> FolderKeeper<F>
        ensures { result ≡ record {
          is_known = F.is_known folder;
          packages = F.files folder packages_name;
          kept = agent_lines_in (F.files folder);
          lasting = agent_lines_in (F.lasting folder);
        } }
    {
        FolderKeeper { alloc, folder }
    }

    /// Returns the folder.
    pub fn folder(&self) -> &F
        ensures known { F.is_known result.now ≡ self.now.is_known }
        ensures kept { agent_lines_in (F.files result.now) ≡ self.now.kept }
    {
        &self.folder
    }
}

impl<F: Folder + Drop> AgentKeeper for FolderKeeper<F> {
    ghost use Rattle.std.specs.Prelude.{◌≡◌, Some, true};

    ghost keeps = { λ k ls. k.is_known ≡ true → k.kept ≡ Some ls };

    #[tactic(auto, using(crate::proofs::Keeping::keeping))]
    fn keep(&mut self, agent: &AgentNode) -> Result<(), KeepFault>
        ensures kept { OnOk result (self.new.is_known ≡ true → self.new.kept ≡ Some (kept_lines agent.now)) }
        ensures either { OnErr result ((ls : List KeptLine)
            → (self.old.is_known ≡ true → self.old.kept ≡ Some ls)
            → (self.new.is_known ≡ true → self.new.kept ≡ Some ls)
            ⊎ (self.new.is_known ≡ true → self.new.kept ≡ Some (kept_lines agent.now))) }
        ensures lasts { OnOk result (self.old.is_known ≡ true → self.new.lasting ≡ Some (kept_lines agent.now)) }
    {
        let Ok(lines) = agent_lines(self.alloc, agent) else {
            return Err(KeepFault::Memory);
        };
        match put_agent(self.alloc, &mut self.folder, &lines) {
            Ok(()) => Ok(()),
            Err(_) => Err(KeepFault::Unwritable),
        }
    }
}
