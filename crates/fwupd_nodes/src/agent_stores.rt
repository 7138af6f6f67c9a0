//! What the agent's process keeps in a folder of stores: opening it, and the node that goes on with
//! it.

ghost use Rattle.std.specs.Prelude.{◌≡◌, ◌≢◌, ◌≤◌, IfErr, IfOk, IfSome, OnOk, Some, length, map, true};
ghost use Rattle.agent_store.specs.Packages.{packages_name, packages_text};
ghost use Rattle.fwupd_nodes.specs.Hosts.{agent_store_in};
ghost use Rattle.fwupd_nodes.specs.AgentStores.{BeginsWithStore, IsAgentNode, KeepsDamaged, KeepsForeign, agent_setup_seen};

use crate::wiring::Network;
use agent_store::{ClaimFault, FolderKeeper, claim_packages, resumed_agent};
use fw_node::AgentNode;
use fw_setup::Stores;
use fw_store::{Folder, OpenFault, agent_in};
use fwupd_watch::JobFault;
use std::alloc::Global;

/// The agent that an operator's process begins with: its network, its devices, at most 16, and the
/// bytes of its packages.
#[derive(Clone, Copy)]
pub struct AgentSetup<'a> {
    /// The network, with the agent's endpoint.
    pub network: Network,
    /// The endpoint identifiers of the devices.
    pub eids: &'a [u8],
    /// The bytes of each package, in configured order.
    pub contents: &'a [Vec<u8>],
}

/// The fault of an agent's store that can't be opened.
fn unopened(eid: u8, why: OpenFault) -> JobFault
    ensures memory { why ≡ OpenFault.Memory → result ≡ JobFault.Memory }
    ensures other { why ≢ OpenFault.Memory → result ≡ JobFault.Store eid why }
{
    match why {
        OpenFault::Memory => JobFault::Memory,
        why => JobFault::Store(eid, why),
    }
}

/// The fault of an agent's store that isn't claimed for its packages.
fn unclaimed(eid: u8, fault: ClaimFault) -> JobFault
    ensures unwritable { fault ≡ ClaimFault.Unwritable → result ≡ JobFault.Unkept eid }
    ensures memory { fault ≡ ClaimFault.Refused OpenFault.Memory → result ≡ JobFault.Memory }
    ensures refused { (why : OpenFault) → fault ≡ ClaimFault.Refused why → why ≢ OpenFault.Memory
        → result ≡ JobFault.Store eid why }
{
    match fault {
        ClaimFault::Refused(why) => unopened(eid, why),
        ClaimFault::Unwritable => JobFault::Unkept(eid),
    }
}

/// The node that goes on with what a folder keeps, or a new one if it keeps nothing yet.
#[tactic(auto, using(crate::proofs::AgentStores::nodes))]
fn node_in<F: Folder>(
    alloc: Global,
    folder: &F,
    network: &Network,
    eids: &[u8],
) -> Result<AgentNode, OpenFault>
    requires { length eids.now ≤ 16 }
    ensures node { IfOk result (λ n. F.is_known folder.now ≡ true
        → IsAgentNode (F.files folder.now) network.now.unit network.now.endpoint eids.now n) }
    ensures foreign { IfErr result (λ e. e ≡ OpenFault.Foreign
        → F.is_known folder.now ≡ true
        → KeepsForeign (F.files folder.now) eids.now) }
    ensures damaged { IfErr result (λ e. e ≡ OpenFault.Damaged
        → F.is_known folder.now ≡ true
        → KeepsDamaged (F.files folder.now) eids.now) }
    ensures unread { IfErr result (λ e. e ≡ OpenFault.Unreadable → F.may_fail folder.now ≡ true) }
{
    let found = match agent_in(alloc, folder) {
        Ok(found) => found,
        Err(fault) => return Err(fault),
    };
    let Some(lines) = found else {
        return match AgentNode::new(alloc, network.unit, network.endpoint, eids) {
            Ok(node) => Ok(node),
            Err(_) => Err(OpenFault::Memory),
        };
    };
    match resumed_agent(alloc, network.unit, network.endpoint, eids, &lines) {
        Ok(node) => Ok(node),
        Err(fault) => Err(fault),
    }
}

/// The node that goes on with what a folder keeps, which is then claimed for the packages.
///
/// # Errors
/// As for `open_agent`. The folder is unchanged then, but for `Unkept`.
#[tactic(auto, using(crate::proofs::AgentStores::begins))]
fn claimed_node<F: Folder>(
    alloc: Global,
    folder: &mut F,
    setup: &AgentSetup<'_>,
) -> Result<AgentNode, JobFault>
    requires { length setup.now.eids.now ≤ 16 }
    ensures known { F.is_known folder.new ≡ F.is_known folder.old }
    ensures begins { IfOk result (λ n. F.is_known folder.old ≡ true
        → BeginsWithStore (F.files folder.old) (agent_setup_seen setup.now) n) }
    ensures claimed { OnOk result (F.is_known folder.old ≡ true → F.files folder.new packages_name
        ≡ Some (packages_text (map (λ p. p.items) setup.now.contents.now))) }
    ensures same { IfErr result (λ e. e ≢ JobFault.Unkept setup.now.network.endpoint.eid → folder.new ≡ folder.old) }
{
    let eid = setup.network.endpoint.eid;
    let node = match node_in(alloc, folder, &setup.network, setup.eids) {
        Ok(node) => node,
        Err(fault) => return Err(unopened(eid, fault)),
    };
    match claim_packages(alloc, folder, setup.contents) {
        Ok(()) => Ok(node),
        Err(fault) => Err(unclaimed(eid, fault)),
    }
}

/// Opens the folder of what the agent keeps, below `root`, for its packages. Returns the node that
/// goes on with it, and its keeper there. The folder is made if it isn't there.
///
/// # Errors
/// `Store` if it can't be opened, or is of other packages or devices; `Unkept` if it can't be
/// written; `Memory` if memory is refused. A folder that is refused is unchanged.
#[tactic(auto, using(crate::proofs::AgentStores::begins))]
pub fn open_agent<F: Folder + Drop, T: Stores<F>>(
    alloc: Global,
    stores: &mut T,
    root: &str,
    setup: &AgentSetup<'_>,
) -> Result<(AgentNode, FolderKeeper<F>), JobFault>
    requires { length setup.now.eids.now ≤ 16 }
    ensures begins { IfOk result (λ opened. IfSome (agent_store_in (T.is_known stores.old)
        (T.agent_files stores.old) root.now) (λ files. BeginsWithStore files
        (agent_setup_seen setup.now) opened.0)) }
    ensures known { IfOk result (λ opened. T.is_known stores.old ≡ true → opened.1.is_known ≡ true) }
    ensures claimed { IfOk result (λ opened. opened.1.is_known ≡ true → opened.1.packages
        ≡ Some (packages_text (map (λ p. p.items) setup.now.contents.now))) }
    ensures kept { (T.is_known stores.new ≡ T.is_known stores.old)
        × (T.files stores.new ≡ T.files stores.old)
        × (T.agent_files stores.new ≡ T.agent_files stores.old) }
{
    let eid = setup.network.endpoint.eid;
    let mut folder = match stores.make_agent(alloc, root) {
        Ok(folder) => folder,
        Err(fault) => return Err(unopened(eid, fault)),
    };
    match claimed_node(alloc, &mut folder, setup) {
        Ok(node) => Ok((node, FolderKeeper::new(alloc, folder))),
        Err(fault) => Err(fault),
    }
}
