//! What a job runs on.

ghost use Rattle.fw_setup.specs.Stocks.{stores_in};
ghost use Rattle.fwupd_nodes.specs.Hosts.{FoundOf, LeftOf, agent_store_in};
ghost use Rattle.fwupd_nodes.specs.Processes.{AgentLeftOf};

use crate::wires::Wires;
use crate::wiring::Wiring;
use fw_edge::Link;
use fw_setup::Stores;
use fw_soak::SoakObserver;
use fw_store::Folder;
use fwupd_watch::{Files, Observer, Output, OutputPlaces};
use std::io::{Read, Write};

/// The types of the parts of a host.
pub trait Parts {
    /// The files that a job reads.
    type Files: Files;
    /// The folder of a device's store.
    type Folder: Folder + Drop;
    /// The stores of the devices' images.
    type Stores: Stores<Self::Folder>;
    /// The input.
    type Input: Read;
    /// A link to a device.
    type Link: Link + Drop;
    /// The source of links.
    type Wires: Wires<Self::Link>;
    /// The observer of a run or a replay.
    type Watch: Observer;
    /// The observer of a soak.
    type SoakWatch: SoakObserver;
    /// A file that is being made.
    type NewFile: Write + Drop;
    /// The places of the files that a job makes.
    type Places: OutputPlaces<Self::NewFile>;
    /// What joins the processes of nodes to their peers.
    type Wiring: Wiring;
    /// The writer of the output.
    type Writer: Write + Drop;
}

/// What a job runs on: it reads files, stores and the input, sends packets over links, reports to
/// observers, makes files at places, and writes the output.
#[derive(Drop)]
pub struct Host<H: Parts> {
    /// The files that a job reads.
    pub files: H::Files,
    /// The stores of the devices' images.
    pub stores: H::Stores,
    /// The input.
    pub input: H::Input,
    /// The source of links to devices.
    pub wires: H::Wires,
    /// The observer of a run or a replay.
    pub watch: H::Watch,
    /// The observer of a soak.
    pub soak_watch: H::SoakWatch,
    /// The places of the files that a job makes.
    pub places: H::Places,
    /// What joins the processes of nodes to their peers.
    pub wiring: H::Wiring,
    /// The output.
    pub output: Output<H::Writer>,
}

/// A host as contracts see it.
pub trait HostView {
    /// What a job finds on the host before it begins.
    ghost found: { Self → FoundOf };

    /// What a job leaves on the host.
    ghost left: { Self → LeftOf };

    /// What an agent's process leaves on the second host, which was the first before.
    ghost agent_left: { Self → Self → AgentLeftOf };
}

impl<H: Parts> HostView for Host<H> {
    ghost found = { λ host. record {
      files = H.Files.holds host.files;
      stores = stores_in (H.Stores.is_known host.stores) (H.Stores.files host.stores);
      agent_store = agent_store_in (H.Stores.is_known host.stores) (H.Stores.agent_files host.stores);
      lacks = H.Wires.lacks host.wires;
      refuses = H.Watch.refuses host.watch;
      input = H.Input.remaining host.input;
      is_known = H.Places.is_known host.places;
      held = H.Places.held host.places;
      output = host.output;
    } };

    ghost left = { λ host. record {
      input = H.Input.remaining host.input;
      watched = H.Watch.watched host.watch;
      held = H.Places.held host.places;
      output = host.output;
    } };

    ghost agent_left = { λ before after. record {
      is_known = H.Places.is_known before.places;
      held = H.Places.held after.places;
      output = after.output;
    } };
}
