//! Nodes as processes: a device or the agent, joined to its peers by sockets or a serial line.

use crate::forms::{Form, TraceForm};
use crate::image_files::ConfigSource;

/// What joins the process of a node to its peers.
#[derive(Clone, Copy)]
pub enum Wire<'a> {
    /// Sockets in a folder: FOLDER/EID.sock is that of a device.
    Sockets(&'a str),
    /// A serial line at a path.
    Tty(&'a str),
}

/// How the process of a node is served.
#[derive(Clone, Copy)]
pub struct Serving<'a> {
    /// What joins it to its peers.
    pub wire: Wire<'a>,
    /// Whether what discovery requests is answered in front of the node, also over sockets.
    pub is_open: bool,
    /// The milliseconds of a unit, 1 to 1000.
    pub tick: u32,
    /// The units until it ends, at least 1, if it ends.
    pub ticks: Option<u32>,
}

/// What is written of a node's process while it runs.
#[derive(Clone, Copy)]
pub struct Watching<'a> {
    /// The file that each packet is written to when it is sent or received, if any.
    pub trace: Option<&'a str>,
    /// The format of that file.
    pub trace_form: TraceForm,
    /// The file that each call of the node is written to, as a line of a filter, if any.
    pub record: Option<&'a str>,
}

/// A device as a process.
#[derive(Clone, Copy)]
pub struct DeviceProcess<'a> {
    /// The configuration.
    pub config: ConfigSource<'a>,
    /// The device's endpoint identifier, 8 to 254.
    pub eid: u8,
    /// The folder of the devices' stores, if the device's images persist.
    pub store: Option<&'a str>,
    /// How it is served.
    pub serving: Serving<'a>,
    /// Whether a socket on which nobody listens is replaced.
    pub takes_over: bool,
    /// What is written of it while it runs.
    pub watching: Watching<'a>,
}

/// The agent as a process.
#[derive(Clone, Copy)]
pub struct AgentProcess<'a> {
    /// The path of the configuration.
    pub config: &'a str,
    /// The number of the package that devices are updated with, from 1.
    pub number: usize,
    /// The file that the event log's records are written to at the end, if any.
    pub log: Option<&'a str>,
    /// The folder of stores, if what the agent records and its event log persist.
    pub store: Option<&'a str>,
    /// The format of the report.
    pub form: Form,
    /// Whether the process fails unless each session ends Done.
    pub is_checked: bool,
    /// How it is served.
    pub serving: Serving<'a>,
    /// What is written of it while it runs.
    pub watching: Watching<'a>,
}
