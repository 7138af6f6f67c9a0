//! Nodes by themselves: a device or the agent, as a filter of lines.

use crate::image_files::ConfigSource;

/// A device by itself.
#[derive(Clone, Copy)]
pub struct DeviceAlone<'a> {
    /// The configuration.
    pub config: ConfigSource<'a>,
    /// The device's endpoint identifier, 8 to 254.
    pub eid: u8,
    /// Whether the verdict that the device waits for is given at the end of each turn.
    pub is_automatic: bool,
    /// Whether what discovery requests is answered in front of the node.
    pub is_open: bool,
    /// The folder of the devices' stores, if the device's images persist.
    pub store: Option<&'a str>,
    /// The file that the device's report is written to at the end, if any.
    pub report: Option<&'a str>,
}

/// The agent by itself.
#[derive(Clone, Copy)]
pub struct AgentAlone<'a> {
    /// The path of the configuration.
    pub config: &'a str,
    /// Whether each session that is ready has its device activate at the end of each turn.
    pub is_automatic: bool,
    /// Whether what discovery requests is answered in front of the node.
    pub is_open: bool,
    /// The file that the event log's records are written to at the end, if any.
    pub log: Option<&'a str>,
    /// The file that the agent's report is written to at the end, if any.
    pub report: Option<&'a str>,
}
