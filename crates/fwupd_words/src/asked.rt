//! The jobs that arguments request.

use fwupd_base::{
    AgentAlone, AgentProcess, ConfigSource, DeviceAlone, DeviceProcess, DeviceSet, Form,
    PackageChoice, Roughness, Show,
};
use mctp_ctl::Endpoint;
use mctp_wire::Unit;

/// A job that arguments request.
#[derive(Clone, Copy)]
pub enum Job<'a> {
    /// Answer packets as this endpoint, whose identifier is 8 to 254.
    Answer(Endpoint),
    /// Answer packets in frames of a serial line as this endpoint, whose identifier is 8 to 254.
    AnswerSerial(Endpoint),
    /// Inspect a package, and print in this format.
    Inspect {
        /// The path of the package.
        package: &'a str,
        /// The format of the text.
        form: Form,
        /// Whether the SHA-256 of each image is printed.
        is_digested: bool,
    },
    /// Replay a schedule on the nodes of a configuration.
    Replay(Replay<'a>),
    /// Update the devices of a configuration over sockets.
    Run(Update<'a>),
    /// Build the package that a description specifies.
    Build {
        /// The path of the description.
        spec: &'a str,
        /// Where the package goes.
        output: BuildOutput<'a>,
    },
    /// Print the plan of an update of the devices of a configuration.
    Plan(Plan<'a>),
    /// Print what runs on the devices of a configuration.
    Status(Status<'a>),
    /// Print the records of an event log.
    Sel {
        /// The path of the log.
        log: &'a str,
        /// The format of the text.
        form: Form,
    },
    /// Decode packets, and print what they say.
    Decode {
        /// The path of the file of the packets, or none for standard input.
        file: Option<&'a str>,
        /// The transmission unit of the network.
        unit: Unit,
        /// The format of the text.
        form: Form,
    },
    /// Make many runs over rough links.
    Soak(Soak<'a>),
    /// Serve a device by itself, line by line.
    Device(DeviceAlone<'a>),
    /// Serve the agent by itself, line by line.
    Agent(AgentAlone<'a>),
    /// Serve a device as a process.
    DeviceProcess(DeviceProcess<'a>),
    /// Serve the agent as a process.
    AgentProcess(AgentProcess<'a>),
}

/// Where the package of a build goes.
#[derive(Clone, Copy)]
pub enum BuildOutput<'a> {
    /// To the file of this path.
    File(&'a str),
    /// To the file of this path; then a line of JSON says what it holds.
    ToldFile(&'a str),
    /// To standard output.
    Standard,
}

/// A replay of a schedule on the nodes of a configuration.
#[derive(Clone, Copy)]
pub struct Replay<'a> {
    /// The configuration.
    pub config: ConfigSource<'a>,
    /// The path of the schedule.
    pub schedule: &'a str,
    /// The outputs of the replay.
    pub show: Show<'a>,
}

/// The plan of an update of the devices of a configuration.
#[derive(Clone, Copy)]
pub struct Plan<'a> {
    /// The configuration.
    pub config: ConfigSource<'a>,
    /// The folder of the devices' stores, if their images persist. It is only read.
    pub store: Option<&'a str>,
    /// The number of the package, from 1.
    pub number: usize,
    /// The format of the text.
    pub form: Form,
}

/// What runs on the devices of a configuration.
#[derive(Clone, Copy)]
pub struct Status<'a> {
    /// The configuration.
    pub config: ConfigSource<'a>,
    /// The folder of the devices' stores, if their images persist. It is only read.
    pub store: Option<&'a str>,
    /// The format of the text.
    pub form: Form,
}

/// An update of the devices of a configuration over sockets.
#[derive(Clone, Copy)]
pub struct Update<'a> {
    /// The configuration.
    pub config: ConfigSource<'a>,
    /// The path of the folder of the sockets.
    pub folder: &'a str,
    /// The options of the run.
    pub order: Order,
    /// The outputs of the run.
    pub show: Show<'a>,
}

/// Many runs of a configuration over rough links.
#[derive(Clone, Copy)]
pub struct Soak<'a> {
    /// The configuration.
    pub config: ConfigSource<'a>,
    /// The options of the soak.
    pub order: SoakOrder,
    /// The path of the file for the steps of the first violation, if there is one.
    pub record: Option<&'a str>,
    /// The format of the totals.
    pub form: Form,
}

/// The options of a run.
#[derive(Clone, Copy)]
pub struct Order {
    /// The numbers of the packages that devices are updated with, from 1.
    pub packages: PackageChoice,
    /// The devices that are updated, by their endpoint identifiers; all devices if there is no set.
    pub devices: Option<DeviceSet>,
    /// Whether the run fails unless each session ends Done.
    pub is_checked: bool,
    /// The roughness of the links.
    pub roughness: Roughness,
}

/// The options of a soak.
#[derive(Clone, Copy)]
pub struct SoakOrder {
    /// The number of runs, at least 1.
    pub runs: u32,
    /// The roughness of the links.
    pub roughness: Roughness,
}
