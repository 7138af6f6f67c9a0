//! Jobs over files in memory.

ghost use Rattle.std.specs.Prelude.{◌≡◌, Err, IfErr, IfSome, None, OnOk, Some, is_some, true};
ghost use Rattle.fwupd_watch.specs.Files.{any_file};

use fd_core::Bank;
use fw_edge::{Link, MemLink, StreamLink};
use fw_process::{Clock, Line};
use fw_setup::SystemStores;
use fw_soak::{SoakObserver, Summary};
use fw_store::SystemFolder;
use fw_world::{Step, World};
use fwup_wire::Key;
use fwupd_base::{ConfigSource, Form, ImageFile, ImageFiles, PackageChoice, Roughness};
use fwupd_jobs::{
    Beginning, DeviceProcess, FileFault, FileIdentity, Files, Host, JobFault, Joined, Network,
    Observer, ObserverFault, Order, Output, PacketTrace, Parts, Plan, Serving, Show, Status,
    TraceForm, Update, Watching, WholeFiles, Wire, Wires, Wiring, plan_file, status_file,
    update_checked,
};
use fwupd_nodes::Observed;
use fwupd_watch::{SystemCalls, system_places};
use mctp_wire::{RawPacket, Unit};
use std::alloc::{AllocError, Global};
use std::fs::File;
use std::marker::PhantomData;
use std::os::unix::net::UnixStream;
use std::test::Fail;

/// The configuration in the file `c`. If a device is given, the bytes of the file `i` take the
/// place of the image of its component 10 1.
pub fn source(device: Option<u8>) -> ConfigSource<'static> {
    let mut images = ImageFiles::new();
    if let Some(eid) = device {
        let key = Key {
            classification: 10,
            identifier: 1,
        };
        images.push(ImageFile {
            eid,
            key,
            path: "i",
        });
    }
    ConfigSource { path: "c", images }
}

/// Files in memory: a path, the file's number, and its bytes. Paths with the same number name the
/// same file.
#[derive(Drop)]
pub struct MemFiles<'a> {
    pub files: &'a [(&'a str, u64, &'a [u8])],
}

impl<'a> Files for MemFiles<'a> {
    ghost holds = { λ f path. any_file };

    fn contents(&self, alloc: Global, path: &str) -> Result<Vec<u8>, FileFault> {
        for (name, _, bytes) in self.files {
            if *name == path {
                return match Vec::from_slice(alloc, bytes) {
                    Ok(bytes) => Ok(bytes),
                    Err(_) => Err(FileFault::Memory),
                };
            }
        }
        Err(FileFault::Unreadable)
    }

    fn beginning(&self, alloc: Global, path: &str) -> Result<Beginning, FileFault> {
        match self.contents(alloc, path) {
            Ok(bytes) => Ok(Beginning::from_bytes(bytes)),
            Err(fault) => Err(fault),
        }
    }

    fn identity(&self, path: &str) -> Option<FileIdentity> {
        for (name, number, _) in self.files {
            if *name == path {
                return Some(FileIdentity {
                    device: 1,
                    number: *number,
                });
            }
        }
        None
    }

    fn is_link(&self, _path: &str) -> bool {
        false
    }

    #[tactic(auto, using(fwupd_watch::proofs::AnyFiles::any_place))]
    fn is_one_place(&self, one: &str, other: &str) -> bool {
        one == other
    }

    #[tactic(auto, using(fwupd_watch::proofs::AnyFiles::any_below))]
    fn is_below(&self, _alloc: Global, path: &str, folder: &str) -> Result<bool, AllocError> {
        match path.strip_prefix(folder) {
            Some(name) => Ok(name.starts_with('/')),
            None => Ok(false),
        }
    }
}

/// An agent and a device.
const CONFIG: &[u8] = b"agent 8 00000000-0000-0000-0000-000000000000\n\
    device 9 00000000-0000-0000-0000-000000000000\n\
    descriptor 0000 3412\n\
    component 10 1 0 1 1.0 AA\n";

/// The output of a job that ends with this fault or without one, and the fault's text.
pub fn outcome(
    rt: &HostRuntime,
    end: Result<(), JobFault>,
    written: Vec<u8>,
) -> Result<Vec<u8>, Fail> {
    let mut text = written;
    if let Err(fault) = end {
        let told = format!(in rt.alloc(); "{fault}")?;
        text.extend_from_slice(told.as_bytes())?;
    }
    Ok(text)
}

/// Links in memory, and the number of those opened; the link to this device can't be opened.
#[derive(Drop)]
struct MemWires {
    alloc: Global,
    opened: usize,
    closed: u8,
}

impl Wires<MemLink> for MemWires {
    ghost lacks = { λ w folder device. true };

    fn open(&mut self, _unit: Unit, _folder: &str, device: u8) -> Result<MemLink, JobFault> {
        if device == self.closed {
            return Err(JobFault::Socket(device));
        }
        self.opened = self.opened.saturating_add(1);
        Ok(MemLink::new(self.alloc))
    }
}

/// A link whose device end is closed.
#[derive(Drop)]
struct CutWires {
    /// The stream that receives the packets of the agent's end.
    taken: UnixStream,
    link: Option<StreamLink<UnixStream>>,
}

impl CutWires {
    /// The link, to be opened once.
    fn new(rt: &HostRuntime) -> Result<CutWires, Fail> {
        let (agent, taken) = UnixStream::pair(rt)?;
        let (device, _) = UnixStream::pair(rt)?;
        Ok(CutWires {
            taken,
            link: Some(StreamLink::new(Unit::U64, agent, device)),
        })
    }
}

impl Wires<StreamLink<UnixStream>> for CutWires {
    ghost lacks = { λ w folder device. true };

    fn open(
        &mut self,
        _unit: Unit,
        _folder: &str,
        device: u8,
    ) -> Result<StreamLink<UnixStream>, JobFault> {
        match self.link.take() {
            Some(link) => Ok(link),
            None => Err(JobFault::Socket(device)),
        }
    }
}

/// An observer that counts turns and fails in the turn of this number if packets are traced. It can
/// open every file but the path "/".
#[derive(Drop)]
pub struct Counter {
    is_quiet: bool,
    traced: Option<TraceForm>,
    is_logged: bool,
    is_recorded: bool,
    has_history: bool,
    pub turns: usize,
    broken: usize,
    fault: Option<ObserverFault>,
    has_ended: bool,
    lost: Option<u8>,
}

impl Counter {
    /// Creates an observer that has seen nothing, and fails in turn `broken`.
    pub fn new(broken: usize) -> Counter {
        Counter {
            is_quiet: false,
            traced: None,
            is_logged: false,
            is_recorded: false,
            has_history: false,
            turns: 0,
            broken,
            fault: None,
            has_ended: false,
            lost: None,
        }
    }

    /// The result of a call.
    fn outcome(&self) -> Result<(), ObserverFault>
        ensures ok { OnOk result (self.now.fault ≡ None) }
        ensures err { IfErr result (λ e. self.now.fault ≡ Some e) }
        ensures first { IfSome self.now.fault (λ f. result ≡ Err f) }
    {
        match self.fault {
            Some(fault) => Err(fault),
            None => Ok(()),
        }
    }
}

impl Observer for Counter {
    ghost watched = { λ c. record {
      fault = c.fault;
      shows = record {
        is_quiet = c.is_quiet;
        traced = c.traced;
        is_logged = c.is_logged;
        is_recorded = c.is_recorded;
        has_history = c.has_history;
      };
      has_ended = c.has_ended;
      seen = c.turns;
      lost = c.lost;
      recording = None;
      history = None;
    } };

    ghost refuses = { λ c path. true };

    fn begin(&mut self, show: Show<'_>) -> Result<(), ObserverFault> {
        if let Some(path) = show.trace {
            if path == "/" {
                self.fault = Some(ObserverFault::Unwritten);
                return Err(ObserverFault::Unwritten);
            }
        }
        if let Some(path) = show.log {
            if path == "/" {
                self.fault = Some(ObserverFault::Unlogged);
                return Err(ObserverFault::Unlogged);
            }
        }
        self.traced = match show.trace {
            Some(_) => Some(show.trace_form),
            None => None,
        };
        self.is_logged = show.log.is_some();
        self.is_recorded = show.record.is_some();
        self.has_history = show.history.is_some();
        self.is_quiet = show.is_quiet;
        self.turns = 0;
        self.lost = None;
        Ok(())
    }

    fn note(&mut self, _steps: &[Step]) -> Result<(), ObserverFault> {
        self.outcome()
    }

    fn see<B: Bank + Drop>(&mut self, _world: &World<'_, B>) -> Result<(), ObserverFault> {
        self.turns = self.turns.saturating_add(1);
        if self.traced.is_some() && self.turns == self.broken && self.fault.is_none() {
            self.fault = Some(ObserverFault::Unwritten);
        }
        self.outcome()
    }

    fn lose(&mut self, device: u8) {
        self.lost = Some(device);
    }

    fn end<B: Bank + Drop>(&mut self, _world: &World<'_, B>) -> Result<(), ObserverFault> {
        self.has_ended = true;
        self.outcome()
    }
}

/// The worked package: an image of 241 bytes, byte i being i, for class 10, identifier 1.
pub fn package(rt: &HostRuntime) -> Result<Vec<u8>, Fail> {
    let header =
        b"F018878CCB7D49439800A02F059ACA0201560000000000000000000000000000080001000113000100000000\
        01010000014100000200341201000A000100020000000200000056000000F100000001027632FE656275";
    let mut bytes = hex::decode(rt.alloc(), header)?;
    for byte in 0..241 {
        bytes.push(byte)?;
    }
    Ok(bytes)
}

/// An observer of a soak that does nothing.
#[derive(Drop)]
pub struct Unseen {}

impl SoakObserver for Unseen {
    fn see(&mut self, _summary: &Summary) {}
}

/// A line over which nothing comes and nothing goes.
#[derive(Drop)]
pub struct Silence {}

impl Line for Silence {
    fn begin_round(&mut self, _unit: u32) {}

    fn receive(&mut self, _packet: &mut RawPacket) -> Option<u32> {
        None
    }

    fn send(&mut self, _unit: u32, _packet: &RawPacket) {}
}

/// A clock that shows each unit at once, from unit 1,000.
#[derive(Drop)]
pub struct Hasty {}

impl Clock for Hasty {
    fn wait_past(&mut self, unit: u32) -> u32 {
        (unit + 1).max(1000)
    }
}

/// Processes that are joined to nobody. The folder `taken` has each socket's name already.
#[derive(Drop)]
pub struct Lonely {}

impl Wiring for Lonely {
    type Device = Silence;

    type Agent = Silence;

    type Clock = Hasty;

    type Watch = Option<PacketTrace<Vec<u8>>>;

    fn watch(
        &mut self,
        _alloc: Global,
        _observed: Observed<'_>,
        _watching: Watching<'_>,
    ) -> Result<Option<PacketTrace<Vec<u8>>>, JobFault> {
        Ok(None)
    }

    fn device(
        &mut self,
        _alloc: Global,
        _network: &Network,
        job: &DeviceProcess<'_>,
    ) -> Result<Joined<Silence, Hasty>, JobFault> {
        match job.serving.wire {
            Wire::Sockets("taken") => Err(JobFault::Socket(job.eid)),
            Wire::Sockets(_) => Ok(Joined {
                line: Silence {},
                clock: Hasty {},
            }),
            Wire::Tty(_) => Err(JobFault::Tty),
        }
    }

    fn agent(
        &mut self,
        _alloc: Global,
        _network: &Network,
        _eids: &[u8],
        serving: Serving<'_>,
    ) -> Result<Joined<Silence, Hasty>, JobFault> {
        match serving.wire {
            Wire::Sockets(_) => Ok(Joined {
                line: Silence {},
                clock: Hasty {},
            }),
            Wire::Tty(_) => Err(JobFault::Tty),
        }
    }
}

/// The parts of a host whose files are in memory, with these links.
pub struct MemParts<'a, L, S> {
    parts: PhantomData<(&'a u8, L, S)>,
}

impl<'a, L: Link + Drop, S: Wires<L> + Drop> Parts for MemParts<'a, L, S> {
    type Files = MemFiles<'a>;

    type Folder = SystemFolder<'a>;

    type Stores = SystemStores<'a>;

    type Input = &'a [u8];

    type Link = L;

    type Wires = S;

    type Watch = Counter;

    type SoakWatch = Unseen;

    type NewFile = File;

    type Places = WholeFiles<SystemCalls<'a>>;

    type Wiring = Lonely;

    type Writer = Vec<u8>;
}

/// A host with these files and links and no input. Its observer fails in turn `broken`.
pub fn host<'a, L: Link + Drop, S: Wires<L> + Drop>(
    rt: &'a HostRuntime,
    files: &'a [(&'a str, u64, &'a [u8])],
    wires: S,
    broken: usize,
) -> Result<Host<MemParts<'a, L, S>>, Fail> {
    let Ok(output) = Output::new(rt.alloc(), Vec::new(rt.alloc())) else {
        return Err(Fail::from(AllocError));
    };
    Ok(Host {
        files: MemFiles { files },
        stores: SystemStores::new(rt),
        input: b"",
        wires,
        watch: Counter::new(broken),
        soak_watch: Unseen {},
        places: system_places(rt),
        wiring: Lonely {},
        output,
    })
}

/// The result of an update: its output with its fault, the number of turns observed, the device
/// whose link failed, and the source of its links.
#[derive(Drop)]
struct UpdateResult<S> {
    text: Vec<u8>,
    turns: usize,
    lost: Option<u8>,
    wires: S,
}

/// Performs an update on a host, and appends the text of its fault, if there is one.
fn update_on<H: Parts>(
    rt: &HostRuntime,
    update: Update<'_>,
    host: &mut Host<H>,
    text: &mut Vec<u8>,
) -> Result<(), Fail> {
    if let Err(fault) = update_checked(rt.alloc(), update, host) {
        let told = format!(in rt.alloc(); "{fault}")?;
        text.extend_from_slice(told.as_bytes())?;
    }
    Ok(())
}

/// Updates over these links.
fn updated<'a, L: Link + Drop, S: Wires<L> + Drop>(
    rt: &HostRuntime,
    config: &'a [u8],
    package: &'a [u8],
    trace: Option<&str>,
    wires: S,
    broken: usize,
) -> Result<UpdateResult<S>, Fail> {
    let files: [(&'a str, u64, &'a [u8]); 4] = [
        ("c", 1, config),
        ("p", 2, package),
        ("linked to c", 1, config),
        ("linked to p", 2, package),
    ];
    let update = Update {
        config: source(None),
        folder: "f",
        order: Order {
            packages: PackageChoice::new(1),
            devices: None,
            is_checked: true,
            roughness: Roughness::none(),
        },
        show: Show {
            is_quiet: true,
            trace,
            trace_form: TraceForm::Hex,
            log: None,
            record: None,
            store: None,
            history: None,
            form: Form::Text,
        },
    };
    let mut host = host(rt, &files, wires, broken)?;
    let mut fault = Vec::new(rt.alloc());
    update_on(rt, update, &mut host, &mut fault)?;
    let Host {
        output,
        watch,
        wires,
        ..
    } = host;
    let mut text = output.into_writer();
    text.extend_from_slice(&fault)?;
    Ok(UpdateResult {
        text,
        turns: watch.turns,
        lost: watch.lost,
        wires,
    })
}

/// The configuration, with a package.
pub const WHOLE: &[u8] = b"agent 8 00000000-0000-0000-0000-000000000000\n\
    device 9 00000000-0000-0000-0000-000000000000\n\
    descriptor 0000 3412\n\
    component 10 1 0 1 1.0 AA\n\
    package p\n";

/// The same in a network whose packets carry up to 128 bytes.
const WIDE: &[u8] = b"agent 8 00000000-0000-0000-0000-000000000000\n\
    unit 128\n\
    device 9 00000000-0000-0000-0000-000000000000\n\
    descriptor 0000 3412\n\
    component 10 1 0 1 1.0 AA\n\
    package p\n";

/// The first with a device to which no record applies.
const OTHER: &[u8] = b"agent 8 00000000-0000-0000-0000-000000000000\n\
    device 9 00000000-0000-0000-0000-000000000000\n\
    descriptor 0000 3413\n\
    component 10 1 0 1 1.0 AA\n\
    package p\n";

/// The plan with the package of this number, and the text of the fault, if any.
fn planned(
    rt: &HostRuntime,
    config: &[u8],
    package: &[u8],
    number: usize,
) -> Result<Vec<u8>, Fail> {
    let files = [("c", 1, config), ("p", 2, package)];
    let mut output = match Output::new(rt.alloc(), Vec::new(rt.alloc())) {
        Ok(output) => output,
        Err(fault) => return outcome(rt, Err(fault), Vec::new(rt.alloc())),
    };
    let end = plan_file(
        rt.alloc(),
        &MemFiles { files: &files },
        &SystemStores::new(rt),
        Plan {
            config: source(None),
            store: None,
            number,
            form: Form::Text,
        },
        &mut output,
    );
    outcome(rt, end, output.into_writer())
}

#[test]
fn an_update_is_foretold(rt: HostRuntime) -> Result<(), Fail> {
    let whole = b"device 9 package 1 record 1 set \"A\" Update\n\
        component 10 ident 1 size 241 stamp 00000002 version \"v2\" active 00000001 \"1.0\" update\n"
        .as_slice();
    let other =
        b"device 9 package 1 record - set - NoRecord\nrecord 1 lacks descriptor 0000 3412\n".as_slice();
    let table: [(&[u8], usize, &[u8]); 4] = [
        (WHOLE, 1, whole),
        (OTHER, 1, other),
        (WHOLE, 2, b"package: none"),
        (CONFIG, 1, b"package: none"),
    ];
    let package = package(&rt)?;
    for (config, number, text) in table {
        let told = planned(&rt, config, &package, number)?;
        assert!(rt; told.as_slice() == text, "{}", told.escape_ascii());
    }
    Ok(())
}

/// What runs on the devices of a configuration, and the text of the fault, if any. The file of an
/// image is for the component of a device, if one is given.
fn status(
    rt: &HostRuntime,
    config: &[u8],
    device: Option<u8>,
    form: Form,
) -> Result<Vec<u8>, Fail> {
    let files = [("c", 1, config), ("i", 2, b"abc".as_slice())];
    let mut output = match Output::new(rt.alloc(), Vec::new(rt.alloc())) {
        Ok(output) => output,
        Err(fault) => return outcome(rt, Err(fault), Vec::new(rt.alloc())),
    };
    let end = status_file(
        rt.alloc(),
        &MemFiles { files: &files },
        &SystemStores::new(rt),
        Status {
            config: source(device),
            store: None,
            form,
        },
        &mut output,
    );
    outcome(rt, end, output.into_writer())
}

#[test]
fn what_runs_is_told(rt: HostRuntime) -> Result<(), Fail> {
    let text = b"device 9\ncomponent 10 ident 1 size 1 stamp 00000001 version \"1.0\" \
        sha256 bceef655b5a034911f1c3718ce056531b45ef03b4c7b1f15629e867294011a7d\n"
        .as_slice();
    let json = b"{\"format\":\"fwupd-status/1\",\"devices\":[{\"eid\":9,\"components\":[\
        {\"classification\":10,\"identifier\":1,\"index\":0,\"size\":1,\"stamp\":1,\"version\":\"1.0\",\
        \"sha256\":\"bceef655b5a034911f1c3718ce056531b45ef03b4c7b1f15629e867294011a7d\"}]}]}\n"
        .as_slice();
    let imaged = b"device 9\ncomponent 10 ident 1 size 3 stamp 00000001 version \"1.0\" \
        sha256 ba7816bf8f01cfea414140de5dae2223b00361a396177a9cb410ff61f20015ad\n"
        .as_slice();
    let table: [(&[u8], Option<u8>, Form, &[u8]); 5] = [
        (WHOLE, None, Form::Text, text),
        (WHOLE, None, Form::Json, json),
        (b"agent", None, Form::Text, b"c: line 1: Fields"),
        (WHOLE, Some(9), Form::Text, imaged),
        (WHOLE, Some(10), Form::Text, b"component 10/10-1: none"),
    ];
    for (config, device, form, wanted) in table {
        let told = status(&rt, config, device, form)?;
        assert!(rt; told.as_slice() == wanted, "{}", told.escape_ascii());
    }
    Ok(())
}

#[test]
fn an_update_is_reported_turn_by_turn(rt: HostRuntime) -> Result<(), Fail> {
    let report = b"now 12\nagent 8 up\ndevice 9 up ACTIVATE session Done sent 27\n\
        active 9 10 1 241 000102030405060708090A0B0C0D0E0F..\nlog 3 last -\n\
        applied 9 10 1 241\nrecorded 9 1 1\nactivated 9 10 1 241\n"
        .as_slice();
    let wide = b"now 11\nagent 8 up\ndevice 9 up ACTIVATE session Done sent 23\n\
        active 9 10 1 241 000102030405060708090A0B0C0D0E0F..\nlog 3 last -\n\
        applied 9 10 1 241\nrecorded 9 1 1\nactivated 9 10 1 241\n"
        .as_slice();
    let failed = b"now 1\nagent 8 up\ndevice 9 up IDLE session Failed:NoRecord sent 2\n".as_slice();
    let table: [(&[u8], u8, usize, &[u8], &[u8], usize); 6] = [
        (WHOLE, 0, 0, report, b"", 12),
        (WIDE, 0, 0, wide, b"", 11),
        (
            OTHER,
            0,
            0,
            failed,
            b"\nlog 2 last -\nsession 9: NoRecord",
            1,
        ),
        (WHOLE, 9, 0, b"", b"socket: 9", 0),
        (CONFIG, 0, 0, b"", b"package: none", 0),
        (WHOLE, 0, 2, b"now 2\n", b"\ntrace", 2),
    ];
    let package = package(&rt)?;
    for (config, closed, broken, begins, ends, turns) in table {
        let wires = MemWires {
            alloc: rt.alloc(),
            opened: 0,
            closed,
        };
        let end = updated(&rt, config, &package, Some("t"), wires, broken)?;
        assert!(rt;
            end.text.starts_with(begins),
            "{turns} {}",
            end.text.escape_ascii()
        );
        assert!(rt; end.text.ends_with(ends));
        assert!(rt; end.turns == turns && end.lost.is_none());
    }
    Ok(())
}

#[test]
fn no_link_is_opened_where_the_trace_is_refused(rt: HostRuntime) -> Result<(), Fail> {
    let package = package(&rt)?;
    for (trace, is_refused) in [
        ("/", true),
        ("c", true),
        ("p", true),
        ("linked to c", true),
        ("linked to p", true),
        ("another", false),
    ] {
        let wires = MemWires {
            alloc: rt.alloc(),
            opened: 0,
            closed: 9,
        };
        let end = updated(&rt, WHOLE, &package, Some(trace), wires, 0)?;
        let told: &[u8] = if is_refused { b"trace" } else { b"socket: 9" };
        assert!(rt; end.text.as_slice() == told, "{trace}");
        assert!(rt; end.turns == 0 && end.wires.opened == 0);
    }
    Ok(())
}

#[test]
fn a_turn_in_which_a_link_fails_is_seen(rt: HostRuntime) -> Result<(), Fail> {
    let wires = CutWires::new(&rt)?;
    let package = package(&rt)?;
    let end = updated(&rt, WHOLE, &package, None, wires, 0)?;
    let report = b"now 1\nagent 8 up\ndevice 9 up IDLE session Query sent 1\n\
        active 9 10 1 1 AA\nlog 1 last -\nedge: Frame"
        .as_slice();
    assert!(rt; end.text.as_slice() == report);
    assert!(rt; end.turns == 1 && end.lost == Some(9));
    Ok(())
}
