//! The worked device of the tests, and how it reaches each place of an update.

ghost use Rattle.std.specs.Prelude.{◌≡◌, ◌∷◌, [], IfOk, map};
ghost use Rattle.fd_core.specs.Images.{key_of};

use arrayvec::ArrayVec;
use fd_core::{
    Bank, BankComponent, BankFault, Device, FailBank, Key, Label, MAX_IMAGE, MemBank, Verdict,
};
use fwup_wire::code::command::{
    ACTIVATE_FIRMWARE, APPLY_COMPLETE, PASS_COMPONENT_TABLE, REQUEST_FIRMWARE_DATA, REQUEST_UPDATE,
    TRANSFER_COMPLETE, UPDATE_COMPONENT, VERIFY_COMPLETE,
};
use fwup_wire::{
    Answer, Command, DescriptorList, DeviceDescriptor, MAX_TRANSFER, Malformed, TypedText, Version,
    read,
};
use mctp_wire::Unit;
use pldm_base::Reply;
use std::alloc::Global;

/// The worked device's component.
pub const KEY: Key = Key {
    classification: 10,
    identifier: 1,
};

/// The second component of a device of two.
pub const OTHER: Key = Key {
    classification: 10,
    identifier: 2,
};

/// RequestUpdate: transfer size 240, one component, set text `A`.
pub const REQUEST: [u8; 12] = [0xF0, 0, 0, 0, 1, 0, 1, 0, 0, 1, 1, 0x41];

/// The same with transfer size 496.
pub const LONG_REQUEST: [u8; 12] = [0xF0, 1, 0, 0, 1, 0, 1, 0, 0, 1, 1, 0x41];

/// PassComponentTable: (10, 1) alone, stamp 2, `v2`.
pub const ENTRY: [u8; 14] = [5, 0x0A, 0, 1, 0, 0, 2, 0, 0, 0, 1, 2, 0x76, 0x32];

/// The size in bytes of the worked image.
pub const SIZE: u32 = 241;

/// The padding after the image in an answer to RequestFirmwareData.
pub const PADDING: u8 = 0xEE;

/// A bound above the number of requests for the longest image.
const MOST_REQUESTS: u32 = 5000;

/// No update.
pub const IDLE: usize = 0;
/// LEARN COMPONENTS.
pub const LEARN: usize = 1;
/// READY XFER.
pub const READY: usize = 2;
/// DOWNLOAD, in progress.
pub const DOWNLOAD: usize = 3;
/// DOWNLOAD, all bytes stored.
pub const DOWNLOADED: usize = 4;
/// VERIFY, in progress.
pub const VERIFY: usize = 5;
/// VERIFY, the image is sound.
pub const VERIFIED: usize = 6;
/// APPLY, in progress.
pub const APPLY: usize = 7;
/// APPLY, the image is applied.
pub const APPLIED: usize = 8;
/// READY XFER with an applied component.
pub const COMPLETE: usize = 9;
/// ACTIVATE.
pub const ACTIVATE: usize = 10;

/// UpdateComponent: (10, 1), `v2`, with this stamp, size and force bit.
pub fn offer(stamp: u32, size: u32, force: bool) -> [u8; 21] {
    let stamp = stamp.to_le_bytes();
    let size = size.to_le_bytes();
    [
        0x0A,
        0,
        1,
        0,
        0,
        stamp[0],
        stamp[1],
        stamp[2],
        stamp[3],
        size[0],
        size[1],
        size[2],
        size[3],
        u8::from(force),
        0,
        0,
        0,
        1,
        2,
        0x76,
        0x32,
    ]
}

/// The worked device's descriptors: type 0, data 34 12.
fn descriptors() -> DescriptorList {
    let mut descriptors = DescriptorList::new();
    descriptors.push(&DeviceDescriptor {
        kind: 0,
        bytes: &[0x34, 0x12],
    });
    descriptors
}

/// A label of text type 1.
pub fn label(stamp: u32, text: &[u8]) -> Label {
    Label::new(&Version {
        stamp,
        text: TypedText {
            text_type: 1,
            bytes: text,
        },
    })
}

/// A bank with component (10, 1), `1.0` of this stamp and image AA.
pub fn bank(alloc: Global, stamp: u32) -> Result<MemBank, BankFault>
    ensures { IfOk result (λ b. map key_of b.rows ≡ KEY ∷ []) }
{
    let mut bank = MemBank::new(alloc);
    bank.add(KEY, &label(stamp, b"1.0"), &[0xAA])?;
    Ok(bank)
}

/// A device of the tests.
pub type Tested = Device<FailBank>;

/// The worked device over this bank, at this transmission unit.
fn device_of_one(unit: Unit, bank: FailBank) -> Tested
    requires { map key_of bank.bank.rows ≡ KEY ∷ [] }
{
    let mut components = ArrayVec::new();
    components.push(BankComponent { key: KEY, index: 0 });
    Device::new(unit, descriptors(), components, bank)
}

/// A device of two components, (10, 1) and (10, 2), both of stamp 1 and text `1.0`.
fn device_of_two(alloc: Global) -> Result<Tested, BankFault> {
    let mut bank = MemBank::new(alloc);
    let label = label(1, b"1.0");
    bank.add(KEY, &label, &[0xAA])?;
    bank.add(OTHER, &label, &[0xBB])?;
    let mut components = ArrayVec::new();
    components.push(BankComponent { key: KEY, index: 0 });
    components.push(BankComponent {
        key: OTHER,
        index: 1,
    });
    Ok(Device::new(Unit::U64, descriptors(), components, FailBank::new(bank, 0)))
}

/// How a device is made.
#[derive(Clone, Copy)]
pub enum Made {
    /// The worked device, at this transmission unit and with this stamp.
    Worked(Unit, u32),
    /// The worked device over a bank whose call of this number, counted from 1, fails.
    Failing(u64),
    /// The device of two components.
    Twofold,
}

/// The worked device.
pub const WORKED: Made = Made::Worked(Unit::U64, 1);

/// Makes a device.
pub fn device(alloc: Global, made: Made) -> Result<Tested, BankFault> {
    let (unit, stamp, fails) = match made {
        Made::Worked(unit, stamp) => (unit, stamp, 0),
        Made::Failing(call) => (Unit::U64, 1, call),
        Made::Twofold => return device_of_two(alloc),
    };
    Ok(device_of_one(unit, FailBank::new(bank(alloc, stamp)?, fails)))
}

/// RequestUpdate of an agent at this transmission unit.
pub fn request(unit: Unit) -> [u8; 12] {
    match unit {
        Unit::U64 => REQUEST,
        Unit::U128 => LONG_REQUEST,
    }
}

/// The reply to a command and its request data.
pub fn ask(device: &mut Tested, command: u8, fields: &[u8], quiet: bool) -> Reply {
    match read(command, fields) {
        Ok(command) => device.take(&command, quiet),
        Err(code) => {
            let mut reply = Reply::new();
            reply.push(code);
            reply
        }
    }
}

/// Answers the requests for data with byte `i` being `i mod 256`, and `PADDING` past the image, as
/// long as there are any. Returns the number of requests, and the offset and length of the last.
fn transfer(device: &mut Tested, size: u32) -> (u32, u32, u32) {
    let mut last = (0, 0);
    for count in 0..MOST_REQUESTS {
        let Some(Command::RequestFirmwareData { offset, length }) = device.wish() else {
            return (count, last.0, last.1);
        };
        last = (offset, length);
        let mut piece: ArrayVec<u8, MAX_TRANSFER> = ArrayVec::new();
        for i in 0..length {
            let place = offset.wrapping_add(i);
            let _ = piece.try_push(if place < size {
                (place % 256) as u8
            } else {
                PADDING
            });
        }
        device.learn(Ok(&Answer::RequestFirmwareData(piece.as_slice())));
    }
    (MOST_REQUESTS, last.0, last.1)
}

/// Takes one step of an update of `size` bytes, from place `place` to the next.
fn step(device: &mut Tested, place: usize, size: u32) {
    match place {
        IDLE => {
            let _ = ask(device, REQUEST_UPDATE, &request(device.unit()), true);
        }
        LEARN => {
            let _ = ask(device, PASS_COMPONENT_TABLE, &ENTRY, true);
        }
        READY => {
            let _ = ask(device, UPDATE_COMPONENT, &offer(2, size, false), true);
        }
        DOWNLOAD => {
            let _ = transfer(device, size);
        }
        DOWNLOADED => device.learn(Ok(&Answer::TransferComplete)),
        VERIFY => {
            let _ = device.verdict(Verdict::VerifyOk);
        }
        VERIFIED => device.learn(Ok(&Answer::VerifyComplete)),
        APPLY => {
            let _ = device.verdict(Verdict::ApplyOk);
        }
        APPLIED => device.learn(Ok(&Answer::ApplyComplete)),
        _ => {
            let _ = ask(device, ACTIVATE_FIRMWARE, &[1], true);
        }
    }
}

/// Advances a device from one place to a later one of an update of `size` bytes.
pub fn go(device: &mut Tested, from: usize, to: usize, size: u32) {
    for place in from..to {
        step(device, place, size);
    }
}

/// An image: its stamp, its size and its first byte. Each further byte is the one before it plus 1,
/// modulo 256.
pub type Image = (u32, u32, u8);

/// A call of a device in a case, or an observation of it, and the expected result.
#[derive(Clone, Copy)]
pub enum Call<'a> {
    /// A command and its request data, and the reply.
    Ask(u8, &'a [u8], &'a [u8]),
    /// The same while a request is open.
    Busy(u8, &'a [u8], &'a [u8]),
    /// Advances from one place to a later one of an update of this many bytes.
    Go(usize, usize, u32),
    /// Transfers an image of this many bytes: the number of requests for data, and the offset and
    /// length of the last.
    Transfer(u32, (u32, u32, u32)),
    /// The device receives the answer that a command is malformed, or is refused with this code.
    Malformed,
    Refused(u8),
    /// This verdict, which is taken.
    Judge(Verdict),
    /// This number of ticks.
    Ticks(u32),
    /// The expected number of the state.
    Is(u8),
    /// Whether the update may be activated.
    May(bool),
    /// The pending command and its result, if any.
    Reports(Option<(u8, u8)>),
    /// The active image of a component.
    Active(Key, Image),
    /// The applied image of the worked component, if any.
    Applied(Option<Image>),
    /// The components.
    Keys(&'a [BankComponent]),
}

/// Makes a call. Returns whether a device behaves as it expects.
fn does(device: &mut Tested, call: &Call<'_>) -> bool {
    match *call {
        Call::Ask(command, fields, reply) => ask(device, command, fields, true).as_slice() == reply,
        Call::Busy(command, fields, reply) => {
            ask(device, command, fields, false).as_slice() == reply
        }
        Call::Go(from, to, size) => {
            go(device, from, to, size);
            true
        }
        Call::Transfer(size, requests) => transfer(device, size) == requests,
        Call::Malformed => {
            device.learn(Err(Malformed));
            true
        }
        Call::Refused(code) => {
            device.learn(Ok(&Answer::Refused { code }));
            true
        }
        Call::Judge(verdict) => device.verdict(verdict).is_ok(),
        Call::Ticks(count) => {
            pass(device, count);
            true
        }
        _ => is_so(device, call),
    }
}

/// Whether an observation of a device is as expected.
fn is_so(device: &Tested, call: &Call<'_>) -> bool {
    match *call {
        Call::Is(state) => number(device) == state,
        Call::May(may) => device.may_activate() == may,
        Call::Reports(pending) => report(device) == pending,
        Call::Active(key, image) => is_image(device.bank().active(key), Some(image)),
        Call::Applied(image) => is_image(device.bank().applied(KEY), image),
        Call::Keys(keys) => device.keys() == keys,
        _ => false,
    }
}

/// Returns whether a device behaves as the calls expect.
fn follows(device: &mut Tested, calls: &[Call<'_>]) -> bool {
    for call in calls {
        if !does(device, call) {
            return false;
        }
    }
    true
}

/// A case: a device, and its calls.
#[derive(Clone, Copy)]
pub struct Row<'a> {
    pub situation: &'a str,
    pub made: Made,
    pub calls: &'a [Call<'a>],
}

/// Returns whether the device of a case behaves as its calls expect.
pub fn holds(alloc: Global, row: &Row<'_>) -> bool {
    match device(alloc, row.made) {
        Ok(mut device) => follows(&mut device, row.calls),
        Err(_) => false,
    }
}

/// The number of the device's state.
pub fn number(device: &Tested) -> u8 {
    device.state() as u8
}

/// The pending command of the device and its result, 0 for a request for data.
fn report(device: &Tested) -> Option<(u8, u8)> {
    match device.wish()? {
        Command::TransferComplete { result } => Some((TRANSFER_COMPLETE, result)),
        Command::VerifyComplete { result } => Some((VERIFY_COMPLETE, result)),
        Command::ApplyComplete { result, .. } => Some((APPLY_COMPLETE, result)),
        _ => Some((REQUEST_FIRMWARE_DATA, 0)),
    }
}

/// Passes `ticks` ticks.
fn pass(device: &mut Tested, ticks: u32) {
    for _ in 0..ticks {
        device.idle_tick();
    }
}

/// Whether an image is the expected one.
fn is_image(found: Option<(&Label, &[u8])>, image: Option<Image>) -> bool {
    match (found, image) {
        (Some((label, bytes)), Some((stamp, size, first))) => {
            label.stamp() == stamp && bytes.len() == size as usize && are_rising(bytes, first)
        }
        (None, None) => true,
        _ => false,
    }
}

/// Whether bytes rise from this one, modulo 256.
fn are_rising(bytes: &[u8], first: u8) -> bool {
    let mut expected = first;
    for byte in bytes {
        if *byte != expected {
            return false;
        }
        expected = expected.wrapping_add(1);
    }
    true
}

/// Writes an image of these bytes for the worked component, and seals it if `seals` is set. Returns
/// whether all calls worked.
pub fn write(bank: &mut MemBank, image: &[u8], seals: bool) -> bool {
    if bank.active(KEY).is_none() || image.len() > MAX_IMAGE as usize {
        return false;
    }
    if bank
        .begin(KEY, image.len() as u32, &label(2, b"v2"))
        .is_err()
    {
        return false;
    }
    if bank.put(image).is_err() {
        return false;
    }
    !seals || bank.seal().is_ok()
}
