//! Histories, and whether the checker finds them lawful.

ghost use Rattle.std.specs.Prelude.{IfSome, map};
ghost use Rattle.fw_script.specs.Seen.{device_of};
ghost use Rattle.fw_script.specs.Whole.{AreWhole};

use crate::worked::file;
use fd_core::Key;
use fw_message::{Entry, HistoryEvent, Image};
use fw_package::Package;
use fw_script::{Config, read_config};
use fw_soak::is_right_history;
use std::alloc::{AllocError, Global};
use std::borrow::CowSlice;
use std::test::Fail;
use ua_core::Recorded;

/// The worked device 9, and a device 10 for which the package has no image.
const CONFIG: &[u8] = b"agent 8 00000000-0000-0000-0000-000000000000\n\
    device 9 00000000-0000-0000-0000-000000000000\n\
    descriptor 0000 3412\n\
    component 10 1 0 1 1.0 AA\n\
    device 10 00000000-0000-0000-0000-000000000000\n\
    descriptor 0000 3413\n\
    component 10 1 0 1 1.0 AA\n";

/// A change of the package's image, whose byte i is i.
#[derive(Clone, Copy)]
enum Bytes {
    /// No change.
    Own,
    /// The last byte is changed.
    Other,
    /// A byte is appended.
    Padded,
    /// The last byte is removed.
    Short,
}

/// An event of a device.
#[derive(Clone, Copy)]
enum Happens {
    /// The device applies this image for the component (10, N).
    Applies(u16, Bytes),
    /// The agent records this component of this package, both by number.
    Records(usize, usize),
    /// The device activates this image for the component (10, N).
    Activates(u16, Bytes),
}

/// Returns the configuration of the worked devices.
pub fn worked(alloc: Global) -> Option<Config>
    ensures { IfSome result (λ c. AreWhole c.agent.eid (map device_of c.devices.items)) }
{
    match read_config(alloc, CONFIG) {
        Ok(config) => Some(config),
        Err(_) => None,
    }
}

/// An image for the component (10, N).
fn image(alloc: Global, identifier: u16, bytes: Bytes) -> Result<Image<'static>, AllocError> {
    let mut image = Vec::new(alloc);
    for byte in 0..=239 {
        image.push(byte)?;
    }
    match bytes {
        Bytes::Own => image.push(240)?,
        Bytes::Other => image.push(241)?,
        Bytes::Padded => image.extend_from_slice(&[240, 0])?,
        Bytes::Short => {}
    }
    Ok(Image {
        key: Key {
            classification: 10,
            identifier,
        },
        bytes: CowSlice::Owned(image),
    })
}

/// The entries of a history with these events, each of a device.
fn entries(alloc: Global, things: &[(u8, Happens)]) -> Result<Vec<Entry<'static>>, AllocError> {
    let mut entries = Vec::new(alloc);
    for (device, thing) in things {
        let event = match *thing {
            Happens::Applies(identifier, bytes) => HistoryEvent::Applied(image(
                alloc, identifier, bytes,
            )?),
            Happens::Records(package, component) => HistoryEvent::Recorded(Recorded {
                package,
                component,
            }),
            Happens::Activates(identifier, bytes) => {
                HistoryEvent::Activated(image(alloc, identifier, bytes)?)
            }
        };
        entries.push(Entry {
            device: *device,
            event,
        })?;
    }
    Ok(entries)
}

/// Whether the checker finds these events lawful.
fn are_right(alloc: Global, things: &[(u8, Happens)]) -> Option<bool> {
    let config = worked(alloc)?;
    let Ok(file) = file(alloc) else {
        return None;
    };
    let Ok(package) = Package::read(&file) else {
        return None;
    };
    let Ok(history) = entries(alloc, things) else {
        return None;
    };
    match is_right_history(
        alloc,
        &[package],
        config.devices.as_slice(),
        history.as_slice(),
    ) {
        Ok(right) => Some(right),
        Err(_) => None,
    }
}

#[test]
fn judges_histories(rt: HostRuntime) {
    let alloc = rt.alloc();
    let applied = (9, Happens::Applies(1, Bytes::Own));
    let recorded = (9, Happens::Records(1, 0));
    let activated = (9, Happens::Activates(1, Bytes::Own));
    assert!(rt; are_right(alloc, &[]) == Some(true));
    assert!(rt; are_right(alloc, &[applied, recorded, activated]) == Some(true));
    assert!(rt; are_right(alloc, &[applied, recorded, activated, applied, recorded]) == Some(true));
    // An image that a device applies isn't checked until it is recorded or activated.
    assert!(rt; are_right(alloc, &[(9, Happens::Applies(1, Bytes::Other))]) == Some(true));
    // Other bytes, also some with an equal beginning.
    for bytes in [Bytes::Other, Bytes::Padded, Bytes::Short] {
        assert!(rt; are_right(alloc, &[(9, Happens::Activates(1, bytes))]) == Some(false));
        assert!(rt; are_right(alloc, &[(9, Happens::Applies(1, bytes)), recorded]) == Some(false));
    }
    // A record without its application, before it, or after another device's or component's.
    assert!(rt; are_right(alloc, &[recorded]) == Some(false));
    assert!(rt; are_right(alloc, &[recorded, applied]) == Some(false));
    assert!(rt;
        are_right(alloc, &[(10, Happens::Applies(1, Bytes::Own)), recorded]) == Some(false)
    );
    assert!(rt; are_right(alloc, &[(9, Happens::Applies(2, Bytes::Own)), recorded]) == Some(false));
    // A record of a component or a package that doesn't exist.
    assert!(rt; are_right(alloc, &[applied, (9, Happens::Records(1, 1))]) == Some(false));
    assert!(rt; are_right(alloc, &[applied, (9, Happens::Records(2, 0))]) == Some(false));
    assert!(rt; are_right(alloc, &[applied, (9, Happens::Records(0, 0))]) == Some(false));
    // An image of another component, and one that the package has for another device, or for none.
    assert!(rt; are_right(alloc, &[(9, Happens::Activates(2, Bytes::Own))]) == Some(false));
    assert!(rt; are_right(alloc, &[(10, Happens::Activates(1, Bytes::Own))]) == Some(false));
    assert!(rt; are_right(alloc, &[(11, Happens::Activates(1, Bytes::Own))]) == Some(false));
    assert!(rt;
        are_right(alloc, &[activated, (10, Happens::Activates(1, Bytes::Own))]) == Some(false)
    );
}
