//! The content of a store in a folder, whatever fails.

ghost use Rattle.std.specs.Prelude.{◌≡◌, IfOk, Ok};
ghost use Rattle.fw_store.specs.Changes.{files_of};
ghost use Rattle.fw_store.specs.Opening.{found_in};

use fd_core::{Key, Label};
use fw_store::{
    Failing, Folder, FolderFault, FolderStore, ImageEntry, Kept, KnownCalls, KnownFolder, MemStore,
    OpenFault, Store, Stored, SyncedFolder, active_text, open_store, read_active, read_store,
};
use fwup_wire::{TypedText, Version};
use std::alloc::Global;
use std::test::Fail;

/// The first component.
const FIRST: Key = Key {
    classification: 10,
    identifier: 1,
};

/// The second.
const SECOND: Key = Key {
    classification: 65535,
    identifier: 0,
};

/// The text of two images, written by hand, with CRC-32s of another program.
const WORKED: &[u8] =
    b"10 1 305419896 1 76312E32 10-1.3.image 3 55BC801D\n65535 0 0 0 - 65535-0.12.image 0 00000000\n03E0AFF7\n";

/// A label with this stamp, text type and text.
fn label(stamp: u32, text_type: u8, bytes: &[u8]) -> Label {
    Label::new(&Version {
        stamp,
        text: TypedText { text_type, bytes },
    })
}

/// Whether these are the bytes of both components.
fn are(images: &[Stored], first: &[u8], second: &[u8]) -> bool {
    match images {
        [one, other] => one.image().bytes == first && other.image().bytes == second,
        _ => false,
    }
}

/// The number of files in a folder.
fn count(alloc: Global, folder: &KnownFolder) -> Result<usize, FolderFault> {
    Ok(folder.names(alloc)?.len())
}

/// The folder, in which no more call fails.
fn sound(folder: &KnownFolder) -> Result<KnownFolder, Fail> {
    Ok(folder.after(folder.count())?)
}

/// The images that a folder has for some components, as they are read.
fn found(
    alloc: Global,
    folder: &KnownFolder,
    components: &[Kept<'_>],
) -> Result<MemStore, OpenFault>
    ensures { IfOk result (λ s. found_in components.now (files_of folder.now.changes.items) ≡ Ok s.images.items) }
{
    read_store(alloc, folder, components)
}

/// Opens a store over AA and BB BB.
fn open<F: Folder + Drop>(alloc: Global, folder: F) -> Result<FolderStore<F>, OpenFault> {
    let label = label(1, 1, b"a");
    let components = [
        Kept {
            key: FIRST,
            label: &label,
            bytes: &[0xAA],
        },
        Kept {
            key: SECOND,
            label: &label,
            bytes: &[0xBB, 0xBB],
        },
    ];
    open_store(alloc, folder, &components)
}

/// Stores these bytes of both components.
fn keep<'a, F: Folder + Drop>(
    store: &mut FolderStore<F>,
    first: &'a [u8],
    second: &'a [u8],
) -> bool {
    let label = label(2, 1, b"b");
    let images = [
        Kept {
            key: FIRST,
            label: &label,
            bytes: first,
        },
        Kept {
            key: SECOND,
            label: &label,
            bytes: second,
        },
    ];
    store.keep(&images).is_ok()
}

/// Whether a failing call of the folder leaves the images from before or after `keep`, and those
/// from after if `keep` reports no failure.
fn lasts(alloc: Global, call: u32, failing: Failing) -> Result<bool, Fail> {
    let mut store = open(
        alloc,
        KnownFolder::new(alloc, call.saturating_add(4), failing),
    )?;
    let begun = keep(&mut store, &[1], &[2, 2]);
    let kept = keep(&mut store, &[3, 3, 3], &[4, 4, 4, 4]);
    let after = are(store.images(), &[3, 3, 3], &[4, 4, 4, 4]);
    let mut again = open(alloc, sound(store.folder())?)?;
    again.sweep()?;
    let found = are(again.images(), &[3, 3, 3], &[4, 4, 4, 4]);
    let before = are(again.images(), &[1], &[2, 2]);
    Ok(
        begun
            && kept == after
            && (found || before)
            && (found || !kept)
            && count(alloc, again.folder())? == 3,
    )
}

#[test]
fn a_call_that_fails_leaves_the_images_before_or_after(rt: HostRuntime) -> Result<(), Fail> {
    for call in 1..6 {
        for failing in [Failing::Before, Failing::Half, Failing::After] {
            assert!(rt; lasts(rt.alloc(), call, failing)?);
        }
    }
    Ok(())
}

/// Whether a crash after each call of the folder leaves the images from before or after `keep`.
/// Once one left those from after, no later one leaves those from before.
fn stands(alloc: Global, call: u32, failing: Failing) -> Result<bool, Fail> {
    let mut store = open(
        alloc,
        KnownFolder::new(alloc, call.saturating_add(4), failing),
    )?;
    let mut stands = keep(&mut store, &[1], &[2, 2]);
    let first = store.folder().count();
    let _ = keep(&mut store, &[3, 3, 3], &[4, 4, 4, 4]);
    let mut has_come = false;
    for calls in first..store.folder().count().saturating_add(1) {
        let again = open(alloc, store.folder().after(calls)?)?;
        let is_before = are(again.images(), &[1], &[2, 2]);
        has_come = has_come || !is_before;
        let is_one = if has_come {
            are(again.images(), &[3, 3, 3], &[4, 4, 4, 4])
        } else {
            is_before
        };
        stands = stands && is_one;
    }
    let comes = call > 4 || (call == 4 && failing == Failing::After);
    Ok(stands && has_come == comes)
}

#[test]
fn a_crash_between_calls_leaves_the_images_before_or_after(rt: HostRuntime) -> Result<(), Fail> {
    for call in 1..6 {
        for failing in [Failing::Before, Failing::Half, Failing::After] {
            assert!(rt; stands(rt.alloc(), call, failing)?);
        }
    }
    Ok(())
}

/// The images that a loss of power leaves, which comes before call `call` of a second `keep`.
#[derive(Clone, Copy)]
struct Left {
    begun: bool,
    kept: bool,
    before: bool,
    after: bool,
}

/// Keeps images twice, and loses the power at a call of the second time. Each time there are nine
/// calls: two for each image's file and for the text's, and a sync before and after the renaming.
fn left_without_power(alloc: Global, call: u32, is_early: bool) -> Result<Left, Fail> {
    let calls = KnownCalls::new(alloc, call.saturating_add(9), is_early);
    let mut store = open(alloc, SyncedFolder::new(calls))?;
    let begun = keep(&mut store, &[1], &[2, 2]);
    let kept = keep(&mut store, &[3, 3, 3], &[4, 4, 4, 4]);
    let again = open(alloc, sound(store.folder().calls().lasting())?)?;
    Ok(Left {
        begun,
        kept,
        before: are(again.images(), &[1], &[2, 2]),
        after: are(again.images(), &[3, 3, 3], &[4, 4, 4, 4]),
    })
}

#[test]
fn a_loss_of_power_leaves_the_images_before_or_after(rt: HostRuntime) -> Result<(), Fail> {
    for call in 1..11 {
        for is_early in [false, true] {
            let left = left_without_power(rt.alloc(), call, is_early)?;
            let has_come = call == 10 || (call == 9 && is_early);
            assert!(rt; left.begun && left.kept == (call == 10));
            assert!(rt; left.after == has_come && left.before == !has_come);
        }
    }
    Ok(())
}

#[test]
fn what_is_read_is_what_was_kept(rt: HostRuntime) -> Result<(), Fail> {
    let alloc = rt.alloc();
    let mut store = open(alloc, KnownFolder::new(alloc, 0, Failing::Before))?;
    assert!(rt; keep(&mut store, &[1, 2], &[3]));
    let label = label(1, 1, b"a");
    let components = [Kept {
        key: SECOND,
        label: &label,
        bytes: &[0xBB],
    }];
    let read = found(alloc, store.folder(), &components);
    assert!(rt; matches!(read, Err(OpenFault::Foreign)));
    let none = KnownFolder::new(alloc, 0, Failing::Before);
    let read = found(alloc, &none, &components)?;
    assert!(rt; read.bytes(SECOND) == Some([0xBB].as_slice()));
    assert!(rt; read.bytes(FIRST).is_none());
    Ok(())
}

/// Whether images are kept after a try in which the call of this number came halfway.
fn keeps_again(alloc: Global, call: u32, failing: Failing) -> Result<bool, Fail> {
    let mut store = open(alloc, KnownFolder::new(alloc, call, failing))?;
    let was_kept = keep(&mut store, &[1], &[2]);
    let stays = are(store.images(), &[0xAA], &[0xBB, 0xBB]);
    let is_kept = keep(&mut store, &[1], &[2]);
    let again = open(alloc, store.into_folder())?;
    let is_found = are(again.images(), &[1], &[2])
        && again.folder().bytes(b"10-1.2.image") == Some([1].as_slice());
    Ok(!was_kept && stays && is_kept && is_found)
}

// The second call writes the second image, the third the text that names both, and the fourth
// renames it.
#[test]
fn what_fails_once_can_be_kept_again(rt: HostRuntime) -> Result<(), Fail> {
    assert!(rt; keeps_again(rt.alloc(), 2, Failing::Half)?);
    assert!(rt; keeps_again(rt.alloc(), 3, Failing::Half)?);
    assert!(rt; keeps_again(rt.alloc(), 4, Failing::Before)?);
    Ok(())
}

#[test]
fn a_store_that_is_unsure_keeps_nothing_more(rt: HostRuntime) -> Result<(), Fail> {
    let alloc = rt.alloc();
    let mut store = open(alloc, KnownFolder::new(alloc, 4, Failing::After))?;
    assert!(rt; !keep(&mut store, &[1], &[2]));
    assert!(rt; !keep(&mut store, &[3], &[4]));
    assert!(rt; are(store.images(), &[0xAA], &[0xBB, 0xBB]));
    let again = open(alloc, store.into_folder())?;
    assert!(rt; are(again.images(), &[1], &[2]));
    Ok(())
}

#[test]
fn a_text_written_by_hand_is_read(rt: HostRuntime) -> Result<(), Fail> {
    let Some(entries) = read_active(rt.alloc(), WORKED)? else {
        return Err(Fail::new("refused"));
    };
    let [first, second] = entries.as_slice() else {
        return Err(Fail::new("two images"));
    };
    assert!(rt;
        first.key == FIRST && first.label.stamp == 0x12345678 && first.label.text_type == 1
    );
    assert!(rt; first.label.text.as_slice() == b"v1.2".as_slice());
    assert!(rt; first.number == 3 && first.size == 3 && first.checksum == 0x55BC_801D);
    assert!(rt; second.key == SECOND && second.label.stamp == 0 && second.label.text_type == 0);
    assert!(rt; second.label.text.is_empty());
    assert!(rt; second.number == 12 && second.size == 0 && second.checksum == 0);
    let written = active_text(rt.alloc(), entries.as_slice())?;
    assert!(rt; written.as_slice() == WORKED);
    Ok(())
}

/// A copy of bytes with one changed.
fn turned(alloc: Global, bytes: &[u8], place: usize, by: u8) -> Result<Vec<u8>, Fail> {
    let mut turned = Vec::new(alloc);
    for (i, byte) in bytes.iter().enumerate() {
        turned.push(if i == place { *byte ^ by } else { *byte })?;
    }
    Ok(turned)
}

#[test]
fn each_byte_that_is_turned_is_told(rt: HostRuntime) -> Result<(), Fail> {
    let alloc = rt.alloc();
    for place in 0..WORKED.len() {
        for by in [1, 2, 4, 0x20, 0x80] {
            let text = turned(alloc, WORKED, place, by)?;
            assert!(rt; read_active(alloc, text.as_slice())?.is_none());
        }
    }
    Ok(())
}

/// Whether a store whose file has these bytes is damaged, and is left unchanged.
fn is_damaged(
    alloc: Global,
    folder: &KnownFolder,
    name: &[u8],
    bytes: &[u8],
) -> Result<bool, Fail> {
    let mut folder = sound(folder)?;
    folder.write(name, bytes)?;
    folder.write(b"active.new", b"half")?;
    Ok(matches!(open(alloc, folder), Err(OpenFault::Damaged)))
}

#[test]
fn an_image_that_is_cut_or_turned_is_told(rt: HostRuntime) -> Result<(), Fail> {
    let alloc = rt.alloc();
    let mut store = open(alloc, KnownFolder::new(alloc, 0, Failing::Before))?;
    assert!(rt; keep(&mut store, &[1, 2, 3], &[4]));
    let folder = store.into_folder();
    assert!(rt; is_damaged(alloc, &folder, b"10-1.1.image", &[1, 2])?);
    assert!(rt; is_damaged(alloc, &folder, b"10-1.1.image", &[1, 2, 2])?);
    assert!(rt; is_damaged(alloc, &folder, b"10-1.1.image", &[1, 2, 3, 0])?);
    assert!(rt; is_damaged(alloc, &folder, b"active", b"")?);
    assert!(rt; !is_damaged(alloc, &folder, b"10-1.1.image", &[1, 2, 3])?);
    Ok(())
}

#[test]
fn what_active_does_not_name_is_removed(rt: HostRuntime) -> Result<(), Fail> {
    let alloc = rt.alloc();
    let mut folder = KnownFolder::new(alloc, 0, Failing::Before);
    for name in [
        b"10-1.7.image".as_slice(),
        b"active.new",
        b"history",
        b"010-1.7.image",
        b"10-1.7.image.txt",
    ] {
        folder.write(name, b"x")?;
    }
    let mut store = open(alloc, folder)?;
    assert!(rt; are(store.images(), &[0xAA], &[0xBB, 0xBB]));
    assert!(rt; count(alloc, store.folder())? == 5);
    store.sweep()?;
    assert!(rt; are(store.images(), &[0xAA], &[0xBB, 0xBB]));
    assert!(rt; count(alloc, store.folder())? == 3);
    assert!(rt; store.folder().bytes(b"history").is_some());
    assert!(rt; store.folder().bytes(b"010-1.7.image").is_some());
    Ok(())
}

#[test]
fn a_store_of_another_configuration_is_foreign(rt: HostRuntime) -> Result<(), Fail> {
    let alloc = rt.alloc();
    let mut store = open(alloc, KnownFolder::new(alloc, 0, Failing::Before))?;
    assert!(rt; keep(&mut store, &[1], &[2]));
    let label = label(1, 1, b"a");
    let components = [Kept {
        key: FIRST,
        label: &label,
        bytes: &[0xAA],
    }];
    let opened = open_store(alloc, store.into_folder(), &components);
    assert!(rt; matches!(opened, Err(OpenFault::Foreign)));
    Ok(())
}
