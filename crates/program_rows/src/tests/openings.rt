//! The opening of a history whose file is known.

ghost use Rattle.std.specs.Prelude.{◌≡◌, IfOk, Some, map, reverse, true};

use fwupd_watch::{HistoryCalls, open_history};
use std::alloc::Global;
use std::io::{self, ErrorKind};
use std::test::Fail;

/// The calls on one history in memory, which every path names.
#[derive(Drop)]
struct KnownHistory {
    alloc: Global,
    text: Vec<u8>,
    /// The folders whose names were synced since a call that makes names, the first one first.
    synced: Vec<Vec<u8>>,
    /// The number of folders that can be synced; the others can't be opened.
    folders: usize,
}

/// A copy of bytes.
fn copied(alloc: Global, bytes: &[u8]) -> io::Result<Vec<u8>>
    ensures { IfOk result (λ copy. copy.items ≡ bytes.now) }
{
    let mut copy = Vec::new(alloc);
    match copy.extend_from_slice(bytes) {
        Ok(()) => Ok(copy),
        Err(_) => Err(io::Error::from(ErrorKind::OutOfMemory)),
    }
}

impl HistoryCalls<Vec<u8>> for KnownHistory {
    ghost is_known = { λ h. true };

    ghost may_fail = { λ h. true };

    ghost held = { λ h path. Some h.text.items };

    ghost synced = { λ h. reverse (map (λ name. name.items) h.synced.items) };

    fn make_folders(&mut self, _folder: &str) -> io::Result<()> {
        self.synced.clear();
        Ok(())
    }

    fn open(&mut self, _path: &str) -> io::Result<Vec<u8>> {
        self.synced.clear();
        copied(self.alloc, &self.text)
    }

    fn read(&self, alloc: Global, _path: &str) -> io::Result<Vec<u8>> {
        copied(alloc, &self.text)
    }

    fn truncate(&mut self, file: &mut Vec<u8>, size: usize) -> io::Result<()> {
        file.truncate(size);
        Ok(())
    }

    fn sync_names(&mut self, folder: &str) -> io::Result<bool> {
        if self.synced.len() >= self.folders {
            return Ok(false);
        }
        let name = copied(self.alloc, folder.as_bytes())?;
        match self.synced.push(name) {
            Ok(()) => Ok(true),
            Err(_) => Err(io::Error::from(ErrorKind::OutOfMemory)),
        }
    }
}

/// A history with this text.
fn history(alloc: Global, text: &[u8], folders: usize) -> io::Result<KnownHistory> {
    Ok(KnownHistory {
        alloc,
        text: copied(alloc, text)?,
        synced: Vec::new(alloc),
        folders,
    })
}

/// Whether these folders were synced, in this order.
fn are_synced(history: &KnownHistory, folders: &[&[u8]]) -> bool {
    history.synced.len() == folders.len()
        && history
            .synced
            .iter()
            .zip(folders)
            .all(|(one, other)| one.as_slice() == *other)
}

#[test]
fn a_last_line_without_its_end_is_cut_off(rt: HostRuntime) -> Result<(), Fail> {
    let alloc = rt.alloc();
    for (text, lines) in [
        (b"".as_slice(), b"".as_slice()),
        (b"one", b""),
        (b"one\ntwo", b"one\n"),
        (b"one\ntwo\n", b"one\ntwo\n"),
        (b"one\n\n\ntwo", b"one\n\n\n"),
    ] {
        let mut history = history(alloc, text, 9)?;
        let file = open_history(&mut history, alloc, "a/b", "a/b/history")?;
        assert!(rt; file.as_slice() == lines);
    }
    Ok(())
}

#[test]
fn the_names_of_its_folders_are_synced(rt: HostRuntime) -> Result<(), Fail> {
    let alloc = rt.alloc();
    let mut all = history(alloc, b"", 9)?;
    open_history(&mut all, alloc, "a/b/c", "a/b/c/history")?;
    assert!(rt; are_synced(&all, &[b"a/b/c", b"a/b", b"a", b"."]));
    let mut two = history(alloc, b"", 2)?;
    open_history(&mut two, alloc, "a/b/c", "a/b/c/history")?;
    assert!(rt; are_synced(&two, &[b"a/b/c", b"a/b"]));
    let mut one = history(alloc, b"", 1)?;
    assert!(rt; open_history(&mut one, alloc, "a/b/c", "a/b/c/history").is_err());
    Ok(())
}
