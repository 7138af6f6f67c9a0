//! The packages that a folder is claimed for.

use agent_store::{ClaimFault, claim_packages};
use fw_store::{Failing, Folder, KnownFolder, OpenFault};
use std::alloc::{AllocError, Global};
use std::test::Fail;

/// The line of a package with the bytes `first`, and that of one with the bytes `second`, by
/// another program.
const FIRST: &[u8] = b"A7937B64B8CAA58F03721BB6BACF5C78CB235FEBE0E70B1B84CD99541461A08E\n";

const SECOND: &[u8] = b"16367AACB67A4A017C8DA8AB95682CCB390863780F7114DDA0A0E0C55644C7C4\n";

/// Packages with these bytes.
fn packages(alloc: Global, contents: &[&[u8]]) -> Result<Vec<Vec<u8>>, AllocError> {
    let mut packages = Vec::new(alloc);
    for bytes in contents {
        let mut package = Vec::new(alloc);
        package.extend_from_slice(bytes)?;
        packages.push(package)?;
    }
    Ok(packages)
}

/// Whether a folder has the text of these lines.
fn has_lines(alloc: Global, folder: &KnownFolder, lines: &[&[u8]]) -> Result<bool, AllocError> {
    let mut text = Vec::new(alloc);
    for line in lines {
        text.extend_from_slice(line)?;
    }
    Ok(folder.bytes(b"packages") == Some(text.as_slice()))
}

#[test]
fn packages_may_be_added_at_the_end(rt: HostRuntime) -> Result<(), Fail> {
    let alloc = rt.alloc();
    let mut folder = KnownFolder::new(alloc, 0, Failing::Before);
    let one = packages(alloc, &[b"first"])?;
    let two = packages(alloc, &[b"first", b"second"])?;
    assert!(rt; claim_packages(alloc, &mut folder, &one).is_ok());
    assert!(rt; has_lines(alloc, &folder, &[FIRST])?);
    // a text that is there already isn't written again
    let count = folder.count();
    assert!(rt; claim_packages(alloc, &mut folder, &one).is_ok());
    assert!(rt; folder.count() == count);
    assert!(rt; claim_packages(alloc, &mut folder, &two).is_ok());
    assert!(rt; has_lines(alloc, &folder, &[FIRST, SECOND])?);
    Ok(())
}

#[test]
fn other_packages_are_refused(rt: HostRuntime) -> Result<(), Fail> {
    let alloc = rt.alloc();
    let mut folder = KnownFolder::new(alloc, 0, Failing::Before);
    let two = packages(alloc, &[b"first", b"second"])?;
    let foreign = Err(ClaimFault::Refused(OpenFault::Foreign));
    assert!(rt; claim_packages(alloc, &mut folder, &two).is_ok());
    let others = packages(alloc, &[b"second", b"first"])?;
    assert!(rt; claim_packages(alloc, &mut folder, &others) == foreign);
    let fewer = packages(alloc, &[b"first"])?;
    assert!(rt; claim_packages(alloc, &mut folder, &fewer) == foreign);
    assert!(rt; has_lines(alloc, &folder, &[FIRST, SECOND])?);
    Ok(())
}

#[test]
fn lines_without_packages_are_damaged(rt: HostRuntime) -> Result<(), Fail> {
    let alloc = rt.alloc();
    let mut folder = KnownFolder::new(alloc, 0, Failing::Before);
    folder.write(b"active", b"")?;
    let one = packages(alloc, &[b"first"])?;
    let damaged = Err(ClaimFault::Refused(OpenFault::Damaged));
    assert!(rt; claim_packages(alloc, &mut folder, &one) == damaged);
    assert!(rt; folder.bytes(b"packages").is_none());
    Ok(())
}

#[test]
fn a_folder_that_cant_be_written_is_not_claimed(rt: HostRuntime) -> Result<(), Fail> {
    let alloc = rt.alloc();
    let mut folder = KnownFolder::new(alloc, 2, Failing::Before);
    let one = packages(alloc, &[b"first"])?;
    assert!(rt; claim_packages(alloc, &mut folder, &one) == Err(ClaimFault::Unwritable));
    assert!(rt; folder.bytes(b"packages").is_none());
    assert!(rt; claim_packages(alloc, &mut folder, &one).is_ok());
    assert!(rt; has_lines(alloc, &folder, &[FIRST])?);
    Ok(())
}
