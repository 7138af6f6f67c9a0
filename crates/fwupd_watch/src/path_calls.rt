//! What a file system says of paths, and the places of files that follow from it.

ghost use Rattle.std.specs.Prelude.{◌≡◌, IfOk, IfSome, List, Option, ℕ, option_map, string_bytes};
ghost use Rattle.fwupd_watch.specs.PathCalls.{ComparesPlaces, LocatesBelow, LocatesLink, LocatesPath, PathsOf};

use crate::files::{FileIdentity, folder_and_name, is_in, is_one_entry, path_above};
use std::alloc::{AllocError, Global};

/// A file system that is asked about paths. In contracts, `known` is what it says of each, if that
/// is known.
pub(crate) trait PathCalls {
    ghost known: { Self → Option PathsOf };

    /// Returns the identity of the file of a path, if there is one.
    fn identity_of(&self, path: &str) -> Option<FileIdentity>
        ensures { IfSome (known self.now) (λ paths. result ≡ paths.identity path.now) };

    /// Returns whether a path names a symbolic link.
    fn names_link(&self, path: &str) -> bool
        ensures { IfSome (known self.now) (λ paths. result ≡ paths.is_link path.now) };

    /// Returns the path without links of the file to which a path leads, if there is one.
    ///
    /// # Errors
    /// `AllocError` if memory is refused.
    fn target_of(&self, alloc: Global, path: &str) -> Result<Option<String>, AllocError>
        ensures { IfOk result (λ found. IfSome (known self.now) (λ paths. option_map string_bytes found ≡ paths.target path.now)) };
}

/// Returns whether two paths name the same place: the same name in the same folder.
#[tactic(auto, using(crate::proofs::PathCalls::places_compared))]
pub(crate) fn are_one_place<P: PathCalls>(calls: &P, one: &str, other: &str) -> bool
    ensures { IfSome (P.known calls.now) (λ paths. ComparesPlaces paths one.now other.now result) }
{
    let (one_folder, one_name) = folder_and_name(one);
    let (other_folder, other_name) = folder_and_name(other);
    let one_folder = calls.identity_of(one_folder);
    let other_folder = calls.identity_of(other_folder);
    is_one_entry(one_folder, one_name, other_folder, other_name)
}

/// Whether a path is in this folder or in one of its subfolders.
#[tactic(auto, using(crate::proofs::PathCalls::path_located))]
fn lies_in<P: PathCalls>(
    calls: &P,
    alloc: Global,
    path: &str,
    root: FileIdentity,
) -> Result<bool, AllocError>
    ensures { IfOk result (λ answer. IfSome (P.known calls.now) (λ paths. LocatesPath paths root path.now answer)) }
{
    let (folder, _) = folder_and_name(path);
    let above = path_above(alloc, folder)?;
    let own = calls.identity_of(folder);
    Ok(is_in(own, calls.identity_of(&above), root))
}

/// Whether a path may be a link to a file in this folder or in one of its subfolders. A dangling
/// link may lead to any place.
#[tactic(auto, using(crate::proofs::PathCalls::links_located))]
fn leads_into<P: PathCalls>(
    calls: &P,
    alloc: Global,
    path: &str,
    root: FileIdentity,
) -> Result<bool, AllocError>
    ensures { IfOk result (λ answer. IfSome (P.known calls.now) (λ paths. LocatesLink paths root path.now
        (paths.is_link path.now) answer)) }
{
    if !calls.names_link(path) {
        return Ok(false);
    }
    match calls.target_of(alloc, path)? {
        Some(target) => lies_in(calls, alloc, &target, root),
        None => Ok(true),
    }
}

/// Returns whether a path is in a folder or in one of its subfolders, or is a link that may lead
/// there.
///
/// # Errors
/// `AllocError` if memory is refused.
#[tactic(auto, using(crate::proofs::PathCalls::located_below))]
pub(crate) fn is_below<P: PathCalls>(
    calls: &P,
    alloc: Global,
    path: &str,
    folder: &str,
) -> Result<bool, AllocError>
    ensures { IfOk result (λ answer. IfSome (P.known calls.now) (λ paths. LocatesBelow paths path.now
        (paths.identity folder.now) answer)) }
{
    let Some(root) = calls.identity_of(folder) else {
        return Ok(false);
    };
    if lies_in(calls, alloc, path, root)? {
        return Ok(true);
    }
    leads_into(calls, alloc, path, root)
}
