//! The packages that the records of an agent name by their numbers.

ghost use Rattle.std.specs.Prelude.{◌≡◌, ◌≢◌, ◌++◌, IfErr, IfOk, None, OnErr, OnOk, Some, is_some, map, true};
ghost use Rattle.fw_store.specs.Folders.{active_name};
ghost use Rattle.agent_store.specs.Packages.{ClaimsFolder, FailsToClaim, MayPutPackages, PutsPackages, claim_fault, package_line, packages_name, packages_text};

use fw_store::{Folder, OpenFault, RenameFault};
use sha2::{Digest, Sha256};
use std::alloc::{AllocError, Global};

/// The name of the text of the packages.
const PACKAGES: &[u8] = b"packages";

/// The name under which the text is written before it is renamed.
const PACKAGES_NEW: &[u8] = b"packages.new";

/// The name of the text of what the agent keeps.
const ACTIVE: &[u8] = b"active";

/// Why a folder isn't claimed for packages.
#[derive(Clone, Copy, Debug, PartialEq, Eq)]
pub enum ClaimFault {
    /// It is refused, or it can't be read. It is unchanged.
    Refused(OpenFault),
    /// It can't be written.
    Unwritable,
}

/// Appends the line of a package: its SHA-256 in hexadecimal digits.
#[tactic(auto, unfolding(crate::specs::Packages::package_line))]
fn push_package(alloc: Global, text: &mut Vec<u8>, bytes: &[u8]) -> Result<(), AllocError>
    ensures { OnOk result (text.new.items ≡ text.old.items ++ package_line bytes.now) }
{
    let digits = hex::encode_upper(alloc, Sha256::digest(bytes))?;
    text.extend_from_slice(digits.as_bytes())?;
    text.push(b'\n')?;
    Ok(())
}

/// Returns the text of packages with these bytes: a line for each, in order.
///
/// # Errors
/// `AllocError` if memory can't be allocated.
#[tactic(auto, using(crate::proofs::Claims::text))]
pub fn packages_text(alloc: Global, packages: &[Vec<u8>]) -> Result<Vec<u8>, AllocError>
    ensures { IfOk result (λ text. text.items ≡ packages_text (map (λ p. p.items) packages.now)) }
{
    let mut text = Vec::new(alloc);
    for package in packages {
        push_package(alloc, &mut text, package)?;
    }
    Ok(text)
}

/// Whether the folder has lines of what an agent keeps.
fn has_active<F: Folder>(alloc: Global, folder: &F) -> Result<bool, OpenFault>
    ensures active { IfOk result (λ b. F.is_known folder.now ≡ true → is_some (F.files folder.now active_name) ≡ b) }
    ensures fault { IfErr result (λ e. e ≡ OpenFault.Unreadable) }
    ensures unread { OnErr result (F.may_fail folder.now ≡ true) }
{
    match folder.read(alloc, ACTIVE) {
        Ok(found) => Ok(found.is_some()),
        Err(_) => Err(OpenFault::Unreadable),
    }
}

/// Whether the text of the packages is in the folder already, if the folder isn't refused for them.
#[tactic(auto, using(crate::proofs::Claims::claiming))]
fn has_text<F: Folder>(alloc: Global, folder: &F, text: &[u8]) -> Result<bool, OpenFault>
    ensures allowed { OnOk result (F.is_known folder.now ≡ true
        → claim_fault (F.files folder.now) text.now ≡ None) }
    ensures has { IfOk result (λ b. b ≡ true
        → F.is_known folder.now ≡ true
        → F.files folder.now packages_name ≡ Some text.now) }
    ensures foreign { IfErr result (λ e. e ≡ OpenFault.Foreign
        → F.is_known folder.now ≡ true
        → claim_fault (F.files folder.now) text.now ≡ Some OpenFault.Foreign) }
    ensures damaged { IfErr result (λ e. e ≡ OpenFault.Damaged
        → F.is_known folder.now ≡ true
        → claim_fault (F.files folder.now) text.now ≡ Some OpenFault.Damaged) }
    ensures unread { IfErr result (λ e. e ≡ OpenFault.Unreadable → F.may_fail folder.now ≡ true) }
    ensures memory { IfErr result (λ e. e ≢ OpenFault.Memory) }
{
    let found = match folder.read(alloc, PACKAGES) {
        Ok(found) => found,
        Err(_) => return Err(OpenFault::Unreadable),
    };
    let Some(kept) = found else {
        return match has_active(alloc, folder) {
            Ok(false) => Ok(false),
            Ok(true) => Err(OpenFault::Damaged),
            Err(fault) => Err(fault),
        };
    };
    if !text.starts_with(&kept) {
        return Err(OpenFault::Foreign);
    }
    Ok(kept.as_slice() == text)
}

/// Puts the text of the packages into the folder. A renaming is the moment.
#[tactic(auto, using(crate::proofs::Claims::putting))]
fn put_packages<F: Folder>(folder: &mut F, text: &[u8]) -> Result<(), RenameFault>
    ensures known { F.is_known folder.new ≡ F.is_known folder.old }
    ensures ok { OnOk result (F.is_known folder.old ≡ true
        → PutsPackages text.now (F.files folder.old) (F.files folder.new)) }
    ensures lasts { OnOk result (F.is_known folder.old ≡ true → F.lasting folder.new packages_name ≡ Some text.now) }
    ensures err { OnErr result (F.is_known folder.old ≡ true
        → MayPutPackages text.now (F.files folder.old) (F.files folder.new)) }
{
    match folder.write(PACKAGES_NEW, text) {
        Ok(()) => folder.rename(PACKAGES_NEW, PACKAGES),
        Err(_) => Err(RenameFault::Unchanged),
    }
}

/// Claims a folder for packages with these bytes: the records that it keeps are of them. It then
/// has their text. The list of packages may have grown at its end since it was claimed last.
///
/// # Errors
/// `Foreign` if it was claimed for other packages, and `Damaged` if it was claimed for none and yet
/// keeps lines; `Unreadable` or `Memory`. Then it is unchanged. `Unwritable` if it can't be
/// written: it has the text that it had, or the new one.
#[tactic(auto, using(crate::proofs::Claims::claiming))]
pub fn claim_packages<F: Folder>(
    alloc: Global,
    folder: &mut F,
    packages: &[Vec<u8>],
) -> Result<(), ClaimFault>
    ensures known { F.is_known folder.new ≡ F.is_known folder.old }
    ensures claimed { OnOk result (F.is_known folder.old ≡ true
        → ClaimsFolder (packages_text (map (λ p. p.items) packages.now)) (F.files folder.old)
        (F.files folder.new)) }
    ensures foreign { IfErr result (λ e. e ≡ ClaimFault.Refused OpenFault.Foreign
        → F.is_known folder.old ≡ true
        → claim_fault (F.files folder.old) (packages_text (map (λ p. p.items) packages.now))
        ≡ Some OpenFault.Foreign) }
    ensures damaged { IfErr result (λ e. e ≡ ClaimFault.Refused OpenFault.Damaged
        → F.is_known folder.old ≡ true
        → claim_fault (F.files folder.old) (packages_text (map (λ p. p.items) packages.now))
        ≡ Some OpenFault.Damaged) }
    ensures unread { IfErr result (λ e. e ≡ ClaimFault.Refused OpenFault.Unreadable
        → F.may_fail folder.old ≡ true) }
    ensures same { IfErr result (λ e. e ≢ ClaimFault.Unwritable → folder.new ≡ folder.old) }
    ensures either { IfErr result (λ e. e ≡ ClaimFault.Unwritable
        → F.is_known folder.old ≡ true
        → FailsToClaim (packages_text (map (λ p. p.items) packages.now)) (F.files folder.old)
        (F.files folder.new)) }
{
    let Ok(text) = packages_text(alloc, packages) else {
        return Err(ClaimFault::Refused(OpenFault::Memory));
    };
    match has_text(alloc, folder, &text) {
        Ok(true) => return Ok(()),
        Ok(false) => {}
        Err(fault) => return Err(ClaimFault::Refused(fault)),
    }
    match put_packages(folder, &text) {
        Ok(()) => Ok(()),
        Err(_) => Err(ClaimFault::Unwritable),
    }
}
