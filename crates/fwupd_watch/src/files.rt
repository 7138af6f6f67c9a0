//! The files that a job reads.

ghost use Rattle.std.specs.Io.KnownBytes.{IsAtEnd};
ghost use Rattle.std.specs.Prelude.{◌≡◌, ◌≢◌, ◌<◌, ◌≤◌, ◌⊎◌, ◌↔◌, IfErr, IfOk, IfSome, IsSomeAnd, List, None, OnOk, Some, codes, option_map, false, length, map, string_bytes, take, true, ℕ};
ghost use Rattle.std.specs.List.{AllByRecursion};
ghost use Rattle.fw_package.specs.Outlines.{IsBeginning};
ghost use Rattle.fwupd_watch.specs.Files.{AreTwoPlaces, FileOf, IsApartFrom, IsInFolder, IsOneEntry, IsOnePlace, IsOutsideFolder, IsOver, IsOverOne, MayBe, MayBegin, MayHold, MayLink, any_file};
ghost use Rattle.fwupd_base.specs.ImageFiles.{image_file};
ghost use Rattle.fwupd_watch.specs.Inputs.{configured_inputs, image_paths, inputs_seen};
ghost use Rattle.fwupd_watch.specs.Paths.{IsFolderAndName, path_in, system_path};

use crate::beginnings::{BEGINNING, Beginning, read_first};
use crate::inputs::Inputs;
use crate::path_calls::{PathCalls, are_one_place, is_below};
use fwupd_base::{ImageFile, read_some};
use std::alloc::{AllocError, Global};
use std::fs::{self, File};
use std::io::{self, ErrorKind, Read};
use std::os::unix::fs::MetadataExt;

/// Why a file's bytes can't be read.
#[derive(Clone, Copy, PartialEq, Eq)]
pub enum FileFault {
    /// The file can't be read.
    Unreadable,
    /// Memory was refused.
    Memory,
}

/// The identity of a file in the system (POSIX `st_dev` and `st_ino`): all paths of one file have
/// the same.
#[derive(Clone, Copy, PartialEq, Eq)]
pub struct FileIdentity {
    /// The number of the file system's device.
    pub device: u64,
    /// The file's inode number.
    pub number: u64,
}

/// The source of the files that a job reads.
pub trait Files {
    ghost holds: { Self → List ℕ → FileOf };

    /// Returns the bytes of a file.
    ///
    /// # Errors
    /// `Unreadable` if the file can't be read, `Memory` if memory is refused.
    fn contents(&self, alloc: Global, path: &str) -> Result<Vec<u8>, FileFault>
        ensures held { IfOk result (λ bytes. MayHold (holds self.now path.now) bytes.items) }
        ensures fails { IfErr result (λ e. e ≡ FileFault.Unreadable → (holds self.now path.now).may_fail ≡ true) };

    /// Returns the first 65,535 bytes of a file, or all if there are fewer, and its length.
    ///
    /// # Errors
    /// `Unreadable` if the file can't be read, `Memory` if memory is refused.
    fn beginning(&self, alloc: Global, path: &str) -> Result<Beginning, FileFault>
        ensures held { IfOk result (λ b. MayBegin (holds self.now path.now) b.bytes.items b.file_length) }
        ensures fails { IfErr result (λ e. e ≡ FileFault.Unreadable → (holds self.now path.now).may_fail ≡ true) };

    /// Returns the identity of the file of a path, if there is one.
    fn identity(&self, path: &str) -> Option<FileIdentity>
        ensures { MayBe (holds self.now path.now) result };

    /// Returns whether a path names a symbolic link.
    fn is_link(&self, path: &str) -> bool
        ensures { MayLink (holds self.now path.now) result };

    /// Returns whether two paths name the same place, with or without a file: the same name in the
    /// same folder.
    fn is_one_place(&self, one: &str, other: &str) -> bool
        ensures same { result ≡ true → IsOnePlace (holds self.now one.now) (holds self.now other.now) }
        ensures apart { result ≡ false → AreTwoPlaces (holds self.now one.now) (holds self.now other.now) };

    /// Returns whether a path is in a folder or in one of its subfolders, with or without a file
    /// there. Deeper folders don't count.
    ///
    /// # Errors
    /// `AllocError` if memory is refused.
    fn is_below(&self, alloc: Global, path: &str, folder: &str) -> Result<bool, AllocError>
        ensures below { IfOk result (λ b. b ≡ true → IsInFolder (holds self.now path.now) (holds self.now folder.now)) }
        ensures outside { IfOk result (λ b. b ≡ false → IsOutsideFolder (holds self.now path.now) (holds self.now folder.now)) };
}

/// The files of the system, where `-` is standard input; contracts know nothing of them before they
/// are read.
#[derive(Clone, Copy)]
pub struct SystemFiles<'a> {
    rt: &'a HostRuntime,
}

impl<'a> SystemFiles<'a> {
    /// Creates the files of a runtime.
    pub fn new(rt: &'a HostRuntime) -> SystemFiles<'a> {
        SystemFiles { rt }
    }

    /// Returns the bytes of a file, read once. Room is reserved for the size that the file states.
    pub fn read(&self, alloc: Global, path: &str) -> io::Result<Vec<u8>> {
        let mut file = File::open(self.rt, system_path(path))?;
        let size = size_of(&file);
        read_whole(alloc, &mut file, size)
    }

    /// The beginning of a file. A file that states a larger size isn't read further.
    fn read_beginning(&self, alloc: Global, path: &str) -> io::Result<Beginning>
        ensures { IfOk result (λ b. MayBegin any_file b.bytes.items b.file_length) }
    {
        let mut file = File::open(self.rt, system_path(path))?;
        let size = size_of(&file);
        beginning_of(alloc, &mut file, size)
    }
}

/// The path that the system has for a path of the command line: `-` is standard input.
fn system_path(path: &str) -> &str
    ensures { result.now ≡ system_path path.now }
{
    if path == "-" { "/dev/stdin" } else { path }
}

/// Returns the path of the folder that contains a folder.
///
/// # Errors
/// `AllocError` if memory is refused.
pub(crate) fn path_above(alloc: Global, own: &str) -> Result<String, AllocError>
    ensures { IfOk result (λ path. string_bytes path ≡ path_in own.now (codes "..")) }
{
    match format!(in alloc; "{own}/..") {
        Ok(path) => Ok(path),
        Err(_) => Err(AllocError),
    }
}

/// Returns whether a file is in a folder or in one of its subfolders, by its own folder and by the
/// one that contains it, if they exist.
pub(crate) fn is_in(
    own: Option<FileIdentity>,
    above: Option<FileIdentity>,
    folder: FileIdentity,
) -> bool
    ensures { result ≡ true ↔ ((own ≡ Some folder) ⊎ (above ≡ Some folder)) }
{
    own == Some(folder) || above == Some(folder)
}

/// The beginning of a file that states a size. If that is more than a header's, no more than a
/// header's is read.
fn beginning_of<R: Read>(alloc: Global, reader: &mut R, size: usize) -> io::Result<Beginning>
    ensures may { IfOk result (λ b. MayBegin any_file b.bytes.items b.file_length) }
    ensures whole { size ≤ BEGINNING
        → IfOk result (λ b. IfSome (R.remaining reader.old) (λ given. IsBeginning given b.bytes.items b.file_length)) }
    ensures first { BEGINNING < size
        → IfOk result (λ b. IfSome (R.remaining reader.old) (λ given. b.bytes.items ≡ take BEGINNING given)) }
    ensures long { BEGINNING < size
        → IfOk result (λ b. length b.bytes.items ≡ BEGINNING → b.file_length ≡ size) }
    ensures short { BEGINNING < size
        → IfOk result (λ b. length b.bytes.items < BEGINNING → b.file_length ≡ length b.bytes.items) }
{
    if size <= BEGINNING {
        let bytes = read_whole(alloc, reader, size)?;
        return Ok(Beginning::from_bytes(bytes));
    }
    let bytes = read_first(alloc, reader, BEGINNING)?;
    Ok(Beginning::said(bytes, size))
}

/// The size in bytes that a file states, or 0 if it states none.
fn size_of(file: &File) -> usize {
    match file.metadata() {
        Ok(found) => usize::try_from(found.len()).unwrap_or(0),
        Err(_) => 0,
    }
}

/// The most bytes of one read.
pub(crate) const PIECE: usize = 16_384;

/// Reads a reader to its end, with room reserved for `size` bytes.
///
/// # Errors
/// The reader's error, other than an interruption, or `OutOfMemory`.
fn read_whole<R: Read>(alloc: Global, reader: &mut R, size: usize) -> io::Result<Vec<u8>>
    ensures bytes { IfOk result (λ bytes. IfSome (R.remaining reader.old) (λ given. bytes.items ≡ given)) }
    ensures end { OnOk result (IsAtEnd (R.remaining reader.new)) }
{
    let mut bytes = Vec::new(alloc);
    match bytes.reserve(size) {
        Ok(()) => {}
        Err(error) => return Err(io::Error::from(error)),
    }
    let mut piece = [0; PIECE];
    for _ in 0..u64::MAX {
        let count = match read_some(reader, &mut piece, PIECE) {
            Ok(0) => return Ok(bytes),
            Ok(count) => count,
            Err(error) => return Err(error),
        };
        match bytes.extend_from_slice(&piece[..count]) {
            Ok(()) => {}
            Err(error) => return Err(io::Error::from(error)),
        }
    }
    Err(io::Error::from(ErrorKind::TimedOut))
}

/// The fault of a file whose reading failed with this error.
fn file_fault(kind: ErrorKind) -> FileFault
    ensures memory { kind ≡ ErrorKind.OutOfMemory → result ≡ FileFault.Memory }
    ensures other { kind ≢ ErrorKind.OutOfMemory → result ≡ FileFault.Unreadable }
{
    match kind {
        ErrorKind::OutOfMemory => FileFault::Memory,
        _ => FileFault::Unreadable,
    }
}

impl<'a> PathCalls for SystemFiles<'a> {
    ghost known = { λ f. None };

    fn identity_of(&self, path: &str) -> Option<FileIdentity> {
        match fs::metadata(self.rt, system_path(path)) {
            Ok(found) => Some(FileIdentity {
                device: found.dev(),
                number: found.ino(),
            }),
            Err(_) => None,
        }
    }

    fn names_link(&self, path: &str) -> bool {
        match fs::symlink_metadata(self.rt, system_path(path)) {
            Ok(found) => found.is_symlink(),
            Err(_) => false,
        }
    }

    fn target_of(&self, alloc: Global, path: &str) -> Result<Option<String>, AllocError> {
        match fs::canonicalize(self.rt, system_path(path)) {
            Ok(found) => Ok(Some(found.to_string_lossy().to_owned(alloc)?)),
            Err(error) if error.kind() == ErrorKind::OutOfMemory => Err(AllocError),
            Err(_) => Ok(None),
        }
    }
}

impl<'a> Files for SystemFiles<'a> {
    ghost holds = { λ f path. any_file };

    fn contents(&self, alloc: Global, path: &str) -> Result<Vec<u8>, FileFault> {
        match self.read(alloc, path) {
            Ok(bytes) => Ok(bytes),
            Err(error) => Err(file_fault(error.kind())),
        }
    }

    fn beginning(&self, alloc: Global, path: &str) -> Result<Beginning, FileFault> {
        match self.read_beginning(alloc, path) {
            Ok(beginning) => Ok(beginning),
            Err(error) => Err(file_fault(error.kind())),
        }
    }

    fn identity(&self, path: &str) -> Option<FileIdentity> {
        self.identity_of(path)
    }

    fn is_link(&self, path: &str) -> bool {
        self.names_link(path)
    }

    #[tactic(auto, using(crate::proofs::AnyFiles::any_place))]
    fn is_one_place(&self, one: &str, other: &str) -> bool {
        are_one_place(self, one, other)
    }

    #[tactic(auto, using(crate::proofs::AnyFiles::any_below))]
    fn is_below(&self, alloc: Global, path: &str, folder: &str) -> Result<bool, AllocError> {
        is_below(self, alloc, path, folder)
    }
}

/// Returns the folder of a path, and the file's name in it.
#[tactic(auto, using(crate::proofs::Paths::folders_and_names))]
pub fn folder_and_name(path: &str) -> (&str, &str)
    ensures { IsFolderAndName path.now result.0.now result.1.now }
{
    let Some((folder, name)) = path.rsplit_once('/') else {
        return (".", path);
    };
    if folder.is_empty() {
        return ("/", name);
    }
    (folder, name)
}

/// Returns whether two names in folders, which may not exist, name the same directory entry.
pub(crate) fn is_one_entry(
    one_folder: Option<FileIdentity>,
    one_name: &str,
    other_folder: Option<FileIdentity>,
    other_name: &str,
) -> bool
    ensures { result ≡ true ↔ IsOneEntry one_folder one_name.now other_folder other_name.now }
{
    one_folder.is_some() && one_folder == other_folder && one_name == other_name
}

/// Returns whether a path names a pipe, a device or a socket; opening one may block.
pub fn is_special(rt: &HostRuntime, path: &str) -> bool {
    match fs::metadata(rt, path) {
        Ok(found) => !found.is_file() && !found.is_dir(),
        Err(_) => false,
    }
}

/// Returns whether two paths may name one file: they are equal, have the same device and inode,
/// would create the same directory entry, or one is a dangling symbolic link.
pub fn is_same_file<F: Files>(files: &F, one: &str, other: &str) -> bool
    ensures same { result ≡ true → IsOver (F.holds files.now) other.now one.now }
    ensures apart { result ≡ false → IsApartFrom (F.holds files.now) other.now one.now }
{
    if one == other {
        return true;
    }
    match (files.identity(one), files.identity(other)) {
        (Some(first), Some(second)) => first == second,
        // A dangling link may lead to any place.
        (None, None) => {
            files.is_link(one) || files.is_link(other) || files.is_one_place(one, other)
        }
        _ => false,
    }
}

/// Returns whether an output, if there is one, may overwrite the file of another path.
pub fn is_one_path<F: Files>(files: &F, path: Option<&str>, other: &str) -> bool
    ensures over { result ≡ true → IsSomeAnd (option_map (λ p. p.now) path.entry) (λ p. IsOver (F.holds files.now) p other.now) }
    ensures apart { result ≡ false
        → IfSome (option_map (λ p. p.now) path.entry) (λ p. IsApartFrom (F.holds files.now) p
        other.now) }
{
    match path {
        Some(path) => is_same_file(files, other, path),
        None => false,
    }
}

/// Returns whether a path may name one of the other files.
pub fn is_one_of<F: Files>(files: &F, path: &str, others: &[String]) -> bool
    ensures over { result ≡ true → IsOverOne (F.holds files.now) path.now (map (λ p. string_bytes p) others.now) }
    ensures apart { result ≡ false
        → AllByRecursion (IsApartFrom (F.holds files.now) path.now)
        (map (λ p. string_bytes p) others.now) }
{
    for other in others {
        if is_same_file(files, other, path) {
            return true;
        }
    }
    false
}

/// Whether a path may name the file of one of these images.
fn is_image<F: Files>(files: &F, path: &str, images: &[ImageFile<'_>]) -> bool
    ensures over { result ≡ true → IsOverOne (F.holds files.now) path.now (image_paths (map image_file images.now)) }
    ensures apart { result ≡ false
        → AllByRecursion (IsApartFrom (F.holds files.now) path.now)
        (image_paths (map image_file images.now)) }
{
    for image in images {
        if is_same_file(files, image.path, path) {
            return true;
        }
    }
    false
}

/// Returns whether a path may name the same file as another, if there is one.
pub fn is_written<F: Files>(files: &F, path: &str, other: Option<&str>) -> bool
    ensures over { result ≡ true → IsSomeAnd (option_map (λ p. p.now) other.entry) (IsOver (F.holds files.now) path.now) }
    ensures apart { result ≡ false → IfSome (option_map (λ p. p.now) other.entry) (IsApartFrom (F.holds files.now) path.now) }
{
    match other {
        Some(other) => is_same_file(files, other, path),
        None => false,
    }
}

/// Whether a path may name the configuration, an image's file or a package.
#[tactic(auto, using(crate::proofs::Overs::over_image, crate::proofs::Overs::over_package, crate::proofs::Overs::apart_both))]
fn is_configured<F: Files>(files: &F, path: &str, inputs: Inputs<'_>) -> bool
    ensures over { result ≡ true → IsOverOne (F.holds files.now) path.now (configured_inputs inputs.entry) }
    ensures apart { result ≡ false
        → AllByRecursion (IsApartFrom (F.holds files.now) path.now) (configured_inputs inputs.entry) }
{
    is_same_file(files, inputs.config, path)
        || is_image(files, path, inputs.images)
        || is_one_of(files, path, inputs.packages)
}

/// Returns whether a path may name an input.
#[tactic(auto, using(crate::proofs::Overs::over_first, crate::proofs::Overs::over_rest, crate::proofs::Overs::apart_all))]
pub fn is_read<F: Files>(files: &F, path: &str, inputs: Inputs<'_>) -> bool
    ensures over { result ≡ true → IsOverOne (F.holds files.now) path.now (inputs_seen inputs.entry) }
    ensures apart { result ≡ false
        → AllByRecursion (IsApartFrom (F.holds files.now) path.now) (inputs_seen inputs.entry) }
{
    is_written(files, path, inputs.schedule) || is_configured(files, path, inputs)
}

/// Returns whether an output, if there is one, may overwrite an input.
pub fn is_over_read<F: Files>(files: &F, path: Option<&str>, inputs: Inputs<'_>) -> bool
    ensures over { result ≡ true
        → IsSomeAnd (option_map (λ p. p.now) path.entry) (λ p. IsOverOne (F.holds files.now) p
        (inputs_seen inputs.entry)) }
    ensures apart { result ≡ false
        → IfSome (option_map (λ p. p.now) path.entry) (λ p. AllByRecursion
        (IsApartFrom (F.holds files.now) p) (inputs_seen inputs.entry)) }
{
    match path {
        Some(path) => is_read(files, path, inputs),
        None => false,
    }
}
