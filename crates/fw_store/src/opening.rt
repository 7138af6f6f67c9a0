//! Opening a store.

ghost use Rattle.std.specs.Prelude.{◌≡◌, ◌<◌, Err, IfErr, IfOk, Ok, OnOk, true};
ghost use Rattle.std.specs.List.{AllByRecursion};
ghost use Rattle.fw_store.specs.Active.{next_number};
ghost use Rattle.fw_store.specs.Folders.{LeavesFiles};
ghost use Rattle.fw_store.specs.Keeping.{IsSettledIfKnown};
ghost use Rattle.fw_store.specs.Opening.{found_in};

use crate::entry::ImageEntry;
use crate::faults::OpenFault;
use crate::folder::Folder;
use crate::folder_store::FolderStore;
use crate::lines::widths;
use crate::looking::look;
use crate::store::Kept;
use std::alloc::Global;

/// Returns the number of the next files, which is above those of the lines.
fn next_after(entries: &[ImageEntry]) -> u64
    ensures value { result ≡ next_number entries.now }
    ensures above { AllByRecursion (λ e. e.number < result) entries.now }
{
    let mut next: u64 = 1;
    for entry in entries {
        next = next.max(u64::from(entry.number) + 1);
    }
    next
}

/// Opens the store of a folder over a configuration's images. A component's configured image is
/// active if the folder keeps none of it. The folder is only read: `FolderStore::sweep` removes
/// files left in it. Nothing is written before the first images are kept. If all that the folder
/// has is on the disk, as after a start of the machine, what is kept in it stays there.
///
/// # Errors
/// `Damaged` and `Foreign` as `found_in` defines them; `Unreadable` if the folder can't be read;
/// `Memory` if memory can't be allocated.
#[tactic(auto, using(crate::proofs::Swept::opening))]
pub fn open_store<F: Folder + Drop>(
    alloc: Global,
    folder: F,
    components: &[Kept<'_>],
) -> Result<FolderStore<F>, OpenFault>
    ensures found { IfOk result (λ s. F.is_known folder ≡ true
        → found_in components.now (F.files folder) ≡ Ok s.memory.images.items) }
    ensures sure { IfOk result (λ s. s.is_sure ≡ true) }
    ensures settled { IfOk result (λ s. IsSettledIfKnown (F.is_known s.folder) s.is_sure s.next
        (F.files s.folder) s.entries.items) }
    ensures stored { IfOk result (λ s. LeavesFiles (F.files folder) (F.stored folder)
        → IsSettledIfKnown (F.is_known s.folder) s.is_sure s.next (F.stored s.folder)
        s.entries.items) }
    ensures next { IfOk result (λ s. s.next ≡ next_number s.entries.items) }
    ensures untouched { IfOk result (λ s. s.folder ≡ folder) }
    ensures damaged { IfErr result (λ e. e ≡ OpenFault.Damaged
        → F.is_known folder ≡ true
        → found_in components.now (F.files folder) ≡ Err OpenFault.Damaged) }
    ensures foreign { IfErr result (λ e. e ≡ OpenFault.Foreign
        → F.is_known folder ≡ true
        → found_in components.now (F.files folder) ≡ Err OpenFault.Foreign) }
    ensures unread { IfErr result (λ e. e ≡ OpenFault.Unreadable → F.may_fail folder ≡ true) }
{
    let (entries, memory) = match look(alloc, &folder, components) {
        Ok(found) => found,
        Err(fault) => return Err(fault),
    };
    widths(entries.as_slice());
    let next = next_after(entries.as_slice());
    Ok(FolderStore::new(alloc, folder, memory, entries, next))
}
