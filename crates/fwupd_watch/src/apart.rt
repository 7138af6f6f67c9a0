//! Checks that the outputs of a run overwrite neither its inputs nor each other, and are in no
//! store.

ghost use Rattle.std.specs.Prelude.{◌≡◌, ◌⊎◌, false, IfErr, IfOk, IfSome, None, OnOk, option_map, true};
ghost use Rattle.fwupd_watch.specs.Inputs.{inputs_seen};
ghost use Rattle.fwupd_watch.specs.Histories.{HasNoLines};
ghost use Rattle.fwupd_watch.specs.Recordings.{IsNewRecording};
ghost use Rattle.fwupd_watch.specs.Running.{HasObserverFault, show_of, shown_of};
ghost use Rattle.fwupd_watch.specs.Apart.{IsApart, IsApartFromUsed, IsBarred, IsInStore, IsOutOfStore, IsOverRead, IsOverUsed};

use crate::faults::JobFault;
use crate::files::{Files, is_read, is_written};
use crate::inputs::Inputs;
use crate::running::{Observer, observer_fault};
use fwupd_base::Show;
use std::alloc::{AllocError, Global};

/// Whether an output, if there is one, may overwrite an input or one of two other outputs.
fn is_over<F: Files>(
    files: &F,
    path: Option<&str>,
    first: Option<&str>,
    second: Option<&str>,
    inputs: Inputs<'_>,
) -> bool
    ensures over { result ≡ true
        → IsOverUsed (F.holds files.now) (option_map (λ p. p.now) path.entry)
        (option_map (λ p. p.now) first.entry) (option_map (λ p. p.now) second.entry)
        (inputs_seen inputs.entry) }
    ensures apart { result ≡ false
        → IsApartFromUsed (F.holds files.now) (option_map (λ p. p.now) path.entry)
        (option_map (λ p. p.now) first.entry) (option_map (λ p. p.now) second.entry)
        (inputs_seen inputs.entry) }
{
    let Some(path) = path else {
        return false;
    };
    if is_read(files, path, inputs) {
        return true;
    }
    if is_written(files, path, first) {
        return true;
    }
    is_written(files, path, second)
}

/// Whether an output, if there is one, is in the folder of stores, if there is one, or in a store.
fn is_in_store<F: Files>(
    alloc: Global,
    files: &F,
    path: Option<&str>,
    store: Option<&str>,
) -> Result<bool, AllocError>
    ensures below { IfOk result (λ b. b ≡ true
        → IsInStore (F.holds files.now) (option_map (λ p. p.now) path.entry)
        (option_map (λ p. p.now) store.entry)) }
    ensures outside { IfOk result (λ b. b ≡ false
        → IsOutOfStore (F.holds files.now) (option_map (λ p. p.now) path.entry)
        (option_map (λ p. p.now) store.entry)) }
{
    match (path, store) {
        (Some(path), Some(store)) => files.is_below(alloc, path, store),
        _ => Ok(false),
    }
}

/// Whether an output, if there is one, may overwrite an input or one of two other outputs, or is in
/// a store.
fn is_barred<F: Files>(
    alloc: Global,
    files: &F,
    path: Option<&str>,
    first: Option<&str>,
    second: Option<&str>,
    inputs: Inputs<'_>,
    store: Option<&str>,
) -> Result<bool, AllocError>
    ensures over { IfOk result (λ b. b ≡ true
        → IsOverUsed (F.holds files.now) (option_map (λ p. p.now) path.entry)
        (option_map (λ p. p.now) first.entry) (option_map (λ p. p.now) second.entry)
        (inputs_seen inputs.entry)
        ⊎ IsInStore (F.holds files.now) (option_map (λ p. p.now) path.entry)
        (option_map (λ p. p.now) store.entry)) }
    ensures apart { IfOk result (λ b. b ≡ false
        → IsApartFromUsed (F.holds files.now) (option_map (λ p. p.now) path.entry)
        (option_map (λ p. p.now) first.entry) (option_map (λ p. p.now) second.entry)
        (inputs_seen inputs.entry)
        × IsOutOfStore (F.holds files.now) (option_map (λ p. p.now) path.entry)
        (option_map (λ p. p.now) store.entry)) }
{
    if is_over(files, path, first, second, inputs) {
        return Ok(true);
    }
    is_in_store(alloc, files, path, store)
}

/// Checks the outputs of a run or of a process: none may overwrite an input or another output, or
/// be in a store.
///
/// # Errors
/// `Trace`, `Log` or `Record` for the first that may, in this order; `Memory` if memory is refused.
pub fn check_apart<F: Files>(
    alloc: Global,
    files: &F,
    inputs: Inputs<'_>,
    show: Show<'_>,
) -> Result<(), JobFault>
    ensures apart { OnOk result (IsApart (F.holds files.now) (show_of show.entry)
        (inputs_seen inputs.entry)) }
    ensures fault { IfErr result (λ e. (e ≡ JobFault.Memory)
        ⊎ IsOverRead (F.holds files.now) (show_of show.entry)
        (inputs_seen inputs.entry) e) }
{
    let store = show.store;
    match is_barred(alloc, files, show.trace, None, None, inputs, store) {
        Ok(false) => {}
        Ok(true) => return Err(JobFault::Trace),
        Err(_) => return Err(JobFault::Memory),
    }
    match is_barred(alloc, files, show.log, show.trace, None, inputs, store) {
        Ok(false) => {}
        Ok(true) => return Err(JobFault::Log),
        Err(_) => return Err(JobFault::Memory),
    }
    match is_barred(
        alloc,
        files,
        show.record,
        show.trace,
        show.log,
        inputs,
        store,
    ) {
        Ok(false) => {}
        Ok(true) => return Err(JobFault::Record),
        Err(_) => return Err(JobFault::Memory),
    }
    Ok(())
}

/// Begins an observer after checking its outputs: none may overwrite an input or another output, or
/// be in a store.
///
/// # Errors
/// As for `check_apart`, and then those of `begin`.
pub fn begin_apart<F: Files, V: Observer>(
    alloc: Global,
    files: &F,
    inputs: Inputs<'_>,
    show: Show<'_>,
    watch: &mut V,
) -> Result<(), JobFault>
    ensures shows { OnOk result ((V.watched watch.new).shows ≡ shown_of (show_of show.entry)) }
    ensures anew { OnOk result (((V.watched watch.new).seen ≡ 0) × ((V.watched watch.new).lost ≡ None)) }
    ensures recording { OnOk result (IfSome (V.watched watch.new).recording IsNewRecording) }
    ensures history { OnOk result (IfSome (V.watched watch.new).history HasNoLines) }
    ensures apart { OnOk result (IsApart (F.holds files.now) (show_of show.entry)
        (inputs_seen inputs.entry)) }
    ensures untouched { IfErr result (λ e. (watch.new ≡ watch.old) ⊎ HasObserverFault e (V.watched watch.new).fault) }
    ensures fault { IfErr result (λ e. (e ≡ JobFault.Memory)
        ⊎ IsBarred (F.holds files.now) (V.refuses watch.old) (show_of show.entry)
        (inputs_seen inputs.entry) e (V.watched watch.new)) }
{
    match check_apart(alloc, files, inputs, show) {
        Ok(()) => {}
        Err(fault) => return Err(fault),
    }
    match watch.begin(show) {
        Ok(()) => Ok(()),
        Err(fault) => Err(observer_fault(fault)),
    }
}
