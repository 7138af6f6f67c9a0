//! The files that are written of a process.

ghost use Rattle.std.specs.Prelude.{◌≡◌, ◌⊎◌, ◌∷◌, IfErr, OnOk, map, option_map, string_bytes};
ghost use Rattle.fwupd_nodes.specs.Processes.{process_shows};
ghost use Rattle.fwupd_watch.specs.Apart.{IsApart, IsOverRead};
ghost use Rattle.fwupd_watch.specs.Inputs.{inputs_seen};

use fwupd_base::{Form, Show, Watching};
use fwupd_watch::{Files, Inputs, JobFault, check_apart};
use std::alloc::Global;

/// The outputs of a process besides its report.
#[derive(Clone, Copy)]
pub struct ProcessOutputs<'a> {
    /// What is written of it while it runs.
    pub watching: Watching<'a>,
    /// The file of the event log's records, if they are requested.
    pub log: Option<&'a str>,
    /// The folder of stores, if it has one.
    pub store: Option<&'a str>,
}

/// The files that an agent reads: its configuration, of which it needs no image, and its packages.
pub(crate) fn agent_inputs<'a>(config: &'a str, packages: &'a [String]) -> Inputs<'a>
    ensures { inputs_seen result ≡ config.now ∷ map (λ p. string_bytes p) packages.now }
{
    Inputs {
        schedule: None,
        config,
        images: &[],
        packages,
    }
}

/// Checks the outputs of a process: none may overwrite an input or another output, or be in a
/// store.
///
/// # Errors
/// `Trace`, `Log` or `Record` for the first that may, in this order; `Memory` if memory is refused.
pub fn check_outputs<F: Files>(
    alloc: Global,
    files: &F,
    inputs: Inputs<'_>,
    outputs: ProcessOutputs<'_>,
) -> Result<(), JobFault>
    ensures apart { OnOk result (IsApart (F.holds files.now) (process_shows outputs.entry.watching
        (option_map (λ p. p.now) outputs.entry.log) (option_map (λ p. p.now) outputs.entry.store))
        (inputs_seen inputs.entry)) }
    ensures fault { IfErr result (λ e. (e ≡ JobFault.Memory) ⊎ IsOverRead (F.holds files.now)
        (process_shows outputs.entry.watching (option_map (λ p. p.now) outputs.entry.log)
        (option_map (λ p. p.now) outputs.entry.store))
        (inputs_seen inputs.entry) e) }
{
    let show = Show {
        is_quiet: true,
        trace: outputs.watching.trace,
        trace_form: outputs.watching.trace_form,
        log: outputs.log,
        record: outputs.watching.record,
        store: outputs.store,
        history: None,
        form: Form::Text,
    };
    check_apart(alloc, files, inputs, show)
}
