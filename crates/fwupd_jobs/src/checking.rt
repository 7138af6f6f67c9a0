//! Updates the devices of a configuration, and may require each session to end Done.

ghost use Rattle.std.specs.Prelude.{◌≡◌, ◌⊎◌, IfErr, OnOk, option_map};
ghost use Rattle.fw_setup.specs.Stocks.{stores_in};
ghost use Rattle.fwupd_base.specs.ImageFiles.{config_source};
ghost use Rattle.fwupd_jobs.specs.Checked.{CheckedEnds, ReportsChecked};
ghost use Rattle.fwupd_watch.specs.Running.{HasObserverFault, show_of};
ghost use Rattle.fwupd_nodes.specs.Setups.{TellsStore, source_of};

use crate::updating::update_files;
use fwupd_nodes::{Host, Parts};
use fwupd_watch::JobFault;
use fwupd_words::Update;
use std::alloc::Global;

/// Updates the devices of the configuration in a file, each over its own link, and writes the
/// report of the last world.
///
/// # Errors
/// Those of `update_files`; and `Undone` or `Skipped`, if that check is requested, which names the
/// sessions that aren't Done, in configured order. The report is written then.
#[tactic(auto, using(crate::proofs::Checks::checking))]
pub fn update_checked<H: Parts>(
    alloc: Global,
    job: Update<'_>,
    host: &mut Host<H>,
) -> Result<(), JobFault>
    ensures ok { OnOk result (ReportsChecked (H.Files.holds host.old.files)
        (source_of (stores_in (H.Stores.is_known host.old.stores) (H.Stores.files host.old.stores))
        (option_map (λ p. p.now) job.entry.show.store) (config_source job.entry.config)) job.entry.order
        (show_of job.entry.show) (H.Watch.watched host.new.watch) host.old.output
        host.new.output) }
    ensures fault { IfErr result (λ e. CheckedEnds (H.Files.holds host.old.files)
        (source_of (stores_in (H.Stores.is_known host.old.stores) (H.Stores.files host.old.stores))
        (option_map (λ p. p.now) job.entry.show.store) (config_source job.entry.config)) job.entry.order
        (show_of job.entry.show) (H.Watch.refuses host.old.watch)
        (H.Wires.lacks host.old.wires job.entry.folder.now) e (H.Watch.watched host.new.watch)
        host.old.output host.new.output) }
    ensures untouched { IfErr result (λ e. (host.new.watch ≡ host.old.watch)
        ⊎ HasObserverFault e (H.Watch.watched host.new.watch).fault) }
    ensures unopened { IfErr result (λ e. TellsStore e
        → (host.new.watch ≡ host.old.watch) × (host.new.wires ≡ host.old.wires)) }
{
    let undone = match update_files(alloc, job, host) {
        Ok(undone) => undone,
        Err(fault) => return Err(fault),
    };
    if !job.order.is_checked {
        return Ok(());
    }
    undone.check()
}
