//! Laws of recorded runs.

ghost use Rattle.fwupd_jobs.specs.Recorded.{RecordsReplay};

/// The report of the replay of a recorded run is that of the run, if no call of a bank failed in
/// either. A bank in memory fails only if memory is refused.
pub fn records_replay()
    ensures { RecordsReplay }
{}
