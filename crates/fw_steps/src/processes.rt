//! Nodes in separate processes: their calls are a run of a world, so the headline holds for them.

ghost use Rattle.fw_steps.specs.Absences.{AbsencesAreDeeds};
ghost use Rattle.fw_steps.specs.Alone.{AgentIsAlone, DevicesAreAlone, PacketsAreTheirs, ProcessesAreSafe};
ghost use Rattle.fw_steps.specs.Plays.{PlaysAreRuns, PlaysAreSafe};
ghost use Rattle.fw_steps.specs.Traces.{TracesAreCut, TracesArePlays, TracesAreSafe};

use crate::headline::packets_are_safe;

/// At the end of every run each node is as its own calls leave it, for any calls of the other
/// nodes.
pub fn nodes_are_alone()
    ensures agent { AgentIsAlone }
    ensures devices { DevicesAreAlone }
{}

/// The packets between the agent and a device are those that the two sent in their own calls,
/// dated, in order.
pub fn packets_are_theirs()
    ensures law { PacketsAreTheirs }
{}

/// If the calls of separate processes are those of one run, the agent's session for a device and
/// the device are safe, and tied with the history of the device.
pub fn processes_are_safe()
    ensures law { ProcessesAreSafe }
{
    packets_are_safe();
}

/// A play has units, in which all processes tick, and between the ticks the other calls of each
/// process. If packets are received after they were sent, and at most 8 units later, the play is a
/// run of a world, and the world at its end has the nodes of the processes.
pub fn plays_are_runs()
    ensures law { PlaysAreRuns }
{}

/// So the headline holds for the processes of a play.
pub fn plays_are_safe()
    ensures law { PlaysAreSafe }
{
    packets_are_safe();
}

/// A trace has the acts of separate processes in the order of real time, and each process ticks by
/// itself. If packets are received after they were sent, with stamps that aren't later than the
/// receiver's unit and at most 8 units earlier, the trace is a play: its acts sorted by their
/// units, ticks first.
pub fn traces_are_plays()
    ensures law { TracesArePlays }
{}

/// The acts up to a unit that all processes have reached are a trace by themselves, with any acts
/// after them.
pub fn traces_are_cut()
    ensures law { TracesAreCut }
{}

/// The headline of separate processes: at the end of each unit that all of them have reached, the
/// agent's session for each device and the device are safe, and tied with the entries that the two
/// processes noted of the device.
pub fn traces_are_safe()
    ensures law { TracesAreSafe }
{
    packets_are_safe();
}

/// An absence is acts of a trace: a process that misses units restarts, and then ticks and restarts
/// for each of them. It sends nothing, and its node is then one that has just restarted.
pub fn absences_are_deeds()
    ensures law { AbsencesAreDeeds }
{}
