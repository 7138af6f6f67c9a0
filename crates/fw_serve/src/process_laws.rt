//! The deeds of served processes as acts of a trace, so that the headline holds for them.

ghost use Rattle.fw_serve.specs.Anew.{StartedAnewIsAbsence};
ghost use Rattle.fw_serve.specs.Lives.{LivesAct, LivesAreSafe, LivesEnd};
ghost use Rattle.fw_serve.specs.Traced.{AgentsAct, DevicesAct, RoundsAreTimely, ServedProcessesAreSafe, ServedProcessesEnd, ServicesAct};

use agent_store::what_is_kept_is_resumed;
use fw_node::restarts_keep_no_more;
use fw_steps::traces_are_safe;

/// A process receives each packet in the unit of its stamp or in one of the 8 units after it.
pub fn rounds_are_timely()
    ensures law { RoundsAreTimely }
{}

/// The deeds of a device are acts of a trace. It may do each, as far as it knows.
pub fn devices_act()
    ensures law { DevicesAct }
{}

/// The deeds of the agent, up to the last unit of its clock, are acts of a trace. It may do each,
/// as far as it knows.
pub fn agents_act()
    ensures law { AgentsAct }
{}

/// The rounds that a process serves are such acts. A trace of the acts of served processes leaves
/// each of them as its rounds do.
pub fn services_act()
    ensures law { ServicesAct }
    ensures end { ServedProcessesEnd }
{}

/// The headline of served processes: if each packet is received after its peer sent it, the agent's
/// session for each device and the device are safe at the end of each unit that all processes have
/// reached.
pub fn served_processes_are_safe()
    ensures law { ServedProcessesAreSafe }
{
    traces_are_safe();
}

/// An agent whose process was stopped or killed after a deed, and that is started anew from what
/// was kept then, is the agent that was absent. So the lives of an agent are one process of a
/// trace.
pub fn started_anew_is_absence()
    ensures law { StartedAnewIsAbsence }
{
    what_is_kept_is_resumed();
    restarts_keep_no_more();
}

/// The lives of processes are acts of a trace, kills and starts anew included. A trace of the acts
/// of lives leaves each process as its last life did.
pub fn lives_act()
    ensures law { LivesAct }
    ensures end { LivesEnd }
{
    started_anew_is_absence();
}

/// The headline of processes that are killed and started anew: if each packet is received after its
/// peer sent it, the agent's session for each device and the device are safe at the end of each
/// unit that all processes have reached, those that are gone for good as absent.
pub fn lives_are_safe()
    ensures law { LivesAreSafe }
{
    started_anew_is_absence();
    traces_are_safe();
}
