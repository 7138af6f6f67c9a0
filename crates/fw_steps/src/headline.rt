//! The laws of the packet world.

ghost use Rattle.fw_steps.specs.Clocks.{RunsKeepTime};
ghost use Rattle.fw_steps.specs.Promises.{PacketsAreMessages, PacketsAreSafe, RunsArePromised, RunsGrow, RunsJoin, RunsStayTied};

use crate::links::{links_are_lanes, links_are_messages};

/// In every world that steps reach from an opening world, with any packets lost, repeated,
/// reordered or late and any nodes restarted, each device is still there, and its history is safe
/// and tied. Safe: the images that a device activates at once are those that one package names for
/// it, each recorded since the device's previous activation, and each record has its own
/// application before it. Tied: the images that run on a device and the agent's records are those
/// of the history.
pub fn packets_are_safe()
    ensures law { PacketsAreSafe }
{
    exch_lane::lane_is_a_cell();
    links_are_lanes();
    links_are_messages();
    fw_message::worlds_are_safe();
}

/// Any two moments of a run: a run followed by a run is a run, and the history only grows. The
/// running images, the applied images and the agent's records of a device at the later moment are
/// those of the earlier moment, changed by the entries between them.
pub fn moments_are_tied()
    ensures join { RunsJoin }
    ensures grow { RunsGrow }
    ensures tied { RunsStayTied }
{
    exch_lane::lane_is_a_cell();
    links_are_lanes();
    links_are_messages();
    packets_are_safe();
}

/// Every run of packets is a run of whole messages: steps of commands that are asked, taken,
/// answered, learned or given up, without packets, tags and time, give the same devices and
/// sessions, except for their idle counts, with the same history.
pub fn packets_are_messages()
    ensures law { PacketsAreMessages }
{
    exch_lane::lane_is_a_cell();
    links_are_lanes();
    links_are_messages();
}

/// All that is promised of every run from an opening world, in one record.
pub fn runs_are_promised()
    ensures law { RunsArePromised }
{
    packets_are_safe();
    moments_are_tied();
    packets_are_messages();
    clocks_keep_time();
}

/// Between any two moments of a run a node counts at most as many ticks as units of time pass. The
/// units are at most its ticks, plus an eighth of them, rounded down, plus one.
pub fn clocks_keep_time()
    ensures law { RunsKeepTime }
{
    exch_lane::lane_is_a_cell();
    exch_lane::time_adds_up();
    links_are_lanes();
    links_are_messages();
}
