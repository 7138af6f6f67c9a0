//! Each step of a link is steps of its two lanes, and steps over whole messages. Each message of a
//! link round-trips.

ghost use Rattle.fw_steps.specs.LinksAreLanes.{LinksAreLanes};
ghost use Rattle.fw_steps.specs.LinksAreMessages.{LinksAreMessages};
ghost use Rattle.fw_steps.specs.MessagesRoundTrip.{MessagesRoundTrip};

/// Between the agent and a device there are two lanes: one in which the agent asks, one in which
/// the device asks. In every link that steps of its lanes reach, each step that may be taken is
/// steps of both lanes again, which may be taken too. So a packet, however late, repeated or
/// reordered, never gives a half a message that its core doesn't know, and the cell of each lane
/// takes its steps too.
pub fn links_are_lanes()
    ensures law { LinksAreLanes }
{
    exch_lane::lane_is_a_cell();
}

/// Each step of a link between the agent and a device, with its packets, tags and time, is steps of
/// the device and its session over whole messages: commands that are asked, taken, answered,
/// learned or given up.
pub fn links_are_messages()
    ensures law { LinksAreMessages }
{
    fwup_wire::commands_read_back();
}

/// Along every run from an opening world, between the agent and each of its devices, for any
/// packet: each node's answer decodes to itself and fits a message, and the pending command of each
/// node after a tick can be encoded.
pub fn messages_round_trip()
    ensures law { MessagesRoundTrip }
{
    exch_lane::lane_is_a_cell();
    links_are_lanes();
    links_are_messages();
}
