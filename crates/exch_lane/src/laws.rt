//! Laws for the layers above: a lane is one cell.

ghost use Rattle.exch_lane.specs.Clocks.{ClocksStay, PassesWithin, TimeIsCounted, TicksAreLate, TimeIsLate, TimeIsMissed, TimeStarts};
ghost use Rattle.exch_lane.specs.Laws.{LaneIsACell};

/// One direction of packets (DSP0236), tags and time is one cell. From a new lane, for every list
/// of steps that may be taken in order, the cell's run along the steps is never stuck, whatever is
/// lost, repeated, reordered or late and whoever restarts. So a request is taken at most once, with
/// the data that the asker gave. Its reply is received at most once, with the data that the taker
/// gave. The lane's history is the cell's, and if the asker isn't deaf and is quiet, the cell is
/// empty.
pub fn lane_is_a_cell()
    ensures law { LaneIsACell }
{
    mctp_wire::reads_back();
    mctp_reasm::pieces_of_a_message();
    mctp_reasm::feeds_next();
    mctp_reasm::feeds_other();
    pldm_base::reads_back();
    pldm_exch::callers_stay_lawful();
    pldm_exch::rests_change();
}

/// The bound on time: an end that counted some ticks may have missed one before them and one after
/// each eight. So the 9 ticks after which an assembly ends are at most 11 units, the 12 in which a
/// request is repeated at most 14, and the 25 after which no kept answer is left at most 29.
pub fn time_adds_up()
    ensures clocks { ClocksStay }
    ensures starts { TimeStarts }
    ensures counted { TimeIsCounted }
    ensures missed { TimeIsMissed }
    ensures late { TimeIsLate }
    ensures law { TicksAreLate }
    ensures assembly { PassesWithin 9 11 }
    ensures repeats { PassesWithin 12 14 }
    ensures keeping { PassesWithin 25 29 }
{}
