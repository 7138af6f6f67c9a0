//! Lanes, step by step: the packets sent and the history.

use exch_lane::{End, Lane, LaneEntry, LaneFault, LaneStep, lane_replay};
use mctp_wire::Unit;
use pldm_base::Reply;
use std::alloc::Global;

/// An action on a lane.
#[derive(Clone, Copy)]
enum Act<'a> {
    /// The asker begins a request of this command and data.
    Begin(u8, &'a [u8]),
    /// The asker abandons its request.
    Abandon,
    /// The packet of this number is delivered to the taker, which answers a new request with this
    /// data.
    ToTaker(usize, &'a [u8]),
    /// The packet of this number is delivered to the asker.
    ToAsker(usize),
    /// The asker restarts.
    Restart,
    /// This number of ticks passes.
    Ticks(u32),
    /// This number of ticks passes; before each of them the asker is deaf and can't act.
    Deaf(u32),
    /// A tick passes that the asker misses; the taker; or both.
    AskerMisses,
    TakerMisses,
    BothMiss,
}

use Act::{
    Abandon, AskerMisses, Begin, BothMiss, Deaf, Restart, TakerMisses, Ticks, ToAsker, ToTaker,
};

/// An entry of a lane's history.
#[derive(Clone, Copy)]
enum Noted<'a> {
    Asked(u8, &'a [u8]),
    Taken(u8, &'a [u8], &'a [u8]),
    Learnt(&'a [u8]),
}

use Noted::{Asked, Learnt, Taken};

/// The bytes of a request, a reply or their data.
fn data(bytes: &[u8]) -> Reply {
    let mut data = Reply::new();
    let _ = data.try_extend_from_slice(bytes);
    data
}

/// The step of an action; a tick for ticks.
fn step_of(act: Act<'_>) -> LaneStep {
    match act {
        Begin(command, body) => LaneStep::Begin(command, data(body)),
        Abandon => LaneStep::Abandon,
        ToTaker(number, reply) => LaneStep::Deliver(number, End::Taker, data(reply)),
        ToAsker(number) => LaneStep::Deliver(number, End::Asker, Reply::new()),
        Restart => LaneStep::Restart(End::Asker),
        Ticks(_) | Deaf(_) => LaneStep::Tick(true, true),
        AskerMisses => LaneStep::Tick(false, true),
        TakerMisses => LaneStep::Tick(true, false),
        BothMiss => LaneStep::Tick(false, false),
    }
}

/// Returns the state of a lane: its time, the numbers of packets and history entries, and whether a
/// request is open, the lane is quiet, and a request may begin.
pub fn glance(lane: &Lane) -> [usize; 6] {
    [
        lane.now() as usize,
        lane.packets().len(),
        lane.history().len(),
        usize::from(lane.is_open()),
        usize::from(lane.is_quiet()),
        usize::from(lane.can_begin()),
    ]
}

/// Whether a lane takes a step, or refuses it with this fault and is unchanged.
fn takes(lane: &mut Lane, act: Act<'_>, wanted: Option<LaneFault>) -> bool {
    let before = glance(lane);
    match lane_replay(lane, &[step_of(act)]) {
        Ok(()) => wanted.is_none(),
        Err((at, fault)) => at == 0 && wanted == Some(fault) && glance(lane) == before,
    }
}

/// Whether only the asker is deaf, and can neither begin nor abandon a request.
fn is_deaf(lane: &mut Lane) -> bool {
    lane.is_deaf(End::Asker)
        && !lane.is_deaf(End::Taker)
        && !lane.is_open()
        && !lane.can_begin()
        && takes(lane, Begin(0x02, &[]), Some(LaneFault::NotNow))
        && takes(lane, Abandon, Some(LaneFault::NotNow))
}

/// Whether a lane takes ticks.
fn ticks(lane: &mut Lane, count: u32, deaf: bool) -> bool {
    for _ in 0..count {
        if deaf && !is_deaf(lane) || !takes(lane, Ticks(1), None) {
            return false;
        }
    }
    !deaf || !lane.is_deaf(End::Asker) && lane.can_begin()
}

/// Whether packet `number` has this date and these bytes.
fn is_sent(lane: &Lane, number: usize, date: u32, bytes: &[u8]) -> bool {
    match lane.packets().get(number.wrapping_sub(1)) {
        Some(packet) => packet.date == date && packet.bytes.as_slice() == bytes,
        None => false,
    }
}

/// Whether an entry is the expected one.
fn is_noted(entry: &LaneEntry, noted: Noted<'_>) -> bool {
    match (entry, noted) {
        (LaneEntry::Asked(command, body), Asked(code, bytes)) => {
            *command == code && body.as_slice() == bytes
        }
        (LaneEntry::Taken(command, body, reply), Taken(code, bytes, answer)) => {
            *command == code && body.as_slice() == bytes && reply.as_slice() == answer
        }
        (LaneEntry::Learnt(reply), Learnt(answer)) => reply.as_slice() == answer,
        _ => false,
    }
}

/// A case at a transmission unit: the actions, each with its fault; the number of packets sent,
/// some of them by number, date and bytes; and the history.
#[derive(Drop)]
struct Row<'a> {
    situation: &'a str,
    unit: Unit,
    acts: &'a [(Act<'a>, Option<LaneFault>)],
    count: usize,
    sent: &'a [(usize, u32, &'a [u8])],
    history: &'a [Noted<'a>],
}

/// Whether a lane takes the actions, each with its fault.
fn takes_all(lane: &mut Lane, acts: &[(Act<'_>, Option<LaneFault>)]) -> bool {
    for (act, fault) in acts {
        let taken = match *act {
            Ticks(count) => ticks(lane, count, false),
            Deaf(count) => ticks(lane, count, true),
            act => takes(lane, act, *fault),
        };
        if !taken {
            return false;
        }
    }
    true
}

/// Whether the packets of these numbers have these dates and bytes.
fn are_sent(lane: &Lane, sent: &[(usize, u32, &[u8])]) -> bool {
    for (number, date, bytes) in sent {
        if !is_sent(lane, *number, *date, bytes) {
            return false;
        }
    }
    true
}

/// Whether this is the whole history.
fn are_noted(entries: &[LaneEntry], history: &[Noted<'_>]) -> bool {
    if entries.len() != history.len() {
        return false;
    }
    for (place, noted) in history.iter().enumerate() {
        if !is_noted(&entries[place], *noted) {
            return false;
        }
    }
    true
}

/// Whether a lane satisfies a case.
fn holds(alloc: Global, row: &Row<'_>) -> bool {
    let mut lane = Lane::new(alloc, row.unit, 8, 9);
    takes_all(&mut lane, row.acts)
        && are_sent(&lane, row.sent)
        && are_noted(lane.history(), row.history)
        && lane.packets().len() == row.count
}

const REQUEST: [u8; 10] = [0x01, 9, 8, 0xC8, 0x01, 0x80, 0x05, 0x10, 0xF0, 0x00];

const REPLY: [u8; 10] = [0x01, 8, 9, 0xC0, 0x01, 0x00, 0x05, 0x10, 0x00, 0x01];

/// The reply of code 0 to command 13.
const REPLY_13: [u8; 9] = [0x01, 8, 9, 0xC0, 0x01, 0x00, 0x05, 0x13, 0x00];

/// The second packet of a request whose message has one byte more than the transmission unit.
const SECOND: [u8; 5] = [0x01, 9, 8, 0x58, 0x5A];

static ROWS: [Row<'static>; 6] = [
    Row {
        situation: "a repeated request gets its first reply again",
        unit: Unit::U64,
        acts: &[
            (Begin(0x10, &[0xF0, 0x00]), None),
            (ToTaker(1, &[0x00, 0x01]), None),
            (Ticks(6), None),
            (ToTaker(3, &[0x00, 0x02]), None),
            (ToAsker(4), None),
            (ToAsker(2), None),
        ],
        count: 4,
        sent: &[
            (1, 0, &REQUEST),
            (2, 0, &REPLY),
            (3, 6, &REQUEST),
            (4, 6, &REPLY),
        ],
        history: &[
            Asked(0x10, &[0xF0, 0x00]),
            Taken(0x10, &[0xF0, 0x00], &[0x00, 0x01]),
            Learnt(&[0x00, 0x01]),
        ],
    },
    Row {
        // it neither repeats a request nor accepts replies; its next request reuses the first tag
        // and instance identifier, and is new to the taker
        situation: "an asker that starts anew is deaf for 40 ticks",
        unit: Unit::U64,
        acts: &[
            (Begin(0x01, &[]), None),
            (ToTaker(1, &[0x00]), None),
            (Restart, None),
            (ToAsker(2), None),
            (Deaf(40), None),
            (ToTaker(3, &[]), Some(LaneFault::NoSuchPacket)),
            (Begin(0x02, &[]), None),
            (ToTaker(3, &[0x00, 0x02]), None),
            (ToAsker(4), None),
        ],
        count: 4,
        sent: &[(3, 40, &[0x01, 9, 8, 0xC8, 0x01, 0x80, 0x05, 0x02])],
        history: &[
            Asked(0x01, &[]),
            Taken(0x01, &[], &[0x00]),
            Asked(0x02, &[]),
            Taken(0x02, &[], &[0x00, 0x02]),
            Learnt(&[0x00, 0x02]),
        ],
    },
    Row {
        situation: "faults are named and change nothing",
        unit: Unit::U64,
        acts: &[
            (Abandon, Some(LaneFault::NotNow)),
            (ToTaker(0, &[0x00]), Some(LaneFault::NoSuchPacket)),
            (ToTaker(1, &[0x00]), Some(LaneFault::NoSuchPacket)),
            (Begin(0x01, &[]), None),
            (Begin(0x01, &[]), Some(LaneFault::NotNow)),
            (ToAsker(2), Some(LaneFault::NoSuchPacket)),
            (Ticks(9), None),
            (ToTaker(1, &[0x00]), Some(LaneFault::Dead)),
        ],
        count: 2,
        sent: &[],
        history: &[Asked(0x01, &[])],
    },
    Row {
        // The asker counts 12 of the first 14 ticks, so the request is sent for the last time at
        // 14. That packet may arrive until 22, when the taker has counted 22 ticks since it took
        // the request.
        situation: "the last repeat of a request comes 22 units after it began, and meets its kept answer",
        unit: Unit::U64,
        acts: &[
            (Begin(0x10, &[0xF0, 0x00]), None),
            (ToTaker(1, &[0x00, 0x01]), None),
            (AskerMisses, None),
            (Ticks(8), None),
            (AskerMisses, None),
            (Ticks(4), None),
            (Ticks(8), None),
            (ToTaker(4, &[0x00, 0x02]), None),
            (Ticks(1), None),
            (ToTaker(4, &[0x00, 0x02]), Some(LaneFault::Dead)),
        ],
        count: 5,
        sent: &[(3, 7, &REQUEST), (4, 14, &REQUEST), (5, 22, &REPLY)],
        history: &[
            Asked(0x10, &[0xF0, 0x00]),
            Taken(0x10, &[0xF0, 0x00], &[0x00, 0x01]),
        ],
    },
    Row {
        situation: "an end misses a tick only where it counted eight since the last that it missed",
        unit: Unit::U64,
        acts: &[
            (BothMiss, None),
            (AskerMisses, Some(LaneFault::NotNow)),
            (TakerMisses, Some(LaneFault::NotNow)),
            (BothMiss, Some(LaneFault::NotNow)),
            (Ticks(7), None),
            (AskerMisses, Some(LaneFault::NotNow)),
            (TakerMisses, Some(LaneFault::NotNow)),
            (Ticks(1), None),
            (AskerMisses, None),
            (AskerMisses, Some(LaneFault::NotNow)),
            (TakerMisses, None),
            (TakerMisses, Some(LaneFault::NotNow)),
            (Begin(0x10, &[0xF0, 0x00]), None),
        ],
        count: 1,
        sent: &[(1, 11, &REQUEST)],
        history: &[Asked(0x10, &[0xF0, 0x00])],
    },
    Row {
        // the sixth tick that the asker counts is the seventh tick
        situation: "a missed tick leaves an end as it is",
        unit: Unit::U64,
        acts: &[
            (Begin(0x10, &[0xF0, 0x00]), None),
            (Ticks(5), None),
            (AskerMisses, None),
            (ToTaker(2, &[]), Some(LaneFault::NoSuchPacket)),
            (Ticks(4), None),
        ],
        count: 2,
        sent: &[(2, 7, &REQUEST)],
        history: &[Asked(0x10, &[0xF0, 0x00])],
    },
];

#[test]
fn lanes_come_to_what_the_rows_say(rt: HostRuntime) {
    for row in &ROWS {
        assert!(rt; holds(rt.alloc(), row), "{}", row.situation);
    }
}

/// The case of a request with this data, whose message is one byte longer than the transmission
/// unit.
macro_rules! two_packets {
    ($unit:expr, $body:expr) => {
        [
            Row {
                // a second piece alone; the first of the repeat with the second of the first
                // transmission; and the reverse
                situation: "pieces of a sending and of its repeat mix",
                unit: $unit,
                acts: &[
                    (Begin(0x13, $body), None),
                    (Ticks(6), None),
                    (ToAsker(5), Some(LaneFault::NoSuchPacket)),
                    (ToTaker(2, &[0x05]), None),
                    (ToTaker(3, &[0x06]), None),
                    (ToTaker(2, &[0x00]), None),
                    (ToTaker(1, &[0x07]), None),
                    (ToTaker(4, &[0x08]), None),
                ],
                count: 6,
                sent: &[(5, 6, &REPLY_13), (6, 6, &REPLY_13)],
                history: &[Asked(0x13, $body), Taken(0x13, $body, &[0x00])],
            },
            Row {
                // the taker counts 8 of the 10 ticks
                situation: "an assembly waits 10 units for its next piece where two ticks are missed",
                unit: $unit,
                acts: &[
                    (Begin(0x13, $body), None),
                    (ToTaker(1, &[0x05]), None),
                    (TakerMisses, None),
                    (Ticks(8), None),
                    (TakerMisses, None),
                    (ToTaker(4, &[0x00]), None),
                ],
                count: 5,
                sent: &[(4, 6, &SECOND), (5, 10, &REPLY_13)],
                history: &[Asked(0x13, $body), Taken(0x13, $body, &[0x00])],
            },
            Row {
                situation: "an assembly is over after 11 units, whatever is missed",
                unit: $unit,
                acts: &[
                    (Begin(0x13, $body), None),
                    (ToTaker(1, &[0x05]), None),
                    (TakerMisses, None),
                    (Ticks(8), None),
                    (TakerMisses, None),
                    (Ticks(1), None),
                    (ToTaker(4, &[0x00]), None),
                ],
                count: 4,
                sent: &[(4, 6, &SECOND)],
                history: &[Asked(0x13, $body)],
            },
        ]
    };
}

static TWO_PACKETS: [[Row<'static>; 3]; 2] = [
    two_packets!(Unit::U64, &[0x5A; 61]),
    two_packets!(Unit::U128, &[0x5A; 125]),
];

#[test]
fn two_packets_are_one_message(rt: HostRuntime) {
    for rows in &TWO_PACKETS {
        for row in rows {
            assert!(rt; holds(rt.alloc(), row), "{}", row.situation);
        }
    }
}

/// A case in which this data is exchanged as a request's and as its reply's, each in four packets.
macro_rules! to_and_fro {
    ($unit:expr, $most:expr) => {
        Row {
            situation: "data go to and fro",
            unit: $unit,
            acts: &[
                (Begin(0x13, $most), None),
                (ToTaker(1, $most), None),
                (ToTaker(2, $most), None),
                (ToTaker(3, $most), None),
                (ToTaker(4, $most), None),
                (ToAsker(5), None),
                (ToAsker(6), None),
                (ToAsker(7), None),
                (ToAsker(8), None),
            ],
            count: 8,
            sent: &[],
            history: &[Asked(0x13, $most), Taken(0x13, $most, $most), Learnt($most)],
        }
    };
}

/// A case in which this data is refused as a request's and as a reply's, and shorter data is then
/// taken.
macro_rules! refused {
    ($unit:expr, $more:expr) => {
        Row {
            situation: "data are refused",
            unit: $unit,
            acts: &[
                (Begin(0x13, $more), Some(LaneFault::NotNow)),
                (ToTaker(1, $more), Some(LaneFault::NotNow)),
                (Begin(0x13, &[]), None),
                (ToTaker(1, $more), Some(LaneFault::NotNow)),
                (ToTaker(1, &[0x00]), None),
            ],
            count: 2,
            sent: &[(2, 0, &REPLY_13)],
            history: &[Asked(0x13, &[]), Taken(0x13, &[], &[0x00])],
        }
    };
}

/// The sizes of data that are exchanged, and those that are refused. A step holds at most 508
/// bytes, so a unit of 128 bytes refuses none of them.
static FOUR_PACKETS: [Row<'static>; 4] = [
    to_and_fro!(Unit::U64, &[0x5A; 252]),
    refused!(Unit::U64, &[0x5A; 253]),
    refused!(Unit::U64, &[0x5A; 508]),
    to_and_fro!(Unit::U128, &[0x5A; 508]),
];

#[test]
fn a_message_has_four_packets(rt: HostRuntime) {
    for row in &FOUR_PACKETS {
        assert!(rt; holds(rt.alloc(), row), "{}", row.situation);
    }
    assert!(rt; Reply::new().try_extend_from_slice(&[0x5A; 509]).is_err());
}

/// Whether the steps before a fault are taken, and none after it.
fn stops_at_its_fault(alloc: Global) -> bool {
    let steps = [
        LaneStep::Begin(0x01, Reply::new()),
        LaneStep::Abandon,
        LaneStep::Tick(true, true),
        LaneStep::Abandon,
        LaneStep::Tick(true, true),
    ];
    let mut lane = Lane::new(alloc, Unit::U64, 8, 9);
    lane_replay(&mut lane, &steps) == Err((3, LaneFault::NotNow))
        && lane.now() == 1
        && !lane.is_open()
}

#[test]
fn a_run_stops_at_its_fault(rt: HostRuntime) {
    assert!(rt; stops_at_its_fault(rt.alloc()));
}

/// The number of ticks in `units` that an asker counts if it misses each one that it may; None if a
/// tick that it counts is refused.
fn counted_in(alloc: Global, units: u32) -> Option<u32> {
    let mut lane = Lane::new(alloc, Unit::U64, 8, 9);
    let mut counted: u32 = 0;
    for _ in 0..units {
        if !takes(&mut lane, AskerMisses, None) {
            if !takes(&mut lane, Ticks(1), None) {
                return None;
            }
            counted = counted.wrapping_add(1);
        }
    }
    Some(counted)
}

/// The number of ticks that pass, and how many of them the slowest asker counts: it misses the
/// first, and one more after each eight that it counts.
static SLOWEST: [(u32, u32); 7] = [
    (1, 0),
    (9, 8),
    (10, 8),
    (11, 9),
    (14, 12),
    (28, 24),
    (29, 25),
];

#[test]
fn the_slowest_end_is_behind_by_an_eighth(rt: HostRuntime) {
    for (units, counted) in &SLOWEST {
        assert!(rt;
            counted_in(rt.alloc(), *units) == Some(*counted),
            "{units} units"
        );
    }
}
