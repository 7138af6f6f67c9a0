//! A session and its user's calls.

ghost use Rattle.std.specs.Prelude.{◌≡◌, ◌<◌, ◌↔◌, if◌then◌else◌, false, true, length, IfErr, IfOk, OnErr, OnOk, Some, None};
ghost use Rattle.ua_core.specs.Calls.{agent_activated, agent_cancelled, agent_restart, agent_silent, agent_started, idle_ticked, is_free, may_cancel, new_session, resumed_session};
ghost use Rattle.ua_core.specs.Session.{state_of};

use crate::fault::{NotReady, StartFault};
use crate::mark::Mark;
use crate::planned::{Planned, PlannedList, Recorded, UpdateJob};
use crate::position::{IDLE_LIMIT, Position};
use crate::state::{Cause, SessionState};
use fw_package::PLAN_LIMIT;
use mctp_wire::Unit;
use std::alloc::{AllocError, Global};
use std::marker::Model;

mod learning;
mod serving;
mod wishing;

/// The agent's session with one device: an update in progress, and the records of the components
/// that the device applied. The calls that need the session's package borrow it. Only `start`
/// allocates memory.
#[derive(Drop)]
pub struct Session {
    /// The transmission unit of its network; it never changes.
    unit: Unit,
    /// The state, and the count of idle ticks in it.
    position: Position,
    /// The number of the package that the update was started with, from 1 on; 0 before the first
    /// start. It is used in each state.
    package: usize,
    /// The package's record for the device, and the components to send. It is used from PARAMS to
    /// ACTIVATE.
    job: UpdateJob,
    /// The component that is being passed, or updated. It is used from PASS to APPLY.
    at_hand: Planned,
    /// The components to pass after the current one. They are used in PASS.
    left: PlannedList,
    /// In PASS, the components that were passed and are to be updated. Later, the components to
    /// update after the current one. They are used from PASS to APPLY.
    todo: PlannedList,
    /// The number of recorded components of this update. It is used from UPDATE to APPLY.
    made: u8,
    /// The components that the device applied in all updates, in order. They are used in each
    /// state, and a restart keeps them.
    records: Vec<Recorded>,
}

impl Model for Session {
    ghost use Rattle.std.specs.Prelude.{◌+◌, ◌<◌, ◌≤◌, length, vec_capacity};
    ghost use Rattle.ua_core.specs.Kept.{HasRecordRoom, stage_of};
    ghost use Rattle.ua_core.specs.Session.{TimedOf};

    ghost Value = { TimedOf };

    ghost view = { λ s. record {
      session = record {
        unit = s.unit;
        stage = stage_of s.position.state (record {
          chosen = s.job.chosen;
          plan = s.job.plan.items;
        }) s.at_hand s.left.items s.todo.items s.made;
        number = s.«package»;
        records = s.records.items;
      };
      idle = s.position.idle;
    } };

    ghost invariant = { λ s. (s.position.idle < 240)
        × (length s.left.items + length s.todo.items ≤ 7)
        × HasRecordRoom s.position.state (length s.records.items)
        (length s.left.items + length s.todo.items) s.made (vec_capacity s.records) };
}

impl Session {
    /// Returns a session on a network with this transmission unit, without an update and without
    /// records.
    pub fn new(alloc: Global, unit: Unit) -> Session
        ensures { result ≡ new_session unit }
    {
        Session {
            unit,
            position: Position::new(SessionState::Idle),
            package: 0,
            job: UpdateJob {
                chosen: 0,
                plan: PlannedList::new(),
            },
            at_hand: Planned::default(),
            left: PlannedList::new(),
            todo: PlannedList::new(),
            made: 0,
            records: Vec::new(alloc),
        }
    }

    /// Returns the session that goes on with what an earlier life of it kept: the number of the
    /// package that it was last started with, 0 before the first start, and its records. No update
    /// is in progress.
    ///
    /// # Errors
    /// `AllocError` if memory for the records is refused.
    pub fn resumed(
        alloc: Global,
        unit: Unit,
        package: usize,
        records: &[Recorded],
    ) -> Result<Session, AllocError>
        ensures { IfOk result (λ s. s ≡ resumed_session unit «package» records.now) }
    {
        let mut session = Session::new(alloc, unit);
        session.package = package;
        session.records.extend_from_slice(records)?;
        Ok(session)
    }

    /// Returns the transmission unit of its network.
    pub fn unit(&self) -> Unit
        ensures { result ≡ self.now.session.unit }
    {
        self.unit
    }

    /// Returns the session's state.
    pub fn state(&self) -> SessionState
        ensures { result ≡ state_of self.now.session.stage }
    {
        self.position.state
    }

    /// Returns the number of the package that the session was last started with, and 0 before the
    /// first start.
    pub fn package(&self) -> usize
        ensures { result ≡ self.now.session.number }
    {
        self.package
    }

    /// Returns the components that the device applied, of all starts, in order.
    pub fn records(&self) -> &[Recorded]
        ensures { result.now ≡ self.now.session.records }
    {
        self.records.as_slice()
    }

    /// Returns the observable part of the session now, which `happened` compares with a later
    /// moment.
    pub fn mark(&self) -> Mark
        ensures { result ≡ record { state = state_of self.now.session.stage; records = length self.now.session.records } }
    {
        Mark {
            state: self.position.state,
            records: self.records.len(),
        }
    }

    /// Starts an update with the package of this number. Allocates memory for its records, at most
    /// eight.
    ///
    /// # Errors
    /// `Busy` while an update is in progress, otherwise `Memory` if memory can't be allocated. Then
    /// nothing has changed.
    pub fn start(&mut self, package: usize) -> Result<(), StartFault>
        ensures started { OnOk result (self.new ≡ record { session = agent_started self.old.session «package»; idle = 0 }) }
        ensures free { OnOk result (is_free self.old.session ≡ true) }
        ensures busy { IfErr result (λ e. (e ≡ StartFault.Busy) ↔ (is_free self.old.session ≡ false)) }
        ensures kept { OnErr result (self.new ≡ self.old) }
    {
        if !self.position.state.is_free() {
            return Err(StartFault::Busy);
        }
        let Ok(()) = self.records.reserve(PLAN_LIMIT) else {
            return Err(StartFault::Memory);
        };
        self.package = package;
        self.position.go(SessionState::Query);
        Ok(())
    }

    /// Cancels the update. Without one in progress, and after one that ended, the device is still
    /// requested to end its update, except in Idle.
    pub fn cancel(&mut self)
        ensures session { self.new.session ≡ agent_cancelled self.old.session }
        ensures idle { self.new.idle ≡ (if may_cancel self.old.session.stage then 0 else self.old.idle) }
    {
        match self.position.state {
            SessionState::Idle | SessionState::Cancelling => {}
            _ => self.position.go(SessionState::Cancelling),
        }
    }

    /// Requests the device to activate the applied components.
    ///
    /// # Errors
    /// `NotReady` in every state but AllApplied. Then nothing has changed.
    pub fn activate(&mut self) -> Result<(), NotReady>
        ensures ok { OnOk result (agent_activated self.old.session ≡ Some self.new.session) }
        ensures idle { OnOk result (self.new.idle ≡ 0) }
        ensures not { OnErr result (agent_activated self.old.session ≡ None) }
        ensures kept { OnErr result (self.new ≡ self.old) }
    {
        if self.position.state != SessionState::AllApplied {
            return Err(NotReady);
        }
        self.position.go(SessionState::Activate);
        Ok(())
    }

    /// Handles that the device gave no answer to the pending command.
    pub fn silent(&mut self)
        ensures { self.new ≡ record { session = agent_silent self.old.session; idle = 0 } }
    {
        let next = match self.position.state {
            SessionState::Cancelling => SessionState::Idle,
            _ => SessionState::Failed(Cause::Silent),
        };
        self.position.go(next);
    }

    /// Counts an idle tick. The 240th consecutive idle tick ends an update.
    pub fn idle_tick(&mut self)
        ensures ticked { self.new ≡ idle_ticked self.old }
        ensures within { self.new.idle < 240 }
    {
        if self.position.state.is_free() {
            return;
        }
        if self.position.idle + 1 < IDLE_LIMIT {
            self.position.idle += 1;
            return;
        }
        let next = match self.position.state {
            SessionState::Cancelling => SessionState::Idle,
            _ => SessionState::Failed(Cause::TimeOut),
        };
        self.position.go(next);
    }

    /// Restarts the session: its records stay, and no update is in progress.
    pub fn restart(&mut self)
        ensures { self.new ≡ record { session = agent_restart self.old.session; idle = 0 } }
    {
        self.position.go(SessionState::Idle);
    }
}
