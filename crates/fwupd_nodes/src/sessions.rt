//! The sessions that aren't Done.

ghost use Rattle.std.specs.Prelude.{◌≡◌, ◌++◌, [], IfErr, IfOk, None, OnOk, decimal, string_bytes};
ghost use Rattle.fwupd_watch.specs.Running.{observer_fault_of};
ghost use Rattle.fwupd_nodes.specs.Sessions.{TellsUndone, is_done, is_skipped, named_after, none_undone, separator_after, undone_in, undone_word, with_session};
ghost use Rattle.fwupd_nodes.specs.Setups.{TellsStore};

use fd_core::Bank;
use fw_script::{cause_name, session_name, session_of};
use fw_world::World;
use fwupd_watch::JobFault;
use std::alloc::{AllocError, Global};
use std::marker::Model;
use ua_core::{Cause, SessionState};

/// The sessions of some devices that aren't Done.
#[derive(Drop)]
pub struct Undone {
    /// The device of each and what became of it, separated by commas.
    text: String,
    /// Whether something was to be updated on one of them.
    has_failed: bool,
}

impl Model for Undone {
    ghost use Rattle.std.specs.Prelude.{string_bytes};
    ghost use Rattle.fwupd_nodes.specs.Sessions.{UndoneOf};

    ghost Value = { UndoneOf };

    ghost view = { λ u. record { text = string_bytes u.text; has_failed = u.has_failed } };
}

/// Whether a session is Done.
fn is_done(state: Option<SessionState>) -> bool
    ensures { result ≡ is_done state }
{
    matches!(state, Some(SessionState::Done))
}

/// Whether a session ended since nothing was to be updated on its device.
fn is_skipped(state: Option<SessionState>) -> bool
    ensures { result ≡ is_skipped state }
{
    matches!(
        state,
        Some(SessionState::Failed(Cause::NoRecord | Cause::NothingToUpdate))
    )
}

/// The name of the cause of a failed session, or of the state of another one.
fn undone_word(state: Option<SessionState>) -> &'static str
    ensures { result.now ≡ undone_word state }
{
    match state {
        None => "-",
        Some(SessionState::Failed(cause)) => cause_name(cause),
        Some(state) => session_name(state),
    }
}

/// What is between a device and those before it in a text.
fn separator_after(text: &str) -> &'static str
    ensures { result.now ≡ separator_after text.now }
{
    if text.is_empty() { "" } else { ", " }
}

/// Returns a text with one more device, and what became of its session.
fn named_after(
    alloc: Global,
    text: &str,
    device: u8,
    state: Option<SessionState>,
) -> Result<String, AllocError>
    ensures { IfOk result (λ named. string_bytes named ≡ named_after text.now device state) }
{
    let separator = separator_after(text);
    let word = undone_word(state);
    match format!(in alloc; "{text}{separator}{device}: {word}") {
        Ok(named) => Ok(named),
        Err(_) => Err(AllocError),
    }
}

impl Undone {
    /// No session that isn't Done.
    pub(crate) fn none(alloc: Global) -> Undone
        ensures { result ≡ none_undone }
    {
        Undone {
            text: String::new(alloc),
            has_failed: false,
        }
    }

    /// Adds the session with a device, if it isn't Done.
    pub(crate) fn add(
        &mut self,
        alloc: Global,
        device: u8,
        state: Option<SessionState>,
    ) -> Result<(), AllocError>
        ensures { OnOk result (self.new ≡ with_session self.old device state) }
    {
        if is_done(state) {
            return Ok(());
        }
        self.text = named_after(alloc, &self.text, device, state)?;
        self.has_failed |= !is_skipped(state);
        Ok(())
    }

    /// Checks that there is no session that isn't Done.
    ///
    /// # Errors
    /// The fault that names all of them: `Skipped` if nothing was to be updated on any of their
    /// devices, or else `Undone`.
    pub fn check(self) -> Result<(), JobFault>
        ensures none { OnOk result (self.text ≡ []) }
        ensures tells { IfErr result (TellsUndone self) }
        ensures other { IfErr result (λ e. observer_fault_of e ≡ None) }
        ensures store { IfErr result (λ e. TellsStore e → ⊥) }
    {
        if self.text.is_empty() {
            return Ok(());
        }
        if self.has_failed {
            Err(JobFault::Undone(self.text))
        } else {
            Err(JobFault::Skipped(self.text))
        }
    }
}

/// Returns the sessions of a world that aren't Done, in configured order.
///
/// # Errors
/// Only if memory is refused.
pub fn undone_in<B: Bank + Drop>(alloc: Global, world: &World<'_, B>) -> Result<Undone, AllocError>
    ensures { IfOk result (λ u. u ≡ undone_in world.now) }
{
    let mut undone = Undone::none(alloc);
    for place in 0..world.device_count() {
        let Some(node) = world.device_at(place) else {
            unreachable!()
        };
        let eid = node.eid();
        undone.add(alloc, eid, session_of(world.agent(), eid))?;
    }
    Ok(undone)
}
