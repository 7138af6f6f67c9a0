//! A session's pending command.

ghost use Rattle.std.specs.Prelude.{◌≡◌, ◌≤◌, IfSome, option_map};
ghost use Rattle.fw_package.specs.Choice.{component_at};
ghost use Rattle.fwup_wire.specs.Commands.{CommandRoundTrips};
ghost use Rattle.fwup_wire.specs.Lent.{command_of, table_entry_of, offer_of};
ghost use Rattle.fwup_wire.specs.Values.{CommandOf};
ghost use Rattle.ua_core.specs.Lent.{key_of, sent_version};
ghost use Rattle.ua_core.specs.Wish.{agent_wish, flag_at, offer_wish};

use crate::lent::{Lent, forces, key, size, version};
use crate::planned::Planned;
use crate::session::Session;
use crate::state::SessionState;
use fwup_wire::{Command, ComponentOffer, TableEntry, TransferFlag, UpdateRequest, transfer_size};

impl Session {
    /// Returns the session's pending command to the device, with the texts of the package; `None`
    /// while it waits for the device or for its user.
    pub fn wish<'a>(&self, lent: &Lent<'a>) -> Option<Command<'a>>
        ensures wish { option_map command_of result ≡ agent_wish lent.now self.now.session }
        ensures spoken { IfSome (agent_wish lent.now self.now.session) CommandRoundTrips }
    {
        match self.position.state {
            SessionState::Query => Some(Command::QueryDeviceIdentifiers),
            SessionState::Params => Some(Command::GetFirmwareParameters),
            SessionState::ClearOld | SessionState::Cancelling => Some(Command::CancelUpdate),
            SessionState::Request => Some(Command::RequestUpdate(UpdateRequest {
                transfer_size: transfer_size(self.unit) as u32,
                components: self.job.plan.len() as u16,
                outstanding: 1,
                package_data_length: 0,
                image_set: lent.set_text(self.job.chosen),
            })),
            SessionState::Pass => {
                let flag = flag_at(self.left.len(), self.job.plan.len());
                Some(Command::PassComponentTable(entry(lent, self.at_hand, flag)))
            }
            SessionState::Update => Some(Command::UpdateComponent(offer(lent, self.at_hand))),
            SessionState::Activate => Some(Command::ActivateFirmware {
                self_contained: true,
            }),
            _ => None,
        }
    }
}

/// Returns the flag of an entry in a table of `count` entries, `left` of which come after it.
fn flag_at(left: usize, count: usize) -> TransferFlag
    requires { left ≤ 8 }
    ensures { result ≡ flag_at left count }
{
    if count == 1 {
        TransferFlag::StartAndEnd
    } else if left + 1 == count {
        TransferFlag::Start
    } else if left == 0 {
        TransferFlag::End
    } else {
        TransferFlag::Middle
    }
}

/// Returns the component table entry of a component.
fn entry<'a>(lent: &Lent<'a>, planned: Planned, flag: TransferFlag) -> TableEntry<'a>
    ensures spoken { CommandRoundTrips (CommandOf.PassComponentTable (table_entry_of result)) }
    ensures value { table_entry_of result ≡ record {
      flag = flag;
      key = key_of (component_at lent.now planned.component);
      index = planned.index;
      version = sent_version (component_at lent.now planned.component);
    } }
{
    let component = lent.component(planned.component);
    TableEntry {
        flag,
        key: key(component),
        index: planned.index,
        version: version(component),
    }
}

/// Returns the offer of a component.
fn offer<'a>(lent: &Lent<'a>, planned: Planned) -> ComponentOffer<'a>
    ensures spoken { CommandRoundTrips (CommandOf.UpdateComponent (offer_of result)) }
    ensures value { CommandOf.UpdateComponent (offer_of result) ≡ offer_wish lent.now planned }
{
    let component = lent.component(planned.component);
    ComponentOffer {
        key: key(component),
        index: planned.index,
        version: version(component),
        size: size(component),
        force: forces(component),
    }
}
