//! Laws of nodes.

ghost use Rattle.fw_node.specs.BankCalls.{PacketsDependOnCalls};
ghost use Rattle.fw_node.specs.Resumed.{RestartsKeepNoMore};

/// The outcome of a packet for a device's half depends on whether the bank works exactly if the
/// packet calls the bank.
pub fn bank_calls_decide()
    ensures { PacketsDependOnCalls }
{}

/// A restart of the agent keeps the records of its sessions, and the records and settings of its
/// log, and no more: an agent that is resumed from these restarts as the agent itself does.
pub fn restarts_keep_no_more()
    ensures { RestartsKeepNoMore }
{}
