//! Laws of every bank and every device, over any calls.

ghost use Rattle.std.specs.Prelude.{◌≡◌, List, map};
ghost use Rattle.fd_core.specs.BankCalls.{AnswersDependOnCalls, CommandsDependOnCalls, VerdictsDependOnCalls};
ghost use Rattle.fd_core.specs.Images.{ImageOf, RowOf, rows_after_drop, key_of, rows_after_seal, rows_after_switch};
ghost use Rattle.fd_core.specs.Components.{AnswersKeepComponents, CommandsKeepComponents, RestartsKeepComponents, TimeOutsKeepComponents, VerdictsKeepComponents};
ghost use Rattle.fd_core.specs.Laws.{RefusalsActivateNothing, RefusalsKeepTheDevice, RefusalsKeepDeviceIdle};
ghost use Rattle.fwup_wire.specs.declared.values.Key.{Key};

/// The components of a bank never change: dropping, sealing and switching images keeps their keys
/// and their order.
#[tactic(auto, using(crate::proofs::Rows::keys_dropped, crate::proofs::Rows::keys_sealed, crate::proofs::Rows::keys_switched))]
pub fn components_stay()
    ensures dropped { (rows : List RowOf) → map key_of (rows_after_drop rows) ≡ map key_of rows }
    ensures sealed { (rows : List RowOf) (key : Key) (image : ImageOf)
        → map key_of (rows_after_seal rows key image) ≡ map key_of rows }
    ensures switched { (rows : List RowOf) → map key_of (rows_after_switch rows) ≡ map key_of rows }
{}

/// No event changes the components of a device and its bank. The component that it updates is one
/// of them.
pub fn devices_keep_components()
    ensures commands { CommandsKeepComponents }
    ensures answers { AnswersKeepComponents }
    ensures verdicts { VerdictsKeepComponents }
    ensures timeouts { TimeOutsKeepComponents }
    ensures restarts { RestartsKeepComponents }
{}

/// A command that a device refuses, with a code other than 0 or by declining the component of an
/// UpdateComponent, leaves it as it is: it activates nothing, and the count of ticks without a
/// change continues.
pub fn refusals_change_nothing()
    ensures kept { RefusalsKeepTheDevice }
    ensures activated { RefusalsActivateNothing }
    ensures idle { RefusalsKeepDeviceIdle }
{}

/// The effect of a call on a device depends on whether its bank works exactly if the device calls
/// the bank: at a command, at an answer, and at a verdict. Otherwise it is the same for a bank that
/// fails and for one that works.
pub fn bank_calls_decide()
    ensures commands { CommandsDependOnCalls }
    ensures answers { AnswersDependOnCalls }
    ensures verdicts { VerdictsDependOnCalls }
{}
