//! Steps that ask commands, and that end waiting for an answer.

ghost use Rattle.std.specs.Prelude.{◌≡◌, None, Some, false, if◌then◌else◌, true};
ghost use Rattle.fw_message.specs.Pairs.{StepOf, cell_after_ask, closed_unless, dropped_cell, cell_after_give_up, step_without_entries, step_of, unwished_closed};
ghost use Rattle.fw_message.specs.declared.side.Way.TheVariants as ways;
ghost use Rattle.fwup_wire.specs.Lent.{command_of};
ghost use Rattle.std.specs.Prelude.{option_map};

use crate::cell::CellContent;
use crate::pair::Pair;
use fd_core::Bank;
use fw_package::Package;
use fwup_wire::Command;
use ua_core::Lent;

impl<'a, B: Bank> Pair<'a, B> {
    /// The agent asks the session's pending command. False if none is pending or the cell isn't
    /// empty.
    pub fn ask_down(&mut self, packages: &'a [Package<'a>]) -> bool
        ensures step { step_of packages.now self.old.node.pair StepOf.AskDown
            ≡ (if result then Some (step_without_entries self.new.node.pair) else None) }
        ensures same { result ≡ false → self.new ≡ self.old }
        ensures eid { self.new.node.eid ≡ self.old.node.eid }
        ensures faults { self.new.faults ≡ self.old.faults }
    {
        let wish = self
            .session
            .wish(&Lent::of(packages, self.session.package()));
        ask(&mut self.down, wish)
    }

    /// The device asks its pending command. False if none is pending or the cell isn't empty.
    pub fn ask_up(&mut self, packages: &'a [Package<'a>]) -> bool
        ensures step { step_of packages.now self.old.node.pair StepOf.AskUp
            ≡ (if result then Some (step_without_entries self.new.node.pair) else None) }
        ensures same { result ≡ false → self.new ≡ self.old }
        ensures eid { self.new.node.eid ≡ self.old.node.eid }
        ensures faults { self.new.faults ≡ self.old.faults }
    {
        let wish = self.device.wish();
        ask(&mut self.up, wish)
    }

    /// Empties the cell of the agent's commands. False unless it has a command that nobody waits
    /// for.
    pub fn drop_down(&mut self, packages: &'a [Package<'a>]) -> bool
        ensures step { step_of packages.now self.old.node.pair (StepOf.Drop ways.Down)
            ≡ (if result then Some (step_without_entries self.new.node.pair) else None) }
        ensures same { result ≡ false → self.new ≡ self.old }
        ensures eid { self.new.node.eid ≡ self.old.node.eid }
        ensures faults { self.new.faults ≡ self.old.faults }
    {
        drop_closed(&mut self.down)
    }

    /// Empties the cell of the device's commands, likewise.
    pub fn drop_up(&mut self, packages: &'a [Package<'a>]) -> bool
        ensures step { step_of packages.now self.old.node.pair (StepOf.Drop ways.Up)
            ≡ (if result then Some (step_without_entries self.new.node.pair) else None) }
        ensures same { result ≡ false → self.new ≡ self.old }
        ensures eid { self.new.node.eid ≡ self.old.node.eid }
        ensures faults { self.new.faults ≡ self.old.faults }
    {
        drop_closed(&mut self.up)
    }

    /// The agent no longer waits, and the session handles that there was no answer.
    pub fn give_up_down(&mut self, packages: &'a [Package<'a>]) -> bool
        ensures step { step_of packages.now self.old.node.pair (StepOf.GiveUp ways.Down)
            ≡ (if result then Some (step_without_entries self.new.node.pair) else None) }
        ensures same { result ≡ false → self.new ≡ self.old }
        ensures eid { self.new.node.eid ≡ self.old.node.eid }
        ensures faults { self.new.faults ≡ self.old.faults }
    {
        let given_up = give_up(&mut self.down);
        if given_up {
            self.session.silent();
        }
        given_up
    }

    /// The device no longer waits.
    pub fn give_up_up(&mut self, packages: &'a [Package<'a>]) -> bool
        ensures step { step_of packages.now self.old.node.pair (StepOf.GiveUp ways.Up)
            ≡ (if result then Some (step_without_entries self.new.node.pair) else None) }
        ensures same { result ≡ false → self.new ≡ self.old }
        ensures eid { self.new.node.eid ≡ self.old.node.eid }
        ensures faults { self.new.faults ≡ self.old.faults }
    {
        give_up(&mut self.up)
    }

    /// Ends waiting for each command that is no longer pending.
    #[tactic(auto, unfolding(crate::specs::Pairs::unwished_closed))]
    pub fn close_unwished(&mut self, packages: &'a [Package<'a>])
        ensures pair { self.new.node.pair ≡ unwished_closed packages.now self.old.node.pair }
        ensures eid { self.new.node.eid ≡ self.old.node.eid }
        ensures faults { self.new.faults ≡ self.old.faults }
    {
        let wish = self
            .session
            .wish(&Lent::of(packages, self.session.package()));
        close_unless(&mut self.down, &wish);
        close_unless(&mut self.up, &self.device.wish());
    }
}

/// Puts the pending command into an empty cell.
fn ask<'a>(cell: &mut Option<CellContent<'a>>, wish: Option<Command<'a>>) -> bool
    ensures asked { cell_after_ask cell.old (option_map command_of wish.entry) ≡ (if result then Some cell.new else None) }
    ensures same { result ≡ false → cell.new ≡ cell.old }
{
    let (None, Some(command)) = (&*cell, wish) else {
        return false;
    };
    *cell = Some(CellContent::new(command));
    true
}

/// Empties a cell that nobody waits for.
fn drop_closed(cell: &mut Option<CellContent<'_>>) -> bool
    ensures dropped { dropped_cell cell.old ≡ (if result then Some cell.new else None) }
    ensures same { result ≡ false → cell.new ≡ cell.old }
{
    match cell {
        Some(held) if !held.is_live() => {}
        _ => return false,
    }
    *cell = None;
    true
}

/// Ends waiting for the command in a cell.
fn give_up(cell: &mut Option<CellContent<'_>>) -> bool
    ensures given_up { cell_after_give_up cell.old ≡ (if result then Some cell.new else None) }
    ensures same { result ≡ false → cell.new ≡ cell.old }
{
    match cell {
        Some(held) if held.is_live() => {
            held.close();
            true
        }
        _ => false,
    }
}

/// Ends waiting for the command in a cell, unless it is the pending command.
fn close_unless(cell: &mut Option<CellContent<'_>>, wish: &Option<Command<'_>>)
    ensures { cell.new ≡ closed_unless (option_map command_of wish.now) cell.old }
{
    if let Some(held) = cell {
        held.close_unless(wish);
    }
}
