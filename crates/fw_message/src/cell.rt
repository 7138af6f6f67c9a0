//! The cell of a way: empty, a command, or a command with its answer.

ghost use Rattle.std.specs.Prelude.{◌≡◌, IsSome, None, Some, false, is_some, option_map};
ghost use Rattle.fwup_wire.specs.Answers.{answer_in};
ghost use Rattle.fwup_wire.specs.Commands.{command_code};
ghost use Rattle.fwup_wire.specs.Lent.{answer_of, command_of};
ghost use Rattle.fw_message.specs.Pairs.{cell_after_ask, closed_unless, fresh_cell};

use fwup_wire::{Answer, Command, read_answer};
use pldm_base::Reply;
use std::marker::Model;

/// A command that was asked, its answer after it was taken, and whether its asker still waits for
/// it.
#[derive(Drop)]
pub struct CellContent<'a> {
    command: Command<'a>,
    reply: Option<Reply>,
    live: bool,
}

impl<'a> Model for CellContent<'a> {
    ghost use Rattle.std.specs.Prelude.{option_map};
    ghost use Rattle.fw_message.specs.Cells.{IsAnswerBytes, answer_kept};
    ghost use Rattle.fw_message.specs.Pairs.{CellContentOf};
    ghost use Rattle.fwup_wire.specs.Lent.{command_of};

    ghost Value = { CellContentOf };

    ghost view = { λ h. record {
      command = command_of h.command;
      reply = answer_kept (command_of h.command) (option_map (λ r. r.items) h.reply);
      live = h.live;
    } };

    ghost invariant = { λ h. IsAnswerBytes (command_of h.command) (option_map (λ r. r.items) h.reply) };
}

impl<'a> CellContent<'a> {
    /// Creates the content for a command that was just asked.
    pub(crate) fn new(command: Command<'a>) -> CellContent<'a>
        ensures { result ≡ fresh_cell (command_of command.entry) }
    {
        CellContent {
            command,
            reply: None,
            live: true,
        }
    }

    /// The command.
    pub fn command(&self) -> Command<'a>
        ensures { command_of result ≡ self.now.command }
    {
        self.command
    }

    /// Whether its asker still waits for it.
    pub fn is_live(&self) -> bool
        ensures { result ≡ self.now.live }
    {
        self.live
    }

    /// Whether the command was taken.
    pub fn is_taken(&self) -> bool
        ensures { result ≡ is_some self.now.reply }
    {
        self.reply.is_some()
    }

    /// Returns the answer, if the command was taken.
    pub fn answer(&self) -> Option<Answer<'_>>
        ensures { option_map answer_of result ≡ self.now.reply }
    {
        match &self.reply {
            Some(reply) => read_answer(self.command.code(), reply.as_slice()).ok(),
            None => None,
        }
    }

    /// Takes the command, with this answer.
    pub(crate) fn take(&mut self, reply: Reply)
        requires { IsSome (answer_in (command_code self.old.command) reply.items) }
        ensures { self.new ≡ record self.old { reply = answer_in (command_code self.old.command) reply.items } }
    {
        self.reply = Some(reply);
    }

    /// Marks that its asker no longer waits for it.
    pub(crate) fn close(&mut self)
        ensures { self.new ≡ record self.old { live = false } }
    {
        self.live = false;
    }

    /// Marks that its asker no longer waits for it, unless it is the pending command.
    pub(crate) fn close_unless(&mut self, wish: &Option<Command<'_>>)
        ensures { Some self.new ≡ closed_unless (option_map command_of wish.now) (Some self.old) }
    {
        self.live = match wish {
            Some(wish) => self.live && self.command.is_same(wish),
            None => false,
        };
    }
}
