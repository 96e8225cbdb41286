ghost use Rattle.std.specs.Prelude.{◌≡◌, ◌↔◌, IsTrue};
ghost use Rattle.journal_model.specs.Machine.{TakesTurn, phase_after};

use crate::commands::{Actor, Command, Reply};

/// Whether the machine takes commands.
#[derive(Clone, Copy, Debug, PartialEq, Eq)]
pub enum Phase {
    /// It takes every command.
    Up,
    /// It started again, and takes a recovery alone.
    Down,
    /// It stopped.
    Halted,
}

impl Phase {
    /// Whether the machine takes turns of the actor.
    pub fn takes(self, actor: Actor) -> bool
        ensures { IsTrue result ↔ TakesTurn self actor }
    {
        match (self, actor) {
            (Phase::Up, _) | (Phase::Down, Actor::Boot) => true,
            (Phase::Down, Actor::Cp | Actor::User(_)) | (Phase::Halted, _) => false,
        }
    }

    /// The phase after a reply to the command: a recovery that ended brings the machine up.
    pub fn after_reply(self, command: &Command, reply: Reply) -> Phase
        ensures { result ≡ phase_after self command.now reply }
    {
        match (command, reply) {
            (Command::Recover, Reply::Ended(_)) => Phase::Up,
            _ => self,
        }
    }
}
