/// What a turn did.
#[derive(Clone, Copy, Debug, PartialEq, Eq)]
pub enum Turn {
    /// It began a command, or made one call of the device, or gave a reply.
    Went,
    /// Nothing: the actor has neither a running command nor a queue.
    Idle,
    /// Nothing: the machine doesn't take the actor's commands now.
    Waits,
}

/// What an actor's next turn does.
#[derive(Clone, Copy, Debug, PartialEq, Eq)]
pub enum Step {
    /// Nothing: the actor has neither a running command nor a queue.
    Idle,
    /// Nothing: the machine doesn't take the actor's commands now.
    Waits,
    /// It begins a command.
    Begin,
    /// It goes on with the command that it runs.
    GoOn,
}
