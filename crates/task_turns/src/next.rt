use crate::calls::Call;
use journal_model::Reply;
use step_core::Job;
use user_world::LocalChange;

/// What a task does next.
#[derive(Drop)]
pub enum Next {
    /// A call, with the change that it makes.
    Call {
        call: Call,
        change: Option<LocalChange>,
    },
    /// A computation, whose output it needs before it makes a call.
    Work(Job),
    /// Its reply.
    Reply(Reply),
}
