ghost use Rattle.std.specs.Prelude.{◌≡◌};
ghost use Rattle.bench.specs.Bench.{was_done};

use journal_model::Device;
use task_turns::Answer;

/// How a call went.
#[derive(Drop)]
pub enum Made {
    /// It was done, and the task hears this.
    Heard(Answer),
    /// The device failed.
    Failed(Device),
}

impl Made {
    /// Whether it was done.
    pub fn was_done(&self) -> bool
        ensures { result ≡ was_done self.now }
    {
        match self {
            Made::Heard(_) => true,
            Made::Failed(_) => false,
        }
    }
}
