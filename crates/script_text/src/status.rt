//! How a run ends.
ghost use Rattle.std.specs.Prelude.{◌≡◌};
ghost use Rattle.script_text.specs.Status.{number_of_status, message_of};

/// How a run ends.
#[derive(Clone, Copy, Debug, PartialEq, Eq)]
pub enum Status {
    /// The output is printed.
    Done,
    /// The words of the command line name no run.
    Usage,
    /// The bytes that were read are no script.
    BadScript,
    /// The script couldn't be read.
    ReadFault,
    /// The output couldn't be written.
    WriteFault,
    /// Memory ran out.
    NoMemory,
}

impl Status {
    /// The number that the process gives.
    pub fn number(&self) -> u8
        ensures { result ≡ number_of_status self.now }
    {
        match self {
            Status::Done => 0,
            Status::Usage => 2,
            Status::BadScript => 3,
            Status::ReadFault => 5,
            Status::WriteFault => 6,
            Status::NoMemory => 7,
        }
    }

    /// What is written where the run doesn't print its output.
    pub fn message(&self) -> &'static [u8]
        ensures { result.now ≡ message_of self.now }
    {
        match self {
            Status::Usage => b"usage: vold run | vold rehearse <number> | vold threads\n",
            Status::BadScript => b"badscript\n",
            Status::ReadFault => b"readfault\n",
            Status::Done | Status::WriteFault | Status::NoMemory => b"",
        }
    }
}
