ghost use Rattle.std.specs.Prelude.{◌≤◌};

use journal_model::Device;

/// A call of a device that fails: its number among that device's calls, from 1.
#[derive(Clone, Copy, Debug, PartialEq, Eq)]
pub struct Planned {
    pub device: Device,
    pub call: u32,
    ghost counted: { 1 ≤ call },
}

/// A run: its name, the words after the program's name, the calls that fail, and the script's text.
#[derive(Drop)]
pub struct Case {
    pub name: String,
    pub words: Vec<String>,
    pub faults: Vec<Planned>,
    pub script: String,
}
