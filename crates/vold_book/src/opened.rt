/// The counts of a device.
#[derive(Clone, Copy, Debug, PartialEq, Eq)]
pub struct Counted {
    pub calls: u64,
    pub faults: u64,
}

/// The counts of the devices when a Book was opened over them.
#[derive(Clone, Copy, Debug, PartialEq, Eq)]
pub struct Opened {
    pub tree: Counted,
    pub store: Counted,
    pub ring: Counted,
}
