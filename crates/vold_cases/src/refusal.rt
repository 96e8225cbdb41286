use std::alloc::{AllocError, AllocFailed, Global};
use std::fmt;
use tree_model::NoMemory;

/// What is wrong with a text that is not of cases.
#[derive(Clone, Copy, Debug, PartialEq, Eq)]
pub enum Wrong {
    /// There are too many bytes.
    Length,
    /// The bytes are no text.
    Text,
    /// A case begins with no name.
    Head,
    /// A line that plans a fault is none.
    Plan,
    /// A case doesn't end.
    End,
}

impl fmt::Display for Wrong {
    fn fmt<W: fmt::Write>(&self, f: &mut fmt::Formatter<W>) -> fmt::Result {
        f.write_str(match self {
            Wrong::Length => "the cases have too many bytes",
            Wrong::Text => "the bytes are no text",
            Wrong::Head => "a case begins with a line 'case NAME WORDS'",
            Wrong::Plan => "a fault is planned by a line 'plan DEVICE N'",
            Wrong::End => "a case ends with a line with a single dot",
        })
    }
}

/// Why no cases were read.
#[derive(Clone, Copy, Debug, PartialEq, Eq)]
pub enum Refusal {
    /// The bytes are of no cases: what is wrong, and how many bytes are left where the wrong line begins.
    Wrong(Wrong, usize),
    /// Memory ran out.
    NoMemory,
}

impl From<NoMemory> for Refusal {
    fn from(_error: NoMemory) -> Refusal {
        Refusal::NoMemory
    }
}

impl From<AllocError> for Refusal {
    fn from(_error: AllocError) -> Refusal {
        Refusal::NoMemory
    }
}

impl<T: Drop> From<AllocFailed<T>> for Refusal {
    fn from(_refused: AllocFailed<T>) -> Refusal {
        Refusal::NoMemory
    }
}

/// The line that tells what is wrong with the bytes.
pub fn refusal_line(
    alloc: Global,
    bytes: &[u8],
    wrong: Wrong,
    left: usize,
) -> Result<String, NoMemory> {
    let before = bytes.len().saturating_sub(left);
    let ended = bytes.iter().take(before).filter(|byte| **byte == b'\n');
    let number = ended.count() as u64 + 1;
    Ok(format!(in alloc; "line {number}: {wrong}\n")?)
}
