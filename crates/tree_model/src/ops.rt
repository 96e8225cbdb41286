ghost use Rattle.std.specs.Prelude.{◌≡◌, IfOk};

use crate::bytes::Bytes;
use crate::files::FileName;
use crate::memory::NoMemory;
use crate::places::Place;
use std::alloc::Global;
use std::marker::Model;

/// An operation on a tree.
#[derive(Drop)]
pub enum Op {
    MakeDir(Place),
    Write(Place, FileName, Bytes),
    RenameFile(Place, FileName, FileName),
    RenameDir(Place, Place),
    RemoveFile(Place, FileName),
    RemoveDir(Place),
}

/// What a stop leaves of a write: its bytes, or any others.
#[derive(Drop)]
pub enum Fill {
    Same,
    Bytes(Bytes),
}

/// One fill for each pending operation, in order; where there are fewer, the rest is `Fill::Same`.
#[derive(Drop)]
pub struct Fills {
    items: Vec<Fill>,
}

impl Model for Fills {
    ghost use Rattle.std.specs.Prelude.{List};
    ghost use Rattle.tree_model.specs.declared.ops.Fill.{Fill};

    ghost Value = { List Fill };

    ghost view = { λ fills. fills.items.items };
}

impl Fills {
    /// The fills of a vector, which is taken over.
    pub fn new(items: Vec<Fill>) -> Fills
        ensures { result ≡ items.items }
    {
        Fills { items }
    }

    /// The fills, in order.
    pub fn as_slice(&self) -> &[Fill]
        ensures { result.now ≡ self.now }
    {
        self.items.as_slice()
    }

    /// The vector of the fills, in order.
    pub fn into_vec(self) -> Vec<Fill>
        ensures { result.items ≡ self }
    {
        let Fills { items } = self;
        items
    }
}

/// What a stop keeps: the first `keep` pending operations, their writes filled by `fills`.
#[derive(Drop)]
pub struct Cut {
    pub keep: u64,
    pub fills: Fills,
}

impl Fill {
    /// The same fill in memory of its own.
    pub fn duplicate(&self, alloc: Global) -> Result<Fill, NoMemory>
        ensures { IfOk result (λ copied. copied ≡ self.now) }
    {
        match self {
            Fill::Same => Ok(Fill::Same),
            Fill::Bytes(bytes) => Ok(Fill::Bytes(Bytes::copy(alloc, bytes.as_slice())?)),
        }
    }
}

impl Cut {
    /// The same cut in memory of its own.
    pub fn duplicate(&self, alloc: Global) -> Result<Cut, NoMemory>
        ensures { IfOk result (λ copied. copied ≡ self.now) }
    {
        let mut fills = Vec::new(alloc);
        for fill in self.fills.as_slice() {
            fills.push(fill.duplicate(alloc)?)?;
        }
        Ok(Cut {
            keep: self.keep,
            fills: Fills::new(fills),
        })
    }
}
