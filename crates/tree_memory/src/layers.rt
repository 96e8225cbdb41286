ghost use Rattle.std.specs.Prelude.{◌≡◌, ◌<◌, [], IsTrue, IsSome, IsOk, IfOk, OnOk, Some, ◌↔◌};
ghost use Rattle.std.specs.FinMap as map;
ghost use Rattle.tree_model.specs.Disk.{view, with_op, synced, stopped};
ghost use Rattle.tree_memory.specs.Held.{shown};
ghost use Rattle.tree_memory.specs.Medium.{empty_disk};

use crate::folders::Folders;
use std::alloc::Global;
use std::marker::Model;
use tree_model::{Bytes, Cut, Dir, FileName, NoMemory, Op, Place};

/// A stable tree with the operations that wait for a sync, and the tree with these applied, which stands only once an
/// operation was made since the last stop. The stable tree has room for what waits, so that a sync or a stop takes no
/// memory.
#[derive(Drop)]
pub struct Layers {
    alloc: Global,
    stable: Folders,
    view: Option<Folders>,
    pending: Vec<Op>,
}

impl Model for Layers {
    ghost use Rattle.std.specs.Prelude.{length};
    ghost use Rattle.std.specs.Vec.{vec_capacity};
    ghost use Rattle.tree_memory.specs.Held.{Held, held_code, room_of, IsLayered};

    ghost Value = { Held };

    ghost coded = { held_code };

    ghost view = { λ layers. record {
      disk = record { stable = layers.stable.tree; pending = layers.pending.items };
      room = room_of layers.stable.room layers.view (length layers.pending.items) (vec_capacity layers.pending);
    } };

    ghost invariant = { λ layers. IsLayered layers.stable layers.view layers.pending.items };
}

impl Layers {
    /// An empty tree with nothing pending.
    pub fn new(alloc: Global) -> Layers
        ensures { result.disk ≡ empty_disk }
    {
        Layers {
            alloc,
            stable: Folders::new(alloc),
            view: None,
            pending: Vec::new(alloc),
        }
    }

    /// The places of the view, in order.
    pub fn places(&self) -> &[Place]
        ensures { result.now ≡ map.keys (view self.now.disk) }
    {
        self.shown().places()
    }

    /// The number of places of the view.
    pub fn len(&self) -> usize
        ensures { result ≡ map.len (view self.now.disk) }
    {
        self.shown().len()
    }

    /// Whether the place is in the view.
    pub fn has(&self, place: Place) -> bool
        ensures { IsTrue result ↔ IsSome (map.get (view self.now.disk) place) }
    {
        self.shown().has(place)
    }

    /// The directory at a place of the view.
    pub fn dir(&self, place: Place) -> &Dir
        requires { IsSome (map.get (view self.now.disk) place) }
        ensures { map.get (view self.now.disk) place ≡ Some result.now }
    {
        self.shown().get(place).unwrap()
    }

    /// Makes sure of the memory of one further operation, in the view and in the stable tree.
    pub fn prepare(&mut self) -> Result<(), NoMemory>
        ensures same { self.new.disk ≡ self.old.disk }
        ensures room { OnOk result (0 < self.new.room) }
    {
        let waiting = self.pending.len();
        self.pending.reserve(1)?;
        self.stable.reserve(waiting + 1)?;
        let mut view = own_view(self.alloc, self.view.take(), &self.stable)?;
        let reserved = view.reserve(1);
        self.view = Some(view);
        reserved
    }

    /// Makes an operation, which is given twice: for the view and for the stable tree.
    pub fn record(&mut self, now: Op, later: Op)
        requires same { later ≡ now }
        requires room { 0 < self.old.room }
        ensures { self.new.disk ≡ with_op self.old.disk now }
    {
        let mut view = self.view.take().unwrap();
        view.apply(now);
        self.view = Some(view);
        self.pending.push(later).unwrap();
    }

    /// Writes no bytes to a file of the view, in place of those that a call failed to write.
    pub fn tear(&mut self, place: Place, file: FileName)
        requires { 0 < self.old.room }
        ensures { self.new.disk ≡ with_op self.old.disk (Op.Write place file []) }
    {
        let now = Bytes::from_vec(Vec::new(self.alloc));
        let later = Bytes::from_vec(Vec::new(self.alloc));
        self.record(Op::Write(place, file, now), Op::Write(place, file, later));
    }

    /// The view is stable.
    pub fn sync(&mut self)
        ensures { self.new.disk ≡ synced self.old.disk }
    {
        let mut fills = Vec::new(self.alloc);
        self.stable.replay(&mut self.pending, &mut fills);
    }

    /// Keeps the first pending operations of a stop, each write with the bytes of its fill.
    pub fn stop(&mut self, cut: Cut)
        ensures { self.new.disk ≡ stopped self.old.disk cut.keep cut.fills }
    {
        let Cut { keep, fills } = cut;
        let keep = keep.min(self.pending.len() as u64) as usize;
        let mut fills = fills.into_vec();
        self.pending.truncate(keep);
        self.stable.replay(&mut self.pending, &mut fills);
        self.view = None;
    }

    fn shown(&self) -> &Folders
        ensures { result.now.tree ≡ view self.now.disk }
    {
        match &self.view {
            Some(view) => view,
            None => &self.stable,
        }
    }
}

/// The view, which where there is none is a copy of the stable tree.
fn own_view(alloc: Global, view: Option<Folders>, stable: &Folders) -> Result<Folders, NoMemory>
    ensures shown { IfOk result (λ own. own.tree ≡ shown stable.now.tree view) }
    ensures kept { IsSome view → IsOk result }
{
    match view {
        Some(own) => Ok(own),
        None => stable.duplicate(alloc),
    }
}
