ghost use Rattle.std.specs.Prelude.{◌≡◌, ◌≤◌, IfOk, OnOk};
ghost use Rattle.journal_model.specs.declared.entries.Device.TheVariants.{Tree as TreeDevice, Store as StoreDevice};
ghost use Rattle.journal_model.specs.declared.entries.Device.TheVariants.{Ring as RingDevice};
ghost use Rattle.key_ring.specs.Kept.{once};
ghost use Rattle.vold_cases.specs.Played.{report_of, IsPlannedRing, IsPlannedStore, IsPlannedTree, Plans, PrintsCase};

use crate::case::{Case, Planned};
use crate::reading::cases_in;
use crate::refusal::{Refusal, refusal_line};
use journal_model::Device;
use key_ring::{KeyRing, MemRing};
use keystore_memory::MemKeystore;
use keystore_model::Keystore;
use std::alloc::Global;
use tree_memory::MemTree;
use tree_model::{Bytes, NoMemory, TreeDisk};
use vold_io::{MemSink, MemSource, Sink, SinkFault, write_all};
use vold_run::run;

/// Runs the cases of the bytes in order and writes what each prints; where the bytes are of no cases, the line that
/// tells what is wrong. Answers whether they are.
pub fn play<K: Sink>(alloc: Global, bytes: &[u8], sink: &mut K) -> Result<bool, SinkFault> {
    match cases_in(alloc, bytes) {
        Ok(cases) => play_all(alloc, cases.as_slice(), sink),
        Err(Refusal::NoMemory) => Err(SinkFault::NoMemory),
        Err(Refusal::Wrong(wrong, left)) => {
            let line = refusal_line(alloc, bytes, wrong, left)?;
            write_all(sink, line.as_bytes())?;
            Ok(false)
        }
    }
}

fn play_all<K: Sink>(alloc: Global, cases: &[Case], sink: &mut K) -> Result<bool, SinkFault> {
    for case in cases {
        let text = played(alloc, case)?;
        write_all(sink, text.as_slice())?;
    }
    Ok(true)
}

/// Runs the case, and answers what it prints.
fn played(alloc: Global, case: &Case) -> Result<Bytes, NoMemory>
    ensures { IfOk result (λ text. PrintsCase case.now text) }
{
    let tree = planned_tree(alloc, case.faults.as_slice())?;
    let store = planned_store(alloc, case.faults.as_slice())?;
    let ring = planned_ring(alloc, case.faults.as_slice())?;
    let script = Bytes::copy(alloc, case.script.as_bytes())?;
    let mut source = MemSource::new(script, None);
    let mut sink = MemSink::new(alloc, None);
    let end = run(
        alloc,
        case.words.as_slice(),
        &mut source,
        &mut sink,
        tree,
        store,
        ring,
    );
    report(
        alloc,
        case.name.as_str(),
        sink.as_slice(),
        end.status.number(),
    )
}

/// A tree in memory, before its first call, of which the planned calls fail.
fn planned_tree(alloc: Global, faults: &[Planned]) -> Result<MemTree, NoMemory>
    ensures { IfOk result (λ tree. IsPlannedTree faults.now tree) }
{
    let mut tree = MemTree::new(alloc)?;
    for fault in faults {
        plan_in_tree(&mut tree, fault.device, u64::from(fault.call))?;
    }
    Ok(tree)
}

/// Plans that the call fails, where it is one of the tree.
fn plan_in_tree(tree: &mut MemTree, device: Device, call: u64) -> Result<(), NoMemory>
    requires { 1 ≤ call }
    ensures same { tree.new.disk ≡ tree.old.disk }
    ensures planned { OnOk result (Plans TreeDevice device call tree.old.counts tree.new.counts) }
{
    match device {
        Device::Tree => tree.plan_fault(call),
        Device::Store | Device::Ring => Ok(()),
    }
}

/// A keystore in memory, before its first call, of which the planned calls fail.
fn planned_store(alloc: Global, faults: &[Planned]) -> Result<MemKeystore, NoMemory>
    ensures { IfOk result (λ store. IsPlannedStore faults.now store) }
{
    let mut store = MemKeystore::new(alloc)?;
    for fault in faults {
        plan_in_store(&mut store, fault.device, u64::from(fault.call))?;
    }
    Ok(store)
}

/// Plans that the call fails, where it is one of the keystore.
fn plan_in_store(store: &mut MemKeystore, device: Device, call: u64) -> Result<(), NoMemory>
    requires { 1 ≤ call }
    ensures same { store.new.store ≡ store.old.store }
    ensures planned { OnOk result (Plans StoreDevice device call store.old.counts store.new.counts) }
{
    match device {
        Device::Tree | Device::Ring => Ok(()),
        Device::Store => store.plan_fault(call),
    }
}

/// A key ring in memory, before its first call, of which the planned calls fail.
fn planned_ring(alloc: Global, faults: &[Planned]) -> Result<MemRing, NoMemory>
    ensures { IfOk result (λ ring. IsPlannedRing faults.now ring) }
{
    let mut ring = MemRing::new(alloc)?;
    for fault in faults {
        plan_in_ring(&mut ring, fault.device, u64::from(fault.call))?;
    }
    Ok(ring)
}

/// Plans that the call fails, where it is one of the key ring.
fn plan_in_ring(ring: &mut MemRing, device: Device, call: u64) -> Result<(), NoMemory>
    requires { 1 ≤ call }
    ensures same { once ring.new.keys ≡ once ring.old.keys }
    ensures planned { OnOk result (Plans RingDevice device call ring.old.counts ring.new.counts) }
{
    match device {
        Device::Tree | Device::Store => Ok(()),
        Device::Ring => ring.plan_fault(call),
    }
}

/// What a case prints: its name, what its run wrote, and the number that the run ended with.
fn report(alloc: Global, name: &str, written: &[u8], number: u8) -> Result<Bytes, NoMemory>
    ensures { IfOk result (λ text. text ≡ report_of name.now written.now number) }
{
    let mut text = Vec::new(alloc);
    let head = format!(in alloc; "case {name}\n")?;
    let end = format!(in alloc; "status {number}\n")?;
    text.extend_from_slice(head.as_bytes())?;
    text.extend_from_slice(written)?;
    text.extend_from_slice(end.as_bytes())?;
    Ok(Bytes::from_vec(text))
}
