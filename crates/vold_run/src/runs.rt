ghost use Rattle.std.specs.Prelude.{◌≡◌, ◌≢◌, ◌+◌, ◌≤◌, ◌⊎◌, [], IfOk, IfSome, IsNone, IsSome, IsSomeAnd, map, length};
ghost use Rattle.std.specs.FinMap as finite;
ghost use Rattle.std.specs.Io.KnownBytes.{append_known};
ghost use Rattle.std.specs.String.{string_bytes};
ghost use Rattle.keystore_model.specs.Store.{empty_store};
ghost use Rattle.script_text.specs.Script.{seed_of, IsPlaced};
ghost use Rattle.script_text.specs.Status.{message_of};
ghost use Rattle.tree_model.specs.Counted.{Rose};
ghost use Rattle.vold_book.specs.State.{senses};
ghost use Rattle.vold_book.specs.Whole.{IsWhole};
ghost use Rattle.vold_book.specs.Turns.{new_bench, new_book, opened_at};
ghost use Rattle.vold_io.specs.Transfers.{LosesAtMost};
ghost use Rattle.vold_run.specs.Lines.{IsFresh};
ghost use Rattle.vold_run.specs.Input.{most_bytes, IsAccepted, IsRefused, RefusedCame, SomeScriptCame};
ghost use Rattle.vold_run.specs.Ends.{HasMessage, InPlaceOf, IsDone, LinesEnd};
ghost use Rattle.vold_run.specs.Ends.{RunPrints, Takes, WorkEnds, WritesFront};

use crate::{input, lines, output};
use key_ring::KeyRing;
use keystore_model::Keystore;
use script_text::{Line, Script, Status};
use std::alloc::Global;
use tree_model::{Bytes, NoMemory, TreeDisk};
use vold_book::{Book, RunEnd};
use vold_io::{Sink, SinkFault, Source, write_all};

/// Reads a script from the source, does its lines on a Book over the tree, the keystore and the ring, and writes the
/// journal, the tree, the keystore and the ring to the sink. The words are those after the program's name; `run` alone
/// is accepted. Where there is no script to do, the status's message is written and no Book is handed back. No more
/// than one byte past the most that a script has is taken from the source.
pub fn run<S: Source, K: Sink, T: TreeDisk, B: Keystore, G: KeyRing>(
    alloc: Global,
    words: &[String],
    source: &mut S,
    sink: &mut K,
    tree: T,
    store: B,
    ring: G,
) -> RunEnd<T, B, G>
    requires tree { T.disk tree ≡ record { stable = finite.empty; pending = [] } }
    requires store { B.store store ≡ empty_store 1 }
    requires ring { G.ring ring ≡ [] }
    ensures usage { result.status ≡ Status.Usage → ¬ (IsAccepted (map string_bytes words.now)) }
    ensures other_words { ¬ (IsAccepted (map string_bytes words.now)) → InPlaceOf Status.Usage result.status }
    ensures unread { ¬ (IsAccepted (map string_bytes words.now)) → source.new ≡ source.old }
    ensures at_most { LosesAtMost (most_bytes + 1) (S.rest source.old) (S.rest source.new) }
    ensures read_fault { result.status ≡ Status.ReadFault
        → Rose (S.fault_count source.old) (S.fault_count source.new) }
    ensures bad_script { result.status ≡ Status.BadScript
        → (S.fault_count source.new ≡ S.fault_count source.old) × RefusedCame (S.rest source.old) (S.rest source.new) }
    ensures refused { IsAccepted (map string_bytes words.now)
        → ¬ (Rose (S.fault_count source.old) (S.fault_count source.new))
        → IfSome (S.rest source.old) (λ told. IsRefused told → InPlaceOf Status.BadScript result.status) }
    ensures write_fault { result.status ≡ Status.WriteFault → Rose (K.fault_count sink.old) (K.fault_count sink.new) }
    ensures done { result.status ≡ Status.Done
        → IsSomeAnd result.book
        (RunPrints (senses T.disk T.counts B.store B.counts G.ring G.counts)
        (new_book (new_bench tree store ring) (opened_at (T.counts tree) (B.counts store) (G.counts ring)))
        (S.rest source.old) (S.rest source.new) (K.taken sink.old) (K.taken sink.new)) }
    ensures message { HasMessage result.status
        → (K.taken sink.new ≡ append_known (K.taken sink.old) (message_of result.status)) × IsNone result.book }
    ensures front { result.status ≡ Status.WriteFault
        → WritesFront (senses T.disk T.counts B.store B.counts G.ring G.counts)
        (new_book (new_bench tree store ring) (opened_at (T.counts tree) (B.counts store) (G.counts ring)))
        (map string_bytes words.now) (S.rest source.old) (S.rest source.new)
        (S.fault_count source.old) (S.fault_count source.new) (K.taken sink.old) (K.taken sink.new) result.book }
    ensures no_memory { result.status ≡ Status.NoMemory
        → (K.taken sink.new ≡ K.taken sink.old)
        ⊎ (WritesFront (senses T.disk T.counts B.store B.counts G.ring G.counts)
        (new_book (new_bench tree store ring) (opened_at (T.counts tree) (B.counts store) (G.counts ring)))
        (map string_bytes words.now) (S.rest source.old) (S.rest source.new)
        (S.fault_count source.old) (S.fault_count source.new) (K.taken sink.old) (K.taken sink.new) result.book) }
    ensures book { IfSome result.book
        (λ _. IsAccepted (map string_bytes words.now) × SomeScriptCame (S.rest source.old) (S.rest source.new)
        × InPlaceOf Status.Done result.status) }
    ensures read { IsAccepted (map string_bytes words.now)
        → ¬ (Rose (S.fault_count source.old) (S.fault_count source.new))
        → IfSome (S.rest source.old)
        (λ told. ¬ (IsRefused told) → IsSome result.book ⊎ (result.status ≡ Status.NoMemory)) }
    ensures complete { IsAccepted (map string_bytes words.now) → S.never_fails source.old → K.never_fails sink.old
        → IfSome (S.rest source.old)
        (λ told. ¬ (IsRefused told) → (result.status ≡ Status.Done) ⊎ (result.status ≡ Status.NoMemory)) }
    ensures whole { IfSome result.book (IsWhole (senses T.disk T.counts B.store B.counts G.ring G.counts)) }
{
    match input::script_of(alloc, words, source) {
        Ok(script) => run_script(alloc, &script, sink, tree, store, ring),
        Err(status) => RunEnd {
            status: write(sink, status.message(), status),
            book: None,
        },
    }
}

/// Does a script's lines on a new Book over the devices, and writes what shows it.
fn run_script<K: Sink, T: TreeDisk, B: Keystore, G: KeyRing>(
    alloc: Global,
    script: &Script,
    sink: &mut K,
    tree: T,
    store: B,
    ring: G,
) -> RunEnd<T, B, G>
    requires tree { T.disk tree ≡ record { stable = finite.empty; pending = [] } }
    requires store { B.store store ≡ empty_store 1 }
    requires ring { G.ring ring ≡ [] }
    ensures ended { LinesEnd (senses T.disk T.counts B.store B.counts G.ring G.counts)
        (new_book (new_bench tree store ring) (opened_at (T.counts tree) (B.counts store) (G.counts ring))
        (seed_of script.now)) script.now (K.taken sink.old) (K.taken sink.new) result.status result.book }
    ensures faults { result.status ≡ Status.WriteFault → Rose (K.fault_count sink.old) (K.fault_count sink.new) }
    ensures steady { K.never_fails sink.old → result.status ≢ Status.WriteFault }
    ensures whole { IfSome result.book (IsWhole (senses T.disk T.counts B.store B.counts G.ring G.counts)) }
{
    match opened(alloc, script.seed(), tree, store, ring) {
        Err(NoMemory) => RunEnd {
            status: Status::NoMemory,
            book: None,
        },
        Ok(mut book) => {
            let status = work(alloc, &mut book, script.lines(), sink);
            RunEnd {
                status,
                book: Some(book),
            }
        }
    }
}

/// A new Book over the devices, with this seed.
fn opened<T: TreeDisk, B: Keystore, G: KeyRing>(
    alloc: Global,
    seed: &[u8],
    tree: T,
    store: B,
    ring: G,
) -> Result<Book<T, B, G>, NoMemory>
    requires tree { T.disk tree ≡ record { stable = finite.empty; pending = [] } }
    requires store { B.store store ≡ empty_store 1 }
    requires ring { G.ring ring ≡ [] }
    requires short { length seed.now ≤ 64 }
    ensures opened { IfOk result (λ book. book
        ≡ new_book (new_bench tree store ring) (opened_at (T.counts tree) (B.counts store) (G.counts ring)) seed.now) }
    ensures whole { IfOk result (IsWhole (senses T.disk T.counts B.store B.counts G.ring G.counts)) }
{
    Book::open(alloc, tree, store, ring, Bytes::copy(alloc, seed)?, 1)
}

/// Does the lines on a new Book, and writes what shows it.
fn work<K: Sink, T: TreeDisk, B: Keystore, G: KeyRing>(
    alloc: Global,
    book: &mut Book<T, B, G>,
    lines: &[Line],
    sink: &mut K,
) -> Status
    requires whole { IsWhole (senses T.disk T.counts B.store B.counts G.ring G.counts) book.old }
    requires fresh { IsFresh book.old lines.now }
    requires placed { IsPlaced lines.now }
    ensures ended { WorkEnds (senses T.disk T.counts B.store B.counts G.ring G.counts) book.old lines.now book.new
        (K.taken sink.old) (K.taken sink.new) result }
    ensures faults { result ≡ Status.WriteFault → Rose (K.fault_count sink.old) (K.fault_count sink.new) }
    ensures steady { K.never_fails sink.old → result ≢ Status.WriteFault }
    ensures whole { IsWhole (senses T.disk T.counts B.store B.counts G.ring G.counts) book.new }
{
    match done(alloc, book, lines) {
        Ok(text) => write(sink, text.as_slice(), Status::Done),
        Err(NoMemory) => Status::NoMemory,
    }
}

/// Does the lines on a new Book, and answers the text that shows it.
fn done<T: TreeDisk, B: Keystore, G: KeyRing>(
    alloc: Global,
    book: &mut Book<T, B, G>,
    lines: &[Line],
) -> Result<Bytes, NoMemory>
    requires whole { IsWhole (senses T.disk T.counts B.store B.counts G.ring G.counts) book.old }
    requires fresh { IsFresh book.old lines.now }
    requires placed { IsPlaced lines.now }
    ensures done { IfOk result
        (IsDone (senses T.disk T.counts B.store B.counts G.ring G.counts) book.old lines.now book.new) }
    ensures whole { IsWhole (senses T.disk T.counts B.store B.counts G.ring G.counts) book.new }
{
    lines::do_lines(alloc, book, lines)?;
    output::show(alloc, book)
}

/// Writes the text, and answers the status that comes where all of it is written.
fn write<K: Sink>(sink: &mut K, text: &[u8], status: Status) -> Status
    requires { status ≢ Status.WriteFault }
    ensures nothing { text.now ≡ [] → result ≡ status }
    ensures answer { InPlaceOf status result }
    ensures taken { Takes result text.now (K.taken sink.old) (K.taken sink.new) }
    ensures faults { result ≡ Status.WriteFault → Rose (K.fault_count sink.old) (K.fault_count sink.new) }
    ensures steady { K.never_fails sink.old → result ≢ Status.WriteFault }
{
    if text.is_empty() {
        return status;
    }
    match write_all(sink, text) {
        Ok(()) => status,
        Err(SinkFault::Failed) => Status::WriteFault,
        Err(SinkFault::NoMemory) => Status::NoMemory,
    }
}
