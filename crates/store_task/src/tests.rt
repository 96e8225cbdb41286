//! What a task begins with, with a made-up answer.

ghost use Rattle.std.specs.Prelude.{◌≡◌, IfOk, length};

use super::*;
use journal_model::Secret;
use keystore_model::Tag;
use std::alloc::Global;
use std::test::Fail;
use step_core::JobOutput;
use task_turns::Answer;
use tree_model::{Blob, Bytes, Class, NoMemory, Place};

/// The discardable file.
fn discard(alloc: Global) -> Result<Bytes, NoMemory>
    ensures { IfOk result (λ bytes. length bytes ≡ 16384) }
{
    Bytes::copy(alloc, &[9; 16384])
}

#[test]
fn begins_under_an_entry(rt: HostRuntime) -> Result<(), Fail> {
    let alloc = rt.alloc();
    let spec = StoreSpec {
        target: Place::De(10),
        tag: Tag {
            user: 10,
            class: Class::De,
        },
        key: [1; 64],
        secret: Secret::empty(alloc),
        nonce: [2; 12],
        discard: discard(alloc)?,
    };
    let mut task = StoreTask::new(spec, 655360);
    assert!(rt; task.spec().key == [1; 64]);
    task.set_key([5; 64]);
    assert!(rt; task.spec().key == [5; 64]);
    assert!(rt; matches!(task.next(alloc)?, Some(Doing::Work(_))));
    task.heard(Answer::Output(JobOutput::AppId(Bytes::copy(alloc, &[3; 64])?)));
    assert!(rt; matches!(task.next(alloc)?, Some(Doing::Generate { .. })));
    assert!(rt; task.held().is_none());
    task.heard(Answer::Blob(Blob::new([4; 32])));
    let copied = task.duplicate(alloc)?;
    assert!(rt; copied.held() == Some(Blob::new([4; 32])));
    assert_eq!(rt; copied.progress(), Progress::Absent);
    assert!(rt; matches!(copied.next(alloc)?, Some(Doing::Encrypt { .. })));
    Ok(())
}
