//! Values from outside: keys by another program's SHA-512, and sealed texts by another program's AES-256-GCM.

ghost use Rattle.std.specs.Prelude.{◌≡◌, ◌+◌, ◌<◌, ◌^◌, IfOk, OnOk, OnErr, length};
ghost use Rattle.keystore_model.specs.Store.{IsCurrent};

use super::*;
use crate::numbers::{blob_of_number, key_of_number};
use hex::FromHex;
use keystore_model::{Decrypted, Keystore, Tag};
use std::alloc::Global;
use std::test::Fail;
use tree_model::{Blob, Class, DevFault};

const NONCE: [u8; 12] = [0, 1, 2, 3, 4, 5, 6, 7, 8, 9, 10, 11];

const TEXT: &[u8] = b"credential key";

const APP_ID: &[u8] = b"app id";

/// The text sealed with the nonce under the key of entry 1.
const SEALED: [u8; 42] =
    *b"\x00\x01\x02\x03\x04\x05\x06\x07\x08\x09\x0a\x0b\xe6\x3d\x0f\x58\x14\xd2\xf6\xa3\x1b\
        \x8d\xae\x1d\x54\x37\x08\x3d\xe6\x6a\xf3\x34\xd3\xae\xc4\x96\xca\xa1\xf6\xa5\x39\x7f";

const TAG: Tag = Tag {
    user: 10,
    class: Class::Ce,
};

#[test]
fn names_and_keys_follow_numbers(rt: HostRuntime) -> Result<(), Fail> {
    for (number, blob, key) in [
        (
            0,
            "0000000000000000000000000000000000000000000000000000000000000000",
            "e879a211d7a873e212a0e2a7abb5fe049d6d405381ce32bb464ee825653dc980",
        ),
        (
            1,
            "0000000000000001000000000000000000000000000000000000000000000000",
            "9951a958bf4ffc7a0c62f15527d206417034dfd447b11fa33d8cc92b332703f6",
        ),
        (
            72623859790382856,
            "0102030405060708000000000000000000000000000000000000000000000000",
            "7a4f0800fffb5d474adba8a4388186a5db6b30a2e15799afc627826de6d5cb2e",
        ),
    ] {
        assert_eq!(rt;
            blob_of_number(number).bytes(),
            <[u8; 32]>::from_hex(blob)?,
            "at {number}"
        );
        assert_eq!(rt;
            key_of_number(number),
            <[u8; 32]>::from_hex(key)?,
            "at {number}"
        );
    }
    Ok(())
}

#[test]
fn seals_and_opens(rt: HostRuntime) -> Result<(), Fail> {
    let mut keystore = MemKeystore::new(rt.alloc())?;
    generate(&mut keystore, rt.alloc(), APP_ID)?;
    let blob = generate(&mut keystore, rt.alloc(), APP_ID)?;
    let sealed = keystore.encrypt(rt.alloc(), blob, APP_ID, NONCE, TEXT)?;
    assert_eq!(rt; sealed.as_slice(), SEALED.as_slice());
    assert_eq!(rt; blob.bytes(), blob_of_number(1).bytes());
    let mut torn = SEALED;
    torn[41] ^= 1;
    for (level, blob, app_id, sealed, answer) in [
        (1, blob, APP_ID, SEALED, "credential key"),
        (1, blob, APP_ID, torn, "bad tag"),
        (2, blob, APP_ID, torn, "needs upgrade"),
        (2, blob, b"app ie", SEALED, "invalid"),
        (1, blob_of_number(2), APP_ID, SEALED, "invalid"),
    ] {
        keystore.set_level(level);
        let answered = keystore.decrypt(rt.alloc(), blob, app_id, &sealed)?;
        assert_eq!(rt; text_of(&answered), answer.as_bytes());
    }
    Ok(())
}

#[test]
fn keeps_entries_in_order(rt: HostRuntime) -> Result<(), Fail> {
    let mut keystore = MemKeystore::new(rt.alloc())?;
    let first = generate(&mut keystore, rt.alloc(), APP_ID)?;
    let second = generate(&mut keystore, rt.alloc(), APP_ID)?;
    keystore.set_level(3);
    let third = generate(&mut keystore, rt.alloc(), APP_ID)?;
    keystore.delete(second)?;
    keystore.delete(second)?;
    let rows = keystore.list(rt.alloc())?;
    assert!(rt; rows.as_slice() == [(first, TAG), (third, TAG)].as_slice());
    let levels = [first, second, third].map(|blob| keystore.level_of(blob));
    assert_eq!(rt; levels, [Some(1), None, Some(3)]);
    assert_eq!(rt;
        [keystore.len(), keystore.calls(), keystore.faults()],
        [2, 6, 0]
    );
    assert_eq!(rt; keystore.level(), 3);
    Ok(())
}

#[test]
fn fails_planned_calls(rt: HostRuntime) -> Result<(), Fail> {
    let mut keystore = MemKeystore::new(rt.alloc())?;
    keystore.plan_fault(1)?;
    keystore.plan_fault(3)?;
    keystore.plan_fault(u64::MAX)?;
    let planned = keystore.planned_left();
    let failed = generate(&mut keystore, rt.alloc(), APP_ID);
    assert_eq!(rt; failed.err(), Some(DevFault::Failed));
    let blob = generate(&mut keystore, rt.alloc(), APP_ID)?;
    assert_eq!(rt; keystore.delete(blob), Err(DevFault::Failed));
    assert_eq!(rt; blob.bytes(), blob_of_number(0).bytes());
    assert_eq!(rt;
        [
            planned,
            keystore.planned_left(),
            keystore.calls(),
            keystore.faults(),
            keystore.len()
        ],
        [3, 1, 3, 2, 1]
    );
    Ok(())
}

/// Makes an entry of this app id.
fn generate(keystore: &mut MemKeystore, alloc: Global, app_id: &[u8]) -> Result<Blob, DevFault>
    requires { length keystore.old.store.given < 2 ^ 62 }
    ensures current { IfOk result (λ blob. IsCurrent keystore.new.store blob app_id.now) }
    ensures given { OnOk result (length keystore.new.store.given ≡ length keystore.old.store.given + 1) }
    ensures same { OnErr result (keystore.new.store ≡ keystore.old.store) }
{
    let _level = keystore.level();
    keystore.generate(alloc, TAG, app_id)
}

/// The text of an answer, or what it says in place of one.
fn text_of(answer: &Decrypted) -> &[u8] {
    match answer {
        Decrypted::Key(text) => text.as_slice(),
        Decrypted::NeedsUpgrade => b"needs upgrade",
        Decrypted::Invalid => b"invalid",
        Decrypted::BadTag => b"bad tag",
    }
}
