// App ids and sealed keys of another program.

use super::*;
use hex::FromHex;
use std::process::Abort;
use std::test::Fail;

/// A discardable file of 16384 bytes 5a, and a secret.
fn protected(alloc: Global, secret: &str) -> Result<(Bytes, Secret), Fail> {
    let discard = Bytes::from_vec(vec![in alloc; 0x5a; 16384]?);
    let secret = Secret::new(Bytes::copy(alloc, secret.as_bytes())?);
    Ok((discard, secret.ok_or("a secret is too long")?))
}

/// The job of this input, done.
fn done(rt: &impl Abort, alloc: Global, input: JobInput) -> Result<JobDone, Fail> {
    assert!(rt; is_small(&input));
    match perform(alloc, Job { number: 7, input }) {
        Ok(done) => Ok(done),
        Err((_, want)) => Err(want.into()),
    }
}

const APP_IDS: [(&str, &str); 2] = [
    (
        "",
        "d34efdaf8d348767ea9361c73c15875a699eed0aeec3420073e37681bc38a181b7feb4649b6b2eb6b22f\
        de2886b523d12ede3668c31d3a74b710387641eb959e",
    ),
    (
        "1234",
        "d34efdaf8d348767ea9361c73c15875a699eed0aeec3420073e37681bc38a181b7feb4649b6b2eb6b22f\
        de2886b523d12ede3668c31d3a74b710387641eb959e31323334",
    ),
];

#[test]
fn app_ids_of_another_program(rt: HostRuntime) -> Result<(), Fail> {
    for (secret, expected) in APP_IDS {
        let (discard, secret) = protected(rt.alloc(), secret)?;
        let done = done(&rt, rt.alloc(), JobInput::AppId { discard, secret })?;
        assert_eq!(rt; done.number(), 7);
        match done.output() {
            JobOutput::AppId(made) => {
                assert_eq!(rt;
                    made.as_slice(),
                    hex::decode(rt.alloc(), expected)?.as_slice()
                )
            }
            _ => assert!(rt; false),
        }
    }
    Ok(())
}

/// The bytes 00 to 3f.
const KEY: &str =
    "000102030405060708090a0b0c0d0e0f101112131415161718191a1b1c1d1e1f20212223242526272829\
        2a2b2c2d2e2f303132333435363738393a3b3c3d3e3f";

/// The bytes 64 to 6f.
const NONCE: [u8; 12] = [
    0x64, 0x65, 0x66, 0x67, 0x68, 0x69, 0x6a, 0x6b, 0x6c, 0x6d, 0x6e, 0x6f,
];

/// The key, sealed with the nonce under the secret 1234.
const SEALED: &str =
    "6465666768696a6b6c6d6e6ff9ecb66e8bd9c9b7af09df8ea1624aa1cfb3f2395c230ea2ba76df2a1dfb\
        593326953cd12aa3f272ca0644c3ffd06141738783b98b9237f95004aa2b14225a7aedc49ddad9476718\
        9ead6581a3aa7f80";

#[test]
fn sealed_key_of_another_program(rt: HostRuntime) -> Result<(), Fail> {
    let (discard, secret) = protected(rt.alloc(), "1234")?;
    let input = JobInput::Seal {
        discard,
        secret,
        nonce: NONCE,
        key: <[u8; 64]>::from_hex(KEY)?,
    };
    match done(&rt, rt.alloc(), input)?.output() {
        JobOutput::Sealed(made) => {
            assert_eq!(rt;
                made.as_slice(),
                hex::decode(rt.alloc(), SEALED)?.as_slice()
            )
        }
        _ => assert!(rt; false),
    }
    Ok(())
}

/// What is opened, the secret, the sealed bytes, and whether the key comes of them.
const OPENED: [(&str, &str, &str, bool); 7] = [
    ("the sealed key", "1234", SEALED, true),
    ("the sealed key under another secret", "1235", SEALED, false),
    ("the sealed key under no secret", "", SEALED, false),
    (
        "a text of 63 bytes",
        "1234",
        "6465666768696a6b6c6d6e6ff9ecb66e8bd9c9b7af09df8ea1624aa1cfb3f2395c230ea2ba76df2a1dfb\
        593326953cd12aa3f272ca0644c3ffd06141738783b98b9237f95004aa2b14225a980958bdf08240d5a1\
        3c7354fbf27093",
        false,
    ),
    (
        "a text of 65 bytes",
        "1234",
        "6465666768696a6b6c6d6e6ff9ecb66e8bd9c9b7af09df8ea1624aa1cfb3f2395c230ea2ba76df2a1dfb\
        593326953cd12aa3f272ca0644c3ffd06141738783b98b9237f95004aa2b14225a7a4a7792e2d99a2fc7\
        7d9d67f47e64fb2480",
        false,
    ),
    (
        "no text",
        "1234",
        "6465666768696a6b6c6d6e6fcd52ffbb0a3ad27574242a785994bfb3",
        false,
    ),
    ("a part of a nonce", "1234", "6465666768696a6b6c6d6e", false),
];

#[test]
fn opens_sealed_keys_of_another_program(rt: HostRuntime) -> Result<(), Fail> {
    for (what, secret, sealed, opens) in OPENED {
        let (discard, secret) = protected(rt.alloc(), secret)?;
        let input = JobInput::Unseal {
            discard,
            secret,
            sealed: Bytes::from_vec(hex::decode(rt.alloc(), sealed)?),
        };
        let key = <[u8; 64]>::from_hex(KEY)?;
        match done(&rt, rt.alloc(), input)?.output() {
            JobOutput::Opened(Some(opened)) => assert!(rt; opens && *opened == key, "{}", what),
            JobOutput::Opened(None) => assert!(rt; !opens, "{}", what),
            _ => assert!(rt; false),
        }
    }
    Ok(())
}
