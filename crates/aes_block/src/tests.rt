// Vectors from outside: the standard's own (FIPS 197, appendix C.3), and others of another program.

use super::*;
use hex::FromHex;
use std::test::Fail;

// A key, a block, and its encryption.
const CASES: [(&str, &str, &str); 12] = [
    (
        "000102030405060708090a0b0c0d0e0f101112131415161718191a1b1c1d1e1f",
        "00112233445566778899aabbccddeeff",
        "8ea2b7ca516745bfeafc49904b496089",
    ),
    (
        "0000000000000000000000000000000000000000000000000000000000000000",
        "00000000000000000000000000000000",
        "dc95c078a2408989ad48a21492842087",
    ),
    (
        "95fca12ef4b74fb065ecb366109ea69f438a28616e6afa1f62a421ea650b5e75",
        "14f865dcf0d481fdd577c8107ccdab9f",
        "58e987cabfe117204461d74db3311c09",
    ),
    (
        "ff08da5da3c6b831935b55661662990abbd93b16ffc3acac8c0394cff82d7b4c",
        "b004c188f7546a98518a209561718964",
        "a67d5129a8e2802ec28f33782cdb6971",
    ),
    (
        "73f11b5844411119e6edef5a2deb4ea506831c90934f722a9ac0ccf7ad0e3717",
        "7a7008d85c069f7401c00c39429e0db4",
        "b496e1089c64561862590cfff0c02d12",
    ),
    (
        "a03423409f0a9afff3cd57bae332a224832075c116a0c497e93a74aaada6aedd",
        "f6b7a7d87d0b214ee57a8e1c5011ba02",
        "32ac86fd7f754ae7082464c7b57a0841",
    ),
    (
        "d78034396c0a9b408503c26ef333d9e661c4f685dd058da4f99e231dedb7a0ef",
        "769376a96d1a25460e6f80d5615b0bee",
        "02f228e6d5a5478b69397b85c295435f",
    ),
    (
        "6782bd33077b971580317d7f867d98d58d2abe668369bd06f4bc81720f649117",
        "4b83f9152a9d7f8bfcd3c10640e1d55e",
        "6a0859586aa84dfb7838551ac7f2b1f2",
    ),
    (
        "5a50c487b29493e1025db7bbe34ecebb8ed97040a1d6cb18c25ddb96cc1b1c44",
        "456875883833b539f18e4e76d4bef1b7",
        "1d8e3972dfe98133cdfb9b79abc50b9c",
    ),
    (
        "fa00a0252aba31933205e3d1b82952fd9f2c7bf77dc5750bfb6246138a391a96",
        "13dd3da1495fbeceb03ad025afdb65de",
        "858333fc0be0c3deecd819f1d33c11cf",
    ),
    (
        "14bcfb93314ef966f6e689a13117829c786e1a7b392da182b27beb9b4801b97c",
        "4bd919270d2ab40fc8772922e319173f",
        "ad6055ca7ebe48fe1bbc0c079d28c9ab",
    ),
    (
        "4c6826331bbcf483d7ab5d916f191d7bfe2196265f2d16c5a7c46cc193943407",
        "267e9de19740bdfc2564896acff0dadf",
        "7230cdab7f6986b1f37f821787fe20f5",
    ),
];

#[test]
fn blocks_of_other_programs(rt: HostRuntime) -> Result<(), Fail> {
    for (key, block, expected) in CASES {
        let cipher = Aes256::new(&<[u8; 32]>::from_hex(key)?);
        let encrypted = cipher.encrypt_block(<[u8; 16]>::from_hex(block)?);
        assert_eq!(rt; encrypted, <[u8; 16]>::from_hex(expected)?, "under {key}");
    }
    Ok(())
}

// The standard's block (FIPS 197, appendix C.3), sixteen times.
#[test]
fn sixteen_lanes(rt: HostRuntime) -> Result<(), Fail> {
    let (key, block, expected) = CASES[0];
    let cipher = Aes256::new(&<[u8; 32]>::from_hex(key)?);
    let mut blocks = [<[u8; 16]>::from_hex(block)?; 16];
    cipher.encrypt16(&mut blocks);
    assert_eq!(rt; blocks, [<[u8; 16]>::from_hex(expected)?; 16]);
    Ok(())
}
