// Sealed texts from outside: of a key and nonce of zeros (the specification of GCM), and of another program. The
// texts and the additional data have lengths about each edge of a block.

ghost use Rattle.std.specs.Prelude.{◌≤◌, IfOk, vec_len};

use super::*;
use hex::FromHex;
use std::process::Abort;
use std::test::Fail;

struct Case {
    key: &'static str,
    nonce: &'static str,
    aad: &'static str,
    text: &'static str,
    sealed: &'static str,
}

const CASES: [Case; 16] = [
    Case {
        key: "0000000000000000000000000000000000000000000000000000000000000000",
        nonce: "000000000000000000000000",
        aad: "",
        text: "",
        sealed: "530f8afbc74536b9a963b4f1c4cb738b",
    },
    Case {
        key: "0000000000000000000000000000000000000000000000000000000000000000",
        nonce: "000000000000000000000000",
        aad: "",
        text: "00000000000000000000000000000000",
        sealed: "cea7403d4d606b6e074ec5d3baf39d18d0d1c8a799996bf0265b98b5d48ab919",
    },
    Case {
        key: "61a5234d20afad226e779deb4e5506e8487bd91657c2b871eba9ec2c549397ce",
        nonce: "3381d37f1c63ca50f01ae22c",
        aad: "dac0a265cbb3ea81ba126bd27c247cead5",
        text: "",
        sealed: "78149841ace82ccc2a7847681733a824",
    },
    Case {
        key: "9f13f3171ebb651bd83a6943e77645b4e4c859da553f304da016ec10ce440335",
        nonce: "bf3d2b6b016c9acfadc33a29",
        aad: "",
        text: "f3",
        sealed: "89ed2a99d29b06b5189234f7472c853700",
    },
    Case {
        key: "74c641660023f9b7b13a16cea99e17322993a2fda377777f85f4478cf7867d80",
        nonce: "789b2062c2969cc29530445e",
        aad: "9f",
        text: "70c06dee22df94f32af81987155f14",
        sealed: "749dfcfce061746feb527b2fc7876265044dc3bd33a53a16c5081b8a877b82",
    },
    Case {
        key: "c0d198b4caa945b4d99dcf987ff1cf14ae01518e1d5010e956742f1e1bfed531",
        nonce: "98eb61422451941dfbb78d6d",
        aad: "14dc86b8a05b",
        text: "2342313e8a378fac0dcfe9858bf531cf",
        sealed: "7118d5c7c433a627b8abdb13fa30d7ee81aa1b8d450394084e141e765e1e79df",
    },
    Case {
        key: "646c4e6ea8d5fb4b9b43f83fd0a5ca9363af591561a747ec4af861c0164e0c25",
        nonce: "efe2ac6efa61a784ed46fdf1",
        aad: "158275012e8603c7ecbf1b5c9c9870",
        text: "c9d6d21544c1a5959e9572c9726d8de3f7",
        sealed: "ac2addcd32e3247769466325e9694cedd4b470275fbbfed8c08470bca500b69247",
    },
    Case {
        key: "241b3a068db0a79c0a4d90d7eaecd077c7556b9a9d955451957a282bff63d55c",
        nonce: "3f1e8859a20958af52946af6",
        aad: "5e473a66c97561bffc153358b23eea39",
        text: "8e29b7671d84b73f69179827c0a4c4384e4e803ab3c970ab4ba4839b13e3e9",
        sealed: "5c0511b4e598539728b6bb53374aaf7db7be225d7eb52f218684f537bab90a1afdb79c0736fed6bd9772912222fe8c",
    },
    Case {
        key: "5e68c12cb2b24bb2ec5f1725e4a6619b27cc28902aa523f8ef5193ce806f0a69",
        nonce: "2dcd33d38c1f0054b2d29c1b",
        aad: "033d908ea8b96a69b58cd8d680ed794a5e",
        text: "5d2b6dd4234d6601e0bffc069025731263d819bb964a9ae5eed00743250ad677",
        sealed: "1b21e6b01bc6050cd284df20a3d9691cbf2c0d355c955c8c45c2f7cc08887d857b374f11a1ba347b87ce3ca817db3571",
    },
    Case {
        key: "4d4bc5afcde5ff9eeba2ed26b28ffcc87c08420521b76d227908ea1de7597b6e",
        nonce: "3a90411550325906e59e0934",
        aad: "ae38e6a854040ef6f5eab840576e069653a8e83958d72d535c1c14e07a8bdcff",
        text: "6f0909dcf937006b7408aa15d7a48de1694eac37393c4c9da035184094cc4db670",
        sealed: "e9a53b971c00ae25118fffc1f7451e4ece058104b08ed97103dc5ac0229188f2d88807c1ba31c7e94ee189b446b2c1d888",
    },
    Case {
        key: "c88d03b7a3cbe9f03439515c2e2ebea7326d4d4b5a9ddeab289222d983e7854c",
        nonce: "ea39e7e5d3715f3c955705e8",
        aad: "b37b2ac672a30b2ca746f0e62a63b047a8335a659192183660ab300c9ab654b5a8826682ad5d7300",
        text: "15d5b302cb68ed8a227ae557c31f1ab048520430cf507b7cb66d33db53b638be\
            d8597b51c1ce5888e7f6e3e28356175fb541878f57ef8354546a34b3450e948e",
        sealed: "fd33df44b91155827ff4e6ff1eadff41572eb547dbd5838e19e6bbd029a6767c50e45e1d97d1a9d28c5a4289ba6a4274\
            2ee417ee8562299c7758da906a16a90e663a9fba8bc2e16509c5f9a637e09e69",
    },
    Case {
        key: "e537081c72f90523d67030faaea8dfd6ca9c45c39481f22ce30c62ba0d4e3cc9",
        nonce: "50c7324a1898181e55eec71d",
        aad: "dd8ebc58b46abd802a5cedff132619bd",
        text: "35b1d7827832d5ba9b1d79666d5b6d0dd8ed17772fce9c2a6af28c7028ad63eff28d0c852877e2663cc23714e7cdd855\
            d178798fe75198b63e5e10f9746e74a677276b13dd8a28b67be260bbbb2718d0c4b7dc52dff4fa967bb264704f57eec4\
            1e5e951f",
        sealed: "c6040e9521695deb4b48dd5b7862674060bb22aca8ae3d0895a0243f2f949563a69e395ba380e98cbf96537eedc2d93e\
            d1b261549922bf815d1290b667e43c6401c08a93a25f2905de7900797d85fe7d454baceed093a3b09b41bf553e1c2674\
            c6e0bd9474166844056914b3f714e17048709673",
    },
    Case {
        key: "15a3e1034355f9cb1a08448e2cb258f59a8bdffa377bfae6a8437690c8f6279a",
        nonce: "7798a2eb35f77432e39a7527",
        aad: "",
        text: "",
        sealed: "bf948dde5f2b6eaa259097f2f51ecf41",
    },
    Case {
        key: "40e16d0526bb29352470eb9d7b6c17aeb12d4c19981b947b501a0811264537de",
        nonce: "5433257f037feb82abcfd01c",
        aad: "b1551da821e1fac614d777bff7840b5cb87ddfb371e696af8a16f339b1214b6f",
        text: "7529351046e37802b343bcdbf3348d9b",
        sealed: "8a7119a6ebc6076fc775426b5a1d938d8ff85fe9dcc924e0725153499f29cf83",
    },
    Case {
        key: "f88a528e0e07efc94ff36bf081f0ca7c82cd1a70ba0a4dd5ae3ee865eb2c73d1",
        nonce: "f145fc7abf2a58e19e3c5552",
        aad: "f0d29142a6700ec3d7218e1d74944c3106f9b0e98c80f9c264b2e3b7aa0093",
        text: "60020656f96e912b6e0be719c9fc04cc7942702d16e449ca47da5876b9a5660229",
        sealed: "e33ef177b776286eba7f56edd942e751bb2b2e3edad18d6d643bd3f82813c3f7df9199d94b5c5d5e9b211cb40a5ea0c47f",
    },
    Case {
        key: "57b2169e0e45a38b9df83be176db7b8f7da898c22802c13ed70342fe2aa5d555",
        nonce: "77d101c04edb7fe65607a47e",
        aad: "8f4a2849729d73e8abd59d5a6b0b47bc68306a45863bc93616eb43e8555962fdbd",
        text: "7d5e0bb7ead19965811aabd6620bd1813733a78c4534c8d7e6b5e0ea8f9ec2",
        sealed: "a2a6468a63ac5d9db8c1291bc2843c3487bffb3dd8019c3d10b2719304a325fa699e4fe7c1558e01af5b02e7a3f8d8",
    },
];

#[test]
fn sealed_texts_of_other_programs(rt: HostRuntime) -> Result<(), Fail> {
    for case in &CASES {
        let key = <[u8; 32]>::from_hex(case.key)?;
        let nonce = <[u8; 12]>::from_hex(case.nonce)?;
        let aad = decoded(&rt, rt.alloc(), case.aad)?;
        let text = decoded(&rt, rt.alloc(), case.text)?;
        let sealed = decoded(&rt, rt.alloc(), case.sealed)?;

        let made = seal(rt.alloc(), &key, &nonce, aad.as_slice(), text.as_slice())?;
        assert_eq!(rt; made.as_slice(), sealed.as_slice(), "under {}", case.key);

        let opened = open(rt.alloc(), &key, &nonce, aad.as_slice(), sealed.as_slice())?;
        let opened = opened.ok_or("a sealed text does not open")?;
        assert_eq!(rt; opened.as_slice(), text.as_slice(), "under {}", case.key);
    }
    Ok(())
}

// The bytes of a text in hex, few enough to seal.
fn decoded(rt: &impl Abort, alloc: Global, text: &str) -> Result<Vec<u8>, Fail>
    ensures { IfOk result (λ bytes. vec_len bytes ≤ 1000) }
{
    let bytes = hex::decode(alloc, text)?;
    assert!(rt; bytes.len() <= 1000);
    Ok(bytes)
}

// What is altered of a sealed text: the bits of the last byte of the nonce, of the additional data and of the tag,
// and how many bytes are cut off.
const ALTERED: [(&str, u8, u8, u8, usize); 6] = [
    ("a bit of the nonce", 1, 0, 0, 0),
    ("a byte of the additional data", 0, 0x80, 0, 0),
    ("the last bit of the tag", 0, 0, 1, 0),
    ("the first bit of the tag's last byte", 0, 0, 0x80, 0),
    ("the length, by one byte", 0, 0, 0, 1),
    ("the length, by seventeen bytes", 0, 0, 0, 17),
];

#[test]
fn altered_texts_stay_shut(rt: HostRuntime) -> Result<(), Fail> {
    for case in &CASES {
        let key = <[u8; 32]>::from_hex(case.key)?;
        let aad = decoded(&rt, rt.alloc(), case.aad)?;
        let sealed = decoded(&rt, rt.alloc(), case.sealed)?;
        for (what, nonce_bit, aad_bit, tag_bit, cut) in ALTERED {
            if aad_bit != 0 && aad.is_empty() {
                continue;
            }
            let mut nonce = <[u8; 12]>::from_hex(case.nonce)?;
            nonce[11] ^= nonce_bit;
            let mut other_aad = aad.clone()?;
            if let Some(last) = other_aad.last_mut() {
                *last ^= aad_bit;
            }
            let mut other_sealed = sealed.clone()?;
            other_sealed.truncate(sealed.len().saturating_sub(cut));
            if let Some(last) = other_sealed.last_mut() {
                *last ^= tag_bit;
            }
            let opened = open(
                rt.alloc(),
                &key,
                &nonce,
                other_aad.as_slice(),
                other_sealed.as_slice(),
            )?;
            assert!(rt; opened.is_none(), "{} of a text under {}", what, case.key);
        }
    }
    Ok(())
}

// The specification of GCM, test case 2: the hash of a ciphertext, and of that and the block of the lengths.
#[test]
fn hash_of_one_block_and_of_two(rt: HostRuntime) -> Result<(), Fail> {
    let h = <[u8; 16]>::from_hex("66e94bd4ef8a2c3b884cfa59ca342b2e")?;
    let blocks = <[u8; 32]>::from_hex(
        "0388dace60b6a392f328c2b971b2fe7800000000000000000000000000000080",
    )?;
    let first = <[u8; 16]>::from_hex("5e2ec746917062882c85b0685353deb7")?;
    let both = <[u8; 16]>::from_hex("f38cbb1ad69223dcc3457ae5b6b0f885")?;
    assert_eq!(rt; ghash(h, &blocks[..16]), first);
    assert_eq!(rt; ghash(h, &blocks), both);
    Ok(())
}

// The lengths of additional data and of a text, and the last 16 bytes of the sealed text, by OpenSSL. The key has the
// bytes 00 to 1f and the nonce 00 to 0b. The lengths lie about groups of eight and of sixteen blocks, and past what a
// counter of 8 or of 16 bits could count and a length of 11 bits could tell.
const LONG_TEXTS: [(usize, usize, &str); 16] = [
    (0, 127, "b6ae67428530f634a0e272c9bb861e20"),
    (0, 128, "e5ab8d0db06a33b87c4a561a1adf4b00"),
    (0, 129, "0e68b71cb2c5f59abb54866451053958"),
    (0, 255, "a01afd16b8d4b0d022a1b11e0b501c87"),
    (0, 256, "20a76d9199dd0e9568756e018b103c97"),
    (0, 257, "ae500ea733e65366cd924ab14b312c3b"),
    (0, 271, "9348596d5bc84457177da526e12bf51e"),
    (0, 272, "ef220d0608655048f975ffe32130c705"),
    (0, 273, "8e381e5bb903b311b17cafc0da1d2c65"),
    (129, 511, "570513ab46c8e1c574cd2a09d1d96d3d"),
    (128, 512, "1858180196f62d31b58ee52e2d3b12bf"),
    (127, 513, "cc9867b2fde6f496744cc8bb841d0fa6"),
    (0, 4064, "7aa407d999e7df4e98c3d2c93bafa680"),
    (0, 4065, "2a53f4354abdb119f750aa4880087f8c"),
    (300, 4100, "a92c8377c1f995edf31f1fa63e4ad2d8"),
    (0, 1_048_592, "e95adb85c33e124363c967361859ba5e"),
];

#[test]
fn long_texts_of_another_program(rt: HostRuntime) -> Result<(), Fail> {
    let key = <[u8; 32]>::from_hex(
        "000102030405060708090a0b0c0d0e0f101112131415161718191a1b1c1d1e1f",
    )?;
    let nonce = [0, 1, 2, 3, 4, 5, 6, 7, 8, 9, 10, 11];
    for (aad_len, text_len, expected) in LONG_TEXTS {
        let aad = aad_of(&rt, rt.alloc(), aad_len)?;
        let text = text_of(&rt, rt.alloc(), text_len)?;
        let sealed = seal(rt.alloc(), &key, &nonce, aad.as_slice(), text.as_slice())?;
        let last = sealed.as_slice().last_chunk::<16>().ok_or("no tag")?;
        assert_eq!(rt;
            *last,
            <[u8; 16]>::from_hex(expected)?,
            "of {} bytes",
            text_len
        );
    }
    Ok(())
}

// Bytes from 0 on in steps of 31 modulo 251, few enough to seal.
fn text_of(rt: &impl Abort, alloc: Global, len: usize) -> Result<Vec<u8>, Fail>
    ensures { IfOk result (λ bytes. vec_len bytes ≤ 2000000) }
{
    let mut bytes = Vec::new(alloc);
    let mut next: u8 = 0;
    for _i in 0..len {
        bytes.push(next)?;
        next = if next < 220 { next + 31 } else { next - 220 };
    }
    assert!(rt; bytes.len() <= 2_000_000);
    Ok(bytes)
}

// Bytes from 3 on in steps of 7 modulo 256, few enough to be sealed with.
fn aad_of(rt: &impl Abort, alloc: Global, len: usize) -> Result<Vec<u8>, Fail>
    ensures { IfOk result (λ bytes. vec_len bytes ≤ 1000) }
{
    let mut bytes = Vec::new(alloc);
    let mut next: u8 = 3;
    for _i in 0..len {
        bytes.push(next)?;
        next = next.wrapping_add(7);
    }
    assert!(rt; bytes.len() <= 1000);
    Ok(bytes)
}

// The length of a text as above, and its hash under the hash key of the zero key of AES-128.
const HASHES: [(usize, &str); 13] = [
    (0, "00000000000000000000000000000000"),
    (1, "00000000000000000000000000000000"),
    (15, "ccb6fd6f7fa12b5437eae04b474c2d2c"),
    (17, "cf60526971b42eb688a8a230f7d60deb"),
    (112, "fa43a78e8b468a4ba8bb775393405de3"),
    (127, "781527d7dcb32e24ac4572e1b75b1386"),
    (128, "4d557bffc6007e40c2f661359f1f1d7c"),
    (129, "32a2d8d98715eaeb27cf84d8b07ba61a"),
    (144, "dd268dfa0b9c75ece99cc8be77ab0b62"),
    (255, "3844ada0f337b03228773f88b612f2f4"),
    (256, "9c104806ec2786f8b65032b8744f4e7e"),
    (257, "bc2d41a19e18af2e5130548491756c4a"),
    (1024, "2017de541f00978d02f7fffed73ab44b"),
];

#[test]
fn hashes_of_long_texts(rt: HostRuntime) -> Result<(), Fail> {
    let h = <[u8; 16]>::from_hex("66e94bd4ef8a2c3b884cfa59ca342b2e")?;
    for (len, expected) in HASHES {
        let text = text_of(&rt, rt.alloc(), len)?;
        assert_eq!(rt;
            ghash(h, text.as_slice()),
            <[u8; 16]>::from_hex(expected)?,
            "of {} bytes",
            len
        );
    }
    Ok(())
}
