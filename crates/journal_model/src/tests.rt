// Vectors of another program: hashes behind each prefix, what they derive, and made bytes of several streams.

use crate::{
    Secret, app_id, boot_seed, made_bytes, made_discardable, made_key, made_nonce, prefixed_hash,
    wrap_key,
};
use hex::FromHex;
use std::test::Fail;
use tree_model::{Bytes, Class};

// A prefix, the bytes behind it, and their hash.
const HASHES: [(&str, &str, &str); 12] = [
    (
        "Android secdiscardable SHA512",
        "",
        "8d58ea2b411f217033002f28f0599d994c1d75671a9256ba4aac31ec72aa5505\
         e2c7f89cfa0fc9bd19e0858972e9f2fdf258c99f96dfa0e352a210a1170a9f6f",
    ),
    (
        "Android secdiscardable SHA512",
        "eb",
        "e99547441fa5e6ac3102f040bedbb4b95a017bf8e8342e0c7911f680e309a1ef\
         832e3a255a7f6c4696b0e7d1962735510be4e4d4b09f3f8ff60cf5087d650a9c",
    ),
    (
        "Android secdiscardable SHA512",
        "6693f19545a0c8359f64edc279a650037f46450f38efa294c036b17d4d175a6e\
         cbfee2c5819b4b3b575a879bac1dcdaa6713b137fab9d865c6c43807cf05351a",
        "b689858013fb7e529b34042bf8fb9bf7affd7653e2838d5aa481d3a167e4b76e\
         fe52ea293aac80f198dec9758f38576ae1adde1005be92a42e09bffa708adf06",
    ),
    (
        "Android key wrapping key generation SHA512",
        "",
        "5f5f9a0f5818e52083a9fe891bdf34783b2a124fc18d1dee6b3febd8960426a7\
         6cce3b6f3d99319ce80a01496694bb6fe67d7d3376ff02019f02f4469e503373",
    ),
    (
        "Android key wrapping key generation SHA512",
        "c7f4cb7ff94f41aee3577003e06812f6f6012d40519bd1b036b1ca7bbca2b00f\
         854e7a346523d48b6370970a1b4431f315f430d800c2b71a311827cd3f7c3bed",
        "40efebc779cf7c3cab1f437efbf125976b4565efe2cf8990ec088871d8b449e0\
         2d652e8e81c8ffa626055fefdc309a748969cf6891c81d8b0ebb86ecfaaec42a",
    ),
    (
        "Android key wrapping key generation SHA512",
        "0fcd1bbbffa77c2c61687cbb508b15de87a8d9687f5ab890fb7cd1d81934e26d117b0f3706cd94bf0e372b78363b858c\
         75dd135fd38ad05520129cb4cdbfcf9f7e8c5b9efbbdacaf7e520fe6b88c98c36b58cea3c9874370eaccf9ae822adef3\
         6a4aa82c1e85513762d6fe05d3770277313a4bdff6f5341aa25b4f6242f379",
        "51cba7fa9e44cfd2097c2ab05b209f51facb159257d4788386f58cb082e3f1b6\
         a027b4d33fc80746a81d9372e64f438c653e6f5f02c5a7b48811eed29c30213b",
    ),
    (
        "vold boot seed",
        "",
        "b1ce1131fb2be30217d76c6a288b1e99f82b01cf215b44acbd4b76a8856bbe52\
         e55f52a48748be089d332e263687178122305d7217c0844a4ff597e11cf9cf49",
    ),
    (
        "vold boot seed",
        "284a15ced6608a065d6025ae77f16d7fe2be7deb0df8c28de83619026a399073dd43310cdc8356c3894093817492d50e\
         5b518c1c84440c08e7a8e4d7c7fb3efb178bd952b84decfd3d37155ed7c65275cf001046a0b981b84e4219287f6c73e0\
         5dd64db477c0813d5d830f0b78c0f23938181abe245547f55feb560e2c2be8",
        "d073403fb41cab44f18866ae6923eacb3723441764a6a706bfab7d54e286464a\
         f5192e72a12230cb64c1d20ddb89e3af9f0cce01d9602a202460ec3aa7e9d10e",
    ),
    (
        "vold boot seed",
        "f27b99aa2d142fe4c7b6cfae2509ab054baeed2185d10aa77b94db3f1639c27307cc4863ef2e025bd52b648a71cd0ed4\
         b8acf602dc03ac901ec27c6fa599d2ba07e807258edf91cd8f826661d3117c251ef9e7e9ce7e6add772aadae969144bb\
         2e308744e818fc3e0cc73f353949626de07731672d55f754764d3cea8a198506",
        "7c618897c9289b65efeaf3168d61d7ece517ba228e34c90036978998a0e88b77\
         6ebaf6816f663f71b78cd6808543097dac7880f63e63d978c1b553e35c255ecf",
    ),
    (
        "vold keystore key",
        "3e",
        "74cee0e3bb6d791eecb53729a037fc63d8cebdfb0acc58fad5473c0550c18648\
         fd14e6518154ba85ed700143e179cb117b7a4f161198106c4ef4f25915e75763",
    ),
    (
        "vold keystore key",
        "d3604fcc6edb5e4921cf536766393972ce07faee45f8730b48074e23070d3649e11a2f528dac6c410e63d115b5ca99fc\
         fff023d6925b2a7fcf054a6ac7ad3ff6a11f101ec490e3e04b6d13465b31312790c8c01dbb81f4e429b7922428bb2ade\
         47566b2ae09742df66c1d0a2842a99917fc5c495f90c32ed513255bd8a7bb06c",
        "1a56c0c9802a2deba177907b8c9eba718e3d8b3d65254688bea587ee5c6ab431\
         127091fc3689c32cb5cbf6b36c7d08832791c392ed7622586322c411f6030b2f",
    ),
    (
        "vold keystore key",
        "a3ff05cb2546d9ce741ee297e77af078a44bb7da556fd01a5cedbdae308e7573fa7a22fab1037345cca7365c92b3efd5\
         fd68d746156012c18b0d64f04b8acaaac85a315f0fc3137d34ce62d895d9632c8383b25aa1ac940fa07e65fc18bb8238\
         f5508f600e21c122937950daeb18a9ea53011740c268d5fb0766be901de3f76204b4bc01227e8b283c8e48504212ba3a\
         bd22c2e3e4148cb1c6da859629686fb05f1173f8bf6f6e0883817ff3a5b97f6017f8ade2b5e4caf51aefccfdd78756b7\
         5c7ba9a86ad17f30",
        "b5f856c5184409190a81f0f1b5fd995eda0826c915bca2d863c8cb74720c6dfd\
         efa3925736453b260b17bdf67a8e07fcca4be12860757801e83fc3c5cf173b24",
    ),
];

#[test]
fn hashes_behind_prefixes(rt: HostRuntime) -> Result<(), Fail> {
    for (prefix, bytes, hash) in HASHES {
        assert!(rt; prefix.len() <= 128);
        let bytes = hex::decode(rt.alloc(), bytes)?;
        let hashed = prefixed_hash(prefix.as_bytes(), bytes.as_slice());
        assert_eq!(rt; hashed, <[u8; 64]>::from_hex(hash)?, "behind {prefix}");
    }
    Ok(())
}

// A discardable file and a secret, their app id, and its wrapping key.
const APP_IDS: [(&str, &str, &str, &str); 6] = [
    (
        "",
        "",
        "8d58ea2b411f217033002f28f0599d994c1d75671a9256ba4aac31ec72aa5505\
         e2c7f89cfa0fc9bd19e0858972e9f2fdf258c99f96dfa0e352a210a1170a9f6f",
        "b42477e76d2e7f5f3b7aa1e825b0da82a5239e4c2039cee4546b7b6e5c626274",
    ),
    (
        "aa",
        "",
        "4a1d049e7c6aa747461574e7b2d5a6b1d44ced708b2330bf159736bcba64f7b4\
         d868c42aacf99a9184169dce79ef6226dcbfac6e5af9c521a80a03a75a0c0904",
        "11f5fdc11a2eec40be8dabb8f39dac44f89b1958c92e251c1f6a9a4b43e15018",
    ),
    (
        "0a16f42b0f2df9db69f619f0037e7c127fdac94fa9e182220fbfa4f6f0b0a25a894229140dd405b01e3b2e6d50436e92\
         c24bb4a2468b0442ce32a01de31e26166cc00ce66d6fb4652a9502062f143fca4d4e29e7f98a90a8ce9f94670f7aaeb7\
         788fa1f5",
        "",
        "b0f40fcb0b87ec06b757d42a90725a1df1b2658bcdf5a5fd9016806b474a717c\
         57cc6496abc9c99953524f6941f6fc3ac4ec60a4d488583f2bb95e2accb881a8",
        "3155901ed09f987c1ba7c9919662e3df2f6ab94c8bdbea5cf199e77e15153053",
    ),
    (
        "96899265331419fcff493ee12e939e353b705742eb425fd0cceed2af2a4c82322f843f095a4cbda2be594d01734c1851\
         4072242c0d11d070fb2eac6492bfa9c387309cb9520850521492bfbfa8d81496b2c1d11da1c60e109c74b250d18a3ca5\
         62e265bf",
        "00",
        "8d422140070818a604ea037db3c0e01d5363fc02c01b5eeaeba72c555ee60331288d6099eef58f228405c60a026ad933\
         8459b33ca6116615dfde5cdfa8c8e4d700",
        "d3c9fa67b6b6f90d90dc668ec6edbb027218ba16444f643cad1e70887113cf6f",
    ),
    (
        "2d338fe3b005e7bec7e1ca1be0f4e38f3676495a3406ce1023d23f6eca5a0d720530802c82c7cb95c5aed447a0a58db8\
         15e6df3cdf4af68f4c09a279e8cf943c8dbf940d1a7ace36bc15eb30f4e96cbba9e59f21c8c3d32146d756cf9edee889\
         3dda3ff9",
        "50aa078c121234c032565cadec4fd9c4d551107ce211f052f5205235d9de1e77\
         4ec1a63c166e3d58ea26e3e12269daf292c1f1fb20e10a90412235c299e707f7",
        "a51dbd174ff8b7a7b16282337dc80303d29a3c0a878ed5810b8741b64f0d5de5667660ec83cac37f0c968a4dee7c20ed\
         41ba801d94a1f59169456ae352d3865b50aa078c121234c032565cadec4fd9c4d551107ce211f052f5205235d9de1e77\
         4ec1a63c166e3d58ea26e3e12269daf292c1f1fb20e10a90412235c299e707f7",
        "c7e7a4a21ee04d46ccdc5136fb0df7f1f8002ff14f865af76718655e76d7b658",
    ),
    (
        "5c54315ae8d6372257f0d3dfafdb909662f58236925abaf9e510753c9e3c7333b0484a556b8b6006ba00e04a227867be\
         71b76ca2822b733e7fcf9a0eb0c462c470abc129f30b4bf8a4d128b8b4d1d37370d6af6b325a1d96e87f41d1916efbb6\
         0118db759b05cfee33cc6caba390461b37040bf8a69a6c6af561e14dbf6b9bfb626327243e00fef0cce9c5971eaec07e\
         e1fe52a3a454cfbbdca7361cbc1880bab9d128b60673c0b57e53f49a1a3e25740334e1a6a4ced0403d73d686c4eb15b4\
         47667a2fb07398b4d256c29c71f50a1bbc49bc7c890b5f102bfbd34b92c574cd5866c5bb620f167b7064a5599792bb5b\
         8b211007401f8a568abdfde77a080fe4cf403c89d75954111c7cd7fc73768ed9d51d2b0dd3a3d52627364883f0beec38\
         68b185c573f97c5921dc08ba",
        "a2e86625fb71e3df9db5d8875072ef2e70",
        "f0ece6ef3114d85eb96199c7cd67426669930b0b608b22c5e37c7b5abf3919094f444c712c6f7cea68e83fcaf9a6cc58\
         93d390d0e0ecfb87e5bed12787bc43f9a2e86625fb71e3df9db5d8875072ef2e70",
        "fe1b65f848a3a047e1826cd2f3b654f4970c20be897b6786049a2d9c657ed057",
    ),
];

#[test]
fn app_ids_and_wrapping_keys(rt: HostRuntime) -> Result<(), Fail> {
    for (discard, secret, expected, wrapping) in APP_IDS {
        let discard = hex::decode(rt.alloc(), discard)?;
        let secret = Bytes::from_vec(hex::decode(rt.alloc(), secret)?);
        let secret = Secret::new(secret).ok_or("a secret is too long")?;
        let made = app_id(rt.alloc(), discard.as_slice(), &secret)?;
        assert_eq!(rt;
            made.as_slice(),
            hex::decode(rt.alloc(), expected)?.as_slice()
        );
        assert_eq!(rt;
            wrap_key(made.as_slice()),
            <[u8; 32]>::from_hex(wrapping)?,
            "of {expected}"
        );
    }
    Ok(())
}

// A script's seed, a boot, and the boot's seed.
const BOOT_SEEDS: [(&str, u64, &str); 12] = [
    (
        "",
        0,
        "04bd6627f5fa6dab5cddf2ae0d23522cd12b7bcf6ae1baa3e614d5193f307925",
    ),
    (
        "",
        1,
        "eb4a78b34dd03c40465d91bcdcd453552c7ecb51b46d2223f00c230c2c8aab21",
    ),
    (
        "",
        1099511627776,
        "69984f0619eccd4b0e387871c00a7176930bdac6d8dcfe3e656833ea98b39fcf",
    ),
    (
        "00000000",
        0,
        "b4030e6de1a03abf159600afbe0267ef7876fce9a8ded032189e302815b0216e",
    ),
    (
        "00000000",
        1,
        "f5953532b839b690f2fcebd884e90bd0e0bdbf087f5aab22179496962e0808bb",
    ),
    (
        "00000000",
        1099511627776,
        "7f372ce9612f5ddc07cf3d53ea0a8fb27da291ee57273af5e23a1d4800eb9915",
    ),
    (
        "0000000f",
        0,
        "102ae5c0b7104efb8513cbc84d4e5395702dcd4c2e6b4869b3a11bc49e0ad74a",
    ),
    (
        "0000000f",
        1,
        "b3cdb225224f96acb963a30ce67c6b486baff0c51599ced127192d9a491107a2",
    ),
    (
        "0000000f",
        1099511627776,
        "5eb5c9befab4f571c36d2d30e08c9b09585e27157970d95d12f33ee5d36a0914",
    ),
    (
        "18008688ddd9187672529d402ae402cec6104a7e7ed8f154b7f12a07f288e990\
         a93ee3e34bbca9a9e078082146dd3641dd909436877ffc040cc0c4f87e65410b",
        0,
        "36df480bc77bf8289259c0a238888ed1534bbd2094e9efcee548aabd3cbb75c3",
    ),
    (
        "18008688ddd9187672529d402ae402cec6104a7e7ed8f154b7f12a07f288e990\
         a93ee3e34bbca9a9e078082146dd3641dd909436877ffc040cc0c4f87e65410b",
        1,
        "830ba33accb4082cbfb9ec0e66c786a4ae56722921a6b95e62aa3f21acfeffa4",
    ),
    (
        "18008688ddd9187672529d402ae402cec6104a7e7ed8f154b7f12a07f288e990\
         a93ee3e34bbca9a9e078082146dd3641dd909436877ffc040cc0c4f87e65410b",
        1099511627776,
        "a93b2661b62eda6949e227eff3752d80d0e44338bfcfa79efcf4a5d630ba4a5f",
    ),
];

#[test]
fn seeds_of_boots(rt: HostRuntime) -> Result<(), Fail> {
    for (seed, boot, expected) in BOOT_SEEDS {
        let bytes = hex::decode(rt.alloc(), seed)?;
        let made = boot_seed(bytes.as_slice(), boot);
        assert_eq!(rt;
            made,
            <[u8; 32]>::from_hex(expected)?,
            "boot {boot} of seed {seed}"
        );
    }
    Ok(())
}

// In boot 0 of the empty seed: a user, an index, the first word, how many, and their bytes.
const MADE: [(u32, u32, u64, u64, &str); 12] = [
    (
        0,
        0,
        0,
        16,
        "31078635d0a5dbdfd75e039ea5c831e3a54a6cee6b6400155436335287510c7c\
         ae9558ec68b6fccf1dd9b90c630fa5e733f4253795ab2fcc67791aeb11c460f1",
    ),
    (
        0,
        0,
        64,
        8,
        "219cf5c858772cf8b971f046b0cc5f41027bc650837e45a2caf77b67efe90f96",
    ),
    (
        0,
        0,
        8250,
        6,
        "41af031bec4daf2499615edbacb55689230997fc7343eb6f",
    ),
    (
        10,
        0,
        16,
        16,
        "dd69cdff9d0edb9f9003ea7f51837d2a4246f145eb9b23192aadf90d4b899cf4\
         5e63d82e1b5dfc90916335e812a360adbc97136d09d3fab7bc118cc13be23194",
    ),
    (
        10,
        0,
        4160,
        8,
        "a28144c9ffeafbe19250b48695087674e05400dda7b8fdd1210be8161b785b74",
    ),
    (
        10,
        1,
        0,
        16,
        "b7e7cd592de34689829629a5836a1eba3d2b9e8d753001eae58ecb41593e9d39\
         255fa748a2eae228c4caec9c9f436c6f1c6acd21949f85eec0dd475cd6d51a38",
    ),
    (10, 1, 32, 3, "bd8ff234f345687ab46ab5a8"),
    (10, 1, 35, 3, "62bfbcf61ebe4cb001ac30fc"),
    (
        4294967295,
        4294967295,
        0,
        16,
        "9018910df8833a2c0cda16e53a2c932d7342b23ed7fda598f80066e4d3db7dc1\
         5789ad85e4b5d68974815652030042d664da9e661296ed819ae7bb2fa562bc9b",
    ),
    (
        4294967295,
        4294967295,
        64,
        8,
        "77344027ecf81417e4ba1e0856261ade8ebc8aeec2ce6667252eee71bb22c6b2",
    ),
    (
        4294967295,
        4294967295,
        8250,
        6,
        "b3e7f3a28f17ec2ac5acf496b02f0a83ee14275b63c6d02f",
    ),
    (
        7,
        3,
        4160,
        8,
        "75a8294325a365dc849c757b447cd58695ab42e9d6e7c930a2077d39d011ecaf",
    ),
];

#[test]
fn words_of_streams(rt: HostRuntime) -> Result<(), Fail> {
    let boot_seed = boot_seed(&[], 0);
    for (user, index, first, words, expected) in MADE {
        assert!(rt; first < 8256 && words <= 8256 - first);
        let made = made_bytes(rt.alloc(), &boot_seed, user, index, first, words)?;
        let expected = hex::decode(rt.alloc(), expected)?;
        assert_eq!(rt;
            made.as_slice(),
            expected.as_slice(),
            "word {first} of {user}"
        );
    }
    Ok(())
}

// For users and indices in boot 0 of the empty seed: the key, the nonce, and the beginning of the discardable file.
const PIECES: [(Class, u32, u32, &str, &str, &str); 6] = [
    (
        Class::Ce,
        0,
        0,
        "31078635d0a5dbdfd75e039ea5c831e3a54a6cee6b6400155436335287510c7c\
         ae9558ec68b6fccf1dd9b90c630fa5e733f4253795ab2fcc67791aeb11c460f1",
        "bbf6cc5926822864b11cda27",
        "219cf5c858772cf8b971f046b0cc5f41027bc650837e45a2caf77b67efe90f96",
    ),
    (
        Class::De,
        0,
        0,
        "def598411c49dd92995161ac9bc718f9f43bbafe30ea3b1ecad6dfa897ff05db\
         feabb8707540b0ef67a156130e6d40a58c2d58250fab06dadfebe8ffba013ac1",
        "86c2184d6757dd4e4c49bb07",
        "925642831ff1a8608eb58012df4448e424f4f5c99681a0fba8bc030240bb15dc",
    ),
    (
        Class::Ce,
        10,
        1,
        "b7e7cd592de34689829629a5836a1eba3d2b9e8d753001eae58ecb41593e9d39\
         255fa748a2eae228c4caec9c9f436c6f1c6acd21949f85eec0dd475cd6d51a38",
        "bd8ff234f345687ab46ab5a8",
        "3edef1cd47a563308ef727e026101de2fae6caa7b44ba5117822e001eeb8954e",
    ),
    (
        Class::De,
        10,
        1,
        "ad3455c2b1107a013f843e0c6867ce59bd0ccea85753b63a27f0a87fc9767799\
         195f58a7626bf56e22a3b5644b403ba60fc2a4b4940989f44e519f7ae271c8ed",
        "62bfbcf61ebe4cb001ac30fc",
        "b4f3b04c1598809c69c98eb577b0be484e701832a87e5307c304021caac91e17",
    ),
    (
        Class::Ce,
        4294967295,
        4294967295,
        "9018910df8833a2c0cda16e53a2c932d7342b23ed7fda598f80066e4d3db7dc1\
         5789ad85e4b5d68974815652030042d664da9e661296ed819ae7bb2fa562bc9b",
        "04b0e16848fbc55b4c02f6d1",
        "77344027ecf81417e4ba1e0856261ade8ebc8aeec2ce6667252eee71bb22c6b2",
    ),
    (
        Class::De,
        4294967295,
        4294967295,
        "f973276c86a207478df94735c15ed4eca38870efb478cf800a705c65b9da86a7\
         af98e96e88c28e4226bfe4c77364d7bc78f237824a73d6577601342cc01cdbd6",
        "465c212b2c4fd74a3ec32d45",
        "6de963baaaae441fbc353754e311f8dcac8f868b748d75584a0e033b5c1acfc2",
    ),
];

#[test]
fn pieces_of_streams(rt: HostRuntime) -> Result<(), Fail> {
    let seed = boot_seed(&[], 0);
    for (class, user, index, key, nonce, begins) in PIECES {
        let made = made_key(&seed, class, user, index);
        assert_eq!(rt; made, <[u8; 64]>::from_hex(key)?, "user {user}");
        let made = made_nonce(&seed, class, user, index);
        assert_eq!(rt; made, <[u8; 12]>::from_hex(nonce)?, "user {user}");
        let made = made_discardable(rt.alloc(), &seed, class, user, index)?;
        assert_eq!(rt; made.as_slice().len(), 16384);
        assert!(rt;
            made.as_slice().starts_with(&<[u8; 32]>::from_hex(begins)?),
            "user {user}"
        );
    }
    Ok(())
}
