//! AES-256 (FIPS 197 of 2001) and GCM (SP 800-38D, nonces of 96 bits, tags of 128) as definitions, in `specs/`.
//!
//! The crate has no code that a program runs. Each function here carries a law of the definitions on its contract.
#![tactic(auto)]

ghost use Rattle.seal_model.specs.Laws.{IsByteField, InverseIsPower, ByteProducts, IsBlockRing};
ghost use Rattle.seal_model.specs.Laws.{BlockModulusIsR, HashGoesByBlocks, RemainderIsRemainder};
ghost use Rattle.seal_model.specs.Laws.{SBoxValues, UnsealAnswersAll, UnsealGivesText};
ghost use Rattle.seal_model.specs.Laws.{SealedTextsOpen, OnlySealedOpens};

/// `remainder` leaves the remainder of a polynomial by division.
pub fn remainder_is_remainder()
    ensures { RemainderIsRemainder }
{}

/// The bytes are a field (FIPS 197, section 4).
pub fn bytes_are_a_field()
    ensures { IsByteField }
{}

/// The inverse of a byte is its 254th power.
pub fn inverse_is_power()
    ensures { InverseIsPower }
{}

/// Bytes have the standard's products (FIPS 197, sections 4.2 and 4.2.1).
pub fn bytes_have_products()
    ensures { ByteProducts }
{}

/// The S-box has the standard's values (FIPS 197, figure 7).
pub fn s_box_has_values()
    ensures { SBoxValues }
{}

/// The blocks are a commutative ring with one (SP 800-38D, section 6.3).
pub fn blocks_are_a_ring()
    ensures { IsBlockRing }
{}

/// The modulus of blocks is the standard's R (SP 800-38D, section 6.3).
pub fn block_modulus_is_r()
    ensures { BlockModulusIsR }
{}

/// GHASH adds each block to the sum so far, and multiplies by the hash key (SP 800-38D, section 6.4).
pub fn hash_goes_by_blocks()
    ensures { HashGoesByBlocks }
{}

/// A sealed text opens to nothing exactly where it has fewer than 16 bytes or another tag than its ciphertext's.
pub fn unseal_answers()
    ensures { UnsealAnswersAll }
{}

/// Opening a sealed text gives the text.
pub fn unseal_gives_text()
    ensures { UnsealGivesText }
{}

/// A sealed text opens to its text, where its nonce has 12 bytes.
pub fn sealed_texts_open()
    ensures { SealedTextsOpen }
{}

/// What opens was sealed, from the text that it opens to.
pub fn only_sealed_opens()
    ensures { OnlySealedOpens }
{}
