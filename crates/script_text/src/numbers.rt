//! Reads a word as a number.
ghost use Rattle.std.specs.Prelude.{◌≡◌, ◌↔◌, IsTrue, MatchOption};
ghost use Rattle.script_text.specs.Words.{decimal};
ghost use Rattle.script_text.specs.Script.{IsNoNumber};
ghost use Rattle.script_text.specs.Reading.{IsPlain};

/// The number of 32 bits whose text the word is, in decimal without a leading zero; None where it is of none.
pub fn number_of(word: &[u8]) -> Option<u32>
    ensures { MatchOption result (IsNoNumber word.now) (λ number. word.now ≡ decimal number) }
{
    if !is_plain(word) {
        return None;
    }
    let text = str::from_utf8(word).ok()?;
    text.parse().ok()
}

/// Whether the word begins with no plus, and with a zero only where that is the whole word.
fn is_plain(word: &[u8]) -> bool
    ensures { IsTrue result ↔ IsPlain word.now }
{
    match word.first() {
        Some(b'+') => false,
        Some(b'0') => word.len() == 1,
        _ => true,
    }
}
