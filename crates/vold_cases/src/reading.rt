ghost use Rattle.std.specs.Prelude.{◌≡◌, ◌++◌, ◌∷◌, ⊤, IfOk, IfSome, IfNone, All, map, flat_map, option_copied};
ghost use Rattle.std.specs.String.{string_bytes};
ghost use Rattle.script_text.specs.Reading.{words_in, words_after, Lacks, Reads};
ghost use Rattle.vold_cases.specs.Case.{case_text, device_word, fault_line, fault_text, fault_words, head_words};
ghost use Rattle.vold_cases.specs.Case.{ends_case, IsCase, IsNoHead, IsPlanned, IsScriptText};

use crate::case::{Case, Planned};
use crate::refusal::{Refusal, Wrong};
use journal_model::Device;
use script_text::number_of;
use std::alloc::Global;
use tree_model::NoMemory;

/// The most bytes that cases have.
pub const MOST_BYTES: usize = 16_777_216;

/// The cases that the bytes are the text of.
pub fn cases_in(alloc: Global, bytes: &[u8]) -> Result<Vec<Case>, Refusal>
    ensures whole { IfOk result (λ cases. bytes.now ≡ flat_map case_text cases.items) }
    ensures cases { IfOk result (λ cases. All IsCase cases.items) }
{
    if bytes.len() > MOST_BYTES {
        return Err(Refusal::Wrong(Wrong::Length, bytes.len() - MOST_BYTES));
    }
    match str::from_utf8(bytes) {
        Ok(text) => read_cases(alloc, text),
        Err(error) => Err(Refusal::Wrong(Wrong::Text, bytes.len() - error.valid_up_to())),
    }
}

/// The cases that the text is of.
fn read_cases(alloc: Global, text: &str) -> Result<Vec<Case>, Refusal>
    ensures whole { IfOk result (λ cases. text.now ≡ flat_map case_text cases.items) }
    ensures cases { IfOk result (λ cases. All IsCase cases.items) }
{
    let mut cases = Vec::new(alloc);
    let mut rest = text;
    while !rest.is_empty() {
        let (case, others) = next_case(alloc, rest)?;
        cases.push(case)?;
        rest = others;
    }
    Ok(cases)
}

/// The case that the text begins with, and what follows it.
fn next_case(alloc: Global, text: &str) -> Result<(Case, &str), Refusal>
    ensures text { IfOk result (λ found. text.now ≡ case_text found.0 ++ found.1.now) }
    ensures case { IfOk result (λ found. IsCase found.0) }
{
    let Some((line, body)) = first_line(text) else {
        return Err(Refusal::Wrong(Wrong::Head, text.len()));
    };
    let Some((name, words)) = head_of(alloc, line)? else {
        return Err(Refusal::Wrong(Wrong::Head, text.len()));
    };
    let (faults, lines) = faults_of(alloc, body)?;
    let (script, others) = script_of(alloc, lines)?;
    let case = Case {
        name,
        words,
        faults,
        script,
    };
    Ok((case, others))
}

/// The name and the words that a case's first line gives.
fn head_of(alloc: Global, line: &str) -> Result<Option<(String, Vec<String>)>, NoMemory>
    ensures read { IfOk result (λ head. IfSome head (λ found.
        words_in line.now ≡ head_words (string_bytes found.0) (map string_bytes found.1.items))) }
    ensures refused { IfOk result (λ head. IfNone head (IsNoHead (words_in line.now))) }
{
    let (word, text) = first_word(line);
    if word != "case" {
        return Ok(None);
    }
    let Some(text) = text else {
        return Ok(None);
    };
    let (name, words) = first_word(text);
    Ok(Some((name.to_string(alloc)?, words_of(alloc, words)?)))
}

/// The words that follow a word, where there are any.
fn words_of(alloc: Global, words: Option<&str>) -> Result<Vec<String>, NoMemory>
    ensures { IfOk result (λ read. map string_bytes read.items ≡ words_after (option_copied words.entry)) }
{
    let mut read = Vec::new(alloc);
    let mut rest = words;
    while let Some(text) = rest {
        let (word, others) = first_word(text);
        read.push(word.to_string(alloc)?)?;
        rest = others;
    }
    Ok(read)
}

/// The first word, and what follows the space behind it, where there is one.
fn first_word(text: &str) -> (&str, Option<&str>)
    ensures { words_in text.now ≡ result.0.now ∷ words_after (option_copied result.1) }
{
    match text.split_once(' ') {
        Some((word, others)) => (word, Some(others)),
        None => (text, None),
    }
}

/// The first line without its line feed, and what follows it; None where no line feed comes.
fn first_line(text: &str) -> Option<(&str, &str)>
    ensures line { IfSome result (λ parts. text.now ≡ parts.0.now ++ 10 ∷ parts.1.now) }
    ensures first { IfSome result (λ parts. Lacks 10 parts.0.now) }
    ensures none { IfNone result (Lacks 10 text.now) }
{
    text.split_once('\n')
}

/// The faults that the text begins with, and what follows their lines.
fn faults_of(alloc: Global, text: &str) -> Result<(Vec<Planned>, &str), Refusal>
    ensures { IfOk result (λ found. text.now ≡ flat_map fault_text found.0.items ++ found.1.now) }
{
    let mut faults = Vec::new(alloc);
    let mut rest = text;
    while rest.starts_with("plan ") {
        let Some((fault, others)) = next_fault(rest) else {
            return Err(Refusal::Wrong(Wrong::Plan, rest.len()));
        };
        faults.push(fault)?;
        rest = others;
    }
    Ok((faults, rest))
}

/// The fault that the text's first line plans, and what follows the line.
fn next_fault(text: &str) -> Option<(Planned, &str)>
    ensures { IfSome result (λ found. text.now ≡ fault_line found.0 ++ 10 ∷ found.1.now) }
{
    let (line, others) = first_line(text)?;
    Some((fault_of(line)?, others))
}

/// The fault that a line plans.
fn fault_of(line: &str) -> Option<Planned>
    ensures { Reads IsPlanned fault_words (words_in line.now) result }
{
    let (word, words) = first_word(line);
    if word != "plan" {
        return None;
    }
    let (name, number) = first_word(words?);
    let device = device_named(name)?;
    let call = number_of(number?.as_bytes())?;
    if call == 0 {
        return None;
    }
    Some(Planned { device, call })
}

/// The device of this name.
fn device_named(word: &str) -> Option<Device>
    ensures { Reads (λ _. ⊤) device_word word.now result }
{
    match word {
        "tree" => Some(Device::Tree),
        "store" => Some(Device::Store),
        "ring" => Some(Device::Ring),
        _ => None,
    }
}

/// The script that the text begins with, and what follows the line that ends the case.
fn script_of(alloc: Global, text: &str) -> Result<(String, &str), Refusal>
    ensures text { IfOk result (λ found. text.now ≡ string_bytes found.0 ++ (ends_case ++ found.1.now)) }
    ensures script { IfOk result (λ found. IsScriptText (string_bytes found.0)) }
{
    let mut script = String::new(alloc);
    let mut rest = text;
    while let Some((line, others)) = first_line(rest) {
        if line == "." {
            return Ok((script, others));
        }
        script.push_str(line)?;
        script.push('\n')?;
        rest = others;
    }
    Err(Refusal::Wrong(Wrong::End, rest.len()))
}
