// Words compared, and rules looked up by a number or a name.

ghost use Rattle.std.specs.Prelude.{◌≡◌, position};
ghost use Rattle.command_line.specs.Words.{same_word, starred, parameter, decimal, rule_named, rule_asked};

use std::str;

// The rules' names, from number 1 on: docs/RULES.md has the rules.
pub const RULES: [&str; 25] = [
    "number",
    "number_64",
    "quoted",
    "literal",
    "string",
    "astring",
    "nstring",
    "text",
    "sequence_set",
    "uid_set",
    "section",
    "entry_name",
    "envelope",
    "body",
    "APPENDUID",
    "COPYUID",
    "UIDNOTSTICKY",
    "VANISHED",
    "HIGHESTMODSEQ",
    "MODSEQ",
    "BODY_section",
    "METADATA_values",
    "METADATA_names",
    "ENVELOPE_item",
    "BODYSTRUCTURE",
];

// The same bytes, ASCII case ignored.
fn same_word(a: &[u8], b: &[u8]) -> bool
    ensures { result ≡ same_word a.now b.now }
{
    a.eq_ignore_ascii_case(b)
}

// Nothing, or RFC 2231's `*` and what may follow that.
fn is_starred(rest: &[u8]) -> bool
    ensures { result ≡ starred rest.now }
{
    match rest {
        [] => true,
        [first, ..] => *first == b'*',
    }
}

// Whether a parameter has this name: the word itself, or with a `*` behind it.
pub fn is_parameter(s: &[u8], word: &[u8]) -> bool
    ensures { result ≡ parameter s.now word.now }
{
    match s.split_at_checked(word.len()) {
        Some((name, rest)) => same_word(name, word) && is_starred(rest),
        None => false,
    }
}

// The value of digits, where all are digits and 32 bits hold it; `parse` takes a sign too. Here and below a match, which the check proves
// alone: a closure would repeat the clauses of what it calls.
#[tactic(auto, using(crate::proofs::Numerals::no_text, crate::proofs::Numerals::empty, crate::proofs::Numerals::signed, crate::proofs::Numerals::parsed))]
fn decimal(word: &[u8]) -> Option<u32>
    ensures { result ≡ decimal word.now }
{
    if word.is_empty() || word[0] == b'+' {
        return None;
    }
    match str::from_utf8(word) {
        Ok(text) => text.parse().ok(),
        Err(_) => None,
    }
}

// The place of the first of the names that is this word.
fn place_of(word: &[u8], names: &[&str]) -> Option<usize>
    ensures { result ≡ position (λ name. same_word name.now word.now) names.now }
{
    names
        .iter()
        .position(|name| same_word(name.as_bytes(), word))
}

// The rule with this name, ASCII case ignored.
fn rule_named(word: &[u8]) -> Option<u32>
    ensures { result ≡ rule_named word.now }
{
    match place_of(word, &RULES) {
        Some(place) => Some(place as u32 + 1),
        None => None,
    }
}

// By a number, of a rule or not; or by a rule's name.
pub fn rule_asked(word: &[u8]) -> Option<u32>
    ensures { result ≡ rule_asked word.now }
{
    match decimal(word) {
        Some(number) => Some(number),
        None => rule_named(word),
    }
}
