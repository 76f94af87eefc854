//! The reading of a buffer by a rule number, with a lent table: docs/RULES.md, "Answers".
//!
//! One pass writes to words of the reader's own, which are copied to the lent table once the reading is accepted and has room
//! there; a reading with more nodes than those words hold makes a second pass, which is lent exactly its nodes' words of the
//! table. So a reading that is not accepted changes no word, and an abandoned alternative leaves nothing behind.

#![tactic(auto)]

ghost use Rattle.std.specs.Prelude.{◌≡◌, [], ◌∷◌, ◌≤◌, ◌<◌, ◌*◌, ◌^◌, length};
ghost use Rattle.grammar.specs.Rules.{rule};
ghost use Rattle.grammar.specs.Reading.{deepest_level, length_limit, last_rule};
ghost use Rattle.table.specs.Cursor.{first};
ghost use Rattle.table.specs.Promise.{Reads};
ghost use Rattle.reader.specs.Answers.{Answers, failed};
ghost use Rattle.reader.specs.Exports.{in_front, Reports, Shows};

use table::{Cursor, Failure, IResult};

// What a reading answers. specs/Answers.antt gives the number of each case. An enum of its own, where Result would do: docs/RULES.md
// numbers its seven cases, and the theorems of proofs/Demands.antt speak of them by name.
#[derive(Clone, Copy, Debug, PartialEq, Eq)]
pub enum Answer {
    Accepted { taken: usize, nodes: usize },
    Unfinished { wanted: usize },
    NotTheGrammar,
    TooDeep,
    NoRoom { nodes: usize },
    UnknownRule,
    TooLong,
}

// ----- one pass by the rule with this number: a number, as callers in any language name it -----

// No other number comes here: `read` gives those answer 5.
fn once(number: u32, s: &[u8], t: &mut [u32]) -> IResult
    requires in_limit { length s.now ≤ length_limit }
    requires known_rule { (1 ≤ number) × (number ≤ last_rule) }
    ensures { Reads deepest_level (rule number) s.now first result t.old t.new }
{
    let first = Ok(Cursor { place: 0, nodes: 0 });
    match number {
        1 => parser_core::number(s, first, t),
        2 => parser_core::number_64(s, first, t),
        3 => parser_core::quoted(s, first, t),
        4 => parser_core::literal(s, first, t),
        5 => parser_core::string(s, first, t),
        6 => parser_core::astring(s, first, t),
        7 => parser_core::nstring(s, first, t),
        8 => parser_core::text(s, first, t),
        9 => lists::sequence_set(s, first, t),
        10 => rfc4315::uid_set(s, first, t),
        11 => rfc3501_body::section(s, first, t),
        12 => rfc5464::entry_name(s, first, t),
        13 => rfc3501_envelope::envelope(s, first, t),
        14 => rfc3501_body_structure::body(s, first, t, grammar::DEEPEST_LEVEL),
        15 => rfc4315::resp_text_code_append_uid(s, first, t),
        16 => rfc4315::resp_text_code_copy_uid(s, first, t),
        17 => rfc4315::resp_text_code_uid_not_sticky(s, first, t),
        18 => rfc7162::resp_vanished(s, first, t),
        19 => rfc4551::resp_text_code_highest_mod_seq(s, first, t),
        20 => rfc4551::msg_att_mod_seq(s, first, t),
        21 => rfc3501_body::msg_att_body_section(s, first, t),
        22 => rfc5464::metadata_solicited(s, first, t),
        23 => rfc5464::metadata_unsolicited(s, first, t),
        24 => rfc3501_envelope::msg_att_envelope(s, first, t),
        25 => rfc3501_body_structure::msg_att_body_structure(s, first, t, grammar::DEEPEST_LEVEL),
        _ => Err(Failure::Refused),
    }
}

// ----- the reading -----

// The answer of a pass that failed.
impl From<Failure> for Answer {
    ghost from_gives = { λ failure answer. answer ≡ failed failure };

    fn from(failure: Failure) -> Answer {
        match failure {
            Failure::Unfinished { wanted } => Answer::Unfinished { wanted },
            Failure::Refused => Answer::NotTheGrammar,
            Failure::TooDeep => Answer::TooDeep,
        }
    }
}

// A reading by way of these words: their nodes are copied, and more nodes than they hold are read anew, into the table. The two clauses go
// along from `read_known` to `once`: a type for them would be made in the one and taken apart in the other.
fn read_by(number: u32, s: &[u8], scratch: &mut [u32], t: &mut [u32]) -> Answer
    requires in_limit { length s.now ≤ length_limit }
    requires known_rule { (1 ≤ number) × (number ≤ last_rule) }
    ensures { Answers number s.now t.old result t.new }
{
    let c = match once(number, s, scratch) {
        Ok(c) => c,
        Err(failure) => return Answer::from(failure),
    };
    let nodes = c.nodes;
    if t.len() / 4 < nodes {
        return Answer::NoRoom { nodes };
    }
    let k = 4 * nodes;
    if k <= scratch.len() {
        t[..k].copy_from_slice(&scratch[..k]);
    } else {
        let _ = once(number, s, &mut t[..k]);
    }
    Answer::Accepted {
        taken: c.place,
        nodes,
    }
}

// A reading by way of N words of the reader's own: an array and no Vec, so that no reading can fail for want of memory. They are cleared
// first, and to clear many takes longer than a short reading does: few for a rule whose readings have few nodes however long the buffer is,
// few for a short buffer.
fn read_by_words<const N: usize>(number: u32, s: &[u8], t: &mut [u32]) -> Answer
    requires an_array { N * 4 < 2 ^ 63 }
    requires in_limit { length s.now ≤ length_limit }
    requires known_rule { (1 ≤ number) × (number ≤ last_rule) }
    ensures { Answers number s.now t.old result t.new }
{
    let mut scratch = [0u32; N];
    read_by(number, s, &mut scratch, t)
}

// A rule whose readings have few nodes.
fn is_short_rule(number: u32) -> bool {
    matches!(number, 1..=8 | 11..=12 | 15 | 17 | 19..=21)
}

// A reading by a rule that there is: the length, then the scratch.
fn read_known(number: u32, s: &[u8], t: &mut [u32]) -> Answer
    requires { (1 ≤ number) × (number ≤ last_rule) }
    ensures { Answers number s.now t.old result t.new }
{
    if grammar::LENGTH_LIMIT < s.len() {
        return Answer::TooLong;
    }
    if is_short_rule(number) {
        return read_by_words::<64>(number, s, t);
    }
    if s.len() <= 320 {
        return read_by_words::<256>(number, s, t);
    }
    if s.len() <= 1280 {
        return read_by_words::<1024>(number, s, t);
    }
    if s.len() <= 5120 {
        return read_by_words::<4096>(number, s, t);
    }
    read_by_words::<8192>(number, s, t)
}

// Reads the buffer's beginning by the rule with this number. The nodes' words are written to the table's beginning.
pub fn read(number: u32, s: &[u8], t: &mut [u32]) -> Answer
    ensures { Answers number s.now t.old result t.new }
{
    match number {
        1..=25 => read_known(number, s, t),
        _ => Answer::UnknownRule,
    }
}

// ----- for other languages: numbers and slices only; crate reader_c exports the two public ones (include/elbomavund.h) -----

// The four numbers to the front of the caller's words, if there is room for all four. What goes to C is numbers, here and below.
fn put_numbers(out: &mut [u64], answer: u32, taken: usize, nodes: usize, wanted: usize) -> u32
    ensures value { result ≡ answer }
    ensures out_after { out.new ≡ in_front (answer ∷ taken ∷ nodes ∷ wanted ∷ []) out.old }
{
    if 4 <= out.len() {
        out[0] = answer as u64;
        out[1] = taken as u64;
        out[2] = nodes as u64;
        out[3] = wanted as u64;
    }
    answer
}

// A part's offset and length, in the same way.
fn put_part(out: &mut [u64], answer: u32, offset: usize, len: usize) -> u32
    ensures value { result ≡ answer }
    ensures out_after { out.new ≡ in_front (offset ∷ len ∷ []) out.old }
{
    if 2 <= out.len() {
        out[0] = offset as u64;
        out[1] = len as u64;
    }
    answer
}

// `read`, in numbers: the answer is returned, and all four go to the first four words of out.
pub fn elbomavund_read(number: u32, s: &[u8], t: &mut [u32], out: &mut [u64]) -> u32
    ensures { Reports number s.now t.old out.old result t.new out.new }
{
    let answer = read(number, s, t);
    match answer {
        Answer::Accepted { taken, nodes } => put_numbers(out, 0, taken, nodes, 0),
        Answer::Unfinished { wanted } => put_numbers(out, 1, 0, 0, wanted),
        Answer::NotTheGrammar => put_numbers(out, 2, 0, 0, 0),
        Answer::TooDeep => put_numbers(out, 3, 0, 0, 0),
        Answer::NoRoom { nodes } => put_numbers(out, 4, 0, nodes, 0),
        Answer::UnknownRule => put_numbers(out, 5, 0, 0, 0),
        Answer::TooLong => put_numbers(out, 6, 0, 0, 0),
    }
}

// The part of a buffer of len bytes that a node names: 0 or 7 is returned, offset and length go to the first two words of out.
pub fn elbomavund_view(len: usize, t: &[u32], node: usize, out: &mut [u64]) -> u32
    ensures { Shows len t.now node out.old result out.new }
{
    match views::part_at(len, t, node) {
        Some(part) => put_part(out, 0, part.start, part.end - part.start),
        None => put_part(out, 7, 0, 0),
    }
}
