//! Numbers and strings: imap-proto 0.17.0's src/core.rs, with cursors for slices and a lent table for values.
//! A reader `x(s, c, t)` reads one production from where `c` stands; an answer that ended the reading it hands on as it is.

#![tactic(auto)]

ghost use Rattle.std.specs.Prelude.{ℕ, ◌≡◌, [], ◌∷◌, ◌+◌, ◌*◌, ◌≤◌, ◌<◌, length, eqb, Ok};
ghost use Rattle.grammar.specs.Scan.{digit, text_char, quoted_special, list_wildcard, astring_special, astring_char, blank, capital, tag, tag_no_case, take_while1, take_while, Class, in_class, quotes, astring_chars, text_chars, blanks, largest_32};
ghost use Rattle.grammar.specs.Grammar.{G, leaf, mark, literal, does, node};
ghost use Rattle.grammar.specs.Notation.{◌⋯◌, sp, skip_opt, space0, space1};
ghost use Rattle.grammar.specs.Core.{number, number_64, quoted, string, astring, nil, nstring, text};
ghost use Rattle.grammar.specs.Kinds.{kind_bytes};
ghost use Rattle.table.specs.Promise.{Room, Stands, Reads, Skips, Callable, Following};
ghost use Rattle.parser_core.specs.Separated.{ItemBy, Separated};
ghost use Rattle.parser_core.specs.Scanned.{Tests, Ends, Opened, value_of, Counts, Overruns, Headers};
ghost use Rattle.parser_core.specs.Opening.{OrNil};

use table::{Cursor, Failure, IResult};

// ----- bytes -----

pub fn is_digit(c: u8) -> bool
    ensures { result ≡ digit c }
{
    c.is_ascii_digit()
}

// quoted-specials = DQUOTE / "\"
fn is_quoted_specials(c: u8) -> bool
    ensures { result ≡ quoted_special c }
{
    matches!(c, b'"' | b'\\')
}

// list-wildcards = "%" / "*"
fn is_list_wildcards(c: u8) -> bool
    ensures { result ≡ list_wildcard c }
{
    matches!(c, b'%' | b'*')
}

// atom-specials but for CTL and resp-specials
fn is_atom_specials(c: u8) -> bool
    ensures { result ≡ astring_special c }
{
    // As a `matches!` of the four it costs METADATA's names a tenth more instructions.
    c == b'('
        || c == b')'
        || c == b'{'
        || c == b' '
        || is_list_wildcards(c)
        || is_quoted_specials(c)
}

// ASTRING-CHAR = ATOM-CHAR / resp-specials
fn is_astring_char(c: u8) -> bool
    ensures { result ≡ astring_char c }
{
    b' ' <= c && !is_atom_specials(c)
}

// TEXT-CHAR = <any CHAR except CR and LF>; 8-bit bytes count
fn is_text_char(c: u8) -> bool
    ensures { result ≡ text_char c }
{
    // Nearly every byte: one test. Without it a long quoted string takes a third more time.
    b'\r' < c || !matches!(c, 0 | b'\r' | b'\n')
}

// A space or a tab.
fn is_space(c: u8) -> bool
    ensures { result ≡ blank c }
{
    matches!(c, b' ' | b'\t')
}

// Two letters, ASCII case ignored.
fn same_letter(a: u8, b: u8) -> bool
    ensures { result ≡ eqb (capital a) (capital b) }
{
    // Most are equal as they are: without that test a multipart costs a tenth more instructions.
    a == b || a.eq_ignore_ascii_case(&b)
}

// ----- fixed words -----

// Exactly this byte.
pub fn char(s: &[u8], c: IResult, b: u8) -> IResult
    requires { Stands 0 s.now c }
    ensures { Skips (leaf (tag (b ∷ []))) s.now c result }
{
    let c = c?;
    if s.len() <= c.place {
        return Err(Failure::Unfinished { wanted: 0 });
    }
    if s[c.place] == b {
        Ok(c.moved(c.place + 1))
    } else {
        Err(Failure::Refused)
    }
}

// This byte, and then what `read` reads. `sp_number`, `sp_string` and `sp_nstring` are two lines in its place: a reader that is passed is a
// call more, with its cursor in memory, and most of a body's links are these.
pub fn after<F: Fn(&[u8], IResult, &mut [u32]) -> IResult>(
    s: &[u8],
    c: IResult,
    t: &mut [u32],
    byte: u8,
    read: F,
) -> IResult
    requires stands { Stands 0 s.now c }
    requires callable { Callable F.Fn read }
    ensures { Following F.Fn byte read s.now c result t.old t.new }
{
    let next = char(s, c, byte)?;
    read(s, Ok(next), t)
}

// A list of what `item` reads, with this byte between two of them.
pub fn separated<F: Fn(&[u8], IResult, &mut [u32]) -> IResult + Copy>(
    s: &[u8],
    c: IResult,
    t: &mut [u32],
    byte: u8,
    item: F,
) -> IResult
    requires stands { Stands 0 s.now c }
    requires items { (depth : ℕ) × (g : G) × ItemBy F.Fn depth g item }
    ensures { Separated F.Fn byte item s.now c result t.old t.new }
{
    table::items(
        s,
        c,
        t,
        item,
        |s: &[u8], c: IResult, t: &mut [u32]| -> IResult
            requires stands { Stands 0 s.now c }
            requires callable { Callable F.Fn item }
            ensures { Following F.Fn byte item s.now c result t.old t.new }
        { after(s, c, t, byte, item) },
    )
}

// The bytes of a word, ASCII case ignored. In line, since most words that are tried do not stand there.
#[inline(always)]
pub fn tag_no_case(s: &[u8], c: IResult, word: &[u8]) -> IResult
    requires stands { Stands 0 s.now c }
    requires a_byte { 1 ≤ length word.now }
    ensures { Skips (leaf (tag_no_case word.now)) s.now c result }
{
    let c = c?;
    let rest = &s[c.place..];
    for (a, b) in rest.iter().zip(word) {
        if !same_letter(*a, *b) {
            return Err(Failure::Refused);
        }
    }
    if rest.len() < word.len() {
        return Err(Failure::Unfinished { wanted: 0 });
    }
    Ok(c.moved(c.place + word.len()))
}

// A word, ASCII case ignored, and the mark that stands for it, with the number that docs/RULES.md gives the word: nom's `value`.
pub fn value(s: &[u8], c: IResult, t: &mut [u32], word: &[u8], kind: u32, a: u32) -> IResult
    requires stands { Stands 0 s.now c }
    requires a_byte { 1 ≤ length word.now }
    ensures { Reads 0 (leaf (tag_no_case word.now) ⋯ mark kind a) s.now c result t.old t.new }
{
    let c = tag_no_case(s, c, word)?;
    table::mark(s, Ok(c), t, kind, a)
}

// ----- scans: a buffer and a place in it, no type for both, since a scan goes on from places that it makes; first, where a run ends -----

// Where a run of bytes of a class ends: before the first byte of another, once that is seen.
fn run_end<F: Fn(u8) -> bool>(s: &[u8], at: usize, is_in: F) -> Result<usize, Failure>
    requires room { Room s.now at }
    requires callable { F.IsAlwaysCallable is_in }
    ensures { (class : Class) → Tests (F.post is_in) (in_class class) → Ends (take_while class) s.now at result }
{
    match s[at..].iter().position(|b| !is_in(*b)) {
        Some(length) => Ok(at + length),
        None => Err(Failure::Unfinished { wanted: 0 }),
    }
}

// Spaces and tabs. This one and the next two say their class, so that no caller has to prove it of a closure.
fn space_end(s: &[u8], at: usize) -> Result<usize, Failure>
    requires { Room s.now at }
    ensures { Ends (take_while blanks) s.now at result }
{
    run_end(s, at, is_space)
}

// The bytes of an atom.
fn astring_end(s: &[u8], at: usize) -> Result<usize, Failure>
    requires { Room s.now at }
    ensures { Ends (take_while astring_chars) s.now at result }
{
    run_end(s, at, is_astring_char)
}

// Text.
fn text_end(s: &[u8], at: usize) -> Result<usize, Failure>
    requires { Room s.now at }
    ensures { Ends (take_while text_chars) s.now at result }
{
    run_end(s, at, is_text_char)
}

// Spaces and tabs, or none.
pub fn space0(s: &[u8], c: IResult) -> IResult
    requires { Stands 0 s.now c }
    ensures { Skips space0 s.now c result }
{
    let c = c?;
    let next = space_end(s, c.place)?;
    Ok(c.moved(next))
}

// Spaces and tabs, one or more.
pub fn space1(s: &[u8], c: IResult) -> IResult
    requires { Stands 0 s.now c }
    ensures { Skips space1 s.now c result }
{
    let c = c?;
    let next = space_end(s, c.place)?;
    if next == c.place {
        return Err(Failure::Refused);
    }
    Ok(c.moved(next))
}

// At most one space. It makes no node and is lent no table, so `table::opt` does not fit.
pub fn opt_space(s: &[u8], c: IResult) -> IResult
    requires { Stands 0 s.now c }
    ensures { Skips (skip_opt sp) s.now c result }
{
    let r = char(s, c, b' ');
    let Err(Failure::Refused) = r else {
        return r;
    };
    c
}

// ----- number -----

// The rest of a number that is too large: it is wrong once its end is seen.
fn too_large(s: &[u8], at: usize) -> Failure
    requires { Room s.now at }
    ensures { Overruns s.now at result }
{
    for b in &s[at..] {
        if !is_digit(*b) {
            return Failure::Refused;
        }
    }
    Failure::Unfinished { wanted: 0 }
}

// A value with one more digit, unless that is too large.
fn with_digit(value: u64, digit: u64, largest: u64) -> Option<u64>
    ensures { result ≡ value_of largest (value * 10 + digit) }
{
    // Nearly every digit: one test, where the rest makes three.
    if value < largest / 10 && digit < 10 {
        return Some(value * 10 + digit);
    }
    let value = value.checked_mul(10)?.checked_add(digit)?;
    if largest < value { None } else { Some(value) }
}

// number = 1*DIGIT: where the digits end and their value; one that is too large is wrong once its end is seen.
fn digits<const LARGEST: u64>(s: &[u8], at: usize) -> Result<(usize, u64), Failure>
    requires room { Room s.now at }
    requires a_digit { 9 ≤ LARGEST }
    ensures { Counts LARGEST s.now at result }
{
    if s.len() <= at {
        return Err(Failure::Unfinished { wanted: 0 });
    }
    if !is_digit(s[at]) {
        return Err(Failure::Refused);
    }
    let mut value = (s[at] - b'0') as u64;
    for i in at + 1..s.len() {
        if !is_digit(s[i]) {
            return Ok((i, value));
        }
        let Some(more) = with_digit(value, (s[i] - b'0') as u64, LARGEST) else {
            return Err(too_large(s, i + 1));
        };
        value = more;
    }
    let may_go_on = Failure::Unfinished { wanted: 0 };
    Err(may_go_on)
}

// The digits of an unsigned 32-bit integer.
pub fn digits_32(s: &[u8], at: usize) -> Result<(usize, u32), Failure>
    requires { Room s.now at }
    ensures { Counts largest_32 s.now at result }
{
    let (next, value) = digits::<4294967295>(s, at)?;
    Ok((next, value as u32))
}

// number = 1*DIGIT ; Unsigned 32-bit integer
#[inline(always)]
pub fn number(s: &[u8], c: IResult, t: &mut [u32]) -> IResult
    requires { Stands 0 s.now c }
    ensures { Reads 0 number s.now c result t.old t.new }
{
    let c = c?;
    let (next, value) = digits_32(s, c.place)?;
    Ok(table::leaf(t, c, grammar::KIND_NUMBER, value, 0, next))
}

// SP number
#[inline(always)]
pub fn sp_number(s: &[u8], c: IResult, t: &mut [u32]) -> IResult
    requires { Stands 0 s.now c }
    ensures { Reads 0 (sp ⋯ number) s.now c result t.old t.new }
{
    let c = char(s, c, b' ')?;
    number(s, Ok(c), t)
}

// same as `number` but 64-bit
pub fn number_64(s: &[u8], c: IResult, t: &mut [u32]) -> IResult
    requires { Stands 0 s.now c }
    ensures { Reads 0 number_64 s.now c result t.old t.new }
{
    let c = c?;
    let (next, value) = digits::<18446744073709551615>(s, c.place)?;
    let low = (value % 4294967296) as u32;
    let high = (value / 4294967296) as u32;
    Ok(table::leaf(t, c, grammar::KIND_NUMBER, low, high, next))
}

// ----- string -----

// The end of a quoted string that opens at a place: runs of text, and between two of them an escape. By `run_end`, with a class for what
// is neither quote nor backslash, an envelope costs 6 % more instructions.
fn quoted_end(s: &[u8], at: usize) -> Result<usize, Failure>
    requires room { Room s.now at }
    requires opened { Opened s.now at }
    ensures { Ends quotes s.now at result }
{
    let mut i = at + 1;
    'scan: loop {
        loop {
            if s.len() <= i {
                return Err(Failure::Unfinished { wanted: 0 });
            }
            let b = s[i];
            if b == b'"' {
                break 'scan;
            }
            if b == b'\\' {
                break;
            }
            if is_text_char(b) {
                i += 1;
            } else {
                break 'scan;
            }
        }
        let j = i + 1;
        if s.len() <= j {
            return Err(Failure::Unfinished { wanted: 0 });
        }
        if is_quoted_specials(s[j]) {
            i += 2;
        } else {
            break 'scan;
        }
    }
    if s[i] == b'"' {
        Ok(i + 1)
    } else {
        Err(Failure::Refused)
    }
}

// quoted = DQUOTE *QUOTED-CHAR DQUOTE, where the opening quote was seen. Out of line and from a cursor: as two numbers it needs no memory on
// its way, and most strings are read here.
#[inline(never)]
fn quoted_from(s: &[u8], c: Cursor, t: &mut [u32]) -> IResult
    requires stands { Stands 0 s.now (Ok c) }
    requires opened { Opened s.now c.place }
    ensures { Reads 0 quoted s.now (Ok c) result t.old t.new }
{
    let next = quoted_end(s, c.place)?;
    let start = (c.place + 1) as u32;
    let end = (next - 1) as u32;
    Ok(table::leaf(t, c, grammar::KIND_BYTES, start, end, next))
}

// quoted = DQUOTE *QUOTED-CHAR DQUOTE
pub fn quoted(s: &[u8], c: IResult, t: &mut [u32]) -> IResult
    requires { Stands 0 s.now c }
    ensures { Reads 0 quoted s.now c result t.old t.new }
{
    let c = c?;
    if s.len() <= c.place {
        return Err(Failure::Unfinished { wanted: 0 });
    }
    if s[c.place] != b'"' {
        return Err(Failure::Refused);
    }
    quoted_from(s, c, t)
}

// CRLF, behind a literal's count: where the content begins, and the count.
fn line_end(s: &[u8], at: usize, count: u32) -> Result<(usize, u32), Failure>
    requires { Room s.now at }
    ensures { Headers 3 count s.now at result }
{
    if s.len() <= at {
        return Err(Failure::Unfinished { wanted: 0 });
    }
    if s[at] != b'\r' {
        return Err(Failure::Refused);
    }
    let lf = at + 1;
    if s.len() <= lf {
        return Err(Failure::Unfinished { wanted: 0 });
    }
    if s[lf] != b'\n' {
        return Err(Failure::Refused);
    }
    Ok((lf + 1, count))
}

// "{" number "}" CRLF
pub fn literal_header(s: &[u8], at: usize) -> Result<(usize, u32), Failure>
    requires { Room s.now at }
    ensures { Headers 0 0 s.now at result }
{
    if s.len() <= at {
        return Err(Failure::Unfinished { wanted: 0 });
    }
    if s[at] != b'{' {
        return Err(Failure::Refused);
    }
    let (next, count) = digits_32(s, at + 1)?;
    if s[next] != b'}' {
        return Err(Failure::Refused);
    }
    line_end(s, next + 1, count)
}

// literal = "{" number "}" CRLF *CHAR8 ; Number represents the number of CHAR8s. Out of line: within `string` it makes every string dearer.
#[inline(never)]
pub fn literal(s: &[u8], c: IResult, t: &mut [u32]) -> IResult
    requires { Stands 0 s.now c }
    ensures { Reads 0 literal s.now c result t.old t.new }
{
    let c = c?;
    let (start, count) = literal_header(s, c.place)?;
    let end = start + count as usize;
    if s.len() < end {
        return Err(Failure::Unfinished {
            wanted: end - s.len(),
        });
    }
    Ok(table::leaf(t, c, grammar::KIND_BYTES, start as u32, end as u32, end))
}

// string = quoted / literal, by the first byte
#[inline(always)]
pub fn string(s: &[u8], c: IResult, t: &mut [u32]) -> IResult
    requires { Stands 0 s.now c }
    ensures { Reads 0 string s.now c result t.old t.new }
{
    let c = c?;
    if s.len() <= c.place {
        return Err(Failure::Unfinished { wanted: 0 });
    }
    if s[c.place] == b'"' {
        return quoted_from(s, c, t);
    }
    literal(s, Ok(c), t)
}

// SP string
#[inline(always)]
pub fn sp_string(s: &[u8], c: IResult, t: &mut [u32]) -> IResult
    requires { Stands 0 s.now c }
    ensures { Reads 0 (sp ⋯ string) s.now c result t.old t.new }
{
    let c = char(s, c, b' ')?;
    string(s, Ok(c), t)
}

// ----- astring -----

// 1*ASTRING-CHAR
fn astring_chars(s: &[u8], c: IResult, t: &mut [u32]) -> IResult
    requires { Stands 0 s.now c }
    ensures { Reads 0 (does (node kind_bytes) (leaf (take_while1 astring_chars))) s.now c result t.old t.new }
{
    let c = c?;
    let next = astring_end(s, c.place)?;
    if next == c.place {
        return Err(Failure::Refused);
    }
    Ok(table::leaf(t, c, grammar::KIND_BYTES, c.place as u32, next as u32, next))
}

// astring = 1*ASTRING-CHAR / string
pub fn astring(s: &[u8], c: IResult, t: &mut [u32]) -> IResult
    requires { Stands 0 s.now c }
    ensures { Reads 0 astring s.now c result t.old t.new }
{
    let r = astring_chars(s, c, t);
    let Err(Failure::Refused) = r else {
        return r;
    };
    string(s, c, t)
}

// ----- nstring -----

// nil = "NIL"; the word is lent no table, so `table::parent` does not fit
pub fn nil(s: &[u8], c: IResult, t: &mut [u32]) -> IResult
    requires { Stands 0 s.now c }
    ensures { Reads 0 nil s.now c result t.old t.new }
{
    let c = c?;
    let r = tag_no_case(s, Ok(c.start()), b"NIL");
    table::finish(t, grammar::KIND_NIL, c, r)
}

// What `read` reads, which opens with "(", or NIL: by the first byte.
pub fn nil_or<F: Fn(&[u8], IResult, &mut [u32]) -> IResult>(
    s: &[u8],
    c: IResult,
    t: &mut [u32],
    read: F,
) -> IResult
    requires stands { Stands 0 s.now c }
    requires callable { Callable F.Fn read }
    ensures { OrNil F.Fn read s.now c result t.old t.new }
{
    let c = c?;
    if s.len() <= c.place {
        return Err(Failure::Unfinished { wanted: 0 });
    }
    if s[c.place] == b'(' {
        return read(s, Ok(c), t);
    }
    nil(s, Ok(c), t)
}

// nstring = string / nil, by the first byte
#[inline(always)]
pub fn nstring(s: &[u8], c: IResult, t: &mut [u32]) -> IResult
    requires { Stands 0 s.now c }
    ensures { Reads 0 nstring s.now c result t.old t.new }
{
    let c = c?;
    nstring_from(s, c, t)
}

// The same from a cursor, as `quoted_from`.
#[inline(never)]
fn nstring_from(s: &[u8], c: Cursor, t: &mut [u32]) -> IResult
    requires { Stands 0 s.now (Ok c) }
    ensures { Reads 0 nstring s.now (Ok c) result t.old t.new }
{
    if s.len() <= c.place {
        return Err(Failure::Unfinished { wanted: 0 });
    }
    match s[c.place] {
        b'"' => quoted_from(s, c, t),
        b'{' => literal(s, Ok(c), t),
        _ => nil(s, Ok(c), t),
    }
}

// SP nstring
#[inline(always)]
pub fn sp_nstring(s: &[u8], c: IResult, t: &mut [u32]) -> IResult
    requires { Stands 0 s.now c }
    ensures { Reads 0 (sp ⋯ nstring) s.now c result t.old t.new }
{
    let c = char(s, c, b' ')?;
    nstring(s, Ok(c), t)
}

// ----- text -----

// text = *TEXT-CHAR
pub fn text(s: &[u8], c: IResult, t: &mut [u32]) -> IResult
    requires { Stands 1 s.now c }
    ensures { Reads 0 text s.now c result t.old t.new }
{
    let c = c?;
    let next = text_end(s, c.place)?;
    Ok(table::leaf(t, c, grammar::KIND_BYTES, c.place as u32, next as u32, next))
}
