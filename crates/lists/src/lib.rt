//! Sets and lists: the rest of imap-proto 0.17.0's src/core.rs.

#![tactic(auto)]

ghost use Rattle.std.specs.Prelude.{ℕ};
ghost use Rattle.grammar.specs.Grammar.{G};
ghost use Rattle.grammar.specs.Notation.{sp, separated_list1, parenthesized_list};
ghost use Rattle.grammar.specs.Core.{astring, sequence_set, sequence_member};
ghost use Rattle.table.specs.Promise.{Room, Stands, Reads};
ghost use Rattle.parser_core.specs.Separated.{ItemBy};
ghost use Rattle.lists.specs.Ranges.{Ranges};
ghost use Rattle.lists.specs.Parenthesized.{Parenthesized};

use table::{Failure, IResult};

// ----- sets -----

// What stands between the two numbers of a range.
const COLON: u8 = b':';

// A number, and the one behind a colon, if there is one; and the place behind them.
pub fn number_range(s: &[u8], at: usize) -> Result<(usize, u32, Option<u32>), Failure>
    requires { Room s.now at }
    ensures { Ranges s.now at result }
{
    let (next, first) = parser_core::digits_32(s, at)?;
    if s[next] != COLON {
        return Ok((next, first, None));
    }
    match parser_core::digits_32(s, next + 1) {
        Ok((end, last)) => Ok((end, first, Some(last))),
        Err(Failure::Refused) => Ok((next, first, None)),
        Err(failure) => Err(failure),
    }
}

// seq-number / seq-range: a range, kept as written
fn sequence_member(s: &[u8], c: IResult, t: &mut [u32]) -> IResult
    requires { Stands 0 s.now c }
    ensures { Reads 0 sequence_member s.now c result t.old t.new }
{
    let c = c?;
    let (next, first, last) = number_range(s, c.place)?;
    let last = last.unwrap_or(first);
    Ok(table::leaf(t, c, grammar::KIND_RANGE, first, last, next))
}

// sequence-set = (seq-number / seq-range) *("," sequence-set)
pub fn sequence_set(s: &[u8], c: IResult, t: &mut [u32]) -> IResult
    requires { Stands 0 s.now c }
    ensures { Reads 0 sequence_set s.now c result t.old t.new }
{
    parser_core::separated(s, c, t, b',', sequence_member)
}

// ----- lists -----

// astring *(SP astring)
fn astrings(s: &[u8], c: IResult, t: &mut [u32]) -> IResult
    requires { Stands 0 s.now c }
    ensures { Reads 0 (separated_list1 sp astring) s.now c result t.old t.new }
{
    parser_core::separated(s, c, t, b' ', parser_core::astring)
}

// parenthesized_list of astrings: at most one space before ")", and it may be empty
pub fn parenthesized_astrings(s: &[u8], c: IResult, t: &mut [u32]) -> IResult
    requires { Stands 0 s.now c }
    ensures { Reads 0 (parenthesized_list astring) s.now c result t.old t.new }
{
    let r = parser_core::char(s, c, b'(');
    let r = table::opt(s, r, t, grammar::KIND_LIST, 0, astrings);
    let r = parser_core::opt_space(s, r);
    parser_core::char(s, r, b')')
}

// parenthesized_nonempty_list: any run of blanks before ")"
pub fn parenthesized_nonempty_list<F: Fn(&[u8], IResult, &mut [u32]) -> IResult + Copy>(
    s: &[u8],
    c: IResult,
    t: &mut [u32],
    item: F,
) -> IResult
    requires stands { Stands 0 s.now c }
    requires items { (depth : ℕ) × (g : G) × ItemBy F.Fn depth g item }
    ensures { Parenthesized F.Fn item s.now c result t.old t.new }
{
    let r = parser_core::char(s, c, b'(');
    let r = parser_core::separated(s, r, t, b' ', item);
    let r = parser_core::space0(s, r);
    parser_core::char(s, r, b')')
}
