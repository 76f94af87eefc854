//! The VANISHED response: imap-proto 0.17.0's src/rfc7162.rs.

#![tactic(auto)]

ghost use Rattle.grammar.specs.Notation.{◌⋯◌, any_case, space1};
ghost use Rattle.grammar.specs.Core.{sequence_set};
ghost use Rattle.grammar.specs.Rfc7162.{vanished_earlier, vanished, resp_vanished};
ghost use Rattle.table.specs.Promise.{Stands, Reads};

use table::{Failure, IResult};

// "VANISHED" SP "(EARLIER)" SP known-uids
fn vanished_earlier_fields(s: &[u8], c: IResult, t: &mut [u32]) -> IResult
    requires { Stands 0 s.now c }
    ensures { Reads 0 (any_case "VANISHED" ⋯ space1 ⋯ any_case "(EARLIER)" ⋯ space1 ⋯ sequence_set) s.now c result t.old t.new }
{
    let r = parser_core::tag_no_case(s, c, b"VANISHED");
    let r = parser_core::space1(s, r);
    let r = parser_core::tag_no_case(s, r, b"(EARLIER)");
    let r = parser_core::space1(s, r);
    lists::sequence_set(s, r, t)
}

fn vanished_earlier(s: &[u8], c: IResult, t: &mut [u32]) -> IResult
    requires { Stands 0 s.now c }
    ensures { Reads 0 vanished_earlier s.now c result t.old t.new }
{
    table::parent(
        s,
        c,
        t,
        grammar::KIND_VANISHED_EARLIER,
        vanished_earlier_fields,
    )
}

// "VANISHED" SP known-uids
fn vanished_fields(s: &[u8], c: IResult, t: &mut [u32]) -> IResult
    requires { Stands 0 s.now c }
    ensures { Reads 0 (any_case "VANISHED" ⋯ space1 ⋯ sequence_set) s.now c result t.old t.new }
{
    let r = parser_core::tag_no_case(s, c, b"VANISHED");
    let r = parser_core::space1(s, r);
    lists::sequence_set(s, r, t)
}

fn vanished(s: &[u8], c: IResult, t: &mut [u32]) -> IResult
    requires { Stands 0 s.now c }
    ensures { Reads 0 vanished s.now c result t.old t.new }
{
    table::parent(s, c, t, grammar::KIND_VANISHED, vanished_fields)
}

// expunged-resp = "VANISHED" [SP "(EARLIER)"] SP known-uids; what has no "(EARLIER)" is refused before its set is read
pub fn resp_vanished(s: &[u8], c: IResult, t: &mut [u32]) -> IResult
    requires { Stands 0 s.now c }
    ensures { Reads 0 resp_vanished s.now c result t.old t.new }
{
    let r = vanished_earlier(s, c, t);
    let Err(Failure::Refused) = r else {
        return r;
    };
    vanished(s, c, t)
}
