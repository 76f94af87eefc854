//! Uid sets and the response codes of UIDPLUS: imap-proto 0.17.0's src/rfc4315.rs.

#![tactic(auto)]

ghost use Rattle.std.specs.Prelude.{◌≤◌, length};
ghost use Rattle.grammar.specs.Scan.{tag_no_case};
ghost use Rattle.grammar.specs.Grammar.{leaf};
ghost use Rattle.grammar.specs.Notation.{◌⋯◌, exact, any_case, sp};
ghost use Rattle.grammar.specs.Core.{number};
ghost use Rattle.grammar.specs.Rfc4315.{uid_set_member, uid_set, resp_text_code_append_uid, resp_text_code_copy_uid, resp_text_code_uid_not_sticky};
ghost use Rattle.table.specs.Promise.{Stands, Reads};

use table::IResult;

// uniqueid / uid-range: 2:4 and 4:2 are equivalent, the smaller number comes first
fn uid_set_member(s: &[u8], c: IResult, t: &mut [u32]) -> IResult
    requires { Stands 0 s.now c }
    ensures { Reads 0 uid_set_member s.now c result t.old t.new }
{
    let c = c?;
    let (next, first, last) = lists::number_range(s, c.place)?;
    let Some(last) = last else {
        return Ok(table::leaf(t, c, grammar::KIND_UID, first, first, next));
    };
    let smaller = first.min(last);
    let larger = first.max(last);
    Ok(table::leaf(t, c, grammar::KIND_RANGE, smaller, larger, next))
}

// uid-set = (uniqueid / uid-range) *("," uid-set)
pub fn uid_set(s: &[u8], c: IResult, t: &mut [u32]) -> IResult
    requires { Stands 0 s.now c }
    ensures { Reads 0 uid_set s.now c result t.old t.new }
{
    parser_core::separated(s, c, t, b',', uid_set_member)
}

// A code's name, nz-number SP uid-set
fn named_uids(s: &[u8], c: IResult, t: &mut [u32], name: &[u8]) -> IResult
    requires stands { Stands 0 s.now c }
    requires a_byte { 1 ≤ length name.now }
    ensures { Reads 0 (leaf (tag_no_case name.now) ⋯ number ⋯ sp ⋯ uid_set) s.now c result t.old t.new }
{
    let r = parser_core::tag_no_case(s, c, name);
    let r = parser_core::number(s, r, t);
    parser_core::after(s, r, t, b' ', uid_set)
}

// "APPENDUID" SP nz-number SP append-uid
fn append_uid_fields(s: &[u8], c: IResult, t: &mut [u32]) -> IResult
    requires { Stands 0 s.now c }
    ensures { Reads 0 (any_case "APPENDUID " ⋯ number ⋯ sp ⋯ uid_set) s.now c result t.old t.new }
{
    named_uids(s, c, t, b"APPENDUID ")
}

// resp-code-apnd = "APPENDUID" SP nz-number SP append-uid
pub fn resp_text_code_append_uid(s: &[u8], c: IResult, t: &mut [u32]) -> IResult
    requires { Stands 0 s.now c }
    ensures { Reads 0 resp_text_code_append_uid s.now c result t.old t.new }
{
    table::parent(s, c, t, grammar::KIND_APPENDUID, append_uid_fields)
}

// "COPYUID" SP nz-number SP uid-set SP uid-set
fn copy_uid_fields(s: &[u8], c: IResult, t: &mut [u32]) -> IResult
    requires { Stands 0 s.now c }
    ensures { Reads 0 (any_case "COPYUID " ⋯ number ⋯ sp ⋯ uid_set ⋯ sp ⋯ uid_set) s.now c result t.old t.new }
{
    let r = named_uids(s, c, t, b"COPYUID ");
    parser_core::after(s, r, t, b' ', uid_set)
}

// resp-code-copy = "COPYUID" SP nz-number SP uid-set SP uid-set
pub fn resp_text_code_copy_uid(s: &[u8], c: IResult, t: &mut [u32]) -> IResult
    requires { Stands 0 s.now c }
    ensures { Reads 0 resp_text_code_copy_uid s.now c result t.old t.new }
{
    table::parent(s, c, t, grammar::KIND_COPYUID, copy_uid_fields)
}

// resp-text-code =/ "UIDNOTSTICKY"; what it reads is lent no table, so `table::parent` does not fit
pub fn resp_text_code_uid_not_sticky(s: &[u8], c: IResult, t: &mut [u32]) -> IResult
    requires { Stands 0 s.now c }
    ensures { Reads 0 resp_text_code_uid_not_sticky s.now c result t.old t.new }
{
    let c = c?;
    let r = parser_core::tag_no_case(s, Ok(c.start()), b"UIDNOTSTICKY");
    table::finish(t, grammar::KIND_UIDNOTSTICKY, c, r)
}
