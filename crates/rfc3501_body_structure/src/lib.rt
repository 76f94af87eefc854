//! Bodies: imap-proto 0.17.0's src/rfc3501/body_structure.rs, `BodyStructure`. `left` is how many levels may still be opened: a body
//! calls its message and multipart readers, which call the body reader one level deeper. What takes `left` is passed on by a closure
//! of one call with clauses; a link that would need one (`sp_body`) is two lines in its place.

#![tactic(auto)]

ghost use Rattle.std.specs.Prelude.{Ok};
ghost use Rattle.grammar.specs.Notation.{◌⋯◌, ◌or◌, any_case, sp, many1, paren_delimited};
ghost use Rattle.grammar.specs.Grammar.{ref, a_body};
ghost use Rattle.grammar.specs.Core.{number, string};
ghost use Rattle.grammar.specs.BodyStructure.{body_fields, body_ext_1part, body_ext_mpart, body_type_text, message_fields, body_type_message, body_type_basic, body_type_multipart, msg_att_body_structure};
ghost use Rattle.table.specs.Promise.{Stands, Reads, Skips};

use table::{Cursor, Failure, IResult};

// SP body-fields
#[inline(always)]
fn sp_body_fields(s: &[u8], c: IResult, t: &mut [u32]) -> IResult
    requires { Stands 0 s.now c }
    ensures { Reads 0 (sp ⋯ body_fields) s.now c result t.old t.new }
{
    let c = parser_core::char(s, c, b' ')?;
    rfc3501_body_fields::body_fields(s, Ok(c), t)
}

// media-text SP body-fields SP body-fld-lines [SP body-ext-1part]
#[inline(always)]
fn text_fields(s: &[u8], c: IResult, t: &mut [u32], left: usize) -> IResult
    requires { Stands 0 s.now c }
    ensures { Reads left (any_case "\"TEXT\"" ⋯ sp ⋯ string ⋯ sp ⋯ body_fields ⋯ sp ⋯ number ⋯ body_ext_1part) s.now c result t.old t.new }
{
    let c = parser_core::tag_no_case(s, c, b"\"TEXT\"")?;
    let c = parser_core::sp_string(s, Ok(c), t)?;
    let c = sp_body_fields(s, Ok(c), t)?;
    let c = parser_core::sp_number(s, Ok(c), t)?;
    rfc3501_extension::body_ext_1part(s, Ok(c), t, left)
}

// body-type-text
#[inline(always)]
fn body_type_text(s: &[u8], c: Cursor, t: &mut [u32], left: usize) -> IResult
    requires { Stands 0 s.now (Ok c) }
    ensures { Reads left body_type_text s.now (Ok c) result t.old t.new }
{
    table::parent(
        s,
        Ok(c),
        t,
        grammar::KIND_TEXT,
        |s: &[u8], c: IResult, t: &mut [u32]| -> IResult
            requires { Stands 0 s.now c }
            ensures { Reads left (any_case "\"TEXT\"" ⋯ sp ⋯ string ⋯ sp ⋯ body_fields ⋯ sp ⋯ number ⋯ body_ext_1part) s.now c result t.old t.new }
        { text_fields(s, c, t, left) },
    )
}

// media-basic SP body-fields [SP body-ext-1part]
#[inline(always)]
fn basic_fields(s: &[u8], c: IResult, t: &mut [u32], left: usize) -> IResult
    requires { Stands 0 s.now c }
    ensures { Reads left (string ⋯ sp ⋯ string ⋯ sp ⋯ body_fields ⋯ body_ext_1part) s.now c result t.old t.new }
{
    let c = parser_core::string(s, c, t)?;
    let c = parser_core::sp_string(s, Ok(c), t)?;
    let c = sp_body_fields(s, Ok(c), t)?;
    rfc3501_extension::body_ext_1part(s, Ok(c), t, left)
}

// body-type-basic
#[inline(always)]
fn body_type_basic(s: &[u8], c: Cursor, t: &mut [u32], left: usize) -> IResult
    requires { Stands 0 s.now (Ok c) }
    ensures { Reads left body_type_basic s.now (Ok c) result t.old t.new }
{
    table::parent(
        s,
        Ok(c),
        t,
        grammar::KIND_BASIC,
        |s: &[u8], c: IResult, t: &mut [u32]| -> IResult
            requires { Stands 0 s.now c }
            ensures { Reads left (string ⋯ sp ⋯ string ⋯ sp ⋯ body_fields ⋯ body_ext_1part) s.now c result t.old t.new }
        { basic_fields(s, c, t, left) },
    )
}

// media-message SP body-fields SP envelope
#[inline(always)]
fn message_fields(s: &[u8], c: IResult, t: &mut [u32]) -> IResult
    requires { Stands 0 s.now c }
    ensures { Reads 0 message_fields s.now c result t.old t.new }
{
    let c = parser_core::tag_no_case(s, c, b"\"MESSAGE\" \"RFC822\"")?;
    let c = sp_body_fields(s, Ok(c), t)?;
    let c = parser_core::char(s, Ok(c), b' ')?;
    rfc3501_envelope::envelope(s, Ok(c), t)
}

// ----- the circle: a body holds messages and multiparts, which hold bodies; `body` begins with its guard, or a failure would walk the levels.
// Callers' stacks are short: one frame a level. So the two structures in the circle are made by hand, and what is read of a body stands in line
// up to its strings, its fields, its envelope and the end of its tail, which do not (docs/WORK.md) -----

// Where no level is left: a `(` is too deep, another byte fails.
fn too_deep(s: &[u8], c: IResult) -> IResult
    requires { Stands 0 s.now c }
    ensures { Skips (ref a_body) s.now c result }
{
    parser_core::char(s, c, b'(')?;
    Err(Failure::TooDeep)
}

// body, one level deeper, where so many may still be opened
#[cycle(body_circle)]
pub fn body(s: &[u8], c: IResult, t: &mut [u32], left: usize) -> IResult
    requires { Stands 0 s.now c }
    ensures { Reads left (ref a_body) s.now c result t.old t.new }
{
    let c = c?;
    if left == 0 {
        return too_deep(s, Ok(c));
    }
    let r = body_inside(s, Ok(c), t, left - 1);
    table::head(t, c, r)
}

// "(" (body-type-1part / body-type-mpart) ")"; a wrong ")" does not try the next
#[cycle(body_circle)]
fn body_inside(s: &[u8], c: IResult, t: &mut [u32], left: usize) -> IResult
    requires { Stands 0 s.now c }
    ensures { Reads left (paren_delimited (body_type_text or body_type_message or body_type_basic or body_type_multipart)) s.now c result t.old t.new }
{
    let c = parser_core::char(s, c, b'(')?;
    let r = body_types(s, c, t, left);
    parser_core::char(s, r, b')')
}

// A multipart begins with its first body, and so with this; no other body does. The first byte decides, or each level would try all four.
const BODY_OPENS: u8 = b'(';

// text, message, basic, multipart, in that order
#[cycle(body_circle)]
fn body_types(s: &[u8], c: Cursor, t: &mut [u32], left: usize) -> IResult
    requires { Stands 0 s.now (Ok c) }
    ensures { Reads left (body_type_text or body_type_message or body_type_basic or body_type_multipart) s.now (Ok c) result t.old t.new }
{
    if s.len() <= c.place {
        return Err(Failure::Unfinished { wanted: 0 });
    }
    if s[c.place] == BODY_OPENS {
        return body_type_multipart(s, c, t, left);
    }
    let r = body_type_text(s, c, t, left);
    let Err(Failure::Refused) = r else {
        return r;
    };
    let r = body_type_message(s, c, t, left);
    let Err(Failure::Refused) = r else {
        return r;
    };
    body_type_basic(s, c, t, left)
}

// body-type-msg
#[cycle(body_circle)]
fn body_type_message(s: &[u8], c: Cursor, t: &mut [u32], left: usize) -> IResult
    requires { Stands 0 s.now (Ok c) }
    ensures { Reads left body_type_message s.now (Ok c) result t.old t.new }
{
    let k = table::inside(t.len(), c);
    let r = message_body(s, Ok(c.start()), &mut t[k..], left);
    table::finish(t, grammar::KIND_MESSAGE, c, r)
}

// message-fields SP body SP body-fld-lines [SP body-ext-1part]
#[cycle(body_circle)]
#[inline(always)]
fn message_body(s: &[u8], c: IResult, t: &mut [u32], left: usize) -> IResult
    requires { Stands 0 s.now c }
    ensures { Reads left (message_fields ⋯ sp ⋯ ref a_body ⋯ sp ⋯ number ⋯ body_ext_1part) s.now c result t.old t.new }
{
    let c = message_fields(s, c, t)?;
    let c = sp_body(s, Ok(c), t, left)?;
    let c = parser_core::sp_number(s, Ok(c), t)?;
    rfc3501_extension::body_ext_1part(s, Ok(c), t, left)
}

// SP body
#[cycle(body_circle)]
#[inline(always)]
fn sp_body(s: &[u8], c: IResult, t: &mut [u32], left: usize) -> IResult
    requires { Stands 0 s.now c }
    ensures { Reads left (sp ⋯ ref a_body) s.now c result t.old t.new }
{
    let c = parser_core::char(s, c, b' ')?;
    body(s, Ok(c), t, left)
}

// body-type-mpart
#[cycle(body_circle)]
fn body_type_multipart(s: &[u8], c: Cursor, t: &mut [u32], left: usize) -> IResult
    requires { Stands 0 s.now (Ok c) }
    ensures { Reads left body_type_multipart s.now (Ok c) result t.old t.new }
{
    let k = table::inside(t.len(), c);
    let r = multipart_fields(s, Ok(c.start()), &mut t[k..], left);
    table::finish(t, grammar::KIND_MULTIPART, c, r)
}

// 1*body SP media-subtype [SP body-ext-mpart]
#[cycle(body_circle)]
#[inline(always)]
fn multipart_fields(s: &[u8], c: IResult, t: &mut [u32], left: usize) -> IResult
    requires { Stands 0 s.now c }
    ensures { Reads left (many1 (ref a_body) ⋯ sp ⋯ string ⋯ body_ext_mpart) s.now c result t.old t.new }
{
    let c = bodies(s, c, t, left)?;
    let r = parser_core::sp_string(s, Ok(c), t);
    rfc3501_extension::body_ext_mpart(s, r, t, left)
}

// 1*body
#[cycle(body_circle)]
fn bodies(s: &[u8], c: IResult, t: &mut [u32], left: usize) -> IResult
    requires { Stands 0 s.now c }
    ensures { Reads left (many1 (ref a_body)) s.now c result t.old t.new }
{
    let item = |s: &[u8], c: IResult, t: &mut [u32]| -> IResult
        requires { Stands 0 s.now c }
        ensures { Reads left (ref a_body) s.now c result t.old t.new }
    { body(s, c, t, left) };
    table::items(s, c, t, item, item)
}

// msg-att-static: "BODYSTRUCTURE" SP body
pub fn msg_att_body_structure(s: &[u8], c: IResult, t: &mut [u32], left: usize) -> IResult
    requires { Stands 0 s.now c }
    ensures { Reads left msg_att_body_structure s.now c result t.old t.new }
{
    let r = parser_core::tag_no_case(s, c, b"BODYSTRUCTURE ");
    body(s, r, t, left)
}
