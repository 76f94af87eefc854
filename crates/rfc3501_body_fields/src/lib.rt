//! The fields of body structures that hold no body: the first half of imap-proto 0.17.0's src/rfc3501/body_structure.rs.

#![tactic(auto)]

ghost use Rattle.std.specs.Prelude.{◌≤◌, length, Ok};
ghost use Rattle.grammar.specs.Kinds.{kind_pair, kind_disposition, kind_encoding};
ghost use Rattle.grammar.specs.Scan.{tag_no_case};
ghost use Rattle.grammar.specs.Grammar.{leaf, mark, does, node, listed};
ghost use Rattle.grammar.specs.Notation.{◌⋯◌, ◌or◌, sp, opening, closing, separated_list1, parenthesized_nonempty_list};
ghost use Rattle.grammar.specs.Core.{string};
ghost use Rattle.grammar.specs.BodyStructure.{body_param, body_disposition, body_lang, encoding_is, known_encoding, body_encoding, body_fields, absents};
ghost use Rattle.table.specs.Promise.{Stands, Reads};

use table::{Cursor, Failure, IResult};

// string SP string
fn param_fields(s: &[u8], c: IResult, t: &mut [u32]) -> IResult
    requires { Stands 0 s.now c }
    ensures { Reads 0 (string ⋯ sp ⋯ string) s.now c result t.old t.new }
{
    let c = parser_core::string(s, c, t)?;
    parser_core::sp_string(s, Ok(c), t)
}

// One parameter: a pair.
#[inline(always)]
fn param(s: &[u8], c: IResult, t: &mut [u32]) -> IResult
    requires { Stands 0 s.now c }
    ensures { Reads 0 (does (node kind_pair) (string ⋯ sp ⋯ string)) s.now c result t.old t.new }
{
    let c = c?;
    param_from(s, c, t)
}

// The same from a cursor, as `parser_core::quoted_from`.
#[inline(never)]
fn param_from(s: &[u8], c: Cursor, t: &mut [u32]) -> IResult
    requires { Stands 0 s.now (Ok c) }
    ensures { Reads 0 (does (node kind_pair) (string ⋯ sp ⋯ string)) s.now (Ok c) result t.old t.new }
{
    table::parent(s, Ok(c), t, grammar::KIND_PAIR, param_fields)
}

// "(" string SP string *(SP string SP string) ")"
fn some_params(s: &[u8], c: IResult, t: &mut [u32]) -> IResult
    requires { Stands 0 s.now c }
    ensures { Reads 0 (parenthesized_nonempty_list (does (node kind_pair) (string ⋯ sp ⋯ string))) s.now c result t.old t.new }
{
    lists::parenthesized_nonempty_list(s, c, t, param)
}

// body-fld-param = "(" string SP string *(SP string SP string) ")" / nil
#[inline(always)]
pub fn body_param(s: &[u8], c: IResult, t: &mut [u32]) -> IResult
    requires { Stands 0 s.now c }
    ensures { Reads 0 body_param s.now c result t.old t.new }
{
    let c = c?;
    body_param_from(s, c, t)
}

// The same from a cursor, as `parser_core::quoted_from`.
#[inline(never)]
fn body_param_from(s: &[u8], c: Cursor, t: &mut [u32]) -> IResult
    requires { Stands 0 s.now (Ok c) }
    ensures { Reads 0 body_param s.now (Ok c) result t.old t.new }
{
    parser_core::nil_or(s, Ok(c), t, some_params)
}

// "(" string SP body-fld-param ")"
fn disposition_fields(s: &[u8], c: IResult, t: &mut [u32]) -> IResult
    requires { Stands 0 s.now c }
    ensures { Reads 0 (opening ⋯ string ⋯ sp ⋯ body_param ⋯ closing) s.now c result t.old t.new }
{
    let c = parser_core::char(s, c, b'(')?;
    let r = parser_core::string(s, Ok(c), t);
    let r = parser_core::char(s, r, b' ');
    let r = body_param(s, r, t);
    parser_core::char(s, r, b')')
}

// The same as a node.
fn disposition(s: &[u8], c: IResult, t: &mut [u32]) -> IResult
    requires { Stands 0 s.now c }
    ensures { Reads 0 (does (node kind_disposition) (opening ⋯ string ⋯ sp ⋯ body_param ⋯ closing)) s.now c result t.old t.new }
{
    table::parent(s, c, t, grammar::KIND_DISPOSITION, disposition_fields)
}

// body-fld-dsp = "(" string SP body-fld-param ")" / nil
pub fn body_disposition(s: &[u8], c: IResult, t: &mut [u32]) -> IResult
    requires { Stands 0 s.now c }
    ensures { Reads 0 body_disposition s.now c result t.old t.new }
{
    parser_core::nil_or(s, c, t, disposition)
}

// One string, as a list of one: by hand, since table::items goes on to a next item, and here there is none.
fn one_string(s: &[u8], c: IResult, t: &mut [u32]) -> IResult
    requires { Stands 0 s.now c }
    ensures { Reads 0 (does listed string) s.now c result t.old t.new }
{
    let c = c?;
    let k = table::inside(t.len(), c);
    let inner = parser_core::string(s, Ok(c.start()), &mut t[k..])?;
    table::list(t, c, inner, 1, Err(Failure::Refused))
}

// body-fld-lang = nstring / "(" string *(SP string) ")"
pub fn body_lang(s: &[u8], c: IResult, t: &mut [u32]) -> IResult
    requires { Stands 0 s.now c }
    ensures { Reads 0 body_lang s.now c result t.old t.new }
{
    let r = parser_core::nil(s, c, t);
    let Err(Failure::Refused) = r else {
        return r;
    };
    let r = one_string(s, c, t);
    let Err(Failure::Refused) = r else {
        return r;
    };
    lists::parenthesized_nonempty_list(s, c, t, parser_core::string)
}

// "BINARY" / "BASE64" / "QUOTED-PRINTABLE"
fn long_encoding(s: &[u8], c: IResult, t: &mut [u32]) -> IResult
    requires { Stands 0 s.now c }
    ensures { Reads 0 (encoding_is "BINARY" 3 or encoding_is "BASE64" 4 or encoding_is "QUOTED-PRINTABLE" 5) s.now c result t.old t.new }
{
    let r = parser_core::value(s, c, t, b"BINARY", grammar::KIND_ENCODING, 3);
    let Err(Failure::Refused) = r else {
        return r;
    };
    let r = parser_core::value(s, c, t, b"BASE64", grammar::KIND_ENCODING, 4);
    let Err(Failure::Refused) = r else {
        return r;
    };
    parser_core::value(s, c, t, b"QUOTED-PRINTABLE", grammar::KIND_ENCODING, 5)
}

// "7BIT" / "8BIT" / "BINARY" / "BASE64" / "QUOTED-PRINTABLE"
fn encoding_name(s: &[u8], c: IResult, t: &mut [u32]) -> IResult
    requires { Stands 0 s.now c }
    ensures { Reads 0 (encoding_is "7BIT" 1 or encoding_is "8BIT" 2 or encoding_is "BINARY" 3 or encoding_is "BASE64" 4 or encoding_is "QUOTED-PRINTABLE" 5) s.now c result t.old t.new }
{
    let r = parser_core::value(s, c, t, b"7BIT", grammar::KIND_ENCODING, 1);
    let Err(Failure::Refused) = r else {
        return r;
    };
    let r = parser_core::value(s, c, t, b"8BIT", grammar::KIND_ENCODING, 2);
    let Err(Failure::Refused) = r else {
        return r;
    };
    long_encoding(s, c, t)
}

// DQUOTE ("7BIT" / "8BIT" / "BINARY" / "BASE64"/ "QUOTED-PRINTABLE") DQUOTE
fn known_encoding(s: &[u8], c: IResult, t: &mut [u32]) -> IResult
    requires { Stands 0 s.now c }
    ensures { Reads 0 known_encoding s.now c result t.old t.new }
{
    let c = parser_core::char(s, c, b'"')?;
    let r = encoding_name(s, Ok(c), t);
    parser_core::char(s, r, b'"')
}

// body-fld-enc = a known encoding / string
fn body_encoding(s: &[u8], c: IResult, t: &mut [u32]) -> IResult
    requires { Stands 0 s.now c }
    ensures { Reads 0 body_encoding s.now c result t.old t.new }
{
    let r = known_encoding(s, c, t);
    let Err(Failure::Refused) = r else {
        return r;
    };
    parser_core::string(s, c, t)
}

// body-fields = body-fld-param SP body-fld-id SP body-fld-desc SP body-fld-enc SP body-fld-octets
#[inline(always)]
pub fn body_fields(s: &[u8], c: IResult, t: &mut [u32]) -> IResult
    requires { Stands 0 s.now c }
    ensures { Reads 0 body_fields s.now c result t.old t.new }
{
    let c = c?;
    body_fields_from(s, c, t)
}

// The same from a cursor, as `parser_core::quoted_from`.
#[inline(never)]
fn body_fields_from(s: &[u8], c: Cursor, t: &mut [u32]) -> IResult
    requires { Stands 0 s.now (Ok c) }
    ensures { Reads 0 body_fields s.now (Ok c) result t.old t.new }
{
    let r = body_param(s, Ok(c), t);
    let r = parser_core::sp_nstring(s, r, t);
    let r = parser_core::sp_nstring(s, r, t);
    let r = parser_core::char(s, r, b' ');
    let r = body_encoding(s, r, t);
    let r = parser_core::char(s, r, b' ');
    parser_core::number(s, r, t)
}

// So many fields that are not there; in line, with N known.
#[inline(always)]
pub fn absents<const N: usize>(s: &[u8], c: IResult, t: &mut [u32]) -> IResult
    requires { Stands N s.now c }
    ensures { Reads 0 (absents N) s.now c result t.old t.new }
{
    let mut r = c;
    for _ in 0..N {
        r = table::mark(s, r, t, grammar::KIND_ABSENT, 0);
    }
    r
}
