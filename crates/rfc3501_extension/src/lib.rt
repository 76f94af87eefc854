//! Body extensions and the tails of bodies: imap-proto 0.17.0's src/rfc3501/body_structure.rs, `BodyExtension`, `BodyExt1Part`
//! and `BodyExtMPart`. `left` is how many levels may still be opened. What takes `left` is passed on by a closure with clauses, so where
//! that would be longer than the lines that it saves, the lines stand: links, optional fields, and a tail or its absents.

#![tactic(auto)]

ghost use Rattle.std.specs.Prelude.{Ok};
ghost use Rattle.grammar.specs.Notation.{◌⋯◌, sp};
ghost use Rattle.grammar.specs.Core.{nstring};
ghost use Rattle.grammar.specs.BodyStructure.{body_extension, extension_list, body_param, body_disposition, body_lang, body_ext_1part, body_ext_mpart};
ghost use Rattle.rfc3501_extension.specs.Tails.{from_extension, from_loc, from_lang, from_dsp};
ghost use Rattle.table.specs.Promise.{Stands, Reads};

use table::{Cursor, Failure, IResult};

// ----- extensions: a circle, each function of which begins with its guard, or a failure would walk the levels -----

// body-extension = number / nstring / "(" body-extension *(SP body-extension) ")", by the first byte
#[cycle(extension_circle)]
#[inline(always)]
fn extension(s: &[u8], c: IResult, t: &mut [u32], left: usize) -> IResult
    requires { Stands 0 s.now c }
    ensures { Reads left body_extension s.now c result t.old t.new }
{
    let c = c?;
    extension_from(s, c, t, left)
}

// The same from a cursor, as `parser_core::quoted_from`.
#[cycle(extension_circle)]
#[inline(never)]
fn extension_from(s: &[u8], c: Cursor, t: &mut [u32], left: usize) -> IResult
    requires { Stands 0 s.now (Ok c) }
    ensures { Reads left body_extension s.now (Ok c) result t.old t.new }
{
    if s.len() <= c.place {
        return Err(Failure::Unfinished { wanted: 0 });
    }
    let b = s[c.place];
    if parser_core::is_digit(b) {
        return parser_core::number(s, Ok(c), t);
    }
    if b == b'(' {
        if left == 0 {
            return Err(Failure::TooDeep);
        }
        return extension_list(s, Ok(c), t, left - 1);
    }
    parser_core::nstring(s, Ok(c), t)
}

// "(" body-extension *(SP body-extension) ")"
#[cycle(extension_circle)]
fn extension_list(s: &[u8], c: IResult, t: &mut [u32], left: usize) -> IResult
    requires { Stands 0 s.now c }
    ensures { Reads left extension_list s.now c result t.old t.new }
{
    lists::parenthesized_nonempty_list(
        s,
        c,
        t,
        |s: &[u8], c: IResult, t: &mut [u32]| -> IResult
            requires { Stands 0 s.now c }
            ensures { Reads left body_extension s.now c result t.old t.new }
        { extension(s, c, t, left) },
    )
}

// ----- tails: each field after a space, and only if the one before was read; a body's first field in line, what is behind it from a cursor -----

// SP body-extension
fn sp_extension(s: &[u8], c: IResult, t: &mut [u32], left: usize) -> IResult
    requires { Stands 0 s.now c }
    ensures { Reads left (sp ⋯ body_extension) s.now c result t.old t.new }
{
    let c = parser_core::char(s, c, b' ')?;
    extension(s, Ok(c), t, left)
}

// [SP body-extension]
fn from_extension(s: &[u8], c: IResult, t: &mut [u32], left: usize) -> IResult
    requires { Stands 1 s.now c }
    ensures { Reads left from_extension s.now c result t.old t.new }
{
    let r = sp_extension(s, c, t, left);
    let Err(Failure::Refused) = r else {
        return r;
    };
    table::mark(s, c, t, grammar::KIND_ABSENT, 0)
}

// SP body-fld-loc [SP body-extension]
fn loc_tail(s: &[u8], c: IResult, t: &mut [u32], left: usize) -> IResult
    requires { Stands 0 s.now c }
    ensures { Reads left (sp ⋯ nstring ⋯ from_extension) s.now c result t.old t.new }
{
    let c = parser_core::sp_nstring(s, c, t)?;
    from_extension(s, Ok(c), t, left)
}

// [SP body-fld-loc [SP body-extension]]
fn from_loc(s: &[u8], c: IResult, t: &mut [u32], left: usize) -> IResult
    requires { Stands 2 s.now c }
    ensures { Reads left from_loc s.now c result t.old t.new }
{
    let r = loc_tail(s, c, t, left);
    let Err(Failure::Refused) = r else {
        return r;
    };
    rfc3501_body_fields::absents::<2>(s, c, t)
}

// SP body-fld-lang ..
fn lang_tail(s: &[u8], c: IResult, t: &mut [u32], left: usize) -> IResult
    requires { Stands 0 s.now c }
    ensures { Reads left (sp ⋯ body_lang ⋯ from_loc) s.now c result t.old t.new }
{
    let c = parser_core::char(s, c, b' ')?;
    let r = rfc3501_body_fields::body_lang(s, Ok(c), t);
    from_loc(s, r, t, left)
}

// [SP body-fld-lang ..]
fn from_lang(s: &[u8], c: IResult, t: &mut [u32], left: usize) -> IResult
    requires { Stands 3 s.now c }
    ensures { Reads left from_lang s.now c result t.old t.new }
{
    let r = lang_tail(s, c, t, left);
    let Err(Failure::Refused) = r else {
        return r;
    };
    rfc3501_body_fields::absents::<3>(s, c, t)
}

// SP body-fld-dsp ..
fn dsp_tail(s: &[u8], c: IResult, t: &mut [u32], left: usize) -> IResult
    requires { Stands 0 s.now c }
    ensures { Reads left (sp ⋯ body_disposition ⋯ from_lang) s.now c result t.old t.new }
{
    let c = parser_core::char(s, c, b' ')?;
    let r = rfc3501_body_fields::body_disposition(s, Ok(c), t);
    from_lang(s, r, t, left)
}

// [SP body-fld-dsp ..]
#[inline(never)]
fn from_dsp(s: &[u8], c: Cursor, t: &mut [u32], left: usize) -> IResult
    requires { Stands 4 s.now (Ok c) }
    ensures { Reads left from_dsp s.now (Ok c) result t.old t.new }
{
    let r = dsp_tail(s, Ok(c), t, left);
    let Err(Failure::Refused) = r else {
        return r;
    };
    rfc3501_body_fields::absents::<4>(s, Ok(c), t)
}

// SP body-fld-md5 ..
#[inline(always)]
fn md5_tail(s: &[u8], c: IResult, t: &mut [u32], left: usize) -> IResult
    requires { Stands 0 s.now c }
    ensures { Reads left (sp ⋯ nstring ⋯ from_dsp) s.now c result t.old t.new }
{
    let c = parser_core::sp_nstring(s, c, t)?;
    from_dsp(s, c, t, left)
}

// [SP body-ext-1part]
#[inline(always)]
pub fn body_ext_1part(s: &[u8], c: IResult, t: &mut [u32], left: usize) -> IResult
    requires { Stands 5 s.now c }
    ensures { Reads left body_ext_1part s.now c result t.old t.new }
{
    let r = md5_tail(s, c, t, left);
    let Err(Failure::Refused) = r else {
        return r;
    };
    rfc3501_body_fields::absents::<5>(s, c, t)
}

// SP body-fld-param ..
#[inline(always)]
fn param_tail(s: &[u8], c: IResult, t: &mut [u32], left: usize) -> IResult
    requires { Stands 0 s.now c }
    ensures { Reads left (sp ⋯ body_param ⋯ from_dsp) s.now c result t.old t.new }
{
    let c = parser_core::char(s, c, b' ')?;
    let c = rfc3501_body_fields::body_param(s, Ok(c), t)?;
    from_dsp(s, c, t, left)
}

// [SP body-ext-mpart]
#[inline(always)]
pub fn body_ext_mpart(s: &[u8], c: IResult, t: &mut [u32], left: usize) -> IResult
    requires { Stands 5 s.now c }
    ensures { Reads left body_ext_mpart s.now c result t.old t.new }
{
    let r = param_tail(s, c, t, left);
    let Err(Failure::Refused) = r else {
        return r;
    };
    rfc3501_body_fields::absents::<5>(s, c, t)
}
