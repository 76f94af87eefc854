//! Sections and BODY items: imap-proto 0.17.0's src/rfc3501/body.rs.

#![tactic(auto)]

ghost use Rattle.std.specs.Prelude.{◌≤◌, length};
ghost use Rattle.grammar.specs.Kinds.{kind_section_text, kind_section_part};
ghost use Rattle.grammar.specs.Scan.{tag_no_case};
ghost use Rattle.grammar.specs.Grammar.{leaf, mark, does, node, dropped};
ghost use Rattle.grammar.specs.Notation.{◌⋯◌, exact, any_case, sp, opt, skip_opt, parenthesized_list};
ghost use Rattle.grammar.specs.Core.{number, nstring, astring};
ghost use Rattle.grammar.specs.Body.{header_fields, section_msgtext, section_text, section_part, section_spec, section, msg_att_body_section};
ghost use Rattle.table.specs.Promise.{Stands, Reads, Skips};

use table::{Failure, IResult};

// [".NOT"]; it makes no node and is lent no table, so `table::opt` does not fit
fn opt_not(s: &[u8], c: IResult) -> IResult
    requires { Stands 0 s.now c }
    ensures { Skips (skip_opt (any_case ".NOT")) s.now c result }
{
    let r = parser_core::tag_no_case(s, c, b".NOT");
    let Err(Failure::Refused) = r else {
        return r;
    };
    c
}

// header-list, its names' nodes dropped: it is lent one word, in which no node has room
fn header_list(s: &[u8], c: IResult) -> IResult
    requires { Stands 0 s.now c }
    ensures { Skips (does dropped (parenthesized_list astring)) s.now c result }
{
    let c = c?;
    let mut none = [0u32; 1];
    let end = lists::parenthesized_astrings(s, Ok(c.start()), &mut none)?;
    Ok(c.moved(end.place))
}

// "HEADER.FIELDS" [".NOT"] SP header-list
fn header_fields(s: &[u8], c: IResult, t: &mut [u32]) -> IResult
    requires { Stands 0 s.now c }
    ensures { Reads 0 header_fields s.now c result t.old t.new }
{
    let c = parser_core::tag_no_case(s, c, b"HEADER.FIELDS")?;
    let r = opt_not(s, Ok(c));
    let r = parser_core::char(s, r, b' ');
    let r = header_list(s, r);
    table::mark(s, r, t, grammar::KIND_SECTION_TEXT, 1)
}

// section-msgtext = "HEADER" / "HEADER.FIELDS" [".NOT"] SP header-list / "TEXT"
fn section_msgtext(s: &[u8], c: IResult, t: &mut [u32]) -> IResult
    requires { Stands 0 s.now c }
    ensures { Reads 0 section_msgtext s.now c result t.old t.new }
{
    let r = header_fields(s, c, t);
    let Err(Failure::Refused) = r else {
        return r;
    };
    let r = parser_core::value(s, c, t, b"HEADER", grammar::KIND_SECTION_TEXT, 1);
    let Err(Failure::Refused) = r else {
        return r;
    };
    parser_core::value(s, c, t, b"TEXT", grammar::KIND_SECTION_TEXT, 3)
}

// section-text = section-msgtext / "MIME"
fn section_text(s: &[u8], c: IResult, t: &mut [u32]) -> IResult
    requires { Stands 0 s.now c }
    ensures { Reads 0 section_text s.now c result t.old t.new }
{
    let r = section_msgtext(s, c, t);
    let Err(Failure::Refused) = r else {
        return r;
    };
    parser_core::value(s, c, t, b"MIME", grammar::KIND_SECTION_TEXT, 2)
}

// section-part = nz-number *("." nz-number)
fn section_part(s: &[u8], c: IResult, t: &mut [u32]) -> IResult
    requires { Stands 0 s.now c }
    ensures { Reads 0 section_part s.now c result t.old t.new }
{
    parser_core::separated(s, c, t, b'.', parser_core::number)
}

// "." section-text
fn dot_text(s: &[u8], c: IResult, t: &mut [u32]) -> IResult
    requires { Stands 0 s.now c }
    ensures { Reads 0 (exact "." ⋯ section_text) s.now c result t.old t.new }
{
    parser_core::after(s, c, t, b'.', section_text)
}

// ["." section-text]
fn opt_text(s: &[u8], c: IResult, t: &mut [u32]) -> IResult
    requires { Stands 1 s.now c }
    ensures { Reads 0 (opt (exact "." ⋯ section_text)) s.now c result t.old t.new }
{
    table::opt(s, c, t, grammar::KIND_ABSENT, 0, dot_text)
}

// section-part ["." section-text]
fn part_fields(s: &[u8], c: IResult, t: &mut [u32]) -> IResult
    requires { Stands 0 s.now c }
    ensures { Reads 0 (section_part ⋯ opt (exact "." ⋯ section_text)) s.now c result t.old t.new }
{
    let c = section_part(s, c, t)?;
    opt_text(s, Ok(c), t)
}

// The same as a node
fn part(s: &[u8], c: IResult, t: &mut [u32]) -> IResult
    requires { Stands 0 s.now c }
    ensures { Reads 0 (does (node kind_section_part) (section_part ⋯ opt (exact "." ⋯ section_text))) s.now c result t.old t.new }
{
    table::parent(s, c, t, grammar::KIND_SECTION_PART, part_fields)
}

// section-spec = section-msgtext / (section-part ["." section-text])
fn section_spec(s: &[u8], c: IResult, t: &mut [u32]) -> IResult
    requires { Stands 0 s.now c }
    ensures { Reads 0 section_spec s.now c result t.old t.new }
{
    let r = section_msgtext(s, c, t);
    let Err(Failure::Refused) = r else {
        return r;
    };
    part(s, c, t)
}

// [section-spec]
fn opt_spec(s: &[u8], c: IResult, t: &mut [u32]) -> IResult
    requires { Stands 1 s.now c }
    ensures { Reads 0 (opt section_spec) s.now c result t.old t.new }
{
    table::opt(s, c, t, grammar::KIND_ABSENT, 0, section_spec)
}

// section = "[" [section-spec] "]"
pub fn section(s: &[u8], c: IResult, t: &mut [u32]) -> IResult
    requires { Stands 0 s.now c }
    ensures { Reads 0 section s.now c result t.old t.new }
{
    let c = parser_core::char(s, c, b'[')?;
    let r = opt_spec(s, Ok(c), t);
    parser_core::char(s, r, b']')
}

// "<" number ">"
fn index(s: &[u8], c: IResult, t: &mut [u32]) -> IResult
    requires { Stands 0 s.now c }
    ensures { Reads 0 (exact "<" ⋯ number ⋯ exact ">") s.now c result t.old t.new }
{
    let c = parser_core::char(s, c, b'<')?;
    let r = parser_core::number(s, Ok(c), t);
    parser_core::char(s, r, b'>')
}

// ["<" number ">"]
fn opt_index(s: &[u8], c: IResult, t: &mut [u32]) -> IResult
    requires { Stands 1 s.now c }
    ensures { Reads 0 (opt (exact "<" ⋯ number ⋯ exact ">")) s.now c result t.old t.new }
{
    table::opt(s, c, t, grammar::KIND_ABSENT, 0, index)
}

// "BODY" section ["<" number ">"] SP nstring
fn body_section_fields(s: &[u8], c: IResult, t: &mut [u32]) -> IResult
    requires { Stands 0 s.now c }
    ensures { Reads 0 (any_case "BODY" ⋯ section ⋯ opt (exact "<" ⋯ number ⋯ exact ">") ⋯ sp ⋯ nstring) s.now c result t.old t.new }
{
    let c = parser_core::tag_no_case(s, c, b"BODY")?;
    let r = section(s, Ok(c), t);
    let r = opt_index(s, r, t);
    parser_core::sp_nstring(s, r, t)
}

// msg-att-static: "BODY" section ["<" number ">"] SP nstring
pub fn msg_att_body_section(s: &[u8], c: IResult, t: &mut [u32]) -> IResult
    requires { Stands 0 s.now c }
    ensures { Reads 0 msg_att_body_section s.now c result t.old t.new }
{
    table::parent(s, c, t, grammar::KIND_BODY_ITEM, body_section_fields)
}
