//! METADATA's entry names and responses: imap-proto 0.17.0's src/rfc5464.rs without its response codes.
//! A name is checked part by part, from its front: each check is given what is left.

#![tactic(auto)]

ghost use Rattle.std.specs.Prelude.{◌≡◌, false};
ghost use Rattle.grammar.specs.EntryName.{is_entry_component_char, check_path, check_vendor, check_vendor_comment, check_admin, check_entry_name};
ghost use Rattle.grammar.specs.Notation.{sp, ◌⋯◌, separated_list1, parenthesized_nonempty_list};
ghost use Rattle.grammar.specs.Core.{nstring};
ghost use Rattle.grammar.specs.Rfc5464.{entry_name, entry_value, entry_list, metadata_common, metadata_solicited, metadata_unsolicited};
ghost use Rattle.table.specs.Promise.{Room, Stands, Reads};
ghost use Rattle.rfc5464.specs.Content.{Spelled, Checked};

use table::{Failure, IResult};

// ----- entry names -----

fn is_entry_component_char(c: u8) -> bool
    ensures { result ≡ is_entry_component_char c }
{
    0x19 < c && c < 0x80 && c != b'*' && c != b'%' && c != b'/'
}

// Components, each behind a slash; a CR, or a space where a slash should be, ends the check.
fn check_path(name: &[u8]) -> bool
    ensures { result ≡ check_path false name.now }
{
    let mut inside = false;
    for b in name {
        if inside && is_entry_component_char(*b) {
            continue;
        }
        match *b {
            b'/' => inside = true,
            b' ' | b'\r' => return true,
            _ => return false,
        }
    }
    true
}

// Behind /vendor: a slash and the vendor's name must be there.
fn check_vendor(name: &[u8]) -> bool
    ensures { result ≡ check_vendor name.now }
{
    match name {
        [b'/', b, ..] if is_entry_component_char(*b) => check_path(name),
        _ => false,
    }
}

fn check_vendor_comment(name: &[u8]) -> bool
    ensures { result ≡ check_vendor_comment name.now }
{
    if let Some(path) = name.strip_prefix(b"/comment") {
        return check_path(path);
    }
    match name.strip_prefix(b"/vendor") {
        Some(vendor) => check_vendor(vendor),
        None => false,
    }
}

// Below /shared there may be an /admin.
fn check_admin(name: &[u8]) -> bool
    ensures { result ≡ check_admin name.now }
{
    match name.strip_prefix(b"/admin") {
        Some(path) => check_path(path),
        None => check_vendor_comment(name),
    }
}

fn check_entry_name(name: &[u8]) -> bool
    ensures { result ≡ check_entry_name name.now }
{
    if let Some(rest) = name.strip_prefix(b"/private") {
        return check_vendor_comment(rest);
    }
    match name.strip_prefix(b"/shared") {
        Some(rest) => check_admin(rest),
        None => false,
    }
}

// ----- an astring whose content is an entry name -----

// The content of an astring that was read from a place to a next one is an entry name.
fn check_astring(s: &[u8], at: usize, next: usize) -> bool
    requires room { Room s.now at }
    requires spelled { Spelled s.now at next }
    ensures { Checked s.now at next result }
{
    let b = s[at];
    if b == b'"' {
        return check_entry_name(&s[at + 1..next - 1]);
    }
    if b == b'{' {
        let (start, _) = parser_core::literal_header(s, at).unwrap();
        return check_entry_name(&s[start..next]);
    }
    check_entry_name(&s[at..next])
}

// An astring whose content is an entry name; its node is written before the check.
pub fn entry_name(s: &[u8], c: IResult, t: &mut [u32]) -> IResult
    requires { Stands 0 s.now c }
    ensures { Reads 0 entry_name s.now c result t.old t.new }
{
    let c = c?;
    let r = parser_core::astring(s, Ok(c), t)?;
    if check_astring(s, c.place, r.place) {
        return Ok(r);
    }
    Err(Failure::Refused)
}

// ----- names with values -----

// entry SP value
fn name_and_value(s: &[u8], c: IResult, t: &mut [u32]) -> IResult
    requires { Stands 0 s.now c }
    ensures { Reads 0 (entry_name ⋯ sp ⋯ nstring) s.now c result t.old t.new }
{
    let r = entry_name(s, c, t);
    parser_core::sp_nstring(s, r, t)
}

// entry_value = entry SP value
fn entry_value(s: &[u8], c: IResult, t: &mut [u32]) -> IResult
    requires { Stands 0 s.now c }
    ensures { Reads 0 entry_value s.now c result t.old t.new }
{
    table::parent(s, c, t, grammar::KIND_PAIR, name_and_value)
}

// entry-values = "(" entry_value *(SP entry_value) ")"; any run of blanks before ")"
fn keyval_list(s: &[u8], c: IResult, t: &mut [u32]) -> IResult
    requires { Stands 0 s.now c }
    ensures { Reads 0 (parenthesized_nonempty_list entry_value) s.now c result t.old t.new }
{
    lists::parenthesized_nonempty_list(s, c, t, entry_value)
}

// ----- names alone -----

// entry *(SP entry)
fn entry_names(s: &[u8], c: IResult, t: &mut [u32]) -> IResult
    requires { Stands 0 s.now c }
    ensures { Reads 0 (separated_list1 sp entry_name) s.now c result t.old t.new }
{
    parser_core::separated(s, c, t, b' ', entry_name)
}

// entry-list = entry *(SP entry); it may be empty
fn entry_list(s: &[u8], c: IResult, t: &mut [u32]) -> IResult
    requires { Stands 1 s.now c }
    ensures { Reads 0 entry_list s.now c result t.old t.new }
{
    table::opt(s, c, t, grammar::KIND_LIST, 0, entry_names)
}

// ----- METADATA responses -----

// "METADATA" SP mailbox SP; the mailbox only quoted
fn metadata_common(s: &[u8], c: IResult, t: &mut [u32]) -> IResult
    requires { Stands 0 s.now c }
    ensures { Reads 0 metadata_common s.now c result t.old t.new }
{
    let r = parser_core::tag_no_case(s, c, b"METADATA ");
    let r = parser_core::quoted(s, r, t);
    parser_core::char(s, r, b' ')
}

// A mailbox, and names with their values.
fn mailbox_and_values(s: &[u8], c: IResult, t: &mut [u32]) -> IResult
    requires { Stands 0 s.now c }
    ensures { Reads 0 (metadata_common ⋯ parenthesized_nonempty_list entry_value) s.now c result t.old t.new }
{
    let r = metadata_common(s, c, t);
    keyval_list(s, r, t)
}

// [RFC5464 - 4.4.1 METADATA Response with values]
pub fn metadata_solicited(s: &[u8], c: IResult, t: &mut [u32]) -> IResult
    requires { Stands 0 s.now c }
    ensures { Reads 0 metadata_solicited s.now c result t.old t.new }
{
    table::parent(s, c, t, grammar::KIND_METADATA, mailbox_and_values)
}

// A mailbox, and names alone.
fn mailbox_and_names(s: &[u8], c: IResult, t: &mut [u32]) -> IResult
    requires { Stands 0 s.now c }
    ensures { Reads 0 (metadata_common ⋯ entry_list) s.now c result t.old t.new }
{
    let r = metadata_common(s, c, t);
    entry_list(s, r, t)
}

// [RFC5464 - 4.4.2 Unsolicited METADATA Response without values]
pub fn metadata_unsolicited(s: &[u8], c: IResult, t: &mut [u32]) -> IResult
    requires { Stands 0 s.now c }
    ensures { Reads 0 metadata_unsolicited s.now c result t.old t.new }
{
    table::parent(s, c, t, grammar::KIND_METADATA, mailbox_and_names)
}
