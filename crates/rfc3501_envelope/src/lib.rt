//! Envelopes and addresses: `Address`, `opt_addresses`, `Envelope` and `msg_att_envelope` of imap-proto 0.17.0's
//! src/rfc3501/mod.rs.

#![tactic(auto)]

ghost use Rattle.grammar.specs.Notation.{◌⋯◌, sp, opening, closing, skip_opt, many1, paren_delimited};
ghost use Rattle.grammar.specs.Core.{nstring};
ghost use Rattle.grammar.specs.Envelope.{address, opt_addresses, env_origin, env_recipients, env_references, envelope, msg_att_envelope};
ghost use Rattle.table.specs.Promise.{Stands, Reads};

use table::IResult;

// "(" addr-name SP addr-adl SP addr-mailbox SP addr-host ")"
fn address_fields(s: &[u8], c: IResult, t: &mut [u32]) -> IResult
    requires { Stands 0 s.now c }
    ensures { Reads 0 (opening ⋯ nstring ⋯ sp ⋯ nstring ⋯ sp ⋯ nstring ⋯ sp ⋯ nstring ⋯ closing) s.now c result t.old t.new }
{
    let c = parser_core::char(s, c, b'(')?;
    let r = parser_core::nstring(s, Ok(c), t);
    let r = parser_core::sp_nstring(s, r, t);
    let r = parser_core::sp_nstring(s, r, t);
    let r = parser_core::sp_nstring(s, r, t);
    parser_core::char(s, r, b')')
}

// address = "(" addr-name SP addr-adl SP addr-mailbox SP addr-host ")"
fn address(s: &[u8], c: IResult, t: &mut [u32]) -> IResult
    requires { Stands 0 s.now c }
    ensures { Reads 0 address s.now c result t.old t.new }
{
    table::parent(s, c, t, grammar::KIND_ADDRESS, address_fields)
}

// An address, and at most one space after it.
fn address_space(s: &[u8], c: IResult, t: &mut [u32]) -> IResult
    requires { Stands 0 s.now c }
    ensures { Reads 0 (address ⋯ skip_opt sp) s.now c result t.old t.new }
{
    let r = address(s, c, t);
    parser_core::opt_space(s, r)
}

// 1*address
fn addresses(s: &[u8], c: IResult, t: &mut [u32]) -> IResult
    requires { Stands 0 s.now c }
    ensures { Reads 0 (many1 (address ⋯ skip_opt sp)) s.now c result t.old t.new }
{
    table::items(s, c, t, address_space, address_space)
}

// "(" 1*address ")"
fn some_addresses(s: &[u8], c: IResult, t: &mut [u32]) -> IResult
    requires { Stands 0 s.now c }
    ensures { Reads 0 (paren_delimited (many1 (address ⋯ skip_opt sp))) s.now c result t.old t.new }
{
    let r = parser_core::char(s, c, b'(');
    let r = addresses(s, r, t);
    parser_core::char(s, r, b')')
}

// "(" 1*address ")" / nil
fn opt_addresses(s: &[u8], c: IResult, t: &mut [u32]) -> IResult
    requires { Stands 0 s.now c }
    ensures { Reads 0 opt_addresses s.now c result t.old t.new }
{
    parser_core::nil_or(s, c, t, some_addresses)
}

// SP opt-addresses
fn sp_opt_addresses(s: &[u8], c: IResult, t: &mut [u32]) -> IResult
    requires { Stands 0 s.now c }
    ensures { Reads 0 (sp ⋯ opt_addresses) s.now c result t.old t.new }
{
    parser_core::after(s, c, t, b' ', opt_addresses)
}

// env-date SP env-subject SP env-from SP env-sender
fn env_origin(s: &[u8], c: IResult, t: &mut [u32]) -> IResult
    requires { Stands 0 s.now c }
    ensures { Reads 0 env_origin s.now c result t.old t.new }
{
    let r = parser_core::nstring(s, c, t);
    let r = parser_core::sp_nstring(s, r, t);
    let r = sp_opt_addresses(s, r, t);
    sp_opt_addresses(s, r, t)
}

// env-reply-to SP env-to SP env-cc SP env-bcc
fn env_recipients(s: &[u8], c: IResult, t: &mut [u32]) -> IResult
    requires { Stands 0 s.now c }
    ensures { Reads 0 env_recipients s.now c result t.old t.new }
{
    let r = opt_addresses(s, c, t);
    let r = sp_opt_addresses(s, r, t);
    let r = sp_opt_addresses(s, r, t);
    sp_opt_addresses(s, r, t)
}

// env-in-reply-to SP env-message-id
fn env_references(s: &[u8], c: IResult, t: &mut [u32]) -> IResult
    requires { Stands 0 s.now c }
    ensures { Reads 0 env_references s.now c result t.old t.new }
{
    let r = parser_core::nstring(s, c, t);
    parser_core::sp_nstring(s, r, t)
}

// The fields before env-in-reply-to, behind the opening parenthesis.
fn envelope_head(s: &[u8], c: IResult, t: &mut [u32]) -> IResult
    requires { Stands 0 s.now c }
    ensures { Reads 0 (opening ⋯ env_origin ⋯ sp ⋯ env_recipients) s.now c result t.old t.new }
{
    let r = parser_core::char(s, c, b'(');
    let r = env_origin(s, r, t);
    let r = parser_core::char(s, r, b' ');
    env_recipients(s, r, t)
}

// The ten fields, in parentheses.
fn envelope_fields(s: &[u8], c: IResult, t: &mut [u32]) -> IResult
    requires { Stands 0 s.now c }
    ensures { Reads 0 (opening ⋯ env_origin ⋯ sp ⋯ env_recipients ⋯ sp ⋯ env_references ⋯ closing) s.now c result t.old t.new }
{
    let r = envelope_head(s, c, t);
    let r = parser_core::char(s, r, b' ');
    let r = env_references(s, r, t);
    parser_core::char(s, r, b')')
}

// envelope = "(" env-date SP env-subject SP env-from SP env-sender SP env-reply-to SP env-to SP env-cc SP env-bcc SP
// env-in-reply-to SP env-message-id ")"
pub fn envelope(s: &[u8], c: IResult, t: &mut [u32]) -> IResult
    requires { Stands 0 s.now c }
    ensures { Reads 0 envelope s.now c result t.old t.new }
{
    table::parent(s, c, t, grammar::KIND_ENVELOPE, envelope_fields)
}

// msg-att-static: "ENVELOPE" SP envelope
pub fn msg_att_envelope(s: &[u8], c: IResult, t: &mut [u32]) -> IResult
    requires { Stands 0 s.now c }
    ensures { Reads 0 msg_att_envelope s.now c result t.old t.new }
{
    let r = parser_core::tag_no_case(s, c, b"ENVELOPE ");
    envelope(s, r, t)
}
