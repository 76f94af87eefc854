//! Mod-sequences: imap-proto 0.17.0's src/rfc4551.rs, without STATUS.

#![tactic(auto)]

ghost use Rattle.grammar.specs.Rfc4551.{resp_text_code_highest_mod_seq, msg_att_mod_seq};
ghost use Rattle.table.specs.Promise.{Stands, Reads};

use table::IResult;

// resp-text-code =/ "HIGHESTMODSEQ" SP mod-sequence-value
pub fn resp_text_code_highest_mod_seq(s: &[u8], c: IResult, t: &mut [u32]) -> IResult
    requires { Stands 0 s.now c }
    ensures { Reads 0 resp_text_code_highest_mod_seq s.now c result t.old t.new }
{
    let r = parser_core::tag_no_case(s, c, b"HIGHESTMODSEQ ");
    parser_core::number_64(s, r, t)
}

// fetch-mod-resp = "MODSEQ" SP "(" permsg-modsequence ")"
pub fn msg_att_mod_seq(s: &[u8], c: IResult, t: &mut [u32]) -> IResult
    requires { Stands 0 s.now c }
    ensures { Reads 0 msg_att_mod_seq s.now c result t.old t.new }
{
    let r = parser_core::tag_no_case(s, c, b"MODSEQ ");
    let r = parser_core::char(s, r, b'(');
    let r = parser_core::number_64(s, r, t);
    parser_core::char(s, r, b')')
}
