ghost use Rattle.std.specs.Prelude.{◌≡◌, Some, codes};
ghost use Rattle.grammar.specs.Kind.{number_of, Decodes, name_of};

use crate::*;
use std::error::Error;
use std::fmt;

/// The kind of a node (docs/RULES.md, "Nodes").
#[derive(Clone, Copy, Debug, PartialEq, Eq)]
pub enum Kind {
    Number = 1,
    Range,
    Uid,
    Bytes,
    Nil,
    Absent,
    List,
    SectionText,
    Encoding,
    Envelope,
    Address,
    Basic,
    Text,
    Message,
    Multipart,
    Disposition,
    Pair,
    SectionPart,
    BodyItem,
    AppendUid,
    CopyUid,
    UidNotSticky,
    Vanished,
    VanishedEarlier,
    Metadata,
}

/// A number that no kind has.
#[derive(Clone, Copy, Debug, PartialEq, Eq)]
pub struct NoSuchKind;

impl From<Kind> for u32 {
    ghost from_gives = { λ kind number. number ≡ number_of kind };

    fn from(kind: Kind) -> u32 {
        kind as u32
    }
}

impl TryFrom<u32> for Kind {
    type Error = NoSuchKind;

    ghost try_from_gives = { Decodes };

    fn try_from(number: u32) -> Result<Kind, NoSuchKind> {
        match number {
            KIND_NUMBER => Ok(Kind::Number),
            KIND_RANGE => Ok(Kind::Range),
            KIND_UID => Ok(Kind::Uid),
            KIND_BYTES => Ok(Kind::Bytes),
            KIND_NIL => Ok(Kind::Nil),
            KIND_ABSENT => Ok(Kind::Absent),
            KIND_LIST => Ok(Kind::List),
            KIND_SECTION_TEXT => Ok(Kind::SectionText),
            KIND_ENCODING => Ok(Kind::Encoding),
            KIND_ENVELOPE => Ok(Kind::Envelope),
            KIND_ADDRESS => Ok(Kind::Address),
            KIND_BASIC => Ok(Kind::Basic),
            KIND_TEXT => Ok(Kind::Text),
            KIND_MESSAGE => Ok(Kind::Message),
            KIND_MULTIPART => Ok(Kind::Multipart),
            KIND_DISPOSITION => Ok(Kind::Disposition),
            KIND_PAIR => Ok(Kind::Pair),
            KIND_SECTION_PART => Ok(Kind::SectionPart),
            KIND_BODY_ITEM => Ok(Kind::BodyItem),
            KIND_APPENDUID => Ok(Kind::AppendUid),
            KIND_COPYUID => Ok(Kind::CopyUid),
            KIND_UIDNOTSTICKY => Ok(Kind::UidNotSticky),
            KIND_VANISHED => Ok(Kind::Vanished),
            KIND_VANISHED_EARLIER => Ok(Kind::VanishedEarlier),
            KIND_METADATA => Ok(Kind::Metadata),
            _ => Err(NoSuchKind),
        }
    }
}

impl Kind {
    fn name(self) -> &'static str
        ensures { result.now ≡ name_of self }
    {
        match self {
            Kind::Number => "number",
            Kind::Range => "range",
            Kind::Uid => "single uid",
            Kind::Bytes => "bytes",
            Kind::Nil => "NIL",
            Kind::Absent => "absent",
            Kind::List => "list",
            Kind::SectionText => "section text",
            Kind::Encoding => "known encoding",
            Kind::Envelope => "envelope",
            Kind::Address => "address",
            Kind::Basic => "basic",
            Kind::Text => "text",
            Kind::Message => "message",
            Kind::Multipart => "multipart",
            Kind::Disposition => "disposition",
            Kind::Pair => "pair",
            Kind::SectionPart => "section part",
            Kind::BodyItem => "BODY item",
            Kind::AppendUid => "APPENDUID",
            Kind::CopyUid => "COPYUID",
            Kind::UidNotSticky => "UIDNOTSTICKY",
            Kind::Vanished => "VANISHED",
            Kind::VanishedEarlier => "VANISHED (EARLIER)",
            Kind::Metadata => "METADATA",
        }
    }
}

impl fmt::Display for Kind {
    ghost output = { λ kind. Some (name_of kind) };

    fn fmt<W: fmt::Write>(&self, f: &mut fmt::Formatter<W>) -> fmt::Result {
        f.write_str(self.name())
    }
}

impl fmt::Display for NoSuchKind {
    ghost output = { λ _. Some (codes "no such kind") };

    fn fmt<W: fmt::Write>(&self, f: &mut fmt::Formatter<W>) -> fmt::Result {
        f.write_str("no such kind")
    }
}

impl Error for NoSuchKind {}

#[cfg(test)]
mod tests {
    use super::*;
    use std::alloc::AllocError;

    // Numbers and names as docs/RULES.md has them, and as a walk prints them.
    #[test]
    fn numbers_and_names(rt: HostRuntime) -> Result<(), AllocError> {
        for (number, name) in [
            (1, "number"),
            (3, "single uid"),
            (9, "known encoding"),
            (24, "VANISHED (EARLIER)"),
            (25, "METADATA"),
        ] {
            let kind = Kind::try_from(number).expect(&rt, "a kind");
            assert_eq!(rt; u32::from(kind), number);
            let printed = format!(in rt.alloc(); "{kind}")?;
            assert!(rt; printed.as_str() == name);
        }
        for number in [0, 26] {
            assert!(rt; Kind::try_from(number) == Err(NoSuchKind));
        }
        Ok(())
    }
}
