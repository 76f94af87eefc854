// The names of a structure's fields, by its kind: RFC 3501's, and those for RFC 4315's, 7162's and 5464's data.

use command_line::Level;
use grammar::Kind;

static ENVELOPE: [&str; 10] = [
    "date",
    "subject",
    "from",
    "sender",
    "reply-to",
    "to",
    "cc",
    "bcc",
    "in-reply-to",
    "message-id",
];

static ADDRESS: [&str; 4] = ["name", "adl", "mailbox", "host"];

static BASIC: [&str; 12] = [
    "type",
    "subtype",
    "parameters",
    "id",
    "description",
    "encoding",
    "octets",
    "md5",
    "disposition",
    "language",
    "location",
    "extension",
];

static TEXT: [&str; 12] = [
    "subtype",
    "parameters",
    "id",
    "description",
    "encoding",
    "octets",
    "lines",
    "md5",
    "disposition",
    "language",
    "location",
    "extension",
];

static MESSAGE: [&str; 13] = [
    "parameters",
    "id",
    "description",
    "encoding",
    "octets",
    "envelope",
    "body",
    "lines",
    "md5",
    "disposition",
    "language",
    "location",
    "extension",
];

static MULTIPART: [&str; 7] = [
    "bodies",
    "subtype",
    "parameters",
    "disposition",
    "language",
    "location",
    "extension",
];

static DISPOSITION: [&str; 2] = ["type", "parameters"];

static PAIR: [&str; 2] = ["name", "value"];

static SECTION_PART: [&str; 2] = ["part", "text"];

static BODY_ITEM: [&str; 3] = ["section", "index", "data"];

static APPENDUID: [&str; 2] = ["uidvalidity", "uids"];

static COPYUID: [&str; 3] = ["uidvalidity", "source uids", "destination uids"];

static VANISHED: [&str; 1] = ["uids"];

static METADATA: [&str; 2] = ["mailbox", "entries"];

fn names(kind: Kind) -> &'static [&'static str] {
    match kind {
        Kind::Envelope => &ENVELOPE,
        Kind::Address => &ADDRESS,
        Kind::Basic => &BASIC,
        Kind::Text => &TEXT,
        Kind::Message => &MESSAGE,
        Kind::Multipart => &MULTIPART,
        Kind::Disposition => &DISPOSITION,
        Kind::Pair => &PAIR,
        Kind::SectionPart => &SECTION_PART,
        Kind::BodyItem => &BODY_ITEM,
        Kind::AppendUid => &APPENDUID,
        Kind::CopyUid => &COPYUID,
        Kind::Vanished | Kind::VanishedEarlier => &VANISHED,
        Kind::Metadata => &METADATA,
        _ => &[],
    }
}

// The name of the next field of a structure of which so many have been met, where its kind has fields.
pub(crate) fn field_name(parent: Level) -> Option<&'static str> {
    names(parent.kind?).get(parent.met).copied()
}
