// The parts of a BODYSTRUCTURE that have bytes of their own: a line for each.

use crate::item::Item;
use command_line::{Counted, Escaped, Level, Levels, Quoted};
use grammar::Kind;
use std::fmt;
use walker::Node;

// Those among the first nodes of a table over these bytes.
#[derive(Clone, Copy)]
pub struct Parts<'a> {
    pub bytes: &'a [u8],
    pub table: &'a [u32],
    pub nodes: usize,
}

// What holds parts is a level: the message itself, a multipart, or a message in it.
impl fmt::Display for Parts<'_> {
    fn fmt<W: fmt::Write>(&self, f: &mut fmt::Formatter<W>) -> fmt::Result {
        let mut levels = Levels::new();
        levels.open(Level {
            end: self.nodes,
            kind: Some(Kind::Message),
            met: 0,
        });
        for at in 0..self.nodes {
            levels.close(at);
            let part = Part(Item {
                bytes: self.bytes,
                table: self.table,
                at,
            });
            if part.has_number(levels.last()) {
                levels.meet();
            }
            if part.has_bytes() {
                let number = Number(levels.as_slice());
                writeln!(f, "  {number} {part}")?;
            }
            if part.holds_parts() {
                levels.open(Level {
                    end: command_line::subtree_end(self.table, at),
                    kind: part.0.kind(),
                    met: 0,
                });
            }
        }
        Ok(())
    }
}

// A part's number: how many have been met at each level, with dots between. At a message whose body is a multipart none is met: its
// parts are the message's.
#[derive(Clone, Copy)]
struct Number<'a>(&'a [Level]);

impl fmt::Display for Number<'_> {
    fn fmt<W: fmt::Write>(&self, f: &mut fmt::Formatter<W>) -> fmt::Result {
        let mut dot = "";
        for level in self.0 {
            if 0 < level.met {
                let met = level.met;
                write!(f, "{dot}{met}")?;
                dot = ".";
            }
        }
        Ok(())
    }
}

// A node that may be a part.
#[derive(Clone, Copy)]
struct Part<'a>(Item<'a>);

impl<'a> Part<'a> {
    fn has_bytes(self) -> bool {
        matches!(
            self.0.kind(),
            Some(Kind::Basic | Kind::Text | Kind::Message)
        )
    }

    fn holds_parts(self) -> bool {
        matches!(self.0.kind(), Some(Kind::Message | Kind::Multipart))
    }

    // A multipart that is a message's body has no number of its own.
    fn has_number(self, holder: Option<Level>) -> bool {
        match self.0.kind() {
            Some(Kind::Basic | Kind::Text | Kind::Message) => true,
            Some(Kind::Multipart) => {
                holder.is_some_and(|level| matches!(level.kind, Some(Kind::Multipart)))
            }
            _ => false,
        }
    }

    // The parameters, the first of the fields that all parts have: text has no child for its type, message none for both.
    fn parameters(self) -> Item<'a> {
        self.0.child(match self.0.kind() {
            Some(Kind::Text) => 1,
            Some(Kind::Message) => 0,
            _ => 2,
        })
    }

    // The size, behind parameters, id, description and encoding.
    fn octets(self) -> Item<'a> {
        self.0.child(match self.0.kind() {
            Some(Kind::Text) => 5,
            Some(Kind::Message) => 4,
            _ => 6,
        })
    }

    // The disposition: text has a count of lines before it, message an envelope, a body and a count of lines.
    fn disposition(self) -> Item<'a> {
        self.0.child(match self.0.kind() {
            Some(Kind::Message) => 9,
            _ => 8,
        })
    }
}

// A part's line behind its number.
impl fmt::Display for Part<'_> {
    fn fmt<W: fmt::Write>(&self, f: &mut fmt::Formatter<W>) -> fmt::Result {
        let item = self.0;
        match item.kind() {
            Some(Kind::Text) => write!(f, "text/{}", Escaped(item.child(0).view()))?,
            Some(Kind::Message) => f.write_str("message/rfc822")?,
            _ => {
                let kind = Escaped(item.child(0).view());
                let subtype = Escaped(item.child(1).view());
                write!(f, "{kind}/{subtype}")?;
            }
        }
        // The size, as the server counts it: of the encoded bytes.
        if let Some(Node { a, .. }) = self.octets().node() {
            write!(f, ", {}", Counted(a as usize, "octet"))?;
        }
        let named = Named {
            list: self.parameters(),
            word: b"NAME",
        };
        write!(f, "{named}")?;
        let disposition = self.disposition();
        if let Some(Kind::Disposition) = disposition.kind() {
            let kind = Escaped(disposition.child(0).view());
            let named = Named {
                list: disposition.child(1),
                word: b"FILENAME",
            };
            write!(f, ", {kind}{named}")?;
        }
        Ok(())
    }
}

// Those pairs of a list that have this name, or one of RFC 2231's forms of it, as the server sent them; NIL has none.
#[derive(Clone, Copy)]
struct Named<'a> {
    list: Item<'a>,
    word: &'static [u8],
}

impl fmt::Display for Named<'_> {
    fn fmt<W: fmt::Write>(&self, f: &mut fmt::Formatter<W>) -> fmt::Result {
        for pair in self.list.children() {
            let name = pair.child(0).view();
            if command_line::is_parameter(name, self.word) {
                let name = Escaped(name);
                let value = Quoted(pair.child(1).view());
                write!(f, ", {name} {value}")?;
            }
        }
        Ok(())
    }
}
