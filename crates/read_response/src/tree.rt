// The nodes of a reading as a tree: a line for each.

use crate::fields::field_name;
use command_line::{Cut, Level, Levels};
use grammar::Kind;
use std::fmt;
use walker::Node;

// The first nodes of a table over these bytes.
#[derive(Clone, Copy)]
pub struct Tree<'a> {
    pub bytes: &'a [u8],
    pub table: &'a [u32],
    pub nodes: usize,
}

impl fmt::Display for Tree<'_> {
    fn fmt<W: fmt::Write>(&self, f: &mut fmt::Formatter<W>) -> fmt::Result {
        let mut levels = Levels::new();
        for at in 0..self.nodes {
            levels.close(at);
            let line = Line {
                depth: levels.as_slice().len(),
                parent: levels.meet(),
                at,
                tree: *self,
            };
            writeln!(f, "{line}")?;
            levels.open(Level {
                end: command_line::subtree_end(self.table, at),
                kind: command_line::kind_of(self.table, at),
                met: 0,
            });
        }
        Ok(())
    }
}

// A node's line: two spaces for each level, the field that it is of its parent, and the node.
#[derive(Clone, Copy)]
struct Line<'a> {
    depth: usize,
    parent: Option<Level>,
    at: usize,
    tree: Tree<'a>,
}

impl fmt::Display for Line<'_> {
    fn fmt<W: fmt::Write>(&self, f: &mut fmt::Formatter<W>) -> fmt::Result {
        for _ in 0..self.depth {
            f.write_str("  ")?;
        }
        if let Some(name) = self.parent.and_then(field_name) {
            write!(f, "{name}: ")?;
        }
        let Tree { bytes, table, .. } = self.tree;
        let Some(node) = walker::look(table, self.at) else {
            return Ok(());
        };
        write!(f, "{}", Words(node))?;
        if views::view_answer(bytes, table, self.at) == 0 {
            write!(f, " {}", Cut(views::view(bytes, table, self.at)))?;
        }
        Ok(())
    }
}

// A node's kind, and what its words a and b mean for it.
#[derive(Clone, Copy)]
struct Words(Node);

impl fmt::Display for Words {
    fn fmt<W: fmt::Write>(&self, f: &mut fmt::Formatter<W>) -> fmt::Result {
        let Node { kind, a, b, .. } = self.0;
        let kind = match Kind::try_from(kind) {
            Ok(kind) => kind,
            Err(none) => return write!(f, "{none} [{a}..{b})"),
        };
        write!(f, "{kind}")?;
        match kind {
            Kind::Number => write!(f, " {}", u64::from(b) << 32 | u64::from(a)),
            Kind::Range => write!(f, " {a}..{b}"),
            Kind::Uid => write!(f, " {a}"),
            Kind::Absent => Ok(()),
            Kind::List => write!(f, " of {a}"),
            Kind::SectionText => write!(f, " {}", section_text_name(a)),
            Kind::Encoding => write!(f, " {}", encoding_name(a)),
            _ => write!(f, " [{a}..{b})"),
        }
    }
}

// The section texts, by word a of their nodes: a number, here and below, of which a table may hold any.
fn section_text_name(which: u32) -> &'static str {
    match which {
        1 => "HEADER",
        2 => "MIME",
        3 => "TEXT",
        _ => "unknown",
    }
}

// The known encodings, by word a of their nodes.
fn encoding_name(which: u32) -> &'static str {
    match which {
        1 => "7BIT",
        2 => "8BIT",
        3 => "BINARY",
        4 => "BASE64",
        5 => "QUOTED-PRINTABLE",
        _ => "unknown",
    }
}
