// A node of a reading, and its children.

ghost use Rattle.std.specs.Prelude.{◌≡◌, ◌-◌, ◌<◌, ◌≤◌};
ghost use Rattle.std.specs.Iterator.{at_most};
ghost use Rattle.walker.specs.Walk.{node_at, kind_at};
ghost use Rattle.command_line.specs.Levels.{IsKindOf};

use grammar::Kind;
use walker::Node;

// A place in a table, with the bytes that were read.
#[derive(Clone, Copy)]
pub struct Item<'a> {
    pub bytes: &'a [u8],
    pub table: &'a [u32],
    pub at: usize,
}

impl<'a> Item<'a> {
    pub(crate) fn node(self) -> Option<Node>
        ensures { result ≡ node_at self.entry.table.now self.entry.at }
    {
        walker::look(self.table, self.at)
    }

    pub(crate) fn kind(self) -> Option<Kind>
        ensures { IsKindOf (kind_at self.entry.table.now self.entry.at) result }
    {
        command_line::kind_of(self.table, self.at)
    }

    // The bytes that it names.
    pub(crate) fn view(self) -> &'a [u8] {
        views::view(self.bytes, self.table, self.at)
    }

    fn moved(self, at: usize) -> Item<'a>
        ensures { result.at ≡ at }
    {
        Item {
            bytes: self.bytes,
            table: self.table,
            at,
        }
    }

    // The child that has n others before it; the node itself where it has no such child, and no field has the kind of a body.
    pub(crate) fn child(self, n: usize) -> Item<'a> {
        walker::nth_child(self.table, self.at, n).map_or(self, |child| self.moved(child))
    }

    pub(crate) fn children(self) -> Children<'a> {
        let limit = walker::end_of(self.table, self.at).unwrap_or(0);
        let first = walker::first_child(self.table, self.at).unwrap_or(limit);
        Children {
            next: self.moved(first),
            limit,
        }
    }
}

// The nodes side by side from one on, before the limit.
#[derive(Drop)]
pub struct Children<'a> {
    next: Item<'a>,
    limit: usize,
}

impl<'a> Iterator for Children<'a> {
    type Item = Item<'a>;

    ghost remaining = { λ s. at_most (s.limit - s.next.at) };

    #[tactic(auto, using(walker::proofs::Places::sibling_forward))]
    fn next(&mut self) -> Option<Item<'a>> {
        let item = self.next;
        if self.limit <= item.at {
            return None;
        }
        let limit = self.limit;
        self.next = item.moved(walker::next_sibling(item.table, item.at, limit).unwrap_or(limit));
        Some(item)
    }
}
