//! Walking a table of nodes: first with a table and a place as parameters, in public functions that stay as they are, then by one thin
//! value that keeps both.
//! The table may hold anything: a place outside it and counts that do not fit are answered, never followed. What each
//! function answers on every table is specs/Walk.antt; that on a table of ours it finds exactly the trees, proofs/Trees.antt.

#![tactic(auto)]

ghost use Rattle.std.specs.Prelude.{◌≡◌};
ghost use Rattle.walker.specs.Walk.{node_at, kind_at, tree_end, end_of, tree_at, first_child, next_sibling, nth_child};
ghost use Rattle.walker.specs.Held.{walker_at};

// A node's words, `nodes` being how many its subtree has.
#[derive(Clone, Copy, Debug, PartialEq, Eq)]
pub struct Node {
    pub kind: u32,
    pub a: u32,
    pub b: u32,
    pub nodes: u32,
}

// Why no tree is found. Nothing: there is none, the limit is reached. Wrong: what stands there is no tree within the limit.
#[derive(Clone, Copy, Debug, PartialEq, Eq)]
pub enum NoTree {
    Nothing,
    Wrong,
}

// The words of the node at a place, if the table's room has it.
#[tactic(auto, using(grammar::proofs::Nodes::word), unfolding(crate::specs::Walk::node_at))]
pub fn node_at(t: &[u32], at: usize) -> Option<Node>
    ensures { result ≡ node_at t.now at }
{
    let (all, _) = t.as_chunks::<4>();
    let [kind, a, b, nodes] = *all.get(at)?;
    Some(Node { kind, a, b, nodes })
}

// Its kind alone; 0, which is no kind, where there is no node: specs/Walk.antt says so (`kind_at`).
#[tactic(auto, unfolding(crate::specs::Walk::node_at, crate::specs::Walk::kind_at))]
pub fn kind_at(t: &[u32], at: usize) -> u32
    ensures { result ≡ kind_at t.now at }
{
    match node_at(t, at) {
        Some(node) => node.kind,
        None => 0,
    }
}

// Where the tree that begins at a place ends, in the part of the table before the limit.
#[tactic(auto, unfolding(crate::specs::Walk::node_at, crate::specs::Walk::tree_end, crate::specs::Walk::proper_tree))]
pub fn tree_end(t: &[u32], at: usize, limit: usize) -> Result<usize, NoTree>
    ensures { result ≡ tree_end t.now at limit }
{
    if at == limit {
        return Err(NoTree::Nothing);
    }
    if t.len() / 4 < limit {
        return Err(NoTree::Wrong);
    }
    let node = node_at(t, at).ok_or(NoTree::Wrong)?;
    let nodes = node.nodes as usize;
    if nodes == 0 || limit < at + nodes {
        return Err(NoTree::Wrong);
    }
    Ok(at + nodes)
}

// Where the subtree of a node ends: its children stand before that.
pub fn end_of(t: &[u32], at: usize) -> Result<usize, NoTree>
    ensures { result ≡ end_of t.now at }
{
    tree_end(t, at, t.len() / 4)
}

// The place itself, if a tree begins there that ends by the limit.
#[tactic(auto, unfolding(crate::specs::Walk::tree_at))]
pub fn tree_at(t: &[u32], at: usize, limit: usize) -> Result<usize, NoTree>
    ensures { result ≡ tree_at t.now at limit }
{
    tree_end(t, at, limit)?;
    Ok(at)
}

// The first child of a node.
#[tactic(auto, unfolding(crate::specs::Walk::first_child, crate::specs::Walk::tree_end, crate::specs::Walk::proper_tree))]
pub fn first_child(t: &[u32], at: usize) -> Result<usize, NoTree>
    ensures { result ≡ first_child t.now at }
{
    let limit = end_of(t, at)?;
    tree_at(t, at + 1, limit)
}

// The next sibling of a node, where the parent's subtree ends at the limit.
#[tactic(auto, unfolding(crate::specs::Walk::next_sibling))]
pub fn next_sibling(t: &[u32], at: usize, limit: usize) -> Result<usize, NoTree>
    ensures { result ≡ next_sibling t.now at limit }
{
    let next = tree_end(t, at, limit)?;
    tree_at(t, next, limit)
}

// The child of a node that has n others before it.
#[tactic(auto, unfolding(crate::specs::Walk::nth_child, crate::specs::Walk::nth_tree, crate::specs::Walk::tree_end, crate::specs::Walk::proper_tree))]
pub fn nth_child(t: &[u32], at: usize, n: usize) -> Result<usize, NoTree>
    ensures { result ≡ nth_child t.now at n }
{
    let limit = end_of(t, at)?;
    let mut child = at + 1;
    for _passed in 0..n {
        child = tree_end(t, child, limit)?;
    }
    tree_at(t, child, limit)
}

// A lent table and a place in it, kept together. Its functions take it apart and call those above. The children of a node w
// stand from w.down() on, each at the next(end) of the one before it, where end is w.end().
#[derive(Clone, Copy)]
pub struct Walker<'a> {
    pub table: &'a [u32],
    pub at: usize,
}

impl<'a> Walker<'a> {
    // A walker at a place; the first node's is 0.
    pub fn make(table: &'a [u32], at: usize) -> Walker<'a>
        ensures { result ≡ walker_at table.entry at }
    {
        Walker { table, at }
    }

    // The same table at another place.
    pub fn moved(self, at: usize) -> Walker<'a>
        ensures { result ≡ walker_at self.entry.table at }
    {
        Walker {
            table: self.table,
            at,
        }
    }

    // The words of the node there, if there is one.
    pub fn node(self) -> Option<Node>
        ensures { result ≡ node_at self.entry.table.now self.entry.at }
    {
        node_at(self.table, self.at)
    }

    // Its kind, 0 where there is no node.
    pub fn kind(self) -> u32
        ensures { result ≡ kind_at self.entry.table.now self.entry.at }
    {
        kind_at(self.table, self.at)
    }

    // Where its subtree ends.
    pub fn end(self) -> Result<usize, NoTree>
        ensures { result ≡ end_of self.entry.table.now self.entry.at }
    {
        end_of(self.table, self.at)
    }

    // Its first child.
    pub fn down(self) -> Result<usize, NoTree>
        ensures { result ≡ first_child self.entry.table.now self.entry.at }
    {
        first_child(self.table, self.at)
    }

    // Its child that has n others before it.
    pub fn child(self, n: usize) -> Result<usize, NoTree>
        ensures { result ≡ nth_child self.entry.table.now self.entry.at n }
    {
        nth_child(self.table, self.at, n)
    }

    // Its next sibling, where the parent's subtree ends at the limit.
    pub fn next(self, limit: usize) -> Result<usize, NoTree>
        ensures { result ≡ next_sibling self.entry.table.now self.entry.at limit }
    {
        next_sibling(self.table, self.at, limit)
    }
}

// For callers that want no struct: the node at a place, by the walker.
pub fn look(table: &[u32], at: usize) -> Option<Node>
    ensures { result ≡ node_at table.now at }
{
    Walker::make(table, at).node()
}
