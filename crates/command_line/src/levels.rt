// The nodes of a table in order, with the subtrees that are open there.

ghost use Rattle.std.specs.Prelude.{◌≡◌, []};
ghost use Rattle.command_line.specs.Levels.{open_at, opened, met, last, subtree_end, IsKindOf};
ghost use Rattle.walker.specs.Walk.{kind_at};

use grammar::Kind;
use std::marker::Model;

// How many subtrees are kept open: more than the 16 levels of docs/RULES.md can nest.
pub const DEEPEST: usize = 128;

// An open subtree: where it ends, its own node's kind, and how many of what it holds have been met.
#[derive(Clone, Copy)]
pub struct Level {
    pub end: usize,
    pub kind: Option<Kind>,
    pub met: usize,
}

// The open subtrees, each in the one before it. An array with its depth: a Vec would ask for memory at each level, and can fail.
#[derive(Drop)]
pub struct Levels {
    levels: [Level; DEEPEST],
    depth: usize,
}

impl Model for Levels {
    ghost use Rattle.std.specs.Prelude.{◌≤◌, List, take};
    ghost use Rattle.command_line.specs.declared.levels.Level.{Level};

    ghost Value = { List Level };

    ghost view = { λ s. take s.depth s.levels };

    ghost invariant = { λ s. s.depth ≤ 128 };
}

impl Levels {
    pub fn new() -> Levels
        ensures { result ≡ [] }
    {
        let none = Level {
            end: 0,
            kind: None,
            met: 0,
        };
        Levels {
            levels: [none; DEEPEST],
            depth: 0,
        }
    }

    pub fn as_slice(&self) -> &[Level]
        ensures { result.now ≡ self.now }
    {
        &self.levels[..self.depth]
    }

    // The innermost.
    pub fn last(&self) -> Option<Level>
        ensures { result ≡ last self.now }
    {
        self.as_slice().last().copied()
    }

    // One more of what the innermost holds has been met: the innermost as it was.
    #[tactic(auto, using(crate::proofs::Stack::met_inside))]
    pub fn meet(&mut self) -> Option<Level>
        ensures before { result ≡ last self.old }
        ensures after { self.new ≡ met self.old }
    {
        let level = self.last()?;
        self.levels[self.depth - 1] = Level {
            met: level.met.saturating_add(1),
            ..level
        };
        Some(level)
    }

    // Only those that reach to this node stay open. What is counted down is the depth, by what the last one says: no iterator has that.
    #[tactic(auto, using(crate::proofs::Stack::closed_at, crate::proofs::Stack::closed_all))]
    pub fn close(&mut self, at: usize)
        ensures { self.new ≡ open_at self.old at }
    {
        while 0 < self.depth && self.levels[self.depth - 1].end <= at {
            self.depth -= 1;
        }
    }

    // One more is open, if there is room for it.
    pub fn open(&mut self, level: Level)
        ensures { self.new ≡ opened self.old level }
    {
        if self.depth < DEEPEST {
            self.levels[self.depth] = level;
            self.depth += 1;
        }
    }
}

// Where a node's subtree ends; at the node itself, if the table does not say.
pub fn subtree_end(t: &[u32], at: usize) -> usize
    ensures { result ≡ subtree_end t.now at }
{
    walker::end_of(t, at).unwrap_or(at)
}

// A node's kind, if the table has a node there and its number is that of a kind.
pub fn kind_of(t: &[u32], at: usize) -> Option<Kind>
    ensures { IsKindOf (kind_at t.now at) result }
{
    Kind::try_from(walker::kind_at(t, at)).ok()
}
