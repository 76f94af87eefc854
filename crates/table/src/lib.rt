//! Cursors and the lent table of nodes: four words a node, a parent before its children.
//! `specs/Cursor.antt` says what an answer means, `specs/Promise.antt` what every reader promises.

#![tactic(auto)]

ghost use Rattle.std.specs.Prelude.{ℕ, ◌≡◌, ◌+◌, ◌*◌, ◌≤◌, ◌<◌, Ok};
ghost use Rattle.grammar.specs.Grammar.{G, mark};
ghost use Rattle.grammar.specs.Reading.{length_limit};
ghost use Rattle.table.specs.Promise.{Stands, Reads, Moved, Begun, Put, Leafed, Lends, Finished, Listed, Headed, Ready, Fits, Within, Callable, Optional};
ghost use Rattle.table.specs.Lists.{ListsBy, Listing, HoldsBy, Holding};

// Where a reading is: a place in the buffer, and the nodes so far.
#[derive(Clone, Copy, Debug, PartialEq, Eq)]
pub struct Cursor {
    pub place: usize,
    pub nodes: usize,
}

// How a reading ended: `wanted` bytes are missing of a literal's content (0: of something else), it is not the grammar, or too deep.
#[derive(Clone, Copy, Debug, PartialEq, Eq)]
pub enum Failure {
    Unfinished { wanted: usize },
    Refused,
    TooDeep,
}

// What a reader answers, and goes on from. Buffer, cursor and table are three parameters and no struct: a structure lends what reads its
// children a part of the table and a cursor of its own, and the room for marks that a clause asks for (`Stands`) differs by reader.
// Alternatives stand one behind the other, with `let Err(Failure::Refused) = r else { return r; };` between two of them: a function over
// both would take a closure, with clauses as long as these lines, for each that is given a word or a level.
pub type IResult = Result<Cursor, Failure>;

impl Cursor {
    // The same place with no nodes before it: where the children of a structure are read from.
    pub fn start(self) -> Cursor
        ensures { Begun self result }
    {
        Cursor {
            place: self.place,
            nodes: 0,
        }
    }

    // Another place, with the same nodes.
    pub fn moved(self, next: usize) -> Cursor
        ensures { Moved self next result }
    {
        Cursor {
            place: next,
            nodes: self.nodes,
        }
    }
}

// ----- the table -----

// The n-th node's words, if the table has room for them. The kind is a number here and in what follows: the promises hold for any word.
#[tactic(auto, using(crate::proofs::Puts::put_done, crate::proofs::Puts::put_none))]
fn put(t: &mut [u32], n: usize, kind: u32, a: u32, b: u32, size: u32)
    requires { n < 4294967296 }
    ensures { Put n kind a b size t.old t.new }
{
    let k = 4 * n;
    if k + 4 <= t.len() {
        t[k..k + 4].copy_from_slice(&[kind, a, b, size]);
    }
}

// A node without children, read up to `next`. What `Ready` bounds is no part of `Cursor`'s type: `start` and `moved` promise for any.
pub fn leaf(t: &mut [u32], c: Cursor, kind: u32, a: u32, b: u32, next: usize) -> Cursor
    requires { Ready c }
    ensures { Leafed kind a b next c result t.old t.new }
{
    put(t, c.nodes, kind, a, b, 1);
    Cursor {
        place: next,
        nodes: c.nodes + 1,
    }
}

// A node that stands for no bytes: `spare` pays for it.
pub fn mark(s: &[u8], c: IResult, t: &mut [u32], kind: u32, a: u32) -> IResult
    requires { Stands 1 s.now c }
    ensures { Reads 0 (mark kind a) s.now c result t.old t.new }
{
    let c = c?;
    put(t, c.nodes, kind, a, 0, 1);
    Ok(Cursor {
        place: c.place,
        nodes: 1 + c.nodes,
    })
}

// Where the words behind the next node begin, for its children; or the table's end.
#[tactic(auto, using(crate::proofs::Puts::lends_next, crate::proofs::Puts::lends_none))]
pub fn inside(len: usize, c: Cursor) -> usize
    requires { Ready c }
    ensures { Lends len c result }
{
    let k = 4 * c.nodes + 4;
    if k <= len { k } else { len }
}

// A structure's own words, once its children stand behind them.
pub fn finish(t: &mut [u32], kind: u32, c: Cursor, inner: IResult) -> IResult
    requires ready { Ready c }
    requires fits { Fits c inner }
    ensures { Finished kind c inner result t.old t.new }
{
    let inner = inner?;
    let m = inner.nodes + 1;
    put(
        t,
        c.nodes,
        kind,
        c.place as u32,
        inner.place as u32,
        m as u32,
    );
    Ok(Cursor {
        place: inner.place,
        nodes: c.nodes + m,
    })
}

// The end of a list: an item that was refused ends it, and its own words are put before its items; any other failure ends the reading.
pub fn list(t: &mut [u32], c: Cursor, inner: Cursor, count: u32, last: IResult) -> IResult
    requires ready { Ready c }
    requires fits { Fits c (Ok inner) }
    ensures { Listed count c inner last result t.old t.new }
{
    let Err(Failure::Refused) = last else {
        return last;
    };
    let m = inner.nodes + 1;
    put(t, c.nodes, grammar::KIND_LIST, count, 0, m as u32);
    Ok(Cursor {
        place: inner.place,
        nodes: c.nodes + m,
    })
}

// The node at c takes in those after it, to where they end; its kind, the first word, stays.
#[tactic(auto, using(crate::proofs::Puts::head_done))]
pub fn head(t: &mut [u32], c: Cursor, inner: IResult) -> IResult
    requires ready { Ready c }
    requires fits { Fits c inner }
    requires within { Within c inner }
    ensures { Headed c inner result t.old t.new }
{
    let inner = inner?;
    let k = 4 * c.nodes;
    if k + 4 <= t.len() {
        t[k + 1] = c.place as u32;
        t[k + 2] = inner.place as u32;
        t[k + 3] = (inner.nodes - c.nodes) as u32;
    }
    Ok(inner)
}

// ----- readers that are passed -----

// What `read` reads, or a mark where it refuses.
pub fn opt<F: Fn(&[u8], IResult, &mut [u32]) -> IResult>(
    s: &[u8],
    c: IResult,
    t: &mut [u32],
    kind: u32,
    a: u32,
    read: F,
) -> IResult
    requires stands { Stands 1 s.now c }
    requires callable { Callable F.Fn read }
    ensures { Optional F.Fn kind a read s.now c result t.old t.new }
{
    let r = read(s, c, t);
    let Err(Failure::Refused) = r else {
        return r;
    };
    mark(s, c, t, kind, a)
}

// A structure: what `read` reads, behind its own node.
pub fn parent<F: Fn(&[u8], IResult, &mut [u32]) -> IResult>(
    s: &[u8],
    c: IResult,
    t: &mut [u32],
    kind: u32,
    read: F,
) -> IResult
    requires stands { Stands 0 s.now c }
    requires holds { (depth : ℕ) × (g : G) × HoldsBy F.Fn depth kind g read }
    ensures { Holding F.Fn kind read s.now c result t.old t.new }
{
    let c = c?;
    let k = inside(t.len(), c);
    let inner = read(s, Ok(c.start()), &mut t[k..]);
    finish(t, kind, c, inner)
}

// A first item, and the next ones until one is refused: a list's node with its items behind it. What is counted is items, and what ends
// them is their reader's answer, which `list` is handed: no iterator has that.
pub fn items<
    First: Fn(&[u8], IResult, &mut [u32]) -> IResult,
    Next: Fn(&[u8], IResult, &mut [u32]) -> IResult,
>(s: &[u8], c: IResult, t: &mut [u32], first: First, next: Next) -> IResult
    requires stands { Stands 0 s.now c }
    requires lists { (depth : ℕ) × (of : G × G) × ListsBy First.Fn Next.Fn depth of first next }
    ensures { Listing First.Fn Next.Fn first next s.now c result t.old t.new }
{
    let c = c?;
    let k = inside(t.len(), c);
    let mut e = first(s, Ok(c.start()), &mut t[k..])?;
    let mut count: u32 = 1;
    loop {
        match next(s, Ok(e), &mut t[k..]) {
            Ok(more) => e = more,
            Err(failure) => return list(t, c, e, count, Err(failure)),
        }
        count += 1;
    }
}
