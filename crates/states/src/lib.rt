// A state: the modes of the nodes, one byte each, beside the table that never changes. `stand_at` and `course_at` say what is left of
// a part in a state, in the calculus's words, with the parts that are live; everything that counts, chooses or steps goes by them.
#![tactic(auto)]

ghost use Rattle.std.specs.Prelude.{◌≡◌, ◌≢◌, ◌+◌, ◌*◌, ◌<◌, length, set};
ghost use Rattle.flow.specs.Kinds.{node};
ghost use Rattle.flow.specs.Cues.{joint_at, joint_by};
ghost use Rattle.states.specs.Standings.{as_drawn, only, drawn_two, undoing_two, stand_drawn, stand_undoing, stand, course_two, course_of};
ghost use Rattle.states.specs.State.{modes};
ghost use Rattle.states.specs.Clauses.{Spot, Redrawn};

use flow::{Node, Operator, Simple, Two};

// A standard part is one that is drawn, or the compensation that a compensable part has become.
#[derive(Clone, Copy)]
pub enum Sense {
    Drawn,
    Undoing,
}

// What a part is live as: a standard part, or a compensable one that runs, which is a role and no absence of one.
#[derive(Clone, Copy)]
pub enum Role {
    Plain(Sense),
    Running,
}

// A part that is live in place of another.
#[derive(Clone, Copy)]
pub struct Sub {
    pub node: usize,
    pub sense: Sense,
}

// What a standard part is in a state. The parts of `Both` and `Handler` are live in the part's own sense; that of `Block` runs.
#[derive(Clone, Copy)]
pub enum Standing {
    Event(u16),
    Basic(Simple),
    Both(Operator, Two),
    Handler(Two),
    Block(usize),
    As(Sub),
}

// What a compensable part that runs is in a state. Both parts of a pair are drawn, the parts of `Both` run; of `Held` the second
// runs, and the first has become the compensation that is held for it.
#[derive(Clone, Copy)]
pub enum Course {
    Basic(Simple),
    Pair(Two),
    Both(Operator, Two),
    Held(Two),
    As(usize),
}

// What is known of a compensation that was picked by a number: how far into its weight the number falls, how many steps it has by
// the event, and whether it can end done.
#[derive(Clone, Copy)]
pub struct Picked {
    pub rest: u32,
    pub moves: u32,
    pub able: bool,
}

// What is counted of the parts of a state: a number of steps a node, and of those that run nine numbers a node.
#[derive(Clone, Copy)]
pub struct Noted {
    pub c: [u32; 64],
    pub d: [u32; 576],
}

pub const NOTHING_NOTED: Noted = Noted {
    c: [0; 64],
    d: [0; 576],
};

// What a choice or a step goes by: the table, the cue of the record, and what was counted of the parts that run.
#[derive(Clone, Copy)]
pub struct Basis<'a> {
    pub ns: &'a [u16],
    pub a: u64,
    pub d: &'a [u32],
}

// What it changes: the modes of the state, and a copy of the parts' numbers of steps.
#[derive(Drop)]
pub struct Moving<'a> {
    pub t: &'a mut [u8],
    pub c: [u32; 64],
}

// The modes of a node, by what it is: bytes and no enum, since a state lies in the caller's work bytes (01). All parts of a flow that is
// drawn have the first.
pub const AS_DRAWN: u8 = 0;

// An event has been taken.
pub const TAKEN: u8 = 1;

// P;Q and the handler have gone on to their second part.
pub const MOVED_ON: u8 = 1;

// A choice has been made.
pub const FIRST_TAKEN: u8 = 1;

pub const SECOND_TAKEN: u8 = 2;

// A block is undoing what was done in it.
pub const COMPENSATING: u8 = 1;

// A pair has left its second part to be done, or nothing.
pub const LEFT_SECOND: u8 = 1;

pub const LEFT_NOTHING: u8 = 2;

// PP;QQ holds PP's compensation; it has left PP's only; it has left QQ's and then PP's.
pub const HELD: u8 = 1;

pub const LEFT_FIRST: u8 = 2;

pub const LEFT_BOTH: u8 = 3;

fn mode_of(t: &[u8], i: usize) -> u8
    requires { i < length t.now }
    ensures { result ≡ modes t.now i }
{
    t[i]
}

pub fn set_mode(t: &mut [u8], i: usize, mode: u8)
    requires { i < length t.old }
    ensures { t.new ≡ set t.old i mode }
{
    t[i] = mode;
}

fn only(node: usize, sense: Sense) -> Standing
    ensures { result ≡ only node sense }
{
    Standing::As(Sub { node, sense })
}

// Of two standard parts.
fn drawn_two(operator: Operator, two: Two, mode: u8) -> Standing
    ensures { result ≡ drawn_two operator two mode }
{
    if mode == AS_DRAWN {
        return Standing::Both(operator, two);
    }
    match operator {
        Operator::Sequence => only(two.second, Sense::Drawn),
        Operator::Choice => {
            if mode == FIRST_TAKEN {
                only(two.first, Sense::Drawn)
            } else {
                only(two.second, Sense::Drawn)
            }
        }
        Operator::Parallel(_) => Standing::Both(operator, two),
    }
}

// A standard part as drawn.
fn as_drawn(node: Node) -> Standing
    ensures { result ≡ stand_drawn node as_drawn }
{
    match node {
        Node::Event(event) => Standing::Event(event),
        Node::Basic(simple) => Standing::Basic(simple),
        Node::Standard(operator, two) => Standing::Both(operator, two),
        Node::Handler(two) => Standing::Handler(two),
        Node::Block(child) => Standing::Block(child),
        _ => Standing::Basic(Simple::Skip),
    }
}

// What is left of one that is drawn no more.
fn moved(node: Node, mode: u8) -> Standing
    requires { mode ≢ as_drawn }
    ensures { result ≡ stand_drawn node mode }
{
    match node {
        Node::Basic(simple) => Standing::Basic(simple),
        Node::Standard(operator, two) => drawn_two(operator, two, mode),
        Node::Handler(two) => only(two.second, Sense::Drawn),
        Node::Block(child) => only(child, Sense::Undoing),
        _ => Standing::Basic(Simple::Skip),
    }
}

// Of two parts that have become their compensations: of PP;QQ the second's comes first.
fn undoing_two(operator: Operator, two: Two, mode: u8) -> Standing
    ensures { result ≡ undoing_two operator two mode }
{
    match operator {
        Operator::Sequence => {
            if mode == LEFT_FIRST {
                only(two.first, Sense::Undoing)
            } else {
                let back = Two {
                    first: two.second,
                    second: two.first,
                };
                Standing::Both(operator, back)
            }
        }
        Operator::Choice => {
            if mode == FIRST_TAKEN {
                only(two.first, Sense::Undoing)
            } else {
                only(two.second, Sense::Undoing)
            }
        }
        Operator::Parallel(_) => Standing::Both(operator, two),
    }
}

fn stand_undoing(node: Node, mode: u8) -> Standing
    ensures { result ≡ stand_undoing node mode }
{
    match node {
        Node::Pair(two) => {
            if mode == LEFT_SECOND {
                only(two.second, Sense::Drawn)
            } else {
                Standing::Basic(Simple::Skip)
            }
        }
        Node::Compensable(operator, two) => undoing_two(operator, two, mode),
        _ => Standing::Basic(Simple::Skip),
    }
}

// What node i is as a standard part. The node is decoded in each way by itself, so that the compiler makes one table of jumps of it.
pub fn stand_at(ns: &[u16], t: &[u8], i: usize, sense: Sense) -> Standing
    requires { Spot ns.now t.now i }
    ensures { result ≡ stand sense (node ns.now i) (modes t.now i) }
{
    let mode = mode_of(t, i);
    match sense {
        Sense::Drawn => {
            if mode == AS_DRAWN {
                as_drawn(flow::node_at(ns, i))
            } else {
                moved(flow::node_at(ns, i), mode)
            }
        }
        Sense::Undoing => stand_undoing(flow::node_at(ns, i), mode),
    }
}

// Of two compensable parts.
fn course_two(operator: Operator, two: Two, mode: u8) -> Course
    ensures { result ≡ course_two operator two mode }
{
    if mode == AS_DRAWN {
        return Course::Both(operator, two);
    }
    match operator {
        Operator::Sequence => Course::Held(two),
        Operator::Choice => {
            if mode == FIRST_TAKEN {
                Course::As(two.first)
            } else {
                Course::As(two.second)
            }
        }
        Operator::Parallel(_) => Course::Both(operator, two),
    }
}

// What node i is as a part that runs.
pub fn course_at(ns: &[u16], t: &[u8], i: usize) -> Course
    requires { Spot ns.now t.now i }
    ensures { result ≡ course_of (node ns.now i) (modes t.now i) }
{
    let node = flow::node_at(ns, i);
    match node {
        Node::Pair(two) => Course::Pair(two),
        Node::Compensable(operator, two) => course_two(operator, two, mode_of(t, i)),
        Node::Paired(word) => Course::Basic(word),
        _ => Course::Basic(Simple::Skip),
    }
}

// Whether the event of a cue is joint in the set of this number; none is where there is no set.
pub fn joint(cue: u64, set: u16) -> bool
    ensures { result ≡ joint_at cue set }
{
    if set >= flow::NO_SET {
        return false;
    }
    (cue >> (16 + set)) % 2 == 1
}

// Whether two parts that the operator joins take the event of a cue together.
pub fn joint_by(cue: u64, operator: Operator) -> bool
    ensures { result ≡ joint_by cue operator }
{
    match operator {
        Operator::Sequence | Operator::Choice => false,
        Operator::Parallel(set) => joint(cue, set),
    }
}

// Node i and all under it get the modes of the drawn flow: what is dropped or passed has no other, so that equal states have equal modes.
pub fn redraw(ns: &[u16], t: &mut [u8], i: usize)
    requires { Spot ns.now t.old i }
    ensures { Redrawn ns.now i t.old t.new }
{
    set_mode(t, i, AS_DRAWN);
    let form = flow::form_at(ns, i);
    if form.kids == 0 {
        return;
    }
    redraw(ns, t, flow::first_at(ns, i) as usize);
    if form.kids == 2 {
        redraw(ns, t, flow::second_at(ns, i) as usize);
    }
}
