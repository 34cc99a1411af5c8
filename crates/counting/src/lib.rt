// The counting pass over a state: what each live part can do by the next record's cue, from its live parts. What is known of the parts is
// left in two tables, for all successors of the state to be found by: each part's number of steps in `c`, and in `d`, nine numbers a node,
// of a part that runs what weights look at, of one that is held whether it can end done. Only nodes that are live in the state are
// visited. Standard and compensable nodes call each other, and child numbers fall.
#![tactic(auto)]

ghost use Rattle.std.specs.Prelude.{◌≡◌, ◌+◌, ◌<◌, length};
ghost use Rattle.flow.specs.Cues.{takes_cue};
ghost use Rattle.tallies.specs.Formulas.{skip_v, ev_v, pair_w};
ghost use Rattle.states.specs.declared.Role.TheVariants.{Plain, Running};
ghost use Rattle.states.specs.Rows.{Shared, Written, notes};
ghost use Rattle.states.specs.Clauses.{Spot, Sets, scene, Counted};
ghost use Rattle.counting.specs.Wholes.{by_simple, by_operator};

use flow::{Operator, Simple};
use states::{Course, Noted, Sense, Standing};
use tallies::{Known, Tally, View, Word};

// A count is written, through a slice, which knows its length.
pub fn put_count(c: &mut [u32], i: usize, n: u32)
    requires { i < length c.old }
    ensures { Sets c.old i n c.new }
{
    c[i] = n;
}

// A node's number of steps is noted, and what is seen of it answered. That a node's number is below 64 follows from its place in a tree,
// which only the cycle below knows of.
fn note(c: &mut [u32; 64], i: usize, v: View) -> View
    requires { i < 64 }
    ensures value { result ≡ v }
    ensures noted { Sets c.old i v.moves c.new }
{
    put_count(c, i, v.moves);
    v
}

// The three numbers of a tally that weights look at, from place k on. By what else compensations can end is not kept.
fn put_tally(d: &mut [u32], k: usize, x: Tally)
    requires { k + 2 < length d.old }
    ensures { Shared d.old k x d.new }
{
    d[k] = x.many;
    d[k + 1] = x.able;
    d[k + 2] = x.moves;
}

// What is known of node i's running part is kept, nine numbers a node.
fn keep(d: &mut [u32; 576], i: usize, x: Word)
    requires { i < 64 }
    ensures { Written d.old i x d.new }
{
    put_tally(d, 9 * i, x.done);
    put_tally(d, 9 * i + 3, x.withdrawn);
    put_tally(d, 9 * i + 6, x.failed);
}

// Both, and what is seen is answered.
fn note_word(noted: &mut Noted, i: usize, v: Word) -> Word
    requires { i < 64 }
    ensures value { result ≡ v }
    ensures noted { Sets noted.old.c i v.moves noted.new.c }
    ensures kept { Written noted.old.d i v noted.new.d }
{
    put_count(&mut noted.c, i, v.moves);
    keep(&mut noted.d, i, v);
    v
}

// Of a compensation that is held it is kept whether it can end done.
fn note_held(d: &mut [u32; 576], i: usize, v: View)
    requires { i < 64 }
    ensures { Written d.old i (pair_w skip_v v) d.new }
{
    keep(d, i, Word::pair(View::skip(), v));
}

// Whether a leaf of this event takes the record of the cue: it is the record's own event, or the other one.
fn takes(cue: u64, event: u16) -> bool
    ensures { result ≡ takes_cue cue event }
{
    let e = u64::from(event);
    (cue % 65536 == e) | (cue / 4294967296 == e)
}

fn event_view(cue: u64, event: u16) -> View
    ensures { result ≡ ev_v (takes_cue cue event) }
{
    View::event(takes(cue, event))
}

// What is known of SKIP, THROW or YIELD, as a standard part or as one that runs.
#[tactic(auto, unfolding(crate::specs::Wholes::by_simple))]
fn basic<K: Known>(simple: Simple) -> K
    ensures { result ≡ by_simple K.of_skip K.of_throw K.of_yield simple }
{
    match simple {
        Simple::Skip => K::skip(),
        Simple::Throw => K::throw(),
        Simple::Yield => K::yields(),
    }
}

// And of two parts of either sort that the operator joins.
#[tactic(auto, unfolding(crate::specs::Wholes::by_operator))]
fn both<K: Known>(cue: u64, operator: Operator, p: K, q: K) -> K
    ensures { result ≡ by_operator K.of_sequence K.of_choice K.of_parallel cue operator p q }
{
    match operator {
        Operator::Sequence => K::sequence(p, q),
        Operator::Choice => K::choice(p, q),
        Operator::Parallel(set) => K::parallel(states::joint(cue, set), p, q),
    }
}

// What node i can do as a standard part. A part that is live in place of another is counted where it stands, without a call.
#[cycle(counting)]
pub fn count_std(ns: &[u16], t: &[u8], a: u64, noted: &mut Noted, i: usize, sense: Sense) -> View
    requires { Spot ns.now t.now i }
    ensures { Counted (scene ns.now t.now a) (Plain sense) i (notes noted.old.c noted.old.d) (notes noted.new.c noted.new.d) result }
{
    let mut here = i;
    let mut live = sense;
    loop {
        let stands = states::stand_at(ns, t, here, live);
        match stands {
            Standing::Event(event) => return note(&mut noted.c, i, event_view(a, event)),
            Standing::Basic(simple) => return note(&mut noted.c, i, basic(simple)),
            Standing::Both(operator, two) => {
                let p = count_std(ns, t, a, noted, two.first, live);
                let q = count_std(ns, t, a, noted, two.second, live);
                return note(&mut noted.c, i, both(a, operator, p, q));
            }
            Standing::Handler(two) => {
                let p = count_std(ns, t, a, noted, two.first, live);
                let q = count_std(ns, t, a, noted, two.second, live);
                return note(&mut noted.c, i, View::handler(p, q));
            }
            Standing::Block(child) => {
                let w = count_run(ns, t, a, noted, child);
                return note(&mut noted.c, i, View::block(w));
            }
            Standing::As(sub) => {
                here = sub.node;
                live = sub.sense;
            }
        }
    }
}

// What node i can do as a part that runs.
#[cycle(counting)]
pub fn count_run(ns: &[u16], t: &[u8], a: u64, noted: &mut Noted, i: usize) -> Word
    requires { Spot ns.now t.now i }
    ensures { Counted (scene ns.now t.now a) Running i (notes noted.old.c noted.old.d) (notes noted.new.c noted.new.d) result }
{
    let runs = states::course_at(ns, t, i);
    match runs {
        Course::Basic(simple) => note_word(noted, i, basic(simple)),
        Course::Pair(two) => {
            let p = count_std(ns, t, a, noted, two.first, Sense::Drawn);
            if !p.done {
                // the second part is looked at only where the first can end done
                return note_word(noted, i, Word::pair(p, View::skip()));
            }
            let q = count_std(ns, t, a, noted, two.second, Sense::Drawn);
            note_word(noted, i, Word::pair(p, q))
        }
        Course::Both(operator, two) => {
            let p = count_run(ns, t, a, noted, two.first);
            let q = count_run(ns, t, a, noted, two.second);
            note_word(noted, i, both(a, operator, p, q))
        }
        Course::Held(two) => {
            let k = count_std(ns, t, a, noted, two.first, Sense::Undoing);
            note_held(&mut noted.d, two.first, k);
            let q = count_run(ns, t, a, noted, two.second);
            note_word(noted, i, q.held(k))
        }
        Course::As(child) => {
            let w = count_run(ns, t, a, noted, child);
            note_word(noted, i, w)
        }
    }
}
