// A running part ends by a closing and becomes one of its compensations: the one on which a number falls when each compensation
// has a weight. The modes in t are those of the state before, and become those of the state after; the answer says how far into
// the compensation the number falls, how many steps it has by the cue and whether it can end done. A compensation without
// weight is passed over without being looked at, however many there are. What is known of the parts that run is counted once, into
// a table, and read from there: a choice looks at each part a few times.
#![tactic(auto)]

ghost use Rattle.std.specs.Prelude.{◌≡◌, not, cond, ◌+◌, ◌*◌, ◌<◌, T, length, set};
ghost use Rattle.calculus.specs.Term.{done, withdrawn};
ghost use Rattle.calculus.specs.Successors.{eqc};
ghost use Rattle.flow.specs.declared.Operator.TheVariants.{Sequence, Choice, Parallel};
ghost use Rattle.tallies.specs.Capped.{cap};
ghost use Rattle.tallies.specs.Formulas.{closing, when_t, by_w, total, after_g, beside_g, partners_t, fitting_t};
ghost use Rattle.states.specs.declared.Course.TheVariants.{Pair, Both, Held};
ghost use Rattle.states.specs.declared.Sense.TheVariants.{Undoing};
ghost use Rattle.states.specs.Becomes.{Lands};
ghost use Rattle.states.specs.Rows.{share, row, notes};
ghost use Rattle.states.specs.Stage.{scene_at, notes_at, SameLent};
ghost use Rattle.states.specs.Clauses.{Spot, scene, noted_at, weight_of, ask, Chosen, Weighed, Undone};
ghost use Rattle.seek.specs.Asked.{course_at, asked, lone, PairLeft, UndoneBelow, Wanted, Below, SecondWanted, SecondChosen};

use flow::{Operator, Two};
use states::{Basis, Course, Moving, Picked};
use tallies::{Closing, Tally, Weight, Word};

// What is known of running parts ------------------------------------------------------------------------------------

// The three numbers of a tally that weights look at, at place k of the table. By what else compensations can end is not kept.
fn share(d: &[u32], k: usize) -> Tally
    requires { k + 2 < length d.now }
    ensures { result ≡ share d.now k }
{
    Tally {
        many: d[k],
        able: d[k + 1],
        moves: d[k + 2],
        withdraws: false,
        fails: false,
    }
}

// What is kept of node i's running part. Its own number of steps, which no weight looks at, is not.
fn word_at(d: &[u32], i: usize) -> Word
    requires { 9 * i + 8 < length d.now }
    ensures { result ≡ row d.now i }
{
    Word {
        moves: 0,
        done: share(d, 9 * i),
        withdrawn: share(d, 9 * i + 3),
        failed: share(d, 9 * i + 6),
    }
}

// Weights -----------------------------------------------------------------------------------------------------------

// On which of three endings a number falls, and how far into its weight.
#[derive(Clone, Copy)]
struct Fall {
    rest: u32,
    ending: Closing,
}

// Where the first two of them weigh x and y.
fn ending_at(x: u32, y: u32, j: u32) -> Fall
    ensures { Lands x y j (closing result.ending) result.rest }
{
    if j < x {
        return Fall {
            ending: Closing::Done,
            rest: j,
        };
    }
    let k = j - x;
    if k < y {
        Fall {
            ending: Closing::Withdrawn,
            rest: k,
        }
    } else {
        Fall {
            ending: Closing::Failed,
            rest: k - y,
        }
    }
}

// What is kept of the compensations of node i's running part by w. Functions on weights take the table and the node: with the word handed
// on in their stead, flows that are undone took 6 percent longer.
fn tally_at(d: &[u32], i: usize, w: Closing) -> Tally
    requires { 9 * i + 8 < length d.now }
    ensures { result ≡ by_w (row d.now i) (closing w) }
{
    word_at(d, i).by(w)
}

// The one compensation by done that is kept of node i, of a pair or of what is held, where j is left of the number.
fn lone_at(d: &[u32], i: usize, j: u32) -> Picked
    requires { 9 * i + 8 < length d.now }
    ensures { result ≡ lone (row d.now i) j }
{
    let y = share(d, 9 * i);
    Picked {
        rest: j,
        moves: y.moves,
        able: y.able != 0,
    }
}

// What all compensations of node i's running part by w weigh.
fn weight_by(d: &[u32], i: usize, w: Closing, g: Weight) -> u32
    requires { 9 * i + 8 < length d.now }
    ensures { result ≡ total (by_w (row d.now i) (closing w)) g }
{
    g.total(tally_at(d, i, w))
}

// What the compensations of PP, node i, weigh in PP;QQ by w: nothing if w is done, since then QQ goes on.
fn own_weight(d: &[u32], i: usize, w: Closing, g: Weight) -> u32
    requires { 9 * i + 8 < length d.now }
    ensures { result ≡ total (when_t (not (eqc (closing w) done)) (by_w (row d.now i) (closing w))) g }
{
    match w {
        Closing::Done => 0,
        Closing::Withdrawn | Closing::Failed => weight_by(d, i, w, g),
    }
}

// What a compensation of PP weighs with all those of QQ, node i, by w.
fn weight_before(d: &[u32], i: usize, w: Closing, g: Weight) -> Weight
    requires { 9 * i + 8 < length d.now }
    ensures { result ≡ after_g (by_w (row d.now i) (closing w)) g }
{
    g.after(tally_at(d, i, w))
}

// The steps of l;k, where l has so many and can end done or not.
fn moves_before(able: bool, l: u32, k: u32) -> u32
    ensures { result ≡ cond able (cap (l + k)) l }
{
    if able { tallies::sum(l, k) } else { l }
}

// Parallel: how many compensations of the second side, node i, go with endings x of the first and y of its own.
fn fitting_count(d: &[u32], i: usize, w: Closing, x: Closing, y: Closing) -> u32
    requires { 9 * i + 8 < length d.now }
    ensures { result ≡ (fitting_t (row d.now i) (closing w) (closing x) (closing y)).many }
{
    let y = word_at(d, i).fitting(w, x, y);
    y.many
}

// And how many with x whatever its own.
fn partner_count(d: &[u32], i: usize, w: Closing, x: Closing) -> u32
    requires { 9 * i + 8 < length d.now }
    ensures { result ≡ (partners_t (row d.now i) (closing w) (closing x)).many }
{
    let a = fitting_count(d, i, w, x, Closing::Done);
    let b = fitting_count(d, i, w, x, Closing::Withdrawn);
    let c = fitting_count(d, i, w, x, Closing::Failed);
    tallies::sum(tallies::sum(a, b), c)
}

// What a compensation of the first side by x weighs with all that go with it, joint or not. Where only they are counted, their number
// is enough: what is joint is a step.
fn beside(joint: bool, d: &[u32], i: usize, w: Closing, x: Closing, g: Weight) -> Weight
    requires { 9 * i + 8 < length d.now }
    ensures { result ≡ beside_g joint (partners_t (row d.now i) (closing w) (closing x)) g }
{
    if g.own_only() {
        let own = tallies::product(g.own, partner_count(d, i, w, x));
        return Weight {
            own,
            moves: 0,
            able: 0,
        };
    }
    g.beside(joint, word_at(d, i).partners(w, x))
}

// All those of the first side, by x, with all that go with them. Most are none, so this is told before.
fn side_weight(joint: bool, d: &[u32], two: Two, w: Closing, x: Closing, g: Weight) -> u32
    requires { (9 * two.first + 8 < length d.now) × (9 * two.second + 8 < length d.now) }
    ensures { result ≡ total (by_w (row d.now two.first) (closing x)) (beside_g joint (partners_t (row d.now two.second) (closing w) (closing x)) g) }
{
    let k = tally_at(d, two.first, x);
    if (k.many == 0) & (k.able == 0) & (k.moves == 0) {
        return 0;
    }
    beside(joint, d, two.second, w, x, g).total(k)
}

// By what the first side ends.
fn first_ending(joint: bool, d: &[u32], two: Two, w: Closing, g: Weight, j: u32) -> Fall
    requires { (9 * two.first + 8 < length d.now) × (9 * two.second + 8 < length d.now) }
    ensures { Lands (total (by_w (row d.now two.first) done) (beside_g joint (partners_t (row d.now two.second) (closing w) done) g)) (total (by_w (row d.now two.first) withdrawn) (beside_g joint (partners_t (row d.now two.second) (closing w) withdrawn) g)) j (closing result.ending) result.rest }
{
    ending_at(
        side_weight(joint, d, two, w, Closing::Done, g),
        side_weight(joint, d, two, w, Closing::Withdrawn, g),
        j,
    )
}

// All compensations of the second side by y that go with an ending x of the first.
fn fitting_weight(d: &[u32], i: usize, w: Closing, x: Closing, y: Closing, g: Weight) -> u32
    requires { 9 * i + 8 < length d.now }
    ensures { result ≡ total (fitting_t (row d.now i) (closing w) (closing x) (closing y)) g }
{
    if g.own_only() {
        return tallies::product(g.own, fitting_count(d, i, w, x, y));
    }
    g.total(word_at(d, i).fitting(w, x, y))
}

// By what the second side ends, where the first ends by x.
fn second_ending(d: &[u32], i: usize, w: Closing, x: Closing, g: Weight, j: u32) -> Fall
    requires { 9 * i + 8 < length d.now }
    ensures { Lands (total (fitting_t (row d.now i) (closing w) (closing x) done) g) (total (fitting_t (row d.now i) (closing w) (closing x) withdrawn) g) j (closing result.ending) result.rest }
{
    ending_at(
        fitting_weight(d, i, w, x, Closing::Done, g),
        fitting_weight(d, i, w, x, Closing::Withdrawn, g),
        j,
    )
}

// The search --------------------------------------------------------------------------------------------------------

// What is asked of a choice among compensations: what each weighs, the number that falls on one, and by which closing. The byte stands last:
// fields are laid out in this order, and behind a byte the others would be copied across what was written.
#[derive(Clone, Copy)]
struct Query {
    weight: Weight,
    number: u32,
    closing: Closing,
}

// Node i becomes one of its compensations, and the number of its steps takes the place of its own in c.
#[cycle(choosing)]
pub fn choose(by: &Basis<'_>, s: &mut Moving<'_>, i: usize, w: Closing, g: Weight, j: u32) -> Picked
    requires spot { Spot by.now.ns.now s.old.t.now i }
    requires weighed { Weighed (scene_at by.now s.old) (notes_at by.now s.old) i }
    requires j_bound { j < weight_of (scene_at by.now s.old) i (closing w) g }
    ensures chosen { Chosen (scene_at by.now s.old) i (ask (closing w) g j) s.new.t.now result }
    ensures counted { Undone (scene_at by.now s.new) i (notes_at by.now s.old) (notes_at by.now s.new) }
    ensures lent { SameLent s.old s.new }
{
    let p = choose_by(
        by,
        s,
        i,
        Query {
            closing: w,
            weight: g,
            number: j,
        },
    );
    counting::put_count(&mut s.c, i, p.moves);
    p
}

// By its course.
#[cycle(choosing)]
fn choose_by(by: &Basis<'_>, s: &mut Moving<'_>, i: usize, q: Query) -> Picked
    requires spot { Spot by.now.ns.now s.old.t.now i }
    requires weighed { Weighed (scene_at by.now s.old) (notes_at by.now s.old) i }
    requires number_bound { q.number < weight_of (scene_at by.now s.old) i (closing q.closing) q.weight }
    ensures chosen { Chosen (scene_at by.now s.old) i (asked q) s.new.t.now result }
    ensures counted { UndoneBelow (scene_at by.now s.new) i (notes_at by.now s.old) (notes_at by.now s.new) }
    ensures lent { SameLent s.old s.new }
{
    let t = &mut *s.t;
    let course = states::course_at(by.ns, t, i);
    match course {
        Course::Basic(_) => Picked {
            rest: q.number,
            moves: 0,
            able: true,
        },
        Course::Pair(two) => seek_pair(by.ns, s.t, by.d, i, two, q.closing, q.number),
        Course::Both(operator, two) => choose_both(by, s, i, operator, two, q),
        Course::Held(two) => {
            let k = lone_at(by.d, two.first, q.number);
            seek_second(by, s, i, two, q.closing, q.weight, k)
        }
        Course::As(child) => choose(by, s, child, q.closing, q.weight, q.number),
    }
}

#[cycle(choosing)]
fn choose_both(
    by: &Basis<'_>,
    s: &mut Moving<'_>,
    i: usize,
    operator: Operator,
    two: Two,
    q: Query,
) -> Picked
    requires wanted { Wanted (scene_at by.now s.old) i (Both operator two) (closing q.closing) q.weight q.number }
    requires weighed { Weighed (scene_at by.now s.old) (notes_at by.now s.old) i }
    ensures chosen { Chosen (scene_at by.now s.old) i (asked q) s.new.t.now result }
    ensures counted { UndoneBelow (scene_at by.now s.new) i (notes_at by.now s.old) (notes_at by.now s.new) }
    ensures lent { SameLent s.old s.new }
{
    match operator {
        Operator::Sequence => seek_running(by, s, i, two, q),
        Operator::Choice => seek_choice(by, s, i, two, q),
        Operator::Parallel(set) => seek_parallel(by, s, i, set, two, q),
    }
}

// P÷Q has one compensation by each closing. P is passed, by all of them.
fn seek_pair(ns: &[u16], t: &mut [u8], d: &[u32], i: usize, two: Two, w: Closing, j: u32) -> Picked
    requires spot { Spot ns.now t.old i }
    requires stands { course_at ns.now t.old i ≡ Pair two }
    requires i_in_bounds { 9 * i + 8 < length d.now }
    ensures { PairLeft ns.now t.old d.now i two (closing w) j t.new result }
{
    states::redraw(ns, t, two.first);
    match w {
        Closing::Done => {
            states::set_mode(t, i, states::LEFT_SECOND);
            lone_at(d, i, j)
        }
        Closing::Withdrawn | Closing::Failed => {
            states::set_mode(t, i, states::LEFT_NOTHING);
            Picked {
                rest: j,
                moves: 0,
                able: true,
            }
        }
    }
}

// Node i gets the mode m, and a child becomes one of its compensations.
#[cycle(choosing)]
fn seek_marked(
    by: &Basis<'_>,
    s: &mut Moving<'_>,
    i: usize,
    m: u8,
    child: usize,
    q: Query,
) -> Picked
    requires below { Below (scene_at by.now s.old) i child (closing q.closing) q.weight q.number }
    requires weighed { Weighed (scene_at by.now s.old) (notes_at by.now s.old) child }
    ensures chosen { Chosen (scene by.now.ns.now (set s.old.t.now i m) by.now.a) child (asked q) s.new.t.now result }
    ensures counted { Undone (scene_at by.now s.new) child (notes_at by.now s.old) (notes_at by.now s.new) }
    ensures lent { SameLent s.old s.new }
{
    states::set_mode(s.t, i, m);
    choose(by, s, child, q.closing, q.weight, q.number)
}

// PP;QQ whose PP has ended: QQ's compensation, and then PP's, k.
#[cycle(choosing)]
fn seek_second(
    by: &Basis<'_>,
    s: &mut Moving<'_>,
    i: usize,
    two: Two,
    w: Closing,
    g: Weight,
    k: Picked,
) -> Picked
    requires second_wanted { SecondWanted (scene_at by.now s.old) i two (closing w) g k }
    requires weighed { Weighed (scene_at by.now s.old) (notes_at by.now s.old) two.second }
    requires first_noted { T ((noted_at (scene_at by.now s.old) (notes_at by.now s.old) two.first).std Undoing) }
    ensures second_chosen { SecondChosen (scene_at by.now s.old) i two (closing w) g k s.new.t.now result }
    ensures counted { UndoneBelow (scene_at by.now s.new) i (notes_at by.now s.old) (notes_at by.now s.new) }
    ensures lent { SameLent s.old s.new }
{
    let inside = g.inside(k.moves, k.able);
    let inner = Query {
        closing: w,
        weight: inside,
        number: k.rest,
    };
    let l = seek_marked(by, s, i, states::LEFT_BOTH, two.second, inner);
    Picked {
        rest: l.rest,
        moves: moves_before(l.able, l.moves, k.moves),
        able: l.able & k.able,
    }
}

// PP closes by w, or it ends done and QQ closes by w.
#[cycle(choosing)]
fn seek_running(by: &Basis<'_>, s: &mut Moving<'_>, i: usize, two: Two, q: Query) -> Picked
    requires wanted { Wanted (scene_at by.now s.old) i (Both Sequence two) (closing q.closing) q.weight q.number }
    requires weighed { Weighed (scene_at by.now s.old) (notes_at by.now s.old) i }
    ensures chosen { Chosen (scene_at by.now s.old) i (asked q) s.new.t.now result }
    ensures counted { UndoneBelow (scene_at by.now s.new) i (notes_at by.now s.old) (notes_at by.now s.new) }
    ensures lent { SameLent s.old s.new }
{
    let own = own_weight(by.d, two.first, q.closing, q.weight);
    if q.number < own {
        return seek_marked(by, s, i, states::LEFT_FIRST, two.first, q);
    }
    let before = weight_before(by.d, two.second, q.closing, q.weight);
    let k = choose(by, s, two.first, Closing::Done, before, q.number - own);
    seek_second(by, s, i, two, q.closing, q.weight, k)
}

#[cycle(choosing)]
fn seek_choice(by: &Basis<'_>, s: &mut Moving<'_>, i: usize, two: Two, q: Query) -> Picked
    requires wanted { Wanted (scene_at by.now s.old) i (Both Choice two) (closing q.closing) q.weight q.number }
    requires weighed { Weighed (scene_at by.now s.old) (notes_at by.now s.old) i }
    ensures chosen { Chosen (scene_at by.now s.old) i (asked q) s.new.t.now result }
    ensures counted { UndoneBelow (scene_at by.now s.new) i (notes_at by.now s.old) (notes_at by.now s.new) }
    ensures lent { SameLent s.old s.new }
{
    let g = q.weight;
    let p = weight_by(by.d, two.first, q.closing, g);
    if q.number < p {
        return seek_marked(by, s, i, states::FIRST_TAKEN, two.first, q);
    }
    let rest = Query {
        closing: q.closing,
        weight: g,
        number: q.number - p,
    };
    seek_marked(by, s, i, states::SECOND_TAKEN, two.second, rest)
}

#[cycle(choosing)]
fn seek_parallel(
    by: &Basis<'_>,
    s: &mut Moving<'_>,
    i: usize,
    set: u16,
    two: Two,
    q: Query,
) -> Picked
    requires wanted { Wanted (scene_at by.now s.old) i (Both (Parallel set) two) (closing q.closing) q.weight q.number }
    requires weighed { Weighed (scene_at by.now s.old) (notes_at by.now s.old) i }
    ensures chosen { Chosen (scene_at by.now s.old) i (asked q) s.new.t.now result }
    ensures counted { UndoneBelow (scene_at by.now s.new) i (notes_at by.now s.old) (notes_at by.now s.new) }
    ensures lent { SameLent s.old s.new }
{
    let w = q.closing;
    let g = q.weight;
    let joint = states::joint(by.a, set);
    let x = first_ending(joint, by.d, two, w, g, q.number);
    let k = choose(
        by,
        s,
        two.first,
        x.ending,
        beside(joint, by.d, two.second, w, x.ending, g),
        x.rest,
    );
    let within = g.within(joint, k.moves, k.able);
    let y = second_ending(by.d, two.second, w, x.ending, within, k.rest);
    let l = choose(by, s, two.second, y.ending, within, y.rest);
    Picked {
        rest: l.rest,
        moves: tallies::sides(joint, k.moves, l.moves),
        able: k.able & l.able,
    }
}
