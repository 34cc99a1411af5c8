// The k-th step of a part by the cue: the modes in t are those of the state before, and become those of its k-th successor. A
// step is found by the counts that the counting pass left. A node hands its step down to a live part, at a place among that part's
// steps, or to both sides of a parallel that meet; standard and compensable nodes call each other, and child numbers fall.
#![tactic(auto)]

ghost use Rattle.std.specs.Prelude.{◌≡◌, ◌<◌, ◌≤◌, length, false};
ghost use Rattle.calculus.specs.Term.{done};
ghost use Rattle.flow.specs.Cues.{joint_by};
ghost use Rattle.flow.specs.Kinds.{node};
ghost use Rattle.tallies.specs.Formulas.{hold_g};
ghost use Rattle.states.specs.declared.Standing.TheVariants as standing;
ghost use Rattle.states.specs.declared.Course.TheVariants as course;
ghost use Rattle.states.specs.declared.Sense.TheVariants.{Drawn, Undoing};
ghost use Rattle.states.specs.declared.Role.TheVariants.{Plain, Running};
ghost use Rattle.states.specs.State.{modes, counts};
ghost use Rattle.states.specs.Rows.{notes, entries};
ghost use Rattle.states.specs.Stage.{scene_at, notes_at, SameLent};
ghost use Rattle.states.specs.Clauses.{Spot, Kept, Sets, scene, weight_of, ask, Chosen, Weighed, Ready, Stepped};
ghost use Rattle.states.specs.Hands.{move, stance_of, stand_in, course_in, gone, first_mode, second_mode, Passed, Meets};
ghost use Rattle.steps.specs.Turns.{Turned, halves, Forked};

use flow::{Operator, Two};
use states::{Basis, Course, Moving, Picked, Role, Sense, Standing};
use tallies::{Closing, Weight};

// Where a step goes on: a live part, the place among its steps, and whether it is the second of two. An enum would be no plainer: both of
// its variants would have the same two fields, and be taken apart for them wherever it is all one.
#[derive(Clone, Copy)]
struct Turn {
    node: usize,
    at: u32,
    second: bool,
}

fn count_at(c: &[u32; 64], i: usize) -> u32
    requires { i < 64 }
    ensures { result ≡ counts c.now i }
{
    c[i]
}

// The first of two live parts makes a step: a choice is made. The node is asked to be within, as a slice is lent and no struct.
fn enter_first(t: &mut [u8], i: usize, operator: Operator)
    requires { i < length t.old }
    ensures { Sets t.old i (first_mode operator (modes t.old i)) t.new }
{
    match operator {
        Operator::Choice => states::set_mode(t, i, states::FIRST_TAKEN),
        Operator::Sequence | Operator::Parallel(_) => {}
    }
}

// The second makes one: a choice is made, or a sequence goes on, and then its mode is `gone`.
fn enter_second(t: &mut [u8], i: usize, operator: Operator, gone: u8)
    requires { i < length t.old }
    ensures { Sets t.old i (second_mode operator gone (modes t.old i)) t.new }
{
    match operator {
        Operator::Sequence => states::set_mode(t, i, gone),
        Operator::Choice => states::set_mode(t, i, states::SECOND_TAKEN),
        Operator::Parallel(_) => {}
    }
}

// The mode of a sequence of standard parts that has gone on.
fn gone_on(sense: Sense) -> u8
    ensures { result ≡ gone sense }
{
    match sense {
        Sense::Drawn => states::MOVED_ON,
        Sense::Undoing => states::LEFT_FIRST,
    }
}

// Two live parts: the first's steps come first.
fn turn_two(
    t: &mut [u8],
    c: &[u32; 64],
    i: usize,
    operator: Operator,
    two: Two,
    gone: u8,
    k: u32,
) -> Turn
    requires i_in_bounds { i < length t.old }
    requires first_bound { two.first < 64 }
    ensures { Forked c.now t.old k (halves i operator two gone) t.new result }
{
    let n = count_at(c, two.first);
    if k < n {
        enter_first(t, i, operator);
        Turn {
            node: two.first,
            at: k,
            second: false,
        }
    } else {
        enter_second(t, i, operator, gone);
        Turn {
            node: two.second,
            at: k - n,
            second: true,
        }
    }
}

// The second of two standard parts makes the step: of a sequence, the first is passed.
fn pass(ns: &[u16], t: &mut [u8], operator: Operator, first: usize)
    requires { Spot ns.now t.old first }
    ensures { Passed ns.now operator first t.old t.new }
{
    match operator {
        Operator::Sequence => states::redraw(ns, t, first),
        Operator::Choice | Operator::Parallel(_) => {}
    }
}

// PP;QQ has gone on: a compensation of PP's done ending is chosen and held, and QQ makes the step, at the place answered.
fn hold(by: &Basis<'_>, s: &mut Moving<'_>, two: Two, j: u32) -> Picked
    requires spot { Spot by.now.ns.now s.old.t.now two.first }
    requires second_bound { two.second < 64 }
    requires weighed { Weighed (scene_at by.now s.old) (notes_at by.now s.old) two.first }
    requires j_bound { j < weight_of (scene_at by.now s.old) two.first done (hold_g (counts s.old.c two.second)) }
    ensures chosen { Chosen (scene_at by.now s.old) two.first (ask done (hold_g (counts s.old.c two.second)) j) s.new.t.now result }
    ensures noted { Kept by.now.ns.now two.first (entries (notes_at by.now s.old)) (entries (notes_at by.now s.new)) }
    ensures lent { SameLent s.old s.new }
{
    let own = count_at(&s.c, two.second);
    let each = Weight {
        own,
        moves: 0,
        able: 0,
    };
    seek::choose(by, s, two.first, Closing::Done, each, j)
}

// Two running parts. Where PP;QQ goes on, a compensation of PP's done ending is chosen, to be held while QQ makes the step.
fn turn_run(
    by: &Basis<'_>,
    s: &mut Moving<'_>,
    i: usize,
    operator: Operator,
    two: Two,
    k: u32,
) -> Turn
    requires ready { Ready (scene_at by.now s.old) Running (notes_at by.now s.old) i k }
    requires stands { course_in (scene_at by.now s.old) i ≡ course.Both operator two }
    requires apart { joint_by by.now.a operator ≡ false }
    ensures turned { Turned (scene_at by.now s.old) (notes_at by.now s.new) (move Running i k) s.new.t.now (move Running result.node result.at) }
    ensures noted { Kept by.now.ns.now i (entries (notes_at by.now s.old)) (entries (notes_at by.now s.new)) }
    ensures lent { SameLent s.old s.new }
{
    let x = turn_two(s.t, &s.c, i, operator, two, states::HELD, k);
    match operator {
        Operator::Sequence => {
            if x.second {
                let held = hold(by, s, two, x.at);
                let rest = held.rest;
                Turn {
                    node: x.node,
                    at: rest,
                    second: true,
                }
            } else {
                x
            }
        }
        Operator::Choice | Operator::Parallel(_) => x,
    }
}

// A block fails inside: a compensation that has a step is chosen. What was counted of it is told by the choice.
fn turn_out(by: &Basis<'_>, s: &mut Moving<'_>, i: usize, child: usize, k: u32) -> u32
    requires ready { Ready (scene_at by.now s.old) (Plain Drawn) (notes_at by.now s.old) i k }
    requires stands { stand_in (scene_at by.now s.old) Drawn i ≡ standing.Block child }
    requires child_bound { counts s.old.c child ≤ k }
    ensures turned { Turned (scene_at by.now s.old) (notes_at by.now s.new) (move (Plain Drawn) i k) s.new.t.now (move (Plain Undoing) child result) }
    ensures noted { Kept by.now.ns.now i (entries (notes_at by.now s.old)) (entries (notes_at by.now s.new)) }
    ensures lent { SameLent s.old s.new }
{
    let n = count_at(&s.c, child);
    states::set_mode(s.t, i, states::COMPENSATING);
    let each = Weight {
        own: 0,
        moves: 1,
        able: 0,
    };
    let x = seek::choose(by, s, child, Closing::Failed, each, k - n);
    x.rest
}

// The k-th step of a standard part. It is handed down in a loop, which costs half of what a call for each level does.
#[cycle(stepping)]
pub fn step_std(by: &Basis<'_>, s: &mut Moving<'_>, i: usize, sense: Sense, k: u32)
    requires { Ready (scene_at by.now s.old) (Plain sense) (notes_at by.now s.old) i k }
    ensures stepped { Stepped (scene_at by.now s.old) (Plain sense) i k s.new.t.now }
    ensures noted { Kept by.now.ns.now i (entries (notes_at by.now s.old)) (entries (notes_at by.now s.new)) }
    ensures lent { SameLent s.old s.new }
{
    let mut here = i;
    let mut live = sense;
    let mut at = k;
    loop {
        let t = &mut *s.t;
        let stands = states::stand_at(by.ns, t, here, live);
        match stands {
            Standing::Event(_) => return states::set_mode(s.t, here, states::TAKEN),
            Standing::Basic(_) => return,
            Standing::Both(operator, two) => {
                if states::joint_by(by.a, operator) {
                    return meet(by, s, here, two, Role::Plain(live), at);
                }
                let x = turn_two(s.t, &s.c, here, operator, two, gone_on(live), at);
                if x.second {
                    pass(by.ns, s.t, operator, two.first);
                }
                here = x.node;
                at = x.at;
            }
            Standing::Handler(two) => {
                let x = turn_two(
                    s.t,
                    &s.c,
                    here,
                    Operator::Sequence,
                    two,
                    states::MOVED_ON,
                    at,
                );
                if x.second {
                    states::redraw(by.ns, s.t, two.first);
                }
                here = x.node;
                at = x.at;
            }
            Standing::Block(child) => return step_block(by, s, here, child, at),
            Standing::As(sub) => {
                here = sub.node;
                live = sub.sense;
            }
        }
    }
}

// Of a block: inside, or out of it by a compensation.
#[cycle(stepping)]
fn step_block(by: &Basis<'_>, s: &mut Moving<'_>, i: usize, child: usize, k: u32)
    requires ready { Ready (scene_at by.now s.old) (Plain Drawn) (notes_at by.now s.old) i k }
    requires stands { stand_in (scene_at by.now s.old) Drawn i ≡ standing.Block child }
    ensures stepped { Stepped (scene_at by.now s.old) (Plain Drawn) i k s.new.t.now }
    ensures noted { Kept by.now.ns.now i (entries (notes_at by.now s.old)) (entries (notes_at by.now s.new)) }
    ensures lent { SameLent s.old s.new }
{
    if k < count_at(&s.c, child) {
        step_run(by, s, child, k);
    } else {
        let at = turn_out(by, s, i, child, k);
        step_std(by, s, child, Sense::Undoing, at);
    }
}

// The k-th step of a compensable part that runs.
#[cycle(stepping)]
pub fn step_run(by: &Basis<'_>, s: &mut Moving<'_>, i: usize, k: u32)
    requires { Ready (scene_at by.now s.old) Running (notes_at by.now s.old) i k }
    ensures stepped { Stepped (scene_at by.now s.old) Running i k s.new.t.now }
    ensures noted { Kept by.now.ns.now i (entries (notes_at by.now s.old)) (entries (notes_at by.now s.new)) }
    ensures lent { SameLent s.old s.new }
{
    let t = &mut *s.t;
    let runs = states::course_at(by.ns, t, i);
    match runs {
        Course::Basic(_) => {}
        Course::Pair(two) => step_std(by, s, two.first, Sense::Drawn, k),
        Course::Both(operator, two) => {
            if states::joint_by(by.a, operator) {
                return meet(by, s, i, two, Role::Running, k);
            }
            let x = turn_run(by, s, i, operator, two, k);
            step_run(by, s, x.node, x.at);
        }
        Course::Held(two) => step_run(by, s, two.second, k),
        Course::As(child) => step_run(by, s, child, k),
    }
}

// The k-th step of a part in a role.
#[cycle(stepping)]
fn step(by: &Basis<'_>, s: &mut Moving<'_>, i: usize, role: Role, k: u32)
    requires { Ready (scene_at by.now s.old) role (notes_at by.now s.old) i k }
    ensures stepped { Stepped (scene_at by.now s.old) role i k s.new.t.now }
    ensures noted { Kept by.now.ns.now i (entries (notes_at by.now s.old)) (entries (notes_at by.now s.new)) }
    ensures lent { SameLent s.old s.new }
{
    match role {
        Role::Plain(sense) => step_std(by, s, i, sense, k),
        Role::Running => step_run(by, s, i, k),
    }
}

// Both sides of a parallel in a role, by a joint event: each step of the first goes with all of the second.
#[cycle(stepping)]
fn meet(by: &Basis<'_>, s: &mut Moving<'_>, i: usize, two: Two, role: Role, k: u32)
    requires ready { Ready (scene_at by.now s.old) role (notes_at by.now s.old) i k }
    requires meets { Meets by.now.a role (stance_of role (node by.now.ns.now i) (modes s.old.t.now i)) two }
    ensures stepped { Stepped (scene_at by.now s.old) role i k s.new.t.now }
    ensures noted { Kept by.now.ns.now i (entries (notes_at by.now s.old)) (entries (notes_at by.now s.new)) }
    ensures lent { SameLent s.old s.new }
{
    let n = count_at(&s.c, two.second);
    step(by, s, two.first, role, k / n);
    step(by, s, two.second, role, k % n);
}
