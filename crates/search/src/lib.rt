// The counted search of a flow, by the cues of the records: from the drawn flow, in lent work bytes. Where the records are a beginning, it
// goes through all their runs, and finds out which of the cues that are asked for can follow. What is refused, and what an answer tells,
// is for those that call it.
#![tactic(auto)]

ghost use Rattle.std.specs.Prelude.{◌≡◌, [], ◌∷◌, map, ◌+◌, ◌*◌, ◌-◌, ◌<◌, ◌≤◌, length, get_or, replicate, true, false, Some};
ghost use Rattle.std.proofs.Math.Seq.{paste};
ghost use Rattle.calculus.specs.Records.{Fits, over};
ghost use Rattle.calculus.specs.Search.{next};
ghost use Rattle.calculus.specs.Ahead.{may_follow};
ghost use Rattle.calculus.specs.Spending.{left_of};
ghost use Rattle.calculus.specs.Successors.{only};
ghost use Rattle.flow.specs.Cues.{done_cue, failed_cue, cue_record, cue_records};
ghost use Rattle.flow.specs.Refusals.{root};
ghost use Rattle.tallies.specs.Capped.{most};
ghost use Rattle.tallies.specs.Formulas.{closing};
ghost use Rattle.states.specs.Clauses.{Spot};
ghost use Rattle.search.specs.Room.{room_of, cleared};
ghost use Rattle.search.specs.Searches.{role_of, LeftWithin, SearchReady, Searched, answered, went_through, Asked};
ghost use Rattle.search.specs.Visits.{state, role_next, out_of, closing_of, ends_by, onward, VisitReady, Asking, key_of, saw_none, Truthful, KeptOut, quest, Began, Visited, Tried, Followed, Inner, ends, RightCounts, successor_count, SuccessorsCounted, Applied};

use memory::{Sight, Slot};
use states::{Basis, Moving, Noted, Role, Sense};
use tallies::{Closing, View, Weight};

// What a search brings back, unless its allowance is used up: whether it found the end, how many records at most it followed, and what is
// left of the allowance.
#[derive(Clone, Copy)]
pub struct Trip {
    pub found: bool,
    pub far: u32,
    pub left: u32,
}

// An ask whose record can follow. No cue is as low, and neither is 0, which asks nothing. Asks are numbers beside cues, and no type of
// their own: the definitions `answered` and `Asking` name them so.
pub const FOLLOWS: u64 = 1;

// The closing of a record's cue.
fn closing_of(cue: u64) -> Closing
    ensures { closing result ≡ closing_of cue }
{
    match cue {
        flow::DONE_CUE => Closing::Done,
        flow::WITHDRAWN_CUE => Closing::Withdrawn,
        _ => Closing::Failed,
    }
}

// Whether what is viewed can end by this closing.
fn ends_by(v: View, cue: u64) -> bool
    ensures { result ≡ ends_by v (closing_of cue) }
{
    match cue {
        flow::DONE_CUE => v.done,
        flow::WITHDRAWN_CUE => v.withdraws,
        _ => v.fails,
    }
}

// A state, as its root has it: the table, the modes, and what the root is live as.
#[derive(Clone, Copy)]
struct Root<'a> {
    ns: &'a [u16],
    t: &'a [u8],
    role: Role,
    ghost some: { 3 ≤ length ns.now },
    ghost spot: { Spot ns.now t.now (root ns.now) },
}

// The last node is the root.
fn root_of(ns: &[u16]) -> usize
    requires { 3 ≤ length ns.now }
    ensures { result ≡ root ns.now }
{
    ns.len() / 3 - 1
}

// How many successors a state has by a record that does not end the search. What is known of its parts is left in c and d, for all of
// them to be found by.
fn successors(here: Root<'_>, cue: u64, noted: &mut Noted) -> u32
    requires inner { Inner here.role cue }
    requires d_len { length noted.old.d ≡ 576 }
    ensures { let s = here.entry in SuccessorsCounted s.ns.now s.role cue s.t.now noted.new.c noted.new.d result }
{
    let Root { ns, t, role } = here;
    let i = root_of(ns);
    match role {
        Role::Plain(sense) => {
            let v = counting::count_std(ns, t, cue, noted, i, sense);
            v.moves
        }
        Role::Running => {
            let w = counting::count_run(ns, t, cue, noted, i);
            if cue < flow::DONE_CUE {
                w.moves
            } else {
                let y = w.by(closing_of(cue));
                y.many
            }
        }
    }
}

// The modes become those of the k-th successor.
fn apply(ns: &[u16], t: &mut [u8], cue: u64, noted: &Noted, role: Role, k: u32)
    requires spot { Spot ns.now t.old (root ns.now) }
    requires in_bounds { (3 ≤ length ns.now) × Inner role cue }
    requires right_counts { RightCounts ns.now role cue t.old noted.now.c noted.now.d }
    requires k_bound { k < successor_count ns.now role cue t.old }
    ensures { Applied ns.now role cue t.old k t.new }
{
    let i = root_of(ns);
    let by = Basis {
        ns,
        a: cue,
        d: &noted.d,
    };
    let mut s = Moving { t, c: noted.c };
    match role {
        Role::Plain(sense) => steps::step_std(&by, &mut s, i, sense, k),
        Role::Running => {
            if cue < flow::DONE_CUE {
                steps::step_run(&by, &mut s, i, k);
            } else {
                let each = Weight {
                    own: 1,
                    moves: 0,
                    able: 0,
                };
                seek::choose(&by, &mut s, i, closing_of(cue), each, k);
            }
        }
    }
}

// A closing makes of a part that runs its compensation.
fn role_after(role: Role, cue: u64) -> Role
    ensures { result ≡ role_next role cue }
{
    match role {
        Role::Plain(sense) => Role::Plain(sense),
        Role::Running => {
            if cue < flow::DONE_CUE {
                Role::Running
            } else {
                Role::Plain(Sense::Undoing)
            }
        }
    }
}

// Whether the root can end by the last record.
fn can_end(here: Root<'_>, cue: u64) -> bool
    requires { Fits (state here.ns.now here.role here.t.now) (cue_records (cue ∷ [])) }
    ensures { let s = here.entry in next (state s.ns.now s.role s.t.now) (cue_record cue) ≡ only result (over ∷ []) }
{
    let Root { ns, t, role } = here;
    let i = root_of(ns);
    let mut noted = states::NOTHING_NOTED;
    match role {
        Role::Plain(sense) => {
            let v = counting::count_std(ns, t, cue, &mut noted, i, sense);
            ends_by(v, cue)
        }
        Role::Running => false,
    }
}

// The last record, a closing: nothing left, if the root can end so.
fn finish(here: Root<'_>, cue: u64, left: u32) -> Option<Trip>
    requires { Fits (state here.ns.now here.role here.t.now) (cue_records (cue ∷ [])) }
    ensures { let s = here.entry in out_of result ≡ onward (state s.ns.now s.role s.t.now) cue [] left }
{
    if !can_end(here, cue) {
        return Some(Trip {
            found: false,
            far: 0,
            left: left,
        });
    }
    if left == 0 {
        None
    } else {
        Some(Trip {
            found: true,
            far: 1,
            left: left - 1,
        })
    }
}

// Whether the record of a cue can follow in this state.
fn follows(here: Root<'_>, cue: u64) -> bool
    requires { cue ≤ failed_cue }
    ensures { let s = here.entry in result ≡ may_follow [] (state s.ns.now s.role s.t.now) (cue_record cue) }
{
    if ends(here.role, cue) {
        return can_end(here, cue);
    }
    let mut noted = states::NOTHING_NOTED;
    successors(here, cue, &mut noted) > 0
}

// An ask whose record can follow in this state is answered; others stay.
fn answer(here: Root<'_>, cue: u64) -> u64
    requires { cue ≤ failed_cue }
    ensures { let s = here.entry in result ≡ answered (state s.ns.now s.role s.t.now) [] cue }
{
    if cue <= FOLLOWS {
        return cue;
    }
    if follows(here, cue) { FOLLOWS } else { cue }
}

// The asks are answered by this state, where the records end. What is answered already is not tried again.
fn gather(here: Root<'_>, asks: &mut [u64])
    requires { Asking asks.old }
    ensures { let s = here.entry in asks.new ≡ map (answered (state s.ns.now s.role s.t.now) []) asks.old }
{
    for ask in asks.iter_mut() {
        *ask = answer(here, *ask);
    }
}

// The records end here: what is asked is answered, and there is no more to follow.
fn arrive(here: Root<'_>, asks: &mut [u64], left: u32) -> Option<Trip>
    requires { Asking asks.old }
    ensures value { result ≡ Some (record { found = false; far = 0; left = left }) }
    ensures asked { let s = here.entry in asks.new ≡ map (answered (state s.ns.now s.role s.t.now) []) asks.old }
{
    gather(here, asks);
    Some(Trip {
        found: false,
        far: 0,
        left: left,
    })
}

// What a state is remembered by, beside its modes: how many records are left, and the role.
fn key_of(records: usize, role: Role) -> u16
    requires { records ≤ 256 }
    ensures { result ≡ key_of role records }
{
    let depth = 4 * (records as u16 + 1);
    match role {
        Role::Plain(sense) => match sense {
            Sense::Drawn => depth,
            Sense::Undoing => depth + 1,
        },
        Role::Running => depth + 2,
    }
}

// What comes of a state that is remembered: all that its search entered is spent at once.
fn known(seen: Sight, left: u32) -> Option<Trip>
    ensures { out_of result ≡ left_of (saw_none seen) left }
{
    let rest = left.checked_sub(seen.entered)?;
    Some(Trip {
        found: false,
        far: seen.reached,
        left: rest,
    })
}

// What came of a state, with so much left before it, is remembered, if its search was over and found no end.
fn keep(out: Option<Trip>, left: u32, slots: &mut [Slot], pair: usize, state: &[u8], key: u16)
    requires few { length state.now ≤ 64 }
    requires left_within { LeftWithin left out }
    ensures { KeptOut (length state.now) key state.now left (out_of out) slots.old slots.new }
{
    let Some(trip) = out else {
        return;
    };
    if !trip.found {
        let seen = Sight {
            entered: left - trip.left,
            reached: trip.far,
        };
        memory::remember(slots, pair, state, key, seen);
    }
}

// Into this state, unless it is remembered, and on from it. On the way down each argument but the table changes or is lent anew: a struct
// of them would be built again at each call.
#[cycle(visiting)]
fn visit(
    ns: &[u16],
    cues: &[u64],
    work: &mut [u8],
    role: Role,
    asks: &mut [u64],
    left: u32,
    slots: &mut [Slot],
) -> Option<Trip>
    requires visit_ready { VisitReady ns.now cues.now work.old role }
    requires truthful { Truthful ns.now cues.now asks.old slots.old }
    ensures { Visited (quest ns.now cues.now work.old role asks.old left slots.old) work.new asks.new slots.new result }
{
    let n = ns.len() / 3;
    let key = key_of(cues.len(), role);
    match memory::recall(slots, &work[..n], key) {
        Ok(seen) => known(seen, left),
        Err(pair) => {
            let out = enter(ns, cues, work, role, asks, left, slots);
            keep(out, left, slots, pair, &work[..n], key);
            out
        }
    }
}

// Into this state, if the allowance is not used up.
#[cycle(visiting)]
fn enter(
    ns: &[u16],
    cues: &[u64],
    work: &mut [u8],
    role: Role,
    asks: &mut [u64],
    left: u32,
    slots: &mut [Slot],
) -> Option<Trip>
    requires visit_ready { VisitReady ns.now cues.now work.old role }
    requires truthful { Truthful ns.now cues.now asks.old slots.old }
    ensures { Visited (quest ns.now cues.now work.old role asks.old left slots.old) work.new asks.new slots.new result }
{
    if left == 0 {
        return None;
    }
    if cues.len() == 0 {
        return arrive(Root { ns, t: work, role }, asks, left - 1);
    }
    if ends(role, cues[0]) {
        finish(Root { ns, t: work, role }, cues[0], left - 1)
    } else {
        visit_each(ns, cues, work, role, asks, left - 1, slots)
    }
}

// Whether a standard part closes: then nothing is left of it.
fn ends(role: Role, cue: u64) -> bool
    ensures { result ≡ ends role cue }
{
    match role {
        Role::Plain(_) => cue >= flow::DONE_CUE,
        Role::Running => false,
    }
}

// The successors are counted, and tried.
#[cycle(visiting)]
fn visit_each(
    ns: &[u16],
    cues: &[u64],
    work: &mut [u8],
    role: Role,
    asks: &mut [u64],
    left: u32,
    slots: &mut [Slot],
) -> Option<Trip>
    requires visit_ready { VisitReady ns.now cues.now work.old role }
    requires truthful { Truthful ns.now cues.now asks.old slots.old }
    requires in_bounds { (1 ≤ length cues.now) × (left < most) }
    requires not_an_ending { ends role (get_or cues.now 0 0) ≡ false }
    ensures { Tried (quest ns.now cues.now work.old role asks.old left slots.old) work.new asks.new slots.new result }
{
    let mut noted = states::NOTHING_NOTED;
    let many = successors(Root { ns, t: work, role }, cues[0], &mut noted);
    try_each(ns, cues, work, role, asks, left, slots, &noted, many)
}

// The successors one after the other, until one finds the end.
#[cycle(visiting)]
fn try_each(
    ns: &[u16],
    cues: &[u64],
    work: &mut [u8],
    role: Role,
    asks: &mut [u64],
    left: u32,
    slots: &mut [Slot],
    noted: &Noted,
    many: u32,
) -> Option<Trip>
    requires visit_ready { VisitReady ns.now cues.now work.old role }
    requires truthful { Truthful ns.now cues.now asks.old slots.old }
    requires in_bounds { (1 ≤ length cues.now) × (left < most) }
    requires not_an_ending { ends role (get_or cues.now 0 0) ≡ false }
    requires right_counts { RightCounts ns.now role (get_or cues.now 0 0) work.old noted.now.c noted.now.d }
    requires many_is { many ≡ successor_count ns.now role (get_or cues.now 0 0) work.old }
    ensures { Tried (quest ns.now cues.now work.old role asks.old left slots.old) work.new asks.new slots.new result }
{
    let mut far = 0;
    let mut rest = left;
    for k in 0..many {
        let trip = follow(ns, cues, noted, work, role, asks, k, rest, slots)?;
        // the record into the successor counts too
        far = far.max(trip.far + 1);
        rest = trip.left;
        if trip.found {
            return Some(Trip {
                found: true,
                far: far,
                left: rest,
            });
        }
    }
    Some(Trip {
        found: false,
        far: far,
        left: rest,
    })
}

// Into the k-th successor, in its own stretch of the work bytes, which gets a copy of the modes.
#[cycle(visiting)]
fn follow(
    ns: &[u16],
    cues: &[u64],
    noted: &Noted,
    work: &mut [u8],
    role: Role,
    asks: &mut [u64],
    k: u32,
    left: u32,
    slots: &mut [Slot],
) -> Option<Trip>
    requires visit_ready { VisitReady ns.now cues.now work.old role }
    requires truthful { Truthful ns.now cues.now asks.old slots.old }
    requires in_bounds { 1 ≤ length cues.now }
    requires not_an_ending { ends role (get_or cues.now 0 0) ≡ false }
    requires right_counts { RightCounts ns.now role (get_or cues.now 0 0) work.old noted.now.c noted.now.d }
    requires k_bound { k < successor_count ns.now role (get_or cues.now 0 0) work.old }
    ensures { Followed (quest ns.now cues.now work.old role asks.old left slots.old) work.new asks.new slots.new result k }
{
    let n = ns.len() / 3;
    let w = 2 * n;
    work.copy_within(..n, w);
    apply(ns, &mut work[w..], cues[0], noted, role, k);
    let after = role_after(role, cues[0]);
    visit(ns, &cues[1..], &mut work[w..], after, asks, left, slots)
}

// What the root is before the first record.
fn role_of(ns: &[u16]) -> Role
    requires { 3 ≤ length ns.now }
    ensures { result ≡ role_of ns.now }
{
    let form = flow::form_at(ns, ns.len() / 3 - 1);
    if form.standard {
        Role::Plain(Sense::Drawn)
    } else {
        Role::Running
    }
}

// How many work bytes a search wants, of so many nodes and records.
pub fn room_wanted(nodes: usize, records: usize) -> usize
    requires { (nodes ≤ 64) × (records ≤ 256) }
    ensures { result ≡ room_of nodes records }
{
    2 * nodes * (records + 1)
}

// A search of so many states at most goes without a memory: to clear one costs about as much.
const FEW_STATES: u32 = 32;

// With a memory, in a frame of its own.
fn long_search(
    ns: &[u16],
    cues: &[u64],
    work: &mut [u8],
    role: Role,
    asks: &mut [u64],
    allowance: u32,
) -> Option<Trip>
    requires { VisitReady ns.now cues.now work.old role × Asking asks.old }
    ensures { Began ns.now cues.now work.old role asks.old allowance work.new asks.new result }
{
    let mut slots = [memory::EMPTY; memory::SLOTS];
    visit(ns, cues, work, role, asks, allowance, &mut slots)
}

// What came of a search of fewer states, with the whole allowance.
fn with_more(trip: Trip, few: u32, allowance: u32) -> Trip
    requires { (trip.left ≤ few) × (few ≤ allowance) }
    ensures { result ≡ record { found = trip.found; far = trip.far; left = allowance - (few - trip.left) } }
{
    let spent = few - trip.left;
    Trip {
        found: trip.found,
        far: trip.far,
        left: allowance - spent,
    }
}

// First without a memory; if that is not enough, once more with it. What the first answered is right, so the second need not ask it.
fn search_twice(
    ns: &[u16],
    cues: &[u64],
    work: &mut [u8],
    role: Role,
    asks: &mut [u64],
    allowance: u32,
) -> Option<Trip>
    requires { VisitReady ns.now cues.now work.old role × Asking asks.old }
    ensures { Began ns.now cues.now work.old role asks.old allowance work.new asks.new result }
{
    if allowance <= FEW_STATES {
        return visit(ns, cues, work, role, asks, allowance, &mut []);
    }
    match visit(ns, cues, work, role, asks, FEW_STATES, &mut []) {
        None => long_search(ns, cues, work, role, asks, allowance),
        Some(trip) => Some(with_more(trip, FEW_STATES, allowance)),
    }
}

// Whether all runs were searched and none found the end.
#[tactic(auto, unfolding(crate::specs::Searches::went_through, crate::specs::Visits::out_of))]
fn went_through(out: Option<Trip>) -> bool
    ensures { result ≡ went_through (out_of out) }
{
    matches!(out, Some(trip) if !trip.found)
}

// The search from the drawn flow, in work bytes that are zero up to the room wanted when it is over. If it went through all runs without
// an end, each ask whose record can follow has become `FOLLOWS`; else all are 0.
pub fn ask(
    ns: &[u16],
    cues: &[u64],
    work: &mut [u8],
    asks: &mut [u64],
    allowance: u32,
) -> Option<Trip>
    requires { SearchReady ns.now cues.now work.old × Asking asks.old }
    ensures { Asked ns.now cues.now allowance work.old asks.old result work.new asks.new }
{
    let n = ns.len() / 3;
    let room = room_wanted(n, cues.len());
    work[..n].fill(0);
    let role = role_of(ns);
    let out = search_twice(ns, cues, work, role, asks, allowance);
    work[..room].fill(0);
    if !went_through(out) {
        asks.fill(0);
    }
    out
}

// The search by itself.
pub fn search(ns: &[u16], cues: &[u64], work: &mut [u8], allowance: u32) -> Option<Trip>
    requires { SearchReady ns.now cues.now work.old }
    ensures { Searched ns.now cues.now allowance work.old result work.new }
{
    ask(ns, cues, work, &mut [], allowance)
}
