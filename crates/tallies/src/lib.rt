// Views, tallies and words: what is known of a term, of several terms and of a running part without going through
// their steps and compensations one by one. Counts stop at the greatest 32-bit number, one more than any index a search can use:
// an allowance is such a number, and the root is counted too. What is put together of two parallel sides takes first whether the record's
// event is joint there.
#![tactic(auto)]

ghost use Rattle.std.specs.Prelude.{◌≡◌, Bool, ◌+◌, ◌*◌, ◌<◌, ◌&&◌, cond, eqb};
ghost use Rattle.tallies.specs.Capped.{cap};
ghost use Rattle.tallies.specs.Formulas.{closing, rank, viewed, skip_v, throw_v, yield_v, ev_v, alt_v, seq_v, hnd_v, both_v, sides, par_v, tallied, none_t, one_t, when_t, plus_t, seq_t, any_v, sides_t, par_t, over_t, worded, by_w, blk_v, pair_w, cseq_w, held_w, calt_w, fitting_t, partners_t, both_t, cpar_w, skipp_w, throww_w, yieldd_w, weighs, is_own, total, after_g, inside_g, beside_g, within_g};
ghost use Rattle.calculus.specs.Term.{done, withdrawn, failed, join};
ghost use Rattle.calculus.specs.Successors.{eqc};

// How a part ends, in the order of 01: two parallel sides end by the later one.
#[derive(Clone, Copy, PartialEq, Eq, PartialOrd, Ord)]
pub enum Closing {
    Done,
    Withdrawn,
    Failed,
}

// One term, and a record: how many steps by it, and by what the term can end.
#[derive(Clone, Copy)]
pub struct View {
    pub moves: u32,
    pub done: bool,
    pub withdraws: bool,
    pub fails: bool,
}

// Several terms: how many, how many of them can end done, how many steps in all, and by what else some can end.
#[derive(Clone, Copy)]
pub struct Tally {
    pub many: u32,
    pub able: u32,
    pub moves: u32,
    pub withdraws: bool,
    pub fails: bool,
}

// A running part: how many steps, and its compensations by each closing.
#[derive(Clone, Copy)]
pub struct Word {
    pub moves: u32,
    pub done: Tally,
    pub withdrawn: Tally,
    pub failed: Tally,
}

// What a compensation weighs: so much for itself, for each of its steps, and for being able to end done.
#[derive(Clone, Copy)]
pub struct Weight {
    pub own: u32,
    pub moves: u32,
    pub able: u32,
}

pub fn sum(a: u32, b: u32) -> u32
    ensures { result ≡ cap (a + b) }
{
    a.saturating_add(b)
}

// In 64 bits: `saturating_mul` has a branch of its own for a factor 0, and flows that are undone took 4 percent more steps of the processor.
pub fn product(a: u32, b: u32) -> u32
    ensures { result ≡ cap (a * b) }
{
    u32::try_from(u64::from(a) * u64::from(b)).unwrap_or(u32::MAX)
}

// What is known of a part, of a standard one a view, and of one that runs a word: of SKIP, THROW and YIELD, and of a whole from its parts.
pub trait Known {
    ghost of_skip: { Self };

    ghost of_throw: { Self };

    ghost of_yield: { Self };

    ghost of_sequence: { Self → Self → Self };

    ghost of_choice: { Self → Self → Self };

    ghost of_parallel: { Bool → Self → Self → Self };

    fn skip() -> Self
        ensures { result ≡ of_skip };

    fn throw() -> Self
        ensures { result ≡ of_throw };

    fn yields() -> Self
        ensures { result ≡ of_yield };

    fn sequence(p: Self, q: Self) -> Self
        ensures { result ≡ of_sequence p q };

    fn choice(p: Self, q: Self) -> Self
        ensures { result ≡ of_choice p q };

    fn parallel(joint: bool, p: Self, q: Self) -> Self
        ensures { result ≡ of_parallel joint p q };
}

// Closings ----------------------------------------------------------------------------------------------------------

// How two parallel sides end that end by x and y: each single pair of closings is combined here. Sums over all pairs are in closed form,
// by the laws `join_done`, `join_withdrawn` and `join_failed` (specs/JoinLaws.antt).
fn joined(x: Closing, y: Closing) -> Closing
    ensures { result ≡ rank (join (closing x) (closing y)) }
{
    x.max(y)
}

// Whether x and y join to u.
fn joins(u: Closing, x: Closing, y: Closing) -> bool
    ensures { result ≡ eqc (closing u) (join (closing x) (closing y)) }
{
    joined(x, y) == u
}

// Views -------------------------------------------------------------------------------------------------------------

// Whether two sides can end withdrawn together, by `join_withdrawn`.
fn both_withdraw(p: View, q: View) -> bool
    ensures { result ≡ both_v p q withdrawn }
{
    (p.done & q.withdraws) | (p.withdraws & (q.done | q.withdraws))
}

// Whether they can end failed together, by `join_failed`.
fn both_fail(p: View, q: View) -> bool
    ensures { result ≡ both_v p q failed }
{
    ((p.done | p.withdraws) & q.fails) | (p.fails & (q.done | (q.withdraws | q.fails)))
}

// How many steps two sides have that have m and n: a joint event is one step of both.
pub fn sides(joint: bool, m: u32, n: u32) -> u32
    ensures { result ≡ sides joint m n }
{
    if joint { product(m, n) } else { sum(m, n) }
}

impl Known for View {
    ghost of_skip = { skip_v };

    ghost of_throw = { throw_v };

    ghost of_yield = { yield_v };

    ghost of_sequence = { seq_v };

    ghost of_choice = { alt_v };

    ghost of_parallel = { par_v };

    fn skip() -> View {
        View {
            moves: 0,
            done: true,
            withdraws: false,
            fails: false,
        }
    }

    fn throw() -> View {
        View {
            moves: 0,
            done: false,
            withdraws: false,
            fails: true,
        }
    }

    fn yields() -> View {
        View {
            moves: 0,
            done: true,
            withdraws: true,
            fails: false,
        }
    }

    fn sequence(p: View, q: View) -> View {
        if p.done {
            View {
                moves: sum(p.moves, q.moves),
                done: q.done,
                withdraws: p.withdraws | q.withdraws,
                fails: p.fails | q.fails,
            }
        } else {
            p
        }
    }

    fn choice(p: View, q: View) -> View {
        View {
            moves: sum(p.moves, q.moves),
            done: p.done | q.done,
            withdraws: p.withdraws | q.withdraws,
            fails: p.fails | q.fails,
        }
    }

    fn parallel(joint: bool, p: View, q: View) -> View {
        View {
            moves: sides(joint, p.moves, q.moves),
            done: p.done & q.done,
            withdraws: both_withdraw(p, q),
            fails: both_fail(p, q),
        }
    }
}

impl View {
    pub fn event(taken: bool) -> View
        ensures { result ≡ ev_v taken }
    {
        if taken {
            View {
                moves: 1,
                done: false,
                withdraws: false,
                fails: false,
            }
        } else {
            View {
                moves: 0,
                done: false,
                withdraws: false,
                fails: false,
            }
        }
    }

    pub fn handler(p: View, q: View) -> View
        ensures { result ≡ hnd_v p q }
    {
        if p.fails {
            View {
                moves: sum(p.moves, q.moves),
                done: p.done | q.done,
                withdraws: p.withdraws | q.withdraws,
                fails: q.fails,
            }
        } else {
            p
        }
    }

    pub fn block(x: Word) -> View
        ensures { result ≡ blk_v x }
    {
        let d = x.done;
        let f = x.failed;
        View {
            moves: sum(x.moves, f.moves),
            done: (d.many != 0) | (f.able != 0),
            withdraws: f.withdraws,
            fails: f.fails,
        }
    }
}

// Tallies -----------------------------------------------------------------------------------------------------------

// How many steps all k beside l have, k of x and l of y.
fn steps_beside(joint: bool, x: Tally, y: Tally) -> u32
    ensures { result ≡ sides_t joint x y }
{
    if joint {
        product(x.moves, y.moves)
    } else {
        sum(product(x.moves, y.many), product(x.many, y.moves))
    }
}

impl Tally {
    fn none() -> Tally
        ensures { result ≡ none_t }
    {
        Tally {
            many: 0,
            able: 0,
            moves: 0,
            withdraws: false,
            fails: false,
        }
    }

    fn one(v: View) -> Tally
        ensures { result ≡ one_t v }
    {
        if v.done {
            Tally {
                many: 1,
                able: 1,
                moves: v.moves,
                withdraws: v.withdraws,
                fails: v.fails,
            }
        } else {
            Tally {
                many: 1,
                able: 0,
                moves: v.moves,
                withdraws: v.withdraws,
                fails: v.fails,
            }
        }
    }

    // Of SKIP alone, the compensation of a part that has nothing to undo.
    fn skip() -> Tally
        ensures { result ≡ one_t skip_v }
    {
        Tally {
            many: 1,
            able: 1,
            moves: 0,
            withdraws: false,
            fails: false,
        }
    }

    pub fn when(self, b: bool) -> Tally
        ensures { result ≡ when_t b self }
    {
        if b { self } else { Tally::none() }
    }

    // Of two lists, one after the other.
    fn plus(self, y: Tally) -> Tally
        ensures { result ≡ plus_t self y }
    {
        if self.many == 0 {
            return y;
        }
        if y.many == 0 {
            return self;
        }
        Tally {
            many: sum(self.many, y.many),
            able: sum(self.able, y.able),
            moves: sum(self.moves, y.moves),
            withdraws: self.withdraws | y.withdraws,
            fails: self.fails | y.fails,
        }
    }

    // Of all l;k, l of this and k of y.
    fn sequence(self, y: Tally) -> Tally
        ensures { result ≡ seq_t self y }
    {
        if self.many == 0 {
            return Tally::none();
        }
        if y.many == 0 {
            return Tally::none();
        }
        let goes_on = self.able != 0;
        Tally {
            many: product(self.many, y.many),
            able: product(self.able, y.able),
            moves: sum(product(self.moves, y.many), product(self.able, y.moves)),
            withdraws: self.withdraws | (goes_on & y.withdraws),
            fails: self.fails | (goes_on & y.fails),
        }
    }

    // One term that can end as some of a tally can.
    fn any(self) -> View
        ensures { result ≡ any_v self }
    {
        View {
            moves: 0,
            done: self.able != 0,
            withdraws: self.withdraws,
            fails: self.fails,
        }
    }

    // Of all k beside l, k of x and l of y. Those that can end done multiply, by `join_done`.
    fn parallel(joint: bool, x: Tally, y: Tally) -> Tally
        ensures { result ≡ par_t joint x y }
    {
        if x.many == 0 {
            return Tally::none();
        }
        if y.many == 0 {
            return Tally::none();
        }
        let p = x.any();
        let q = y.any();
        Tally {
            many: product(x.many, y.many),
            able: product(x.able, y.able),
            moves: steps_beside(joint, x, y),
            withdraws: both_withdraw(p, q),
            fails: both_fail(p, q),
        }
    }
}

// Words -------------------------------------------------------------------------------------------------------------

// Of all k of t beside each compensation of q, by whatever closing.
fn beside_any(joint: bool, t: Tally, q: Word) -> Tally
    ensures { result ≡ par_t joint t (over_t (by_w q)) }
{
    Tally::parallel(joint, t, q.done.plus(q.withdrawn).plus(q.failed))
}

// Compensations of both sides, where both end withdrawn: by `join_withdrawn`.
fn withdrawn_tally(joint: bool, x: Word, y: Word) -> Tally
    ensures { result ≡ both_t joint x y withdrawn }
{
    let unfailed = y.done.plus(y.withdrawn);
    Tally::parallel(joint, x.done, y.withdrawn).plus(Tally::parallel(joint, x.withdrawn, unfailed))
}

// Where both end failed: by `join_failed`.
fn failed_tally(joint: bool, x: Word, y: Word) -> Tally
    ensures { result ≡ both_t joint x y failed }
{
    Tally::parallel(joint, x.done, y.failed)
        .plus(Tally::parallel(joint, x.withdrawn, y.failed))
        .plus(beside_any(joint, x.failed, y))
}

fn both_empty(x: Tally, y: Tally) -> bool
    ensures { result ≡ (eqb x.many 0 && eqb y.many 0) }
{
    (x.many == 0) & (y.many == 0)
}

impl Known for Word {
    ghost of_skip = { skipp_w };

    ghost of_throw = { throww_w };

    ghost of_yield = { yieldd_w };

    ghost of_sequence = { cseq_w };

    ghost of_choice = { calt_w };

    ghost of_parallel = { cpar_w };

    fn skip() -> Word {
        Word {
            moves: 0,
            done: Tally::skip(),
            withdrawn: Tally::none(),
            failed: Tally::none(),
        }
    }

    fn throw() -> Word {
        Word {
            moves: 0,
            done: Tally::none(),
            withdrawn: Tally::none(),
            failed: Tally::skip(),
        }
    }

    fn yields() -> Word {
        Word {
            moves: 0,
            done: Tally::skip(),
            withdrawn: Tally::skip(),
            failed: Tally::none(),
        }
    }

    // PP;QQ whose first part runs.
    fn sequence(x: Word, y: Word) -> Word {
        let k = x.done;
        let w = x.withdrawn.plus(y.withdrawn.sequence(k));
        let f = x.failed.plus(y.failed.sequence(k));
        Word {
            moves: sum(x.moves, product(k.many, y.moves)),
            done: y.done.sequence(k),
            withdrawn: w,
            failed: f,
        }
    }

    fn choice(x: Word, y: Word) -> Word {
        Word {
            moves: sum(x.moves, y.moves),
            done: x.done.plus(y.done),
            withdrawn: x.withdrawn.plus(y.withdrawn),
            failed: x.failed.plus(y.failed),
        }
    }

    // Most often the first side can only fail, or none can: told first, since it leaves little to do. Where both end done, by `join_done`.
    fn parallel(joint: bool, x: Word, y: Word) -> Word {
        let moves = sides(joint, x.moves, y.moves);
        if both_empty(x.done, x.withdrawn) {
            return Word {
                moves,
                done: Tally::none(),
                withdrawn: Tally::none(),
                failed: beside_any(joint, x.failed, y),
            };
        }
        let d = Tally::parallel(joint, x.done, y.done);
        let w = withdrawn_tally(joint, x, y);
        if both_empty(x.failed, y.failed) {
            return Word {
                moves,
                done: d,
                withdrawn: w,
                failed: Tally::none(),
            };
        }
        Word {
            moves,
            done: d,
            withdrawn: w,
            failed: failed_tally(joint, x, y),
        }
    }
}

impl Word {
    pub fn by(self, w: Closing) -> Tally
        ensures { result ≡ by_w self (closing w) }
    {
        match w {
            Closing::Done => self.done,
            Closing::Withdrawn => self.withdrawn,
            Closing::Failed => self.failed,
        }
    }

    pub fn pair(p: View, q: View) -> Word
        ensures { result ≡ pair_w p q }
    {
        let skips = Tally::skip();
        Word {
            moves: p.moves,
            done: Tally::one(q).when(p.done),
            withdrawn: skips.when(p.withdraws),
            failed: skips.when(p.fails),
        }
    }

    // PP;QQ whose first part has become the compensation seen as r.
    pub fn held(self, r: View) -> Word
        ensures { result ≡ held_w self r }
    {
        let k = Tally::one(r);
        Word {
            moves: self.moves,
            done: self.done.sequence(k),
            withdrawn: self.withdrawn.sequence(k),
            failed: self.failed.sequence(k),
        }
    }

    // Compensations of the second side by y, where the first ends by x and both by u.
    pub fn fitting(self, u: Closing, x: Closing, y: Closing) -> Tally
        ensures { result ≡ fitting_t self (closing u) (closing x) (closing y) }
    {
        self.by(y).when(joins(u, x, y))
    }

    // All compensations of the second side that go with an ending x of the first.
    pub fn partners(self, u: Closing, x: Closing) -> Tally
        ensures { result ≡ partners_t self (closing u) (closing x) }
    {
        self.fitting(u, x, Closing::Done)
            .plus(self.fitting(u, x, Closing::Withdrawn))
            .plus(self.fitting(u, x, Closing::Failed))
    }
}

// Weights -----------------------------------------------------------------------------------------------------------

impl Weight {
    // Whether a compensation weighs by itself alone, so that weighing is counting.
    pub fn own_only(self) -> bool
        ensures { result ≡ is_own self }
    {
        (self.moves == 0) & (self.able == 0)
    }

    // What all of a tally weigh.
    pub fn total(self, t: Tally) -> u32
        ensures { result ≡ total t self }
    {
        sum(
            sum(product(self.own, t.many), product(self.moves, t.moves)),
            product(self.able, t.able),
        )
    }

    // What k weighs with all l;k, l of t.
    pub fn after(self, t: Tally) -> Weight
        ensures { result ≡ after_g t self }
    {
        Weight {
            own: sum(product(self.own, t.many), product(self.moves, t.moves)),
            moves: product(self.moves, t.able),
            able: product(self.able, t.able),
        }
    }

    // What l weighs in l;k, where k has so many steps, and can end done or not.
    pub fn inside(self, moves: u32, able: bool) -> Weight
        ensures { result ≡ inside_g self moves able }
    {
        Weight {
            own: self.own,
            moves: self.moves,
            able: sum(product(self.moves, moves), if able { self.able } else { 0 }),
        }
    }

    // What p weighs with all q beside it, q of t. Those that can end done multiply, by `join_done`.
    pub fn beside(self, joint: bool, t: Tally) -> Weight
        ensures { result ≡ beside_g joint t self }
    {
        let own = product(self.own, t.many);
        let moves = product(self.moves, t.moves);
        let able = product(self.able, t.able);
        if joint {
            Weight { own, moves, able }
        } else {
            Weight {
                own: sum(own, moves),
                moves: product(self.moves, t.many),
                able,
            }
        }
    }

    // What q weighs beside p, where p has so many steps, and can end done or not: both end done where both can, by `join_done`.
    pub fn within(self, joint: bool, moves: u32, able: bool) -> Weight
        ensures { result ≡ within_g joint self moves able }
    {
        if self.own_only() {
            return self;
        }
        let more = product(self.moves, moves);
        let ends = if able { self.able } else { 0 };
        if joint {
            Weight {
                own: self.own,
                moves: more,
                able: ends,
            }
        } else {
            Weight {
                own: sum(self.own, more),
                moves: self.moves,
                able: ends,
            }
        }
    }
}
