// A memory of searches that found no end, in lent slots. A slot has a state, by its modes and a key, how many states the search from it
// entered and how far that came. Slots come in pairs. A state has one pair, whose slot with the smaller mark it takes: to forget is
// always allowed. What fits no slot, a mode above 3 or a reach of 65,536, is not remembered. No key is 0, so empty slots remember nothing,
// and neither does a slice without slots.
#![tactic(auto)]

ghost use Rattle.std.specs.Prelude.{◌≡◌, true, ◌+◌, ◌*◌, ◌<◌, ◌≤◌, length};
ghost use Rattle.memory.specs.Memory.{two_bits, padded, bytes, most_bytes, packed, mixed, pair_of, pairs, has, sight_of, mark_of, lesser, recalled_in, recalled, remembered};

// What was seen of a state: how many states its search entered, and how far that came.
#[derive(Clone, Copy)]
pub struct Sight {
    pub entered: u32,
    pub reached: u32,
}

// A state, by its modes in two words, two bits each, and its key.
#[derive(Clone, Copy)]
struct Packed {
    low: u64,
    high: u64,
    key: u16,
}

// Such a state, and what was seen of it.
#[derive(Clone, Copy)]
pub struct Slot {
    low: u64,
    high: u64,
    entered: u32,
    reached: u16,
    key: u16,
}

pub const EMPTY: Slot = Slot {
    low: 0,
    high: 0,
    entered: 0,
    reached: 0,
    key: 0,
};

// So many pairs of slots are used, as far as they are there: of `SLOTS`, 168 KiB. To clear more costs a search of few states more than
// it spares a search of many.
const PAIRS: u64 = 3584;

pub const SLOTS: usize = 7168;

impl Slot {
    // Whether this state is in it.
    fn has(&self, state: Packed) -> bool
        ensures { result ≡ has self.now state.low state.high state.key }
    {
        // Read whole, so that the proof knows that its reach has 16 bits.
        let slot = *self;
        (slot.key == state.key) & ((slot.low == state.low) & (slot.high == state.high))
    }

    // What was seen of the state that is in it.
    fn sight(&self) -> Sight
        ensures { result ≡ sight_of self.now }
    {
        Sight {
            entered: self.entered,
            reached: u32::from(self.reached),
        }
    }

    // Which of two slots is smaller: by how many states were entered, then by how far that came, and by the key.
    fn mark(&self) -> u64
        ensures { result ≡ mark_of self.now }
    {
        u64::from(self.entered) * 4294967296
            + (u64::from(self.reached) * 65536 + u64::from(self.key))
    }
}

// Whether the modes have two bits each. All are looked at: with `all`, which stops early, the flow `seven` took a tenth longer.
fn fits(state: &[u8]) -> bool
    ensures { result ≡ two_bits state.now (length state.now) }
{
    state.iter().fold(true, |all, mode| all & (*mode < 4))
}

// Four modes, one a byte. Of a state it is asked that it has at most 64 modes, here and below, and that they have two bits each, which a
// lent slice does not say of itself.
fn four(state: &[u8], at: usize) -> u64
    requires { (length state.now ≤ 64) × (at + 4 ≤ length state.now) }
    ensures { (result ≡ bytes (padded state.now (length state.now)) at 4) × (result < 4294967296) }
{
    u64::from(u32::from_le_bytes([state[at], state[at + 1], state[at + 2], state[at + 3]]))
}

// The modes from `at` to the last, one a byte: at most eight.
fn part(state: &[u8], at: usize) -> u64
    requires len_bound { (length state.now ≤ 64) × ((at ≤ length state.now) × (length state.now ≤ at + 8)) }
    requires two_bits_each { two_bits state.now (length state.now) ≡ true }
    ensures { result ≡ bytes (padded state.now (length state.now)) at 8 }
{
    let mut word = 0;
    for j in (at..state.len()).rev() {
        word = word * 256 + u64::from(state[j]);
    }
    word
}

// Eight modes from `at` on, one a byte; 0 for those behind the last.
fn eight(state: &[u8], at: usize) -> u64
    requires len_bound { (length state.now ≤ 64) × (at ≤ 64) }
    requires two_bits_each { two_bits state.now (length state.now) ≡ true }
    ensures { (result ≡ bytes (padded state.now (length state.now)) at 8) × (result ≤ most_bytes 8) }
{
    if at + 8 <= state.len() {
        return four(state, at) + 4294967296 * four(state, at + 4);
    }
    if state.len() <= at {
        return 0;
    }
    part(state, at)
}

// Thirty-two modes from `at` on, two bits each: byte i has those of the nodes i, i + 8, i + 16 and i + 24 from there.
fn pack(state: &[u8], at: usize) -> u64
    requires len_bound { (length state.now ≤ 64) × (at ≤ 32) }
    requires two_bits_each { two_bits state.now (length state.now) ≡ true }
    ensures { result ≡ packed (padded state.now (length state.now)) at 8 }
{
    eight(state, at)
        + 4 * eight(state, at + 8)
        + 16 * eight(state, at + 16)
        + 64 * eight(state, at + 24)
}

// Both words and the key in one number. The rest by a prime brings every bit of a mode into the digits that choose a pair.
fn mixed(state: Packed) -> u64
    ensures { result ≡ mixed state.low state.high state.key }
{
    state.low % 3141592661 * 1054435769
        + state.high % 3141592661 * 640364487
        + u64::from(state.key) * 1000000007
}

// The pair of a state, by the middle digits of a square: by a sum alone, modes that differ at several nodes would meet.
fn pair_of(state: Packed) -> usize
    ensures { result ≡ pair_of state.low state.high state.key }
{
    let x = mixed(state) / 65536 % 4294967296;
    (x * x / 16777216 % PAIRS) as usize
}

// What the pair of the state has of it.
fn recall_in(slots: &[Slot], state: Packed) -> Result<Sight, usize>
    ensures { result ≡ recalled_in slots.now state.low state.high state.key (pair_of state.low state.high state.key) }
{
    let pair = pair_of(state);
    if pair >= slots.len() / 2 {
        return Err(pair);
    }
    if slots[2 * pair].has(state) {
        return Ok(slots[2 * pair].sight());
    }
    if slots[2 * pair + 1].has(state) {
        return Ok(slots[2 * pair + 1].sight());
    }
    Err(pair)
}

// What the memory has of the state with these modes and this key, or else the pair of slots to put it into.
pub fn recall(slots: &[Slot], state: &[u8], key: u16) -> Result<Sight, usize>
    requires { length state.now ≤ 64 }
    ensures { result ≡ recalled slots.now state.now (length state.now) key }
{
    let among = slots.len() / 2;
    if among == 0 {
        return Err(0);
    }
    if fits(state) {
        let low = pack(state, 0);
        let high = pack(state, 32);
        return recall_in(slots, Packed { low, high, key });
    }
    Err(among)
}

// The slot of a pair that has the smaller mark: an empty one, or that of the smaller search.
fn lesser(slots: &[Slot], pair: usize) -> usize
    requires { pair < pairs slots.now }
    ensures { (result ≡ lesser slots.now pair) × (result < length slots.now) }
{
    if slots[2 * pair + 1].mark() < slots[2 * pair].mark() {
        2 * pair + 1
    } else {
        2 * pair
    }
}

// Puts what was seen of the state into the pair that `recall` named. A pair that is not there takes nothing.
pub fn remember(slots: &mut [Slot], pair: usize, state: &[u8], key: u16, seen: Sight)
    requires { length state.now ≤ 64 }
    ensures { slots.new ≡ remembered slots.old pair state.now (length state.now) key seen }
{
    if pair < slots.len() / 2 && fits(state) {
        if let Ok(reached) = u16::try_from(seen.reached) {
            let s = lesser(slots, pair);
            let slot = Slot {
                low: pack(state, 0),
                high: pack(state, 32),
                entered: seen.entered,
                reached: reached,
                key: key,
            };
            slots[s] = slot;
        }
    }
}
