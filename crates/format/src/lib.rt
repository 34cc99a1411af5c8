// The flow file's items: a file's bytes read one item after the other, each of which answers a value with the cursor behind it or a
// refusal; the names section, the sections of numbers and the sets; the checks on the numbers of a file, and on lists that are lent to be
// written.
// What each answers is defined in specs/, on the plan of the file. Not here: the file as a whole (crates `reader` and `writer`).
#![tactic(auto)]

ghost use Rattle.std.specs.Prelude.{◌≡◌, ◌+◌, ◌*◌, ◌<◌, ◌≤◌, length};
ghost use Rattle.flow.specs.Legends.{set_count};
ghost use Rattle.flow.specs.Checks.{first};
ghost use Rattle.format.specs.Plan.{run};
ghost use Rattle.format.specs.Sections.{byte, number, ranged, name, entry, new_entry, names, items, count_by, item_section, section, joint_sets, same_bytes, same_step, same_entry, met};
ghost use Rattle.format.specs.Contents.{unnamed_leaf, unnamed_event};
ghost use Rattle.format.specs.ContentChecks.{leaves_grounds, events_grounds, grounds_of};
ghost use Rattle.format.specs.ListChecks.{section_alone, lists_check};
ghost use Rattle.format.specs.Items.{refusal_of, found_at, as_item, item_in_range, numbers_at, at_front, name_at, name_end, entry_at, entry_end, entries_at, entries_end, Behind};

use flow::{Extent, Refusal};

// The refusals of the items, names and numbers, by document 01's numbers.
const CUT: u16 = 15;

const TOO_MANY_NAMES: u16 = 16;

const BAD_LENGTH: u16 = 17;

const SAME_ENTRY: u16 = 18;

const NO_NAME_FOR_NODE: u16 = 19;

const NO_NAME_FOR_RECORD: u16 = 20;

pub const TOO_LONG: u16 = 21;

// The most that there may be of names, and of bytes in a name.
const MOST_NAMES: u16 = 256;

const MOST_BYTES: u16 = 40;

// A place in the file, in bytes. An item read answers a value with its cursor (01), so the file is handed on
// beside it. How far it may be is asked where an item is read, and differs: the items behind have to be told, too.
#[derive(Clone, Copy)]
pub struct Cursor {
    pub at: usize,
}

// What an item holds, and the cursor behind it.
#[derive(Clone, Copy)]
pub struct Got {
    pub value: u16,
    pub next: Cursor,
}

// What a count or a length may be, and the numbers that refuse it below `least` and above `most`.
#[derive(Clone, Copy)]
pub struct Range {
    pub least: u16,
    pub few: u16,
    pub most: u16,
    pub many: u16,
}

// Of a step name's bytes, of a machine name's, and of the numbers of sets and names.
const STEP_BYTES: Range = Range {
    least: 1,
    few: BAD_LENGTH,
    most: MOST_BYTES,
    many: BAD_LENGTH,
};

const MACHINE_BYTES: Range = Range {
    least: 0,
    few: BAD_LENGTH,
    most: MOST_BYTES,
    many: BAD_LENGTH,
};

const SETS: Range = Range {
    least: 1,
    few: flow::WRONG_SETS,
    most: flow::MOST_SETS as u16,
    many: flow::WRONG_SETS,
};

const NAMES: Range = Range {
    least: 0,
    few: TOO_MANY_NAMES,
    most: MOST_NAMES,
    many: TOO_MANY_NAMES,
};

// Two bytes as a number, the low one first.
pub fn number_from(low: u8, high: u8) -> u16
    ensures { result ≡ low + 256 * high }
{
    u16::from_le_bytes([low, high])
}

// The refusal of what stands at an offset.
pub fn refusal(number: u16, at: usize) -> Refusal
    requires { at < 65536 }
    ensures { result ≡ refusal_of number at }
{
    Refusal {
        number,
        place: at as u32,
    }
}

// A value, and the offset behind it.
fn found(value: u16, next: usize) -> Got
    ensures { result ≡ found_at value next }
{
    Got {
        value,
        next: Cursor { at: next },
    }
}

// A byte, as a number.
fn byte_at(file: &[u8], c: Cursor) -> Result<Got, Refusal>
    requires { c.at < 65536 }
    ensures { result ≡ as_item (λ n. n) (run file.now c.at byte) }
{
    let at = c.at;
    if file.len() < at + 1 {
        return Err(refusal(CUT, at));
    }
    Ok(found(u16::from(file[at]), at + 1))
}

// A number of 16 bits, the low byte first.
fn number_at(file: &[u8], c: Cursor) -> Result<Got, Refusal>
    requires { c.at < 65536 }
    ensures { result ≡ as_item (λ n. n) (run file.now c.at number) }
{
    let at = c.at;
    if file.len() < at + 2 {
        return Err(refusal(CUT, at));
    }
    Ok(found(number_from(file[at], file[at + 1]), at + 2))
}

// What was found at an offset, refused there if its value is out of its range.
fn in_range(got: Got, at: usize, range: Range) -> Result<Got, Refusal>
    requires { at < 65536 }
    ensures { result ≡ item_in_range range at got }
{
    if got.value < range.least {
        return Err(refusal(range.few, at));
    }
    if range.most < got.value {
        return Err(refusal(range.many, at));
    }
    Ok(got)
}

// A length byte, in its range.
fn length_at(file: &[u8], c: Cursor, range: Range) -> Result<Got, Refusal>
    requires { c.at < 65536 }
    ensures { result ≡ as_item (λ n. n) (run file.now c.at (ranged range byte)) }
{
    in_range(byte_at(file, c)?, c.at, range)
}

// A count, in its range.
fn count_at(file: &[u8], c: Cursor, range: Range) -> Result<Got, Refusal>
    requires { c.at < 65536 }
    ensures { result ≡ as_item (λ n. n) (run file.now c.at (ranged range number)) }
{
    in_range(number_at(file, c)?, c.at, range)
}

// A name: its length byte and its bytes. The value is the length.
fn name_at(file: &[u8], c: Cursor, range: Range) -> Result<Got, Refusal>
    requires { c.at < 65000 }
    ensures { result ≡ as_item length (run file.now c.at (name range)) }
{
    let length = length_at(file, c, range)?;
    let from = c.at + 1;
    let end = from + usize::from(length.value);
    if file.len() < end {
        return Err(refusal(CUT, from));
    }
    Ok(found(length.value, end))
}

// An entry: a step name and a machine name. The value is the step name's length.
fn entry_at(file: &[u8], c: Cursor) -> Result<Got, Refusal>
    requires { c.at < 64000 }
    ensures { result ≡ as_item (λ e. length e.step) (run file.now c.at entry) }
{
    let step = name_at(file, c, STEP_BYTES)?;
    let machine = name_at(file, step.next, MACHINE_BYTES)?;
    Ok(Got {
        value: step.value,
        next: machine.next,
    })
}

// Where the name at an offset ends.
pub fn end_of_name(file: &[u8], at: usize) -> usize
    requires { name_end file.now at ≤ length file.now }
    ensures { result ≡ name_end file.now at }
{
    at + 1 + usize::from(file[at])
}

// Whether the names at two offsets are equal byte by byte.
fn same_name(file: &[u8], a: usize, b: usize) -> bool
    requires { (name_end file.now a ≤ length file.now) × (name_end file.now b ≤ length file.now) }
    ensures { result ≡ same_bytes (name_at file.now a) (name_at file.now b) }
{
    let a_end = end_of_name(file, a);
    let b_end = end_of_name(file, b);
    file[a + 1..a_end] == file[b + 1..b_end]
}

// Whether the step names of the entries at two offsets are the same: one place for 18 and for the matching, whose contracts name the
// definition that is theirs alone.
pub fn same_step(file: &[u8], a: usize, b: usize) -> bool
    requires { (name_end file.now a ≤ length file.now) × (name_end file.now b ≤ length file.now) }
    ensures { result ≡ same_step (name_at file.now a) (name_at file.now b) }
{
    same_name(file, a, b)
}

// Whether the entries at two offsets are the same: both names.
fn same_entry(file: &[u8], a: usize, b: usize) -> bool
    requires { (entry_end file.now a ≤ length file.now) × (entry_end file.now b ≤ length file.now) }
    ensures { result ≡ same_entry (entry_at file.now a) (entry_at file.now b) }
{
    same_step(file, a, b) && same_name(file, end_of_name(file, a), end_of_name(file, b))
}

// Whether the entry at `at` is one of the `count` entries before it. The names start at offset 2.
fn met_before(file: &[u8], count: u16, at: usize) -> bool
    requires { Behind file.now count at }
    ensures { result ≡ met (entry_at file.now at) (entries_at file.now count 2) }
{
    let mut a = 2;
    for _i in 0..count {
        if same_entry(file, a, at) {
            return true;
        }
        a = end_of_name(file, end_of_name(file, a));
    }
    false
}

// An entry that is none of the `earlier` ones before it, which start at offset 2. The value is the step name's length.
fn new_entry_at(file: &[u8], c: Cursor, earlier: u16) -> Result<Got, Refusal>
    requires { (c.at < 64000) × (entries_end file.now earlier 2 ≤ c.at) }
    ensures { result ≡ as_item (λ e. length e.step) (run file.now c.at (new_entry (entries_at file.now earlier 2))) }
{
    let got = entry_at(file, c)?;
    if met_before(file, earlier, c.at) {
        return Err(refusal(SAME_ENTRY, c.at));
    }
    Ok(got)
}

// The names section at the start of a file: the value is the number of names, the cursor stands behind the last entry.
pub fn scan_names(file: &[u8]) -> Result<Got, Refusal>
    ensures { result ≡ as_item length (run file.now 0 names) }
{
    let count = count_at(file, Cursor { at: 0 }, NAMES)?;
    let mut next = count.next;
    for i in 0..count.value {
        next = new_entry_at(file, next, i)?.next;
    }
    Ok(Got {
        value: count.value,
        next,
    })
}

// A names section with nothing behind it: 15 to 18, and 21 at the first byte too many.
pub fn scan_alone(names: &[u8]) -> Result<Got, Refusal>
    ensures { result ≡ as_item length (section_alone names.now) }
{
    let got = scan_names(names)?;
    let end = got.next.at;
    if end < names.len() {
        return Err(refusal(TOO_LONG, end));
    }
    Ok(got)
}

// So many items of a size, one after the other. The value is how many.
fn run_of_items(file: &[u8], c: Cursor, count: u16, size: usize) -> Result<Got, Refusal>
    requires { (c.at < 64000) × (c.at ≤ length file.now) × (1 ≤ size) × (size * count ≤ 512) }
    ensures { result ≡ as_item (count_by size) (run file.now c.at (items size count)) }
{
    let from = c.at;
    for i in 0..usize::from(count) {
        let at = from + size * i;
        if file.len() < at + size {
            return Err(refusal(CUT, at));
        }
    }
    Ok(found(count, from + size * usize::from(count)))
}

// A section of items of a size: its count, in a range, and so many times `each` items. The value is how many items there are.
fn items_at(file: &[u8], c: Cursor, range: Range, each: u16, size: usize) -> Result<Got, Refusal>
    requires { (c.at < 60000) × (1 ≤ size) × (size * (each * range.most) ≤ 512) }
    ensures { result ≡ as_item (count_by size) (run file.now c.at (item_section range size each)) }
{
    let count = count_at(file, c, range)?;
    run_of_items(file, count.next, each * count.value, size)
}

// A section of numbers, `each` of which make one. The value is how many numbers there are.
pub fn section_at(file: &[u8], c: Cursor, range: Range, each: u16) -> Result<Got, Refusal>
    requires { (c.at < 60000) × (each * range.most ≤ 256) }
    ensures { result ≡ as_item length (run file.now c.at (section range each)) }
{
    items_at(file, c, range, each, 2)
}

// The sets; none where the file ends. The value is how many there are.
pub fn sets_at(file: &[u8], c: Cursor) -> Result<Got, Refusal>
    requires { c.at < 60000 }
    ensures { result ≡ as_item set_count (run file.now c.at joint_sets) }
{
    if file.len() <= c.at {
        return Ok(found(0, c.at));
    }
    items_at(file, c, SETS, 1, flow::SET_BYTES)
}

// The `count` numbers of the file at an offset, to the front of a table; the rest of it stays. By index, since a proof knows of what is
// written through `iter_mut` only how long it is.
pub fn fill(file: &[u8], at: usize, count: usize, table: &mut [u16])
    requires { (at + 2 * count ≤ length file.now) × (count ≤ length table.old) }
    ensures { table.new ≡ at_front (numbers_at file.now count at) table.old }
{
    for i in 0..count {
        table[i] = number_from(file[at + 2 * i], file[at + 2 * i + 1]);
    }
}

// Whether node i is an event above the number of names.
fn unnamed_leaf(nodes: &[u16], i: usize, names: u16) -> bool
    requires { 3 * i + 2 < length nodes.now }
    ensures { result ≡ unnamed_leaf names nodes.now i }
{
    let form = flow::form_at(nodes, i);
    let event = flow::first_at(nodes, i);
    form.event & (names < event)
}

// Whether a record is an event above the number of names.
fn unnamed_event(number: u16, names: u16) -> bool
    ensures { result ≡ unnamed_event names number }
{
    (number <= flow::MOST_EVENTS) & (names < number)
}

// 19: the lowest event leaf above the number of names, of at most 64 whole nodes.
fn check_leaves(nodes: &[u16], names: u16) -> Result<(), Refusal>
    requires { length nodes.now ≤ 192 }
    ensures { result ≡ first (leaves_grounds names nodes.now) }
{
    match (0..nodes.len() / 3).find(|i| unnamed_leaf(nodes, *i, names)) {
        Some(i) => Err(refusal(NO_NAME_FOR_NODE, i)),
        None => Ok(()),
    }
}

// 20: the lowest event record above the number of names, of at most 256 records.
fn check_events(records: &[u16], names: u16) -> Result<(), Refusal>
    requires { length records.now ≤ 256 }
    ensures { result ≡ first (events_grounds names records.now) }
{
    match records
        .iter()
        .position(|number| unnamed_event(*number, names))
    {
        Some(i) => Err(refusal(NO_NAME_FOR_RECORD, i)),
        None => Ok(()),
    }
}

// 4 to 9, with 22, 12, 13, 19 and 20, of the nodes, records, number of names and number of sets that stand in a file.
pub fn check_contents(
    nodes: &[u16],
    records: &[u16],
    names: u16,
    many: usize,
    extent: Extent,
) -> Result<(), Refusal>
    requires { (3 ≤ length nodes.now) × (length nodes.now ≤ 192) × (length records.now ≤ 256) }
    ensures { result ≡ first (grounds_of extent names many nodes.now records.now) }
{
    flow::check_nodes(nodes, many)?;
    flow::check_values(records)?;
    flow::check_closings(nodes, records, extent)?;
    check_leaves(nodes, names)?;
    check_events(records, names)
}

// What is refused of a names section, nodes, records and sets that are lent as lists: 15 to 18 and 21 of the names section, 1 to 3, 10
// and 11, 23, then as of a file's contents.
pub fn check_lists(
    names: &[u8],
    nodes: &[u16],
    records: &[u16],
    sets: &[u8],
    extent: Extent,
) -> Result<(), Refusal>
    ensures { result ≡ lists_check extent names.now sets.now nodes.now records.now }
{
    let got = scan_alone(names)?;
    flow::check_table_length(nodes)?;
    flow::check_records_length(records, extent)?;
    flow::check_sets(sets)?;
    check_contents(
        nodes,
        records,
        got.value,
        sets.len() / flow::SET_BYTES,
        extent,
    )
}
