// The cues of a record list: which of the lent sets have a record (02, Four), and which other event takes it. Where no names are lent there
// is none; where a names section is, it is the first entry that has no machine and the step name of the record's entry (02, Two). What a
// cue is, is defined in crate `flow`, Cues; which other event it holds, in specs/Others.antt. Then the cues of all numbers that may follow
// a beginning of a record list (02, Three), but for events that no leaf takes (specs/Asks.antt). Not here: whether the names section or the
// sets are refused (crates `format` and `flow`): bytes that are missing at the end of the sets count as 0.
#![tactic(auto)]

ghost use Rattle.std.specs.Prelude.{◌≡◌, ℕ, map, true, false, ◌||◌, cond, ◌+◌, ◌*◌, ◌<◌, ◌≤◌, ◌^◌, eqb, ltb, length, get_or};
ghost use Rattle.flow.specs.Records.{most_events, all_numbers};
ghost use Rattle.flow.specs.Refusals.{count};
ghost use Rattle.flow.specs.Legends.{in_set};
ghost use Rattle.flow.specs.Cues.{cue, cue_of, itself, masked};
ghost use Rattle.format.specs.Matching.{no_machine};
ghost use Rattle.format.specs.ListChecks.{entries_in};
ghost use Rattle.format.specs.Told.{at_front};
ghost use Rattle.format.specs.Items.{name_at, entry_at, entry_end, entries_end};
ghost use Rattle.matching.specs.Others.{takes_step, first_taking, other};
ghost use Rattle.matching.specs.Entries.{entry_place};
ghost use Rattle.matching.specs.SectionTest.{is_whole};
ghost use Rattle.matching.specs.Asks.{asks, takes_event, HeardMarks, AlsoMarked, has_step, ask_by};

use flow::MOST_EVENTS;

// Beside a closing, in place of another event: a number and no case, since a cue is one number by its definition (flow, Cues).
const NO_EVENT: u16 = 65535;

// How many numbers may follow a beginning: the events and the closings.
pub const NUMBERS: usize = 259;

// Which events are marked, by their numbers; there is no event 0.
pub type Marks = [bool; 257];

// The offset behind the entry at an offset.
fn end_of_entry(names: &[u8], at: usize) -> usize
    requires { entry_end names.now at ≤ length names.now }
    ensures { result ≡ entry_end names.now at }
{
    format::end_of_name(names, format::end_of_name(names, at))
}

// The offset behind the first k entries.
pub fn behind_entries(names: &[u8], k: u16) -> usize
    requires { entries_end names.now k 2 ≤ length names.now }
    ensures { result ≡ entries_end names.now k 2 }
{
    let mut at = 2;
    for _ in 0..k {
        at = end_of_entry(names, at);
    }
    at
}

// Where the entry of an event stands.
#[derive(Clone, Copy)]
struct Place {
    event: u16,
    at: usize,
}

// The entries of a names section that are left, one after the other.
#[derive(Clone, Copy)]
struct Entries<'a> {
    section: &'a [u8],
    next: Place,
    left: u16,
    ghost inside: { entries_end section.now left next.at ≤ length section.now },
    ghost few: { next.event + left ≤ 257 },
}

impl Iterator for Entries<'_> {
    ghost use Rattle.std.specs.Iterator.{at_most};
    ghost use Rattle.matching.specs.Walk.{GivesPlace};

    type Item = Place;

    ghost next_gives = { GivesPlace };

    ghost remaining = { λ entries. at_most entries.left };

    fn next(&mut self) -> Option<Place> {
        if self.left == 0 {
            return None;
        }
        let entry = self.next;
        self.next = Place {
            event: entry.event + 1,
            at: end_of_entry(self.section, entry.at),
        };
        self.left -= 1;
        Some(entry)
    }
}

// Whether the entry at an offset has no machine. That it is there is asked, since it may be any of the section's, as the iterator's items
// are.
fn without_machine(names: &[u8], at: usize) -> bool
    requires { entry_end names.now at ≤ length names.now }
    ensures { result ≡ no_machine (entry_at names.now at) }
{
    let machine = format::end_of_name(names, at);
    names[machine] == 0
}

// Whether the entry at an offset has no machine, and the step name of the one at `at`.
fn takes_step(names: &[u8], entry: usize, at: usize) -> bool
    requires { (entry_end names.now entry ≤ length names.now) × (entry_end names.now at ≤ length names.now) }
    ensures { result ≡ takes_step (name_at names.now at) (entry_at names.now entry) }
{
    without_machine(names, entry) && format::same_step(names, entry, at)
}

// Whether a set of the lent ones has an event: event k stands at bit k - 1.
fn in_set(sets: &[u8], set: usize, event: u16) -> bool
    requires { set < 16 }
    ensures { result ≡ in_set sets.now set event }
{
    if (event < 1) | (MOST_EVENTS < event) {
        return false;
    }
    let at = flow::SET_BYTES * set + usize::from(event - 1) / 8;
    let bit = (event - 1) % 8;
    let byte = sets.get(at).copied().unwrap_or(0);
    (byte >> bit) % 2 == 1
}

// The bit of a set in the mask of an event, if the set has it.
fn set_bit(sets: &[u8], set: usize, event: u16) -> u64
    requires { set < 16 }
    ensures { result ≡ cond (in_set sets.now set event) (2 ^ set) 0 }
{
    if in_set(sets, set, event) {
        1 << set
    } else {
        0
    }
}

// The mask of the sets that have an event. Those that are not lent are not looked at: most calls lend none.
fn mask(sets: &[u8], event: u16) -> u64
    ensures { result ≡ masked (in_set sets.now) event }
{
    let lent = sets.len().div_ceil(flow::SET_BYTES).min(flow::MOST_SETS);
    let mut bits = 0;
    for set in 0..lent {
        bits += set_bit(sets, set, event);
    }
    bits
}

// An event, the mask of its sets, and the other that takes it, in one number.
fn packed(event: u16, mask: u64, other: u16) -> u64
    requires { mask < 65536 }
    ensures { result ≡ cue event mask other }
{
    4294967296 * u64::from(other) + 65536 * mask + u64::from(event)
}

// Marks an event, if it is one of 256.
#[tactic(auto, using(crate::proofs::MarkLaws::also_event, crate::proofs::MarkLaws::also_above))]
fn mark_event(event: u16, marks: &mut Marks)
    ensures { AlsoMarked (λ a. eqb a event) marks.old marks.new }
{
    if event <= MOST_EVENTS {
        marks[usize::from(event)] = true;
    }
}

// What is lent of names: none, or a names section. By them an event's record may be taken by the leaves of another event too.
pub trait Names {
    // The other event that takes an event, or the event itself.
    ghost beside: { Self → ℕ → ℕ };

    fn other_event(&self, event: u16) -> u16
        ensures { result ≡ beside self.now event };

    // Marks the events that a leaf of an event takes.
    fn mark_taken(&self, event: u16, marks: &mut Marks)
        ensures { AlsoMarked (λ a. takes_event (beside self.now) a event) marks.old marks.new };
}

// No names.
#[derive(Clone, Copy)]
pub struct Unnamed;

impl Names for Unnamed {
    ghost beside = { λ _. itself };

    fn other_event(&self, event: u16) -> u16 {
        event
    }

    fn mark_taken(&self, event: u16, marks: &mut Marks) {
        mark_event(event, marks);
    }
}

// A names section that is not refused.
#[derive(Clone, Copy)]
pub struct Named<'a> {
    pub section: &'a [u8],
    pub ghost whole: { is_whole section.now ≡ true },
}

impl Named<'_> {
    ghost use Rattle.matching.specs.Walk.{Walked};

    // How many names there are.
    fn count(&self) -> u16
        ensures { result ≡ length (entries_in self.now.section.now) }
    {
        format::number_from(self.section[0], self.section[1])
    }

    // Its entries, from the first on.
    fn entries(&self) -> Entries<'_>
        ensures { Walked self.now.section.now 0 result }
    {
        Entries {
            section: self.section,
            next: Place { event: 1, at: 2 },
            left: self.count(),
        }
    }

    // The offset of an event's entry, if it has one.
    fn entry_of(&self, event: u16) -> Option<usize>
        ensures { result ≡ entry_place self.now.section.now event }
    {
        if (event < 1) | (self.count() < event) {
            return None;
        }
        Some(behind_entries(self.section, event - 1))
    }

    // The number of the first entry that has no machine and the step name of the entry at an offset, or else `own`.
    fn first_taking(&self, at: usize, own: u16) -> u16
        requires { entry_end self.now.section.now at ≤ length self.now.section.now }
        ensures { let s = self.now.section.now in result ≡ first_taking (name_at s at) own (entries_in s) 1 }
    {
        for entry in self.entries() {
            if takes_step(self.section, entry.at, at) {
                return entry.event;
            }
        }
        own
    }

    // Marks the events whose entries have the step name of the entry at an offset.
    fn mark_steps(&self, at: usize, marks: &mut Marks)
        requires { entry_end self.now.section.now at ≤ length self.now.section.now }
        ensures { let s = self.now.section.now in AlsoMarked (has_step (name_at s at) (entries_in s)) marks.old marks.new }
    {
        for entry in self.entries() {
            marks[usize::from(entry.event)] |= format::same_step(self.section, at, entry.at);
        }
    }
}

impl Names for Named<'_> {
    ghost beside = { λ names. other (entries_in names.section.now) };

    fn other_event(&self, event: u16) -> u16 {
        match self.entry_of(event) {
            Some(at) => self.first_taking(at, event),
            None => event,
        }
    }

    // The event itself, and if its entry has no machine, those that have its step name.
    fn mark_taken(&self, event: u16, marks: &mut Marks) {
        mark_event(event, marks);
        if let Some(at) = self.entry_of(event) {
            if without_machine(self.section, at) {
                self.mark_steps(at, marks);
            }
        }
    }
}

// The cue of a record's number.
fn cue<N: Names>(names: &N, number: u16, sets: &[u8]) -> u64
    ensures { result ≡ cue_of (masked (in_set sets.now)) (N.beside names.now) number }
{
    if number <= MOST_EVENTS {
        packed(number, mask(sets, number), names.other_event(number))
    } else {
        packed(number, 0, NO_EVENT)
    }
}

// The cues of the records to the front of a table; the rest of it stays.
pub fn write_cues<N: Names>(names: &N, records: &[u16], sets: &[u8], cues: &mut [u64])
    requires { length records.now ≤ length cues.old }
    ensures { cues.new ≡ at_front (map (cue_of (masked (in_set sets.now)) (N.beside names.now)) records.now) cues.old }
{
    for (i, number) in records.iter().enumerate() {
        cues[i] = cue(names, *number, sets);
    }
}

// Marks the events that node i takes, if it is an event leaf.
fn mark_leaf<N: Names>(names: &N, nodes: &[u16], i: usize, marks: &mut Marks)
    requires i_in_bounds { 3 * i + 2 < length nodes.now }
    requires heard_marks { HeardMarks (N.beside names.now) nodes.now i marks.old }
    ensures { HeardMarks (N.beside names.now) nodes.now (i + 1) marks.new }
{
    if flow::form_at(nodes, i).event {
        names.mark_taken(flow::first_at(nodes, i), marks);
    }
}

// Marks the events that the leaves take; none is marked yet.
fn mark_leaves<N: Names>(names: &N, nodes: &[u16], marks: &mut Marks)
    requires { HeardMarks (N.beside names.now) nodes.now 0 marks.old }
    ensures { HeardMarks (N.beside names.now) nodes.now (count nodes.now) marks.new }
{
    for i in 0..nodes.len() / 3 {
        mark_leaf(names, nodes, i, marks);
    }
}

// The number at a place of all numbers: the events, then the closings.
pub fn nth_number(place: usize) -> u16
    requires { place < 259 }
    ensures { result ≡ get_or all_numbers place 0 }
{
    let events = usize::from(MOST_EVENTS);
    if place < events {
        place as u16 + 1
    } else {
        flow::DONE + (place - events) as u16
    }
}

// Whether a number is asked: a closing, or a marked event.
fn is_asked(marks: &Marks, number: u16) -> bool
    ensures { result ≡ (ltb most_events number || get_or marks.now number false) }
{
    number > MOST_EVENTS || marks[usize::from(number)]
}

// What is asked for a number, by the marks.
fn ask<N: Names>(names: &N, marks: &Marks, number: u16, sets: &[u8]) -> u64
    ensures { result ≡ ask_by (masked (in_set sets.now)) (N.beside names.now) marks.now number }
{
    if is_asked(marks, number) {
        cue(names, number, sets)
    } else {
        0
    }
}

// What is asked for each number.
pub fn write_asks<N: Names>(names: &N, nodes: &[u16], sets: &[u8], table: &mut [u64])
    requires { length table.old ≡ 259 }
    ensures { table.new ≡ asks (masked (in_set sets.now)) (N.beside names.now) nodes.now }
{
    let mut marks: Marks = [false; 257];
    mark_leaves(names, nodes, &mut marks);
    for (place, asked) in table.iter_mut().enumerate() {
        *asked = ask(names, &marks, nth_number(place), sets);
    }
}
