// What may come next: which events and closings can follow a beginning of a record list, found by the search of all its runs. `next` is lent
// nodes, and a node takes its own event; `next_named` is lent a names section too, and a node without a machine takes a record of any.
#![tactic(auto)]

pub mod answer;

ghost use Rattle.std.specs.Prelude.{◌≡◌, ◌≤◌, length, map};
ghost use Rattle.flow.specs.Cues.{cue_of, masked};
ghost use Rattle.flow.specs.Legends.{in_set};
ghost use Rattle.matching.specs.Asks.{asks};
ghost use Rattle.flow.specs.Records.{all_numbers};
ghost use Rattle.format.specs.Told.{at_front};
ghost use Rattle.ahead.specs.Outcome.{next_check, named_next_check, NextOf, NamedNextOf};
ghost use Rattle.ahead.specs.Answering.{next_room_check, picked, NextReady, NextAnswered};

use answer::{Found, Next};
use flow::{Extent, Refusal};
use matching::{Named, Names, Unnamed};

// 14, with so many numbers and so many work bytes lent. What an entry point is lent is handed on as it is, here and below.
fn check_next_room(
    nodes: &[u16],
    beginning: &[u16],
    numbers: usize,
    room: usize,
) -> Result<(), Refusal>
    requires { (length nodes.now ≤ 192) × (length beginning.now ≤ 256) }
    ensures { result ≡ next_room_check nodes.now beginning.now numbers room }
{
    if (numbers < matching::NUMBERS)
        | (room < search::room_wanted(nodes.len() / 3, beginning.len()))
    {
        return Err(Refusal {
            number: flow::NO_ROOM,
            place: 0,
        });
    }
    Ok(())
}

// 1 to 9, 11 to 14, with 22 and 23.
fn check_next(
    nodes: &[u16],
    beginning: &[u16],
    sets: &[u8],
    numbers: usize,
    room: usize,
) -> Result<(), Refusal>
    ensures { result ≡ next_check sets.now nodes.now beginning.now numbers room }
{
    flow::check_table(nodes, sets)?;
    flow::check_records(nodes, beginning, Extent::Beginning)?;
    check_next_room(nodes, beginning, numbers, room)
}

// With names: as the writer's lists, but for 10; then 14.
fn check_next_named(
    names: &[u8],
    nodes: &[u16],
    beginning: &[u16],
    sets: &[u8],
    numbers: usize,
    room: usize,
) -> Result<(), Refusal>
    ensures { result ≡ named_next_check names.now sets.now nodes.now beginning.now numbers room }
{
    format::check_lists(names, nodes, beginning, sets, Extent::Beginning)?;
    check_next_room(nodes, beginning, numbers, room)
}

// The numbers whose asks are answered, to the front of the table; how many.
fn write_listed(asks: &[u64], list: &mut [u16]) -> u32
    requires { (length asks.now ≡ 259) × (259 ≤ length list.old) }
    ensures value { result ≡ length (picked all_numbers asks.now) }
    ensures written { list.new ≡ at_front (picked all_numbers asks.now) list.old }
{
    let mut n: usize = 0;
    for (place, ask) in asks.iter().enumerate() {
        if *ask == search::FOLLOWS {
            list[n] = matching::nth_number(place);
            n += 1;
        }
    }
    n as u32
}

// The search by these cues and asks, and its answer. Nothing is written before the search is over.
fn next_by(
    nodes: &[u16],
    cues: &[u64],
    asks: &mut [u64],
    list: &mut [u16],
    work: &mut [u8],
    allowance: u32,
) -> Next
    requires { NextReady nodes.now cues.now asks.old list.old work.old }
    ensures { NextAnswered nodes.now cues.now asks.old allowance list.old work.old result list.new work.new }
{
    match search::ask(nodes, cues, work, asks, allowance) {
        None => Next::Undecided(Found {
            length: 0,
            count: allowance,
        }),
        Some(trip) => {
            let length = write_listed(asks, list);
            Next::Listed(Found {
                length,
                count: allowance - trip.left,
            })
        }
    }
}

// The search by the records' cues and the asks of all numbers, and its answer. There is no allocation, so there is room for the cues of 256
// records.
fn answer_by<N: Names>(
    names: &N,
    nodes: &[u16],
    beginning: &[u16],
    sets: &[u8],
    list: &mut [u16],
    work: &mut [u8],
    allowance: u32,
) -> Next
    requires beginning_bound { length beginning.now ≤ 256 }
    requires ready { NextReady nodes.now (map (cue_of (masked (in_set sets.now)) (N.beside names.now)) beginning.now) (asks (masked (in_set sets.now)) (N.beside names.now) nodes.now) list.old work.old }
    ensures { NextAnswered nodes.now (map (cue_of (masked (in_set sets.now)) (N.beside names.now)) beginning.now) (asks (masked (in_set sets.now)) (N.beside names.now) nodes.now) allowance list.old work.old result list.new work.new }
{
    let mut cues = [0u64; 256];
    matching::write_cues(names, beginning, sets, &mut cues);
    let mut asks = [0u64; 259];
    matching::write_asks(names, nodes, sets, &mut asks);
    let n = beginning.len();
    next_by(nodes, &cues[..n], &mut asks, list, work, allowance)
}

// Lists what can follow a beginning: a refusal by document 01's numbers, or the numbers of all events and closings that some run goes on by.
// Of the list the numbers behind stay, and all if it is refused or undecided; the work bytes are left as by the judge.
pub fn next(
    nodes: &[u16],
    beginning: &[u16],
    sets: &[u8],
    list: &mut [u16],
    work: &mut [u8],
    allowance: u32,
) -> Next
    ensures { NextOf sets.now nodes.now beginning.now allowance list.old work.old result list.new work.new }
{
    if let Err(refusal) = check_next(nodes, beginning, sets, list.len(), work.len()) {
        return Next::Refused(refusal);
    }
    answer_by(&Unnamed, nodes, beginning, sets, list, work, allowance)
}

// The same with a names section, an entry point of its own as README has it: a refusal by the numbers and in the order of the writer,
// without 10, and 14 last; and a node whose entry has no machine takes a record of any entry with the same step name.
pub fn next_named(
    names: &[u8],
    nodes: &[u16],
    beginning: &[u16],
    sets: &[u8],
    list: &mut [u16],
    work: &mut [u8],
    allowance: u32,
) -> Next
    ensures { NamedNextOf names.now sets.now nodes.now beginning.now allowance list.old work.old result list.new work.new }
{
    if let Err(refusal) = check_next_named(names, nodes, beginning, sets, list.len(), work.len()) {
        return Next::Refused(refusal);
    }
    let names = Named { section: names };
    answer_by(&names, nodes, beginning, sets, list, work, allowance)
}
