// The judge: what is refused, or the counted search of the flow and the answer that comes of it. `judge` is lent nodes and records, and a
// node takes its own event; `judge_named` is lent a names section too, and a node without a machine takes a record of any.
#![tactic(auto)]

ghost use Rattle.std.specs.Prelude.{◌≡◌, ◌≤◌, map, length};
ghost use Rattle.flow.specs.Cues.{cue_of, masked};
ghost use Rattle.flow.specs.Legends.{in_set};
ghost use Rattle.search.specs.Visits.{out_of};
ghost use Rattle.search.specs.Searches.{LeftWithin, SearchReady};
ghost use Rattle.judge.specs.Judged.{judge_check, named_judge_check, Judged, NamedJudged};
ghost use Rattle.judge.specs.Settled.{answer_to, room_check, Answered};

use flow::{Extent, Refusal};
use matching::{Named, Names, Unnamed};
use search::Trip;

// How far the records were followed, and how many states were entered.
#[derive(Clone, Copy)]
pub struct Reach {
    pub place: u32,
    pub count: u32,
}

#[derive(Clone, Copy)]
pub enum Answer {
    Accepted(Reach),
    Rejected(Reach),
    Undecided(Reach),
    Refused(Refusal),
}

// The answer that comes of a search through so many records.
fn answer_of(out: Option<Trip>, records: usize, allowance: u32) -> Answer
    requires left_within { LeftWithin allowance out }
    requires records_bound { records ≤ 256 }
    ensures { result ≡ answer_to records allowance (out_of out) }
{
    match out {
        None => Answer::Undecided(Reach {
            place: 0,
            count: allowance,
        }),
        Some(trip) => {
            let count = allowance - trip.left;
            if trip.found {
                Answer::Accepted(Reach {
                    place: records as u32,
                    count,
                })
            } else {
                Answer::Rejected(Reach {
                    place: trip.far,
                    count,
                })
            }
        }
    }
}

// 14, with so many work bytes lent. What an entry point is lent is handed on as it is, here and below.
fn check_room(nodes: &[u16], records: &[u16], room: usize) -> Result<(), Refusal>
    requires { (length nodes.now ≤ 192) × (length records.now ≤ 256) }
    ensures { result ≡ room_check nodes.now records.now room }
{
    if room < search::room_wanted(nodes.len() / 3, records.len()) {
        return Err(Refusal {
            number: flow::NO_ROOM,
            place: 0,
        });
    }
    Ok(())
}

// 1 to 14, with 22 and 23.
fn check_all(nodes: &[u16], records: &[u16], sets: &[u8], room: usize) -> Result<(), Refusal>
    ensures { result ≡ judge_check sets.now nodes.now records.now room }
{
    flow::check_table(nodes, sets)?;
    flow::check_records(nodes, records, Extent::Whole)?;
    check_room(nodes, records, room)
}

// With names: as the writer's lists, then 14.
fn check_named(
    names: &[u8],
    nodes: &[u16],
    records: &[u16],
    sets: &[u8],
    room: usize,
) -> Result<(), Refusal>
    ensures { result ≡ named_judge_check names.now sets.now nodes.now records.now room }
{
    format::check_lists(names, nodes, records, sets, Extent::Whole)?;
    check_room(nodes, records, room)
}

// The search by the records' cues, and its answer. There is no allocation, so there is room for the cues of 256 records.
fn answer_by<N: Names>(
    names: &N,
    nodes: &[u16],
    records: &[u16],
    sets: &[u8],
    work: &mut [u8],
    allowance: u32,
) -> Answer
    requires records_bound { length records.now ≤ 256 }
    requires ready { SearchReady nodes.now (map (cue_of (masked (in_set sets.now)) (N.beside names.now)) records.now) work.old }
    ensures { Answered nodes.now (map (cue_of (masked (in_set sets.now)) (N.beside names.now)) records.now) allowance work.old result work.new }
{
    let mut cues = [0u64; 256];
    matching::write_cues(names, records, sets, &mut cues);
    let n = records.len();
    let out = search::search(nodes, &cues[..n], work, allowance);
    answer_of(out, n, allowance)
}

// Judges a record list against a flow, whose joint events are in the lent sets, if there are any: a refusal by the documents' numbers, or
// the verdict of the counted search. The work bytes lent are left as they are by a refusal, else zero up to the room wanted.
pub fn judge(nodes: &[u16], records: &[u16], sets: &[u8], work: &mut [u8], allowance: u32) -> Answer
    ensures { Judged sets.now nodes.now records.now allowance work.old result work.new }
{
    if let Err(refusal) = check_all(nodes, records, sets, work.len()) {
        return Answer::Refused(refusal);
    }
    answer_by(&Unnamed, nodes, records, sets, work, allowance)
}

// The same with a names section, an entry point of its own as README has it: a refusal by the numbers and in the order of the writer, 14
// last, or the verdict of the search in which a node whose entry has no machine takes a record of any entry with the same step name.
pub fn judge_named(
    names: &[u8],
    nodes: &[u16],
    records: &[u16],
    sets: &[u8],
    work: &mut [u8],
    allowance: u32,
) -> Answer
    ensures { NamedJudged names.now sets.now nodes.now records.now allowance work.old result work.new }
{
    if let Err(refusal) = check_named(names, nodes, records, sets, work.len()) {
        return Answer::Refused(refusal);
    }
    let names = Named { section: names };
    answer_by(&names, nodes, records, sets, work, allowance)
}
