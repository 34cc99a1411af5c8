// The flow file's reader: a file's bytes to the counts of names, nodes and records, the place of the sets and the two tables, or a
// refusal with its number and place. What it answers is defined in specs/Reading.antt; the items and checks are those of crate `format`.
#![tactic(auto)]

ghost use Rattle.std.specs.Prelude.{◌≡◌, ◌*◌};
ghost use Rattle.flow.specs.declared.Extent.TheVariants.{Whole};
ghost use Rattle.flow.specs.Checks.{first};
ghost use Rattle.format.specs.ContentChecks.{grounds_of};
ghost use Rattle.format.specs.Items.{numbers_at};
ghost use Rattle.reader.specs.Reading.{ReadAs};
ghost use Rattle.reader.specs.Laying.{Lays, Inside};

use flow::{Extent, Refusal};
use format::Range;

// How many nodes and records there may be.
const NODES: Range = Range {
    least: 1,
    few: flow::NO_NODES,
    most: flow::MOST_NODES as u16,
    many: flow::TOO_MANY_NODES,
};

const RECORDS: Range = Range {
    least: 1,
    few: flow::NO_RECORDS,
    most: flow::MOST_RECORDS as u16,
    many: flow::TOO_MANY_RECORDS,
};

// What the two tables must hold: three numbers for each node, and the records.
const NODE_ROOM: usize = 3 * flow::MOST_NODES;

const RECORD_ROOM: usize = flow::MOST_RECORDS;

// How many names, nodes and records a file has; the offset of its first set, or the file's length where it has none, and how many sets
// there are.
#[derive(Clone, Copy)]
pub struct Counts {
    pub names: u16,
    pub nodes: u16,
    pub records: u16,
    pub sets_at: usize,
    pub sets: u16,
}

// Where the numbers of a file stand: of its nodes, of its records, and where they end.
#[derive(Clone, Copy)]
struct Offsets {
    counts: Counts,
    nodes: usize,
    records: usize,
    end: usize,
}

// The sections, to the end of the file: their counts and offsets, or the first refusal of 15 to 18, 1, 3, 10, 11, 23 and 21. The sets are
// the last bytes of a file.
fn lay_out(file: &[u8]) -> Result<Offsets, Refusal>
    ensures { Lays file.now result }
{
    let names = format::scan_names(file)?;
    let nodes = format::section_at(file, names.next, NODES, 3)?;
    let records = format::section_at(file, nodes.next, RECORDS, 1)?;
    let sets = format::sets_at(file, records.next)?;
    let end = sets.next.at;
    if end < file.len() {
        return Err(format::refusal(format::TOO_LONG, end));
    }
    let counts = Counts {
        names: names.value,
        nodes: nodes.value / 3,
        records: records.value,
        sets_at: end - flow::SET_BYTES * usize::from(sets.value),
        sets: sets.value,
    };
    Ok(Offsets {
        counts,
        nodes: names.next.at + 2,
        records: nodes.next.at + 2,
        end,
    })
}

// 4 to 9, with 22, 12, 13, 19 and 20, of the numbers at their offsets: they are checked on copies, in tables
// of the size that README asks of a caller, since there is no allocation.
fn check_numbers(file: &[u8], o: Offsets) -> Result<(), Refusal>
    requires { Inside file.now o }
    ensures { result ≡ first (grounds_of Whole o.counts.names o.counts.sets (numbers_at file.now (3 * o.counts.nodes) o.nodes) (numbers_at file.now o.counts.records o.records)) }
{
    let counts = o.counts;
    let n = 3 * usize::from(counts.nodes);
    let k = usize::from(counts.records);
    let mut nodes = [0u16; 192];
    let mut records = [0u16; 256];
    format::fill(file, o.nodes, n, &mut nodes);
    format::fill(file, o.records, k, &mut records);
    format::check_contents(
        &nodes[..n],
        &records[..k],
        counts.names,
        usize::from(counts.sets),
        Extent::Whole,
    )
}

// A flow file's bytes: the counts of names, nodes and records and the place of the sets, with the numbers of the nodes and the records at
// the front of the two tables, whose rest stays; or a refusal, and both tables stay.
pub fn read(file: &[u8], nodes: &mut [u16], records: &mut [u16]) -> Result<Counts, Refusal>
    ensures { ReadAs file.now nodes.old records.old nodes.new records.new result }
{
    if nodes.len() < NODE_ROOM || records.len() < RECORD_ROOM {
        return Err(format::refusal(flow::NO_ROOM, 0));
    }
    let o = lay_out(file)?;
    check_numbers(file, o)?;
    let counts = o.counts;
    let n = 3 * usize::from(counts.nodes);
    let k = usize::from(counts.records);
    format::fill(file, o.nodes, n, nodes);
    format::fill(file, o.records, k, records);
    Ok(counts)
}
