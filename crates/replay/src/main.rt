// Cases from standard input to its end, one line for each. A case is a letter and what its kind wants, all little-endian. Here is what
// reads a case and prints its line, a function for each kind; two kinds are calls, whose lists are fetched in one place. What these
// functions answer depends on standard input, so they promise nothing of it and nothing outside this file calls them. The line itself
// comes from a function on the bytes that were read, with its whole contract. Anything else prints `bad case` and ends; a read or a write
// that fails ends with its error.
#![tactic(auto)]

mod filler;
mod input;
mod judge_line;
mod lists;
mod next_line;
mod promised;
mod read_line;
mod text;
mod write_line;

ghost use Rattle.std.specs.Prelude.{◌≤◌, IfOk};
ghost use Rattle.replay.specs.Codes.{TellsKind, TellsFunction};

use input::Stop;
use lists::Lists;
use std::io;

// What a case begins with: a letter that tells its kind.
#[derive(Clone, Copy, Debug, PartialEq, Eq)]
enum Kind {
    File,
    Judge,
    Read,
    Call,
}

impl TryFrom<u8> for Kind {
    type Error = Stop;

    ghost try_from_gives = { TellsKind };

    fn try_from(letter: u8) -> Result<Kind, Stop> {
        match letter {
            b'F' => Ok(Kind::File),
            b'J' => Ok(Kind::Judge),
            b'R' => Ok(Kind::Read),
            b'C' => Ok(Kind::Call),
            _ => Err(Stop::BadCase),
        }
    }
}

// The functions of a call with everything that may be lent.
#[derive(Clone, Copy, Debug, PartialEq, Eq)]
enum Function {
    Judge,
    Next,
    Write,
}

impl TryFrom<u8> for Function {
    type Error = Stop;

    ghost try_from_gives = { TellsFunction };

    fn try_from(number: u8) -> Result<Function, Stop> {
        match number {
            0 => Ok(Function::Judge),
            1 => Ok(Function::Next),
            3 => Ok(Function::Write),
            _ => Err(Stop::BadCase),
        }
    }
}

// The one edition. A number, since the writer takes any other too.
const EDITION: u8 = 1;

impl Function {
    // Whether it takes the edition, with names lent or not: the judge and `next` the one edition, with names or without; the writer
    // names, in any edition.
    fn takes(self, edition: u8, names: Option<u16>) -> bool {
        match self {
            Function::Judge | Function::Next => edition == EDITION,
            Function::Write => names.is_some(),
        }
    }
}

// The most that a case asks for, and so the size of what is lent to it: there is no allocation.
const MOST_NUMBERS: usize = 400;

const MOST_SETS: usize = 600;

const MOST_WORK: usize = 40000;

const MOST_ROOM: usize = 70000;

// A call as its case tells it: the function; how many bytes of names are lent, if any are; the allowance; and how many work bytes, how
// much room, how many node numbers, records and bytes of sets are lent. What the function does not use may be anything.
#[derive(Clone, Copy)]
struct Call {
    function: Function,
    names: Option<u16>,
    allowance: u32,
    work: u32,
    room: u32,
    nodes: u16,
    records: u16,
    sets: u16,
}

// A call of the judge without names or sets: an allowance and a work length of four bytes each, and the number of node numbers and of
// records of two bytes each.
impl From<[u8; 12]> for Call {
    fn from(head: [u8; 12]) -> Call {
        Call {
            function: Function::Judge,
            names: None,
            allowance: u32::from_le_bytes([head[0], head[1], head[2], head[3]]),
            work: u32::from_le_bytes([head[4], head[5], head[6], head[7]]),
            room: 0,
            nodes: format::number_from(head[8], head[9]),
            records: format::number_from(head[10], head[11]),
            sets: 0,
        }
    }
}

// How many bytes of names are lent, by the byte that tells whether any are and their length, which is 0 if none are.
fn names_told(lent: u8, bytes: u16) -> Result<Option<u16>, Stop> {
    match (lent, bytes) {
        (0, 0) => Ok(None),
        (1, _) => Ok(Some(bytes)),
        _ => Err(Stop::BadCase),
    }
}

// A call with everything that may be lent: a function, an edition and whether names are lent, of a byte each; an allowance, a work
// length and a room of four bytes each; the length of the names section, the number of node numbers and of records and the length
// of the sets, of two bytes each.
impl TryFrom<[u8; 23]> for Call {
    type Error = Stop;

    fn try_from(head: [u8; 23]) -> Result<Call, Stop> {
        let function = Function::try_from(head[0])?;
        let names = names_told(head[2], format::number_from(head[15], head[16]))?;
        if !function.takes(head[1], names) {
            return Err(Stop::BadCase);
        }
        Ok(Call {
            function,
            names,
            allowance: u32::from_le_bytes([head[3], head[4], head[5], head[6]]),
            work: u32::from_le_bytes([head[7], head[8], head[9], head[10]]),
            room: u32::from_le_bytes([head[11], head[12], head[13], head[14]]),
            nodes: format::number_from(head[17], head[18]),
            records: format::number_from(head[19], head[20]),
            sets: format::number_from(head[21], head[22]),
        })
    }
}

// How many are asked for, if a case may ask for so many.
fn at_most(most: usize, asked: usize) -> Result<usize, Stop>
    ensures { IfOk result (λ n. n ≤ most) }
{
    if most < asked {
        return Err(Stop::BadCase);
    }
    Ok(asked)
}

// The first bytes of a case, behind its letter.
fn head<const N: usize>(rt: &impl Input) -> Result<[u8; N], Stop> {
    let mut head = [0u8; N];
    input::fetch(rt, &mut head, N)?;
    Ok(head)
}

// A flow file: a length of two bytes and the file. Prints the program's line.
fn file_case(rt: &(impl Input + Print)) -> Result<(), Stop> {
    let head = head::<2>(rt)?;
    let n = format::number_from(head[0], head[1]) as usize;
    let mut file = [0u8; 65535];
    input::fetch(rt, &mut file, n)?;
    let mut out = [0u8; 64];
    let end = program::write_file_line(&file[..n], &mut out);
    rt.write_all(&out[..end])?;
    Ok(())
}

// A call of the judge, with the names or without.
fn judge_call(rt: &impl Print, call: Call, lists: Lists) -> Result<(), Stop> {
    let lent = at_most(MOST_WORK, call.work as usize)?;
    let mut work = [0u8; MOST_WORK];
    let mut out = [0u8; 64];
    let end = judge_line::judge_lists(lists, &mut work[..lent], call.allowance, &mut out);
    rt.write_all(&out[..end])?;
    Ok(())
}

// A call of `next`, with the names or without.
fn next_call(rt: &impl Print, call: Call, lists: Lists) -> Result<(), Stop> {
    let lent = at_most(MOST_WORK, call.work as usize)?;
    let room = at_most(MOST_ROOM, call.room as usize)?;
    let mut list = [0u16; MOST_ROOM];
    let mut work = [0u8; MOST_WORK];
    let mut out = [0u8; 2884];
    let end = next_line::next_lists(
        lists,
        &mut list[..room],
        &mut work[..lent],
        call.allowance,
        &mut out,
    );
    rt.write_all(&out[..end])?;
    Ok(())
}

// A call of the writer.
fn write_call(rt: &impl Print, call: Call, names: &[u8], lists: Lists) -> Result<(), Stop> {
    let room = at_most(MOST_ROOM, call.room as usize)?;
    let mut file = [0u8; MOST_ROOM];
    let mut out = [0u8; 44842];
    let end = write_line::write_lists(
        names,
        lists.nodes,
        lists.records,
        lists.sets,
        &mut file[..room],
        &mut out,
    );
    rt.write_all(&out[..end])?;
    Ok(())
}

// The call of its function on what was fetched for it.
fn call_with(rt: &impl Print, call: Call, lists: Lists) -> Result<(), Stop> {
    match (call.function, lists.names) {
        (Function::Judge, _) => judge_call(rt, call, lists),
        (Function::Next, _) => next_call(rt, call, lists),
        (Function::Write, Some(names)) => write_call(rt, call, names, lists),
        // No such call is read: the writer takes names.
        (Function::Write, None) => Err(Stop::BadCase),
    }
}

// The numbers of the nodes and the records of a call, two bytes each, and the sets; and the call.
fn lists_lent(rt: &(impl Input + Print), call: Call, names: Option<&[u8]>) -> Result<(), Stop> {
    let nodes = at_most(MOST_NUMBERS, call.nodes as usize)?;
    let records = at_most(MOST_NUMBERS, call.records as usize)?;
    let mut ns = [0u16; MOST_NUMBERS];
    input::fetch_numbers(rt, &mut ns, nodes)?;
    let mut rs = [0u16; MOST_NUMBERS];
    input::fetch_numbers(rt, &mut rs, records)?;
    let bytes = at_most(MOST_SETS, call.sets as usize)?;
    let mut sets = [0u8; MOST_SETS];
    input::fetch(rt, &mut sets, bytes)?;
    let lists = Lists {
        names,
        nodes: &ns[..nodes],
        records: &rs[..records],
        sets: &sets[..bytes],
    };
    call_with(rt, call, lists)
}

// The names section of a call, if names are lent, before the numbers.
fn names_lent(rt: &(impl Input + Print), call: Call) -> Result<(), Stop> {
    let Some(bytes) = call.names else {
        return lists_lent(rt, call, None);
    };
    let n = bytes as usize;
    let mut names = [0u8; 65535];
    input::fetch(rt, &mut names, n)?;
    lists_lent(rt, call, Some(&names[..n]))
}

// A call of the judge without names or sets, and the numbers.
fn judge_case(rt: &(impl Input + Print)) -> Result<(), Stop> {
    lists_lent(rt, Call::from(head::<12>(rt)?), None)
}

// A call with everything that may be lent, and all of it.
fn call_case(rt: &(impl Input + Print)) -> Result<(), Stop> {
    names_lent(rt, Call::try_from(head::<23>(rt)?)?)
}

// A call of the reader: the room for node numbers, for records and the length of the file, of two bytes each, and the file.
fn read_case(rt: &(impl Input + Print)) -> Result<(), Stop> {
    let head = head::<6>(rt)?;
    let node_room = format::number_from(head[0], head[1]) as usize;
    let record_room = format::number_from(head[2], head[3]) as usize;
    let n = format::number_from(head[4], head[5]) as usize;
    let mut file = [0u8; 65535];
    input::fetch(rt, &mut file, n)?;
    let mut nodes = [0u16; 65535];
    let mut records = [0u16; 65535];
    let mut out = [0u8; 66];
    let end = read_line::read_tables(
        &file[..n],
        &mut nodes[..node_room],
        &mut records[..record_room],
        &mut out,
    );
    rt.write_all(&out[..end])?;
    Ok(())
}

// One case, behind its letter.
fn case(rt: &(impl Input + Print), kind: Kind) -> Result<(), Stop> {
    match kind {
        Kind::File => file_case(rt),
        Kind::Judge => judge_case(rt),
        Kind::Read => read_case(rt),
        Kind::Call => call_case(rt),
    }
}

// The letter of the next case; none at the end of the input.
fn letter(rt: &impl Input) -> io::Result<Option<u8>> {
    let mut letter = [0u8; 1];
    let got = intake::read_full(&mut rt.reader(), &mut letter)?;
    Ok((got == 1).then_some(letter[0]))
}

// All cases.
fn cases(rt: &(impl Input + Print)) -> Result<(), Stop> {
    // Bounded, since every loop is proved to end and the end of the input is not: so many cases no run reads.
    for _ in 0..u64::MAX {
        let Some(letter) = letter(rt)? else {
            break;
        };
        case(rt, Kind::try_from(letter)?)?;
    }
    Ok(())
}

fn main(rt: HostRuntime) -> io::Result<()> {
    match cases(&rt) {
        Ok(()) => Ok(()),
        Err(stop) => input::end_with(&rt, stop),
    }
}
