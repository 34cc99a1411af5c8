// A flow file judged by its own names as the program judges it, and the line that the program prints: specs/Answering.antt and
// Program.antt define both. A flow file read and written again: what comes of it is defined in specs/Rewriting.antt. What may follow a
// file's first records, as text: specs/Listing.antt.
#![tactic(auto)]

mod listing;
mod tables;

ghost use Rattle.std.specs.Prelude.{◌≡◌, ◌≤◌, length};
ghost use Rattle.std.specs.Result.{ForOk};
ghost use Rattle.io.specs.Counts.{IsPrefixLen};
ghost use Rattle.judge.specs.Judged.{judged_named};
ghost use Rattle.line.specs.Line.{Put};
ghost use Rattle.program.specs.Program.{states_allowed, work_lent};
ghost use Rattle.program.specs.FileParts.{names_of};
ghost use Rattle.program.specs.Answering.{FileAnswered, AnswerTold, FilePrinted};
ghost use Rattle.program.specs.Rewriting.{FileRewritten};
ghost use Rattle.program.specs.Listing.{so_many};
ghost use Rattle.program.specs.NextFile.{tables_text, NextPrinted};

use ahead::answer::Next;
use flow::Refusal;
use judge::{Answer, Reach};
use line::{Line, VerdictWord};
use tables::Tables;
use writer::Size;

// "allows 1,000,000 states"
const ALLOWANCE: u32 = 1000000;

// The work bytes that the largest flow wants.
const WORK: usize = 32896;

// What stands for all records but the last, where a number of records is asked for: two bytes before the file say so to the program `next`.
const ALL_BUT_LAST: u16 = 65535;

// The file's names section, to be handed on: its first bytes, as far as a scan goes.
fn names_of(file: &[u8]) -> &[u8]
    ensures { result.now ≡ names_of file.now }
{
    match format::scan_names(file) {
        Ok(got) => {
            let at = got.next.at;
            &file[..at]
        }
        Err(_) => &file[..0],
    }
}

// The tables judged by these names and sets, with work bytes for the largest flow.
fn judge_tables(names: &[u8], nodes: &[u16], records: &[u16], sets: &[u8]) -> Answer
    ensures { result ≡ judged_named names.now sets.now nodes.now records.now work_lent states_allowed }
{
    let mut work = [0u8; WORK];
    judge::judge_named(names, nodes, records, sets, &mut work, ALLOWANCE)
}

// Reads the file, and judges what it holds.
pub fn judge_file(file: &[u8]) -> Answer
    ensures { FileAnswered file.now result }
{
    match Tables::read(file) {
        Ok(held) => {
            let at = held.counts.sets_at;
            judge_tables(names_of(file), held.nodes(), held.records(), &file[at..])
        }
        Err(r) => Answer::Refused(r),
    }
}

// What the line tells of an answer. No `From`: it would have to stand with one of the two types, and neither crate knows the other.
pub fn line_for(answer: Answer) -> Line
    ensures { AnswerTold answer result }
{
    match answer {
        Answer::Accepted(v) => Line {
            word: VerdictWord::Accepted,
            number: 0,
            place: v.place,
            count: v.count,
        },
        Answer::Rejected(v) => Line {
            word: VerdictWord::Rejected,
            number: 0,
            place: v.place,
            count: v.count,
        },
        Answer::Undecided(v) => Line {
            word: VerdictWord::Undecided,
            number: 0,
            place: v.place,
            count: v.count,
        },
        Answer::Refused(r) => Line {
            word: VerdictWord::Refused,
            number: r.number,
            place: r.place,
            count: 0,
        },
    }
}

// Writes the line for a file at the start of the room, leaves the rest, and answers the line's length.
pub fn write_file_line(file: &[u8], out: &mut [u8; 64]) -> usize
    ensures file_printed { FilePrinted file.now out.old out.new result }
    ensures prefix_len { IsPrefixLen result out.new }
{
    line::write_line(line_for(judge_file(file)), out)
}

// Reads the file, and writes what it holds at the front of the lent bytes, whose rest stays; or a refusal, and all stay.
pub fn rewrite_file(file: &[u8], out: &mut [u8]) -> Result<Size, Refusal>
    ensures file_rewritten { FileRewritten file.now out.old out.new result }
    ensures within_room { ForOk result (λ size. size.length ≤ length out.new) }
{
    match Tables::read(file) {
        Ok(held) => {
            let at = held.counts.sets_at;
            writer::write(
                names_of(file),
                held.nodes(),
                held.records(),
                &file[at..],
                out,
            )
        }
        Err(r) => Err(r),
    }
}

// How many records a beginning has, of so many: all but the last, or as many as are asked for, as far as there are.
fn so_many(first: u16, records: u16) -> usize
    ensures { result ≡ so_many first records }
{
    if first == ALL_BUT_LAST {
        if records == 0 {
            return 0;
        }
        return usize::from(records - 1);
    }
    if first < records {
        return usize::from(first);
    }
    usize::from(records)
}

// Writes what may follow a beginning, in a list for every number (there is no allocation), by these names and sets, at the start of the
// room, leaves the rest, and answers the text's length. There is room for every number and for the largest flow.
fn next_tables(
    names: &[u8],
    nodes: &[u16],
    beginning: &[u16],
    sets: &[u8],
    out: &mut [u8; 90000],
) -> usize
    ensures put { Put (tables_text names.now sets.now nodes.now beginning.now) out.old 0 out.new result }
    ensures prefix_len { IsPrefixLen result out.new }
{
    let mut list = [0u16; 259];
    let mut work = [0u8; WORK];
    match ahead::next_named(
        names, nodes, beginning, sets, &mut list, &mut work, ALLOWANCE,
    ) {
        Next::Listed(found) => {
            let n = found.length as usize;
            listing::put_list(names, &list[..n], found.count, out)
        }
        Next::Undecided(found) => {
            let reach = Reach {
                place: 0,
                count: found.count,
            };
            listing::put_answer(Answer::Undecided(reach), out)
        }
        Next::Refused(r) => listing::put_answer(Answer::Refused(r), out),
    }
}

// Writes what may follow the first records of a file, as many as are asked for (ALL_BUT_LAST: all but the last), at the start of the
// room, leaves the rest, and answers the text's length.
pub fn next_file(file: &[u8], first: u16, out: &mut [u8; 90000]) -> usize
    ensures next_printed { NextPrinted file.now first out.old out.new result }
    ensures prefix_len { IsPrefixLen result out.new }
{
    match Tables::read(file) {
        Ok(held) => {
            let k = so_many(first, held.counts.records);
            let at = held.counts.sets_at;
            next_tables(
                names_of(file),
                held.nodes(),
                &held.records()[..k],
                &file[at..],
                out,
            )
        }
        Err(r) => listing::put_answer(Answer::Refused(r), out),
    }
}
