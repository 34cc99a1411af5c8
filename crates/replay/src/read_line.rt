// A call of the reader and its line: what the reader answers, with `clean` behind it if the two tables are unchanged where document 01
// promises that, else `dirty`.
ghost use Rattle.std.specs.Prelude.{true, ◌≡◌, ◌+◌, ◌≤◌, length, replicate};
ghost use Rattle.format.specs.Told.{at_front};
ghost use Rattle.io.specs.Counts.{IsPrefixLen};
ghost use Rattle.line.specs.Line.{Put};
ghost use Rattle.line.specs.Room.{HasRoom, Puts, SameRoom};
ghost use Rattle.reader.specs.Reading.{reading};
ghost use Rattle.replay.specs.Filler.{number_filler};
ghost use Rattle.replay.specs.ReadLine.{sets_text, counts_text, sets_place, read_text, read_line, nodes_taken, records_taken, tables_clean};

use crate::{filler, text};
use flow::Refusal;
use line::Text;
use reader::Counts;

// The offset and count of the sets. The sets stand in a file that can be read, so their offset is a number that can be put.
fn put_sets(counts: Counts, text: &mut Text)
    requires sets_at_bound { counts.sets_at ≤ 22408 }
    requires room { HasRoom 22 text.old }
    ensures put { Puts (sets_text counts) text.old text.new }
    ensures same_room { SameRoom text.old text.new }
    ensures upper_bound { text.new.end ≤ text.old.end + 22 }
{
    text.number(counts.sets_at as u32);
    text.number(counts.sets as u32);
}

fn put_counts(counts: Counts, text: &mut Text)
    requires sets_at_bound { counts.sets_at ≤ 22408 }
    requires room { HasRoom 59 text.old }
    ensures put { Puts (counts_text counts) text.old text.new }
    ensures same_room { SameRoom text.old text.new }
    ensures upper_bound { text.new.end ≤ text.old.end + 59 }
{
    text.put(b"read");
    text.number(counts.names as u32);
    text.number(counts.nodes as u32);
    text.number(counts.records as u32);
    put_sets(counts, text);
}

fn put_reading(answer: Result<Counts, Refusal>, text: &mut Text)
    requires answer_bound { sets_place answer ≤ 22408 }
    requires room { HasRoom 59 text.old }
    ensures put { Puts (read_text answer) text.old text.new }
    ensures same_room { SameRoom text.old text.new }
    ensures upper_bound { text.new.end ≤ text.old.end + 59 }
{
    match answer {
        Ok(c) => put_counts(c, text),
        Err(r) => text::put_refused(r, text),
    }
}

// How many numbers of each table are the file's.
fn nodes_taken(answer: Result<Counts, Refusal>) -> usize
    ensures { result ≡ nodes_taken answer }
{
    match answer {
        Ok(c) => 3 * (c.nodes as usize),
        Err(_) => 0,
    }
}

fn records_taken(answer: Result<Counts, Refusal>) -> usize
    ensures { result ≡ records_taken answer }
{
    match answer {
        Ok(c) => c.records as usize,
        Err(_) => 0,
    }
}

fn clean(answer: Result<Counts, Refusal>, nodes: &[u16], records: &[u16]) -> bool
    ensures { result ≡ tables_clean answer nodes.now records.now }
{
    filler::kept(filler::NUMBER_FILLER, nodes_taken(answer), nodes)
        && filler::kept(filler::NUMBER_FILLER, records_taken(answer), records)
}

fn write_case(answer: Result<Counts, Refusal>, clean: bool, out: &mut [u8]) -> usize
    requires answer_bound { sets_place answer ≤ 22408 }
    requires in_bounds { 66 ≤ length out.old }
    ensures put { Put (read_line answer clean) out.old 0 out.new result }
    ensures upper_bound { result ≤ 66 }
{
    let mut text = Text { room: out, end: 0 };
    put_reading(answer, &mut text);
    text::put_note(clean, &mut text);
    text.end
}

// The reader on tables that are all filler, and the line of its case: the tables are always found clean.
pub fn read_tables(file: &[u8], nodes: &mut [u16], records: &mut [u16], out: &mut [u8]) -> usize
    requires { 66 ≤ length out.old }
    ensures put { Put (read_line (reading file.now (length nodes.old) (length records.old)).answer true) out.old 0 out.new result }
    ensures nodes_after { nodes.new ≡ at_front (reading file.now (length nodes.old) (length records.old)).nodes (replicate (length nodes.old) number_filler) }
    ensures records_after { records.new ≡ at_front (reading file.now (length nodes.old) (length records.old)).records (replicate (length records.old) number_filler) }
    ensures prefix_len { IsPrefixLen result out.new }
{
    nodes.fill(filler::NUMBER_FILLER);
    records.fill(filler::NUMBER_FILLER);
    let answer = reader::read(file, nodes, records);
    write_case(answer, clean(answer, nodes, records), out)
}
