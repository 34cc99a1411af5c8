// A call of the writer and its line: what the writer answers and the bytes it wrote, with `clean` behind it if the bytes that it has no
// business with are unchanged, else `dirty`.
ghost use Rattle.std.specs.Prelude.{true, ◌≡◌, ◌+◌, ◌≤◌, length, replicate};
ghost use Rattle.format.specs.Told.{at_front};
ghost use Rattle.io.specs.Counts.{IsPrefixLen};
ghost use Rattle.line.specs.Line.{Put};
ghost use Rattle.line.specs.Room.{HasRoom, Puts, SameRoom};
ghost use Rattle.writer.specs.Writing.{writing, bytes_first};
ghost use Rattle.replay.specs.Filler.{filler};
ghost use Rattle.replay.specs.WriteLine.{length_written, file_clean, written_text, write_text, write_line, Printable};

use crate::{filler, text};
use flow::Refusal;
use line::Text;
use writer::Size;

fn put_written(size: Size, file: &[u8], text: &mut Text)
    requires length_bound { size.length ≤ 22408 }
    requires length_in_bounds { size.length ≤ length file.now }
    requires room { HasRoom 44835 text.old }
    ensures put { Puts (written_text size file.now) text.old text.new }
    ensures same_room { SameRoom text.old text.new }
    ensures upper_bound { text.new.end ≤ text.old.end + 44835 }
{
    let n = size.length as usize;
    text.put(b"written");
    text.number(size.length);
    text.put(b" ");
    text::put_hex(&file[..n], text);
}

fn put_writing(answer: Result<Size, Refusal>, file: &[u8], text: &mut Text)
    requires printable { Printable answer file.now }
    requires room { HasRoom 44835 text.old }
    ensures put { Puts (write_text answer file.now) text.old text.new }
    ensures same_room { SameRoom text.old text.new }
    ensures upper_bound { text.new.end ≤ text.old.end + 44835 }
{
    match answer {
        Ok(e) => put_written(e, file, text),
        Err(r) => text::put_refused(r, text),
    }
}

// How many bytes were written.
fn length_written(answer: Result<Size, Refusal>) -> usize
    ensures { result ≡ length_written answer }
{
    match answer {
        Ok(e) => e.length as usize,
        Err(_) => 0,
    }
}

fn clean(answer: Result<Size, Refusal>, file: &[u8]) -> bool
    ensures { result ≡ file_clean answer file.now }
{
    filler::kept(filler::FILLER, length_written(answer), file)
}

fn write_case(answer: Result<Size, Refusal>, file: &[u8], clean: bool, out: &mut [u8]) -> usize
    requires printable { Printable answer file.now }
    requires in_bounds { 44842 ≤ length out.old }
    ensures put { Put (write_line answer file.now clean) out.old 0 out.new result }
    ensures upper_bound { result ≤ 44842 }
{
    let mut text = Text { room: out, end: 0 };
    put_writing(answer, file, &mut text);
    text::put_note(clean, &mut text);
    text.end
}

// The writer on bytes that are all filler, and the line of its case: the bytes are always found clean.
pub fn write_lists(
    names: &[u8],
    nodes: &[u16],
    records: &[u16],
    sets: &[u8],
    file: &mut [u8],
    out: &mut [u8],
) -> usize
    requires { 44842 ≤ length out.old }
    ensures put { Put (write_line (writing names.now nodes.now records.now sets.now (length file.old)) file.new true) out.old 0 out.new result }
    ensures file_after { file.new ≡ at_front (bytes_first names.now nodes.now records.now sets.now (length file.old)) (replicate (length file.old) filler) }
    ensures prefix_len { IsPrefixLen result out.new }
{
    file.fill(filler::FILLER);
    let answer = writer::write(names, nodes, records, sets, file);
    write_case(answer, file, clean(answer, file), out)
}
