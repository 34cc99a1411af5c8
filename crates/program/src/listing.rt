// What may follow, as text: a line for each number of a list, and the count; or the program's line. What stands in a line is defined in
// specs/Listing.antt. A line has at most 333 bytes, so that every list has room.
ghost use Rattle.std.specs.Prelude.{◌≡◌, ◌+◌, ◌*◌, ◌≤◌, length};
ghost use Rattle.io.specs.Counts.{IsPrefixLen};
ghost use Rattle.format.specs.Limits.{GoodEntry};
ghost use Rattle.format.specs.Items.{entry_at, entry_end};
ghost use Rattle.format.specs.ListChecks.{entries_in, Whole};
ghost use Rattle.line.specs.Line.{line_of, Put};
ghost use Rattle.line.specs.Room.{HasRoom, Puts, SameRoom};
ghost use Rattle.line.specs.Shown.{texts};
ghost use Rattle.program.specs.Program.{line_for};
ghost use Rattle.program.specs.Listing.{closing_word, entry_text, meaning, number_line, count_line, list_text};
ghost use Rattle.program.specs.NextFile.{Showable, ListShowable};

use judge::Answer;
use line::Text;

// The program's line for an answer.
pub fn put_answer(answer: Answer, out: &mut [u8; 90000]) -> usize
    ensures put { Put (line_of (line_for answer)) out.old 0 out.new result }
    ensures prefix_len { IsPrefixLen result out.new }
{
    let mut text = Text { room: out, end: 0 };
    text.line(crate::line_for(answer));
    text.end
}

// The word of a closing.
fn closing_word(number: u16) -> &'static [u8]
    ensures word { result.now ≡ closing_word number }
    ensures short { length result.now ≤ 9 }
{
    match number {
        flow::DONE => b"done",
        flow::WITHDRAWN => b"withdrawn",
        _ => b"failed",
    }
}

// The names of the entry that stands at an offset of the names section.
fn put_entry(names: &[u8], entry: usize, text: &mut Text)
    requires in_bounds { entry_end names.now entry ≤ length names.now }
    requires good_entry { GoodEntry (entry_at names.now entry) }
    requires room { HasRoom 321 text.old }
    ensures put { Puts (entry_text (entry_at names.now entry)) text.old text.new }
    ensures same_room { SameRoom text.old text.new }
    ensures upper_bound { text.new.end ≤ text.old.end + 321 }
{
    let machine = format::end_of_name(names, entry);
    let end = format::end_of_name(names, machine);
    let step_from = entry + 1;
    let machine_from = machine + 1;
    text.shown(&names[step_from..machine]);
    text.put(b"\t");
    text.shown(&names[machine_from..end]);
}

// What a number stands for.
fn put_meaning(names: &[u8], number: u16, text: &mut Text)
    requires whole { Whole names.now }
    requires showable { Showable names.now number }
    requires room { HasRoom 321 text.old }
    ensures put { Puts (meaning (entries_in names.now) number) text.old text.new }
    ensures same_room { SameRoom text.old text.new }
    ensures upper_bound { text.new.end ≤ text.old.end + 321 }
{
    if number <= flow::MOST_EVENTS {
        put_entry(names, matching::behind_entries(names, number - 1), text);
        return;
    }
    text.put(closing_word(number));
}

// The line of a number.
fn put_number_line(names: &[u8], number: u16, text: &mut Text)
    requires whole { Whole names.now }
    requires showable { Showable names.now number }
    requires room { HasRoom 333 text.old }
    ensures put { Puts (number_line (entries_in names.now) number) text.old text.new }
    ensures same_room { SameRoom text.old text.new }
    ensures upper_bound { text.new.end ≤ text.old.end + 333 }
{
    text.decimal(u32::from(number));
    text.put(b"\t");
    put_meaning(names, number, text);
    text.put(b"\n");
}

// The lines of a list's numbers.
fn put_lines(names: &[u8], list: &[u16], text: &mut Text)
    requires list_showable { ListShowable names.now list.now }
    requires room { HasRoom (333 * length list.now) text.old }
    ensures put { Puts (texts (number_line (entries_in names.now)) list.now) text.old text.new }
    ensures same_room { SameRoom text.old text.new }
    ensures upper_bound { text.new.end ≤ text.old.end + 333 * length list.now }
{
    for number in list {
        put_number_line(names, *number, text);
    }
}

// The line of the count.
fn put_count(count: u32, text: &mut Text)
    requires { HasRoom 17 text.old }
    ensures put { Puts (count_line count) text.old text.new }
    ensures same_room { SameRoom text.old text.new }
    ensures upper_bound { text.new.end ≤ text.old.end + 17 }
{
    text.put(b"count");
    text.number(count);
    text.put(b"\n");
}

// The lines of a list's numbers, and that of the count.
pub fn put_list(names: &[u8], list: &[u16], count: u32, out: &mut [u8; 90000]) -> usize
    requires { ListShowable names.now list.now }
    ensures put { Put (list_text (entries_in names.now) list.now count) out.old 0 out.new result }
    ensures prefix_len { IsPrefixLen result out.new }
{
    let mut text = Text { room: out, end: 0 };
    put_lines(names, list, &mut text);
    put_count(count, &mut text);
    text.end
}
