// A call of `next` and its line, without names and with them: what is answered and the numbers that are listed, with `clean` behind them if
// the list and the work bytes are as promised, else `dirty`.
ghost use Rattle.std.specs.Prelude.{◌≡◌, ◌≤◌, length, option_copied, ◌+◌};
ghost use Rattle.line.specs.Line.{Put};
ghost use Rattle.replay.specs.Lent.{LentNext};
ghost use Rattle.replay.specs.NextLine.{length_listed, next_zeros, next_clean, listed_text, undecided_text, next_text, next_line, Tellable, NextCaseOf};
ghost use Rattle.line.specs.Room.{HasRoom, Puts, SameRoom};

use crate::lists::Lists;
use crate::{filler, promised, text};
use ahead::answer::{Found, Next};
use line::Text;

fn put_listed(found: Found, list: &[u16], text: &mut Text)
    requires length_bound { found.length ≤ 259 }
    requires length_in_bounds { found.length ≤ length list.now }
    requires room { HasRoom 2877 text.old }
    ensures put { Puts (listed_text found list.now) text.old text.new }
    ensures same_room { SameRoom text.old text.new }
    ensures upper_bound { text.new.end ≤ text.old.end + 2877 }
{
    let n = found.length as usize;
    text.put(b"listed");
    text.number(found.length);
    text.number(found.count);
    text::put_numbers(&list[..n], text);
}

fn put_undecided(found: Found, text: &mut Text)
    requires { HasRoom 31 text.old }
    ensures put { Puts (undecided_text found) text.old text.new }
    ensures same_room { SameRoom text.old text.new }
    ensures upper_bound { text.new.end ≤ text.old.end + 31 }
{
    text.put(b"undecided");
    text.number(found.length);
    text.number(found.count);
}

fn put_next(answer: Next, list: &[u16], text: &mut Text)
    requires tellable { Tellable answer list.now }
    requires room { HasRoom 2877 text.old }
    ensures put { Puts (next_text answer list.now) text.old text.new }
    ensures same_room { SameRoom text.old text.new }
    ensures upper_bound { text.new.end ≤ text.old.end + 2877 }
{
    match answer {
        Next::Listed(f) => put_listed(f, list, text),
        Next::Undecided(f) => put_undecided(f, text),
        Next::Refused(r) => text::put_refused(r, text),
    }
}

// How many numbers were listed.
fn length_listed(answer: Next) -> usize
    ensures { result ≡ length_listed answer }
{
    match answer {
        Next::Listed(f) => f.length as usize,
        Next::Undecided(_) | Next::Refused(_) => 0,
    }
}

// How many work bytes are to be zero after the call.
fn zeros_left(answer: Next, lists: Lists) -> usize
    ensures { result ≡ next_zeros answer (length lists.entry.nodes.now) (length lists.entry.records.now) }
{
    match answer {
        Next::Listed(_) | Next::Undecided(_) => promised::wanted(lists),
        Next::Refused(_) => 0,
    }
}

// Whether the list and the work bytes are as promised.
fn clean(answer: Next, lists: Lists, list: &[u16], work: &[u8]) -> bool
    ensures { let l = lists.entry in result ≡ next_clean answer (length l.nodes.now) (length l.records.now) list.now work.now }
{
    filler::kept(filler::NUMBER_FILLER, length_listed(answer), list)
        && promised::clean(zeros_left(answer, lists), work)
}

fn write_case(answer: Next, list: &[u16], clean: bool, out: &mut [u8]) -> usize
    requires tellable { Tellable answer list.now }
    requires in_bounds { 2884 ≤ length out.old }
    ensures put { Put (next_line answer list.now clean) out.old 0 out.new result }
    ensures upper_bound { result ≤ 2884 }
{
    let mut text = Text { room: out, end: 0 };
    put_next(answer, list, &mut text);
    text::put_note(clean, &mut text);
    text.end
}

// What `next` answers.
fn answer(lists: Lists, list: &mut [u16], work: &mut [u8], allowance: u32) -> Next
    ensures { let l = lists.entry in LentNext (option_copied l.names) l.sets.now l.nodes.now l.records.now allowance list.old work.old result list.new work.new }
{
    let Lists {
        names,
        nodes,
        records,
        sets,
    } = lists;
    match names {
        None => ahead::next(nodes, records, sets, list, work, allowance),
        Some(names) => ahead::next_named(names, nodes, records, sets, list, work, allowance),
    }
}

// `next` on a list and work bytes that are all filler, and the line of its case: both are always found clean.
pub fn next_lists(
    lists: Lists,
    list: &mut [u16],
    work: &mut [u8],
    allowance: u32,
    out: &mut [u8],
) -> usize
    requires { 2884 ≤ length out.old }
    ensures next_case_of { let l = lists.entry in NextCaseOf (option_copied l.names) l.sets.now l.nodes.now l.records.now allowance list.old work.old list.new work.new out.old out.new result }
    ensures upper_bound { result ≤ 2884 }
{
    list.fill(filler::NUMBER_FILLER);
    work.fill(filler::FILLER);
    let answer = answer(lists, list, work, allowance);
    let clean = clean(answer, lists, list, work);
    write_case(answer, list, clean, out)
}
