// A call of the judge and its line, without names and with them: what the judge answers, with `clean` behind it if the work bytes are as
// document 01 promises, else `dirty`.
ghost use Rattle.std.specs.Prelude.{true, ◌≡◌, ◌≤◌, length, replicate, option_copied};
ghost use Rattle.line.specs.Line.{Put};
ghost use Rattle.replay.specs.Filler.{filler};
ghost use Rattle.replay.specs.Lent.{lent_judged, lent_work_after, LentJudged};
ghost use Rattle.replay.specs.Promised.{zeros_after, is_clean, case_line};

use crate::lists::Lists;
use crate::{filler, promised, text};
use judge::Answer;
use line::Text;

// What the judge answers.
fn answer(lists: Lists, work: &mut [u8], allowance: u32) -> Answer
    ensures { let l = lists.entry in LentJudged (option_copied l.names) l.sets.now l.nodes.now l.records.now allowance work.old result work.new }
{
    let Lists {
        names,
        nodes,
        records,
        sets,
    } = lists;
    match names {
        None => judge::judge(nodes, records, sets, work, allowance),
        Some(names) => judge::judge_named(names, nodes, records, sets, work, allowance),
    }
}

// The line of a call, by its answer and the work bytes after it.
fn write_case(answer: Answer, lists: Lists, work: &[u8], out: &mut [u8]) -> usize
    requires { 49 ≤ length out.old }
    ensures put { let l = lists.entry in Put (case_line answer (is_clean (zeros_after answer (length l.nodes.now) (length l.records.now)) work.now)) out.old 0 out.new result }
    ensures upper_bound { result ≤ 49 }
{
    let zeros = promised::zeros_after(answer, lists);
    let clean = promised::clean(zeros, work);
    let mut text = Text { room: out, end: 0 };
    text.line_without_end(program::line_for(answer));
    text::put_note(clean, &mut text);
    text.end
}

// The judge on work bytes that are all filler, and the line of its case: the work bytes are always found clean.
pub fn judge_lists(lists: Lists, work: &mut [u8], allowance: u32, out: &mut [u8]) -> usize
    requires { 49 ≤ length out.old }
    ensures put { let l = lists.entry in Put (case_line (lent_judged (option_copied l.names) l.sets.now l.nodes.now l.records.now (length work.old) allowance) true) out.old 0 out.new result }
    ensures work_after { let l = lists.entry in work.new ≡ lent_work_after (option_copied l.names) l.sets.now l.nodes.now l.records.now (replicate (length work.old) filler) }
    ensures upper_bound { result ≤ 49 }
{
    work.fill(filler::FILLER);
    let answer = answer(lists, work, allowance);
    write_case(answer, lists, work, out)
}
