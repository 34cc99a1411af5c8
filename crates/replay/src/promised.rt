// What the judge and `next` promise of the work bytes: how many are to be zero, and whether they are, and the others filler as before the
// call.
ghost use Rattle.std.specs.Prelude.{◌≡◌, ◌≤◌, ◌/◌, length};
ghost use Rattle.judge.specs.Judged.{room_of};
ghost use Rattle.replay.specs.Promised.{zeros_after, is_clean};

use crate::filler;
use crate::lists::Lists;
use judge::Answer;

// Whether so many work bytes are zero, and the others filler.
pub fn clean(zeros: usize, work: &[u8]) -> bool
    ensures { result ≡ is_clean zeros work.now }
{
    filler::kept(filler::FILLER, zeros, work) && filler::all_are(0, &work[..zeros])
}

// How many work bytes a call wants.
pub fn wanted(lists: Lists) -> usize
    ensures { result ≡ room_of (length lists.entry.nodes.now / 3) (length lists.entry.records.now) }
{
    2 * (lists.nodes.len() / 3) * (lists.records.len() + 1)
}

// How many work bytes are to be zero after the call.
pub fn zeros_after(answer: Answer, lists: Lists) -> usize
    ensures { result ≡ zeros_after answer (length lists.entry.nodes.now) (length lists.entry.records.now) }
{
    match answer {
        Answer::Accepted(_) | Answer::Rejected(_) | Answer::Undecided(_) => wanted(lists),
        Answer::Refused(_) => 0,
    }
}
