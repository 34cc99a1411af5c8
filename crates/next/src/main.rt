// Lists what may follow the first records of the flow file on standard input: a line for each number, then the count; or prints the
// program's line, if the file is refused or undecided. Two bytes before the file say how many records, the low one first: 65535 is all but
// the last. 22,409 bytes are one more than the longest file that is not refused by 21; there is no allocation. A read or a write that fails
// ends it with its error, and exit status 1.
#![tactic(auto)]

use std::io;

fn main(rt: HostRuntime) -> io::Result<()> {
    let mut head = [0u8; 2];
    intake::read_full(&mut rt.stdin(), &mut head)?;
    let first = format::number_from(head[0], head[1]);
    let mut file = [0u8; 22409];
    let got = intake::read_full(&mut rt.stdin(), &mut file)?;
    let mut text = [0u8; 90000];
    let end = program::next_file(&file[..got], first, &mut text);
    rt.write_all(&text[..end])
}
