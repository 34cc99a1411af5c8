// Judges the flow file on standard input and prints one line: verdict word, refusal number or 0, place, count. 22,409 bytes are one more
// than the longest file that is not refused by 21; there is no allocation. A read or a write that fails ends it with its error, and exit
// status 1.
#![tactic(auto)]

use std::io;

fn main(rt: HostRuntime) -> io::Result<()> {
    let mut file = [0u8; 22409];
    let got = intake::read_full(&mut rt.stdin(), &mut file)?;
    let mut line = [0u8; 64];
    let end = program::write_file_line(&file[..got], &mut line);
    rt.write_all(&line[..end])
}
