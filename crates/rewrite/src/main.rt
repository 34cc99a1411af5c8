// Reads the flow file on standard input and writes it again, through reader and writer, to standard output; or prints the line of its
// refusal on standard error. 22,409 bytes are one more than the longest file that is not refused by 21, so a copy always has room; there is
// no allocation. A read or a write that fails ends it with its error, and exit status 1.
#![tactic(auto)]

use judge::Answer;
use std::io;

fn main(rt: HostRuntime) -> io::Result<()> {
    let mut file = [0u8; 22409];
    let got = intake::read_full(&mut rt.stdin(), &mut file)?;
    let mut copy = [0u8; 22409];
    match program::rewrite_file(&file[..got], &mut copy) {
        Ok(e) => {
            let end = e.length as usize;
            rt.write_all(&copy[..end])
        }
        Err(r) => {
            let mut line = [0u8; 64];
            let end = line::write_line(program::line_for(Answer::Refused(r)), &mut line);
            rt.stderr().write_all(&line[..end])
        }
    }
}
