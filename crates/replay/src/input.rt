// What a case is read from: bytes from standard input, and numbers of them, the low byte first; and what ends the reading of cases.
ghost use Rattle.std.specs.Prelude.{◌≡◌, ◌≤◌, length, is_ok};
ghost use Rattle.replay.specs.declared.input.Stop.TheVariants.{Failed};
ghost use Rattle.replay.specs.Fetched.{Fetched};
ghost use Rattle.replay.specs.Stopped.{Ends};

use std::io;

// Why no more cases are read: what was read is none, or a read or a write failed.
#[derive(Debug, Drop)]
pub enum Stop {
    BadCase,
    Failed(io::Error),
}

impl From<io::Error> for Stop {
    ghost from_gives = { λ error stop. stop ≡ Failed error };

    fn from(error: io::Error) -> Stop {
        Stop::Failed(error)
    }
}

// Reads so many bytes; where they are not there, it is no case.
pub fn fetch(rt: &impl Input, room: &mut [u8], n: usize) -> Result<(), Stop>
    requires { n ≤ length room.old }
    ensures { Fetched n room.old room.new (is_ok result) }
{
    let got = intake::read_full(&mut rt.reader(), &mut room[..n])?;
    if got == n { Ok(()) } else { Err(Stop::BadCase) }
}

// Reads so many numbers of two bytes to the front of a table; where they are not there, it is no case.
pub fn fetch_numbers(rt: &impl Input, table: &mut [u16], n: usize) -> Result<(), Stop>
    requires n_bound { n ≤ 400 }
    requires n_in_bounds { n ≤ length table.old }
    ensures { Fetched n table.old table.new (is_ok result) }
{
    let mut bytes = [0u8; 800];
    fetch(rt, &mut bytes, 2 * n)?;
    format::fill(&bytes, 0, n, table);
    Ok(())
}

// Ends the run: says what is no case, or ends with the error of the read or the write.
pub fn end_with(rt: &impl Print, stop: Stop) -> io::Result<()>
    ensures { Ends stop result }
{
    match stop {
        Stop::BadCase => rt.write_all(b"bad case\n"),
        Stop::Failed(e) => Err(e),
    }
}
