// Text put into lent bytes: the line that the program prints, which is the verdict word, the refusal number or 0, the place and the
// count, with single spaces, and one line feed (specs/Line.antt); bytes in hexadecimal, and names as they are shown (specs/Shown.antt).
#![tactic(auto)]

ghost use Rattle.std.specs.Prelude.{◌≡◌, ◌+◌, ◌*◌, ◌≤◌, length};
ghost use Rattle.io.specs.Counts.{IsPrefixLen};
ghost use Rattle.line.specs.Line.{spelled, decimal, spaced, text_of, line_of, LineWritten};
ghost use Rattle.line.specs.Room.{HasRoom, Puts, SameRoom};
ghost use Rattle.line.specs.Shown.{hex_byte, is_text, shown_byte, shown};

// The verdict words.
#[derive(Clone, Copy)]
pub enum VerdictWord {
    Accepted,
    Rejected,
    Undecided,
    Refused,
}

impl VerdictWord {
    fn text(self) -> &'static [u8]
        ensures spelled { result.now ≡ spelled self }
        ensures short { length result.now ≤ 9 }
    {
        match self {
            VerdictWord::Accepted => b"accepted",
            VerdictWord::Rejected => b"rejected",
            VerdictWord::Undecided => b"undecided",
            VerdictWord::Refused => b"refused",
        }
    }
}

// What a line tells.
#[derive(Clone, Copy)]
pub struct Line {
    pub word: VerdictWord,
    pub number: u16,
    pub place: u32,
    pub count: u32,
}

// Text at the front of lent bytes, whose rest stays; each method puts more behind it.
#[derive(Drop)]
pub struct Text<'a> {
    pub room: &'a mut [u8],
    pub end: usize,
}

impl Text<'_> {
    pub fn put(&mut self, text: &[u8])
        requires { HasRoom (length text.now) self.old }
        ensures put { Puts text.now self.old self.new }
        ensures same_room { SameRoom self.old self.new }
    {
        let from = self.end;
        let end = from + text.len();
        self.room[from..end].copy_from_slice(text);
        self.end = end;
    }

    // The number in decimal.
    pub fn decimal(&mut self, n: u32)
        requires { HasRoom 10 self.old }
        ensures put { Puts (decimal n) self.old self.new }
        ensures same_room { SameRoom self.old self.new }
        ensures upper_bound { self.new.end ≤ self.old.end + 10 }
    {
        let mut digits = [0u8; 20];
        let k = io::decimal(u64::from(n), &mut digits);
        self.put(&digits[..k]);
    }

    // The same with a space before it.
    pub fn number(&mut self, n: u32)
        requires { HasRoom 11 self.old }
        ensures put { Puts (spaced n) self.old self.new }
        ensures same_room { SameRoom self.old self.new }
        ensures upper_bound { self.new.end ≤ self.old.end + 11 }
    {
        self.put(b" ");
        self.decimal(n);
    }

    // A line without its end.
    pub fn line_without_end(&mut self, line: Line)
        requires { HasRoom 42 self.old }
        ensures put { Puts (text_of line) self.old self.new }
        ensures same_room { SameRoom self.old self.new }
        ensures upper_bound { self.new.end ≤ self.old.end + 42 }
    {
        let word = line.word;
        self.put(word.text());
        self.number(u32::from(line.number));
        self.number(line.place);
        self.number(line.count);
    }

    // The same with its end.
    pub fn line(&mut self, line: Line)
        requires { HasRoom 43 self.old }
        ensures put { Puts (line_of line) self.old self.new }
        ensures same_room { SameRoom self.old self.new }
        ensures upper_bound { self.new.end ≤ self.old.end + 43 }
    {
        self.line_without_end(line);
        self.put(b"\n");
    }

    // A byte as two hexadecimal digits.
    pub fn hex(&mut self, byte: u8)
        requires { HasRoom 2 self.old }
        ensures put { Puts (hex_byte byte) self.old self.new }
        ensures same_room { SameRoom self.old self.new }
        ensures upper_bound { self.new.end ≤ self.old.end + 2 }
    {
        let mut digits = [0u8; 16];
        let k = io::hex(u64::from(byte), 2, &mut digits);
        self.put(&digits[..k]);
    }

    fn shown_byte(&mut self, byte: u8)
        requires { HasRoom 4 self.old }
        ensures put { Puts (shown_byte byte) self.old self.new }
        ensures same_room { SameRoom self.old self.new }
        ensures upper_bound { self.new.end ≤ self.old.end + 4 }
    {
        if is_text(byte) {
            self.put(&[byte]);
            return;
        }
        self.put(b"\\x");
        self.hex(byte);
    }

    // A name as it is shown.
    pub fn shown(&mut self, name: &[u8])
        requires { HasRoom (4 * length name.now) self.old }
        ensures put { Puts (shown name.now) self.old self.new }
        ensures same_room { SameRoom self.old self.new }
        ensures upper_bound { self.new.end ≤ self.old.end + 4 * length name.now }
    {
        for byte in name {
            self.shown_byte(*byte);
        }
    }
}

// Whether a byte is shown as it is: text, and no backslash.
fn is_text(byte: u8) -> bool
    ensures { result ≡ is_text byte }
{
    (b' '..=b'~').contains(&byte) && byte != b'\\'
}

// Writes the line at the start of the room, leaves the rest, and answers its length.
pub fn write_line(line: Line, out: &mut [u8; 64]) -> usize
    ensures line_written { LineWritten line out.old out.new result }
    ensures prefix_len { IsPrefixLen result out.new }
{
    let mut text = Text { room: out, end: 0 };
    text.line(line);
    text.end
}
