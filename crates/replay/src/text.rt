// What the lines of several kinds of case have: a refusal, bytes in hexadecimal, numbers, and the word for what was lent.
ghost use Rattle.std.specs.Prelude.{◌+◌, ◌*◌, ◌≤◌, length};
ghost use Rattle.line.specs.Room.{HasRoom, Puts, SameRoom};
ghost use Rattle.replay.specs.Text.{noted, refused_text, hex_of, numbers_text};

use flow::Refusal;
use line::Text;

// The word, the number and the place of a refusal.
pub fn put_refused(refusal: Refusal, text: &mut Text)
    requires { HasRoom 29 text.old }
    ensures put { Puts (refused_text refusal) text.old text.new }
    ensures same_room { SameRoom text.old text.new }
    ensures upper_bound { text.new.end ≤ text.old.end + 29 }
{
    text.put(b"refused");
    text.number(u32::from(refusal.number));
    text.number(refusal.place);
}

// The bytes, two digits each.
pub fn put_hex(bytes: &[u8], text: &mut Text)
    requires { HasRoom (2 * length bytes.now) text.old }
    ensures put { Puts (hex_of bytes.now) text.old text.new }
    ensures same_room { SameRoom text.old text.new }
    ensures upper_bound { text.new.end ≤ text.old.end + 2 * length bytes.now }
{
    for byte in bytes {
        text.hex(*byte);
    }
}

// The numbers, each with a space before it.
pub fn put_numbers(numbers: &[u16], text: &mut Text)
    requires { HasRoom (11 * length numbers.now) text.old }
    ensures put { Puts (numbers_text numbers.now) text.old text.new }
    ensures same_room { SameRoom text.old text.new }
    ensures upper_bound { text.new.end ≤ text.old.end + 11 * length numbers.now }
{
    for number in numbers {
        text.number(u32::from(*number));
    }
}

// The word for what was lent, behind what the answer tells.
pub fn put_note(clean: bool, text: &mut Text)
    requires { HasRoom 7 text.old }
    ensures put { Puts (noted clean) text.old text.new }
    ensures same_room { SameRoom text.old text.new }
    ensures upper_bound { text.new.end ≤ text.old.end + 7 }
{
    text.put(if clean { b" clean\n" } else { b" dirty\n" });
}
