// The flow file's writer: a names section, the numbers of nodes and records and the bytes of the sets into lent bytes, or a refusal with
// its number and place. What it answers is defined in specs/Writing.antt; the scan of the names and the checks on the lists are those of
// crate `format`, as the reader makes them.
#![tactic(auto)]

ghost use Rattle.std.specs.Prelude.{◌≡◌, ◌+◌, ◌*◌, ◌≤◌, length};
ghost use Rattle.format.specs.Format.{number_bytes, numbers_bytes, numbers_section, sets_section};
ghost use Rattle.format.specs.Told.{at_front};
ghost use Rattle.writer.specs.Writing.{lists_bytes, WrittenAs};

use flow::{Extent, Refusal};

// How long the file is that was written.
#[derive(Clone, Copy)]
pub struct Size {
    pub length: u32,
}

// Two bytes at the front of the room, the low one first; the rest of it stays.
fn put_number(number: u16, room: &mut [u8])
    requires { 2 ≤ length room.old }
    ensures { room.new ≡ at_front (number_bytes number) room.old }
{
    room[..2].copy_from_slice(&number.to_le_bytes());
}

// The numbers, one after the other, at the front of the room.
fn put_numbers(numbers: &[u16], room: &mut [u8])
    requires { 2 * length numbers.now ≤ length room.old }
    ensures { room.new ≡ at_front (numbers_bytes numbers.now) room.old }
{
    for (i, number) in numbers.iter().enumerate() {
        let at = 2 * i;
        put_number(*number, &mut room[at..]);
    }
}

// A section of numbers, `each` of which make one, after its count.
fn put_section(numbers: &[u16], each: usize, room: &mut [u8])
    requires { (1 ≤ each) × (length numbers.now ≤ 256) × (2 + 2 * length numbers.now ≤ length room.old) }
    ensures { room.new ≡ at_front (numbers_section each numbers.now) room.old }
{
    let count = numbers.len() / each;
    put_number(count as u16, room);
    put_numbers(numbers, &mut room[2..]);
}

// How long the section of the sets is: nothing without sets. Their length is asked of the lent slice, as 23 has told it.
fn sets_room(sets: &[u8]) -> usize
    requires { length sets.now ≤ 512 }
    ensures { result ≡ length (sets_section sets.now) }
{
    if sets.is_empty() {
        return 0;
    }
    2 + sets.len()
}

// The sets, after their count, if there are any.
fn put_sets(sets: &[u8], room: &mut [u8])
    requires { (length sets.now ≤ 512) × (length (sets_section sets.now) ≤ length room.old) }
    ensures { room.new ≡ at_front (sets_section sets.now) room.old }
{
    if sets.is_empty() {
        return;
    }
    let count = sets.len() / flow::SET_BYTES;
    put_number(count as u16, room);
    let end = 2 + sets.len();
    room[2..end].copy_from_slice(sets);
}

// The sections: the names as they are lent, with their count, then nodes, records and sets.
fn put_lists(names: &[u8], nodes: &[u16], records: &[u16], sets: &[u8], file: &mut [u8])
    requires { (length nodes.now ≤ 256) × (length records.now ≤ 256) × (length sets.now ≤ 512) × (length names.now + 4 + 2 * (length nodes.now + length records.now) + length (sets_section sets.now) ≤ length file.old) }
    ensures { file.new ≡ at_front (lists_bytes names.now nodes.now records.now sets.now) file.old }
{
    let from = names.len();
    file[..from].copy_from_slice(names);
    put_section(nodes, 3, &mut file[from..]);
    let mid = from + 2 + 2 * nodes.len();
    put_section(records, 1, &mut file[mid..]);
    let last = mid + 2 + 2 * records.len();
    put_sets(sets, &mut file[last..]);
}

// The flow file of a names section, nodes, records and sets, at the front of the lent bytes, whose rest stays; or a refusal, and all stay.
pub fn write(
    names: &[u8],
    nodes: &[u16],
    records: &[u16],
    sets: &[u8],
    file: &mut [u8],
) -> Result<Size, Refusal>
    ensures { WrittenAs names.now nodes.now records.now sets.now file.old file.new result }
{
    format::check_lists(names, nodes, records, sets, Extent::Whole)?;
    let end = names.len() + 4 + 2 * (nodes.len() + records.len()) + sets_room(sets);
    if file.len() < end {
        return Err(format::refusal(flow::NO_ROOM, 0));
    }
    put_lists(names, nodes, records, sets, file);
    Ok(Size { length: end as u32 })
}
