// The lists that are lent to a call to be read, as many numbers as a case may give.
ghost use Rattle.std.specs.Prelude.{◌≤◌, length};

// The names section, if names are lent, and the nodes, the records and the sets.
#[derive(Clone, Copy)]
pub struct Lists<'a> {
    pub names: Option<&'a [u8]>,
    pub nodes: &'a [u16],
    pub records: &'a [u16],
    pub sets: &'a [u8],
    ghost few_nodes: { length nodes.now ≤ 400 },
    ghost few_records: { length records.now ≤ 400 },
}
