// What a file holds, read once for whatever is done with it: its counts, and its nodes and records at the front of two tables, which have
// room for the largest file, since there is no allocation.
ghost use Rattle.std.specs.Prelude.{◌≡◌, ◌*◌, ◌≤◌, take};

use flow::Refusal;
use reader::Counts;

#[derive(Drop)]
pub struct Tables {
    pub counts: Counts,
    nodes: [u16; 192],
    records: [u16; 256],
    ghost few_nodes: { 3 * counts.nodes ≤ 192 },
    ghost few_records: { counts.records ≤ 256 },
}

impl Tables {
    ghost use Rattle.program.specs.FileTables.{FileRead};

    pub fn read(file: &[u8]) -> Result<Tables, Refusal>
        ensures { FileRead file.now result }
    {
        let mut nodes = [0u16; 192];
        let mut records = [0u16; 256];
        let counts = reader::read(file, &mut nodes, &mut records)?;
        Ok(Tables {
            counts,
            nodes,
            records,
        })
    }

    pub fn nodes(&self) -> &[u16]
        ensures { result.now ≡ take (3 * self.now.counts.nodes) self.now.nodes }
    {
        let n = 3 * usize::from(self.counts.nodes);
        &self.nodes[..n]
    }

    pub fn records(&self) -> &[u16]
        ensures { result.now ≡ take self.now.counts.records self.now.records }
    {
        let n = usize::from(self.counts.records);
        &self.records[..n]
    }
}
