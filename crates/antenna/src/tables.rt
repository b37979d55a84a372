// The tables that a lookup reads: numbers, or their little-endian bytes.
ghost use Rattle.std.specs.Prelude.{◌≡◌, ◌+◌, ◌*◌, ◌<◌, ◌≤◌, List, Float, length, get_or};
ghost use Rattle.std.specs.Float.{nan};
ghost use Rattle.table.specs.Table.{is_table};
ghost use Rattle.encoding.specs.Bytes.{floats_of};
ghost use Rattle.antenna.specs.ByteTables.{table_of};

const BYTES: usize = 11040;

pub(crate) trait Table: Copy {
    // Of bytes none where their length is wrong.
    ghost numbers: { Self → List Float };

    fn is_table(self) -> bool
        ensures { result ≡ is_table (numbers self) };

    // The k-th number.
    fn number(self, k: usize) -> f32
        requires { k < length (numbers self) }
        ensures { result ≡ get_or (numbers self) k nan };
}

impl Table for &[f32] {
    ghost numbers = { λ t. t.now };

    fn is_table(self) -> bool {
        table::is_table(self)
    }

    fn number(self, k: usize) -> f32 {
        self[k]
    }
}

// The k-th number of the bytes.
#[tactic(auto, using(encoding::proofs::Floats::floats_at))]
fn cell(table: &[u8], k: usize) -> f32
    requires { k * 4 + 4 ≤ length table.now }
    ensures { result ≡ get_or (floats_of table.now) k nan }
{
    let at = k * 4;
    encoding::float_of(table[at], table[at + 1], table[at + 2], table[at + 3])
}

// Only the cells that a lookup takes are read.
impl Table for &[u8] {
    ghost numbers = { λ t. table_of t.now };

    #[tactic(auto, using(crate::proofs::ByteTables::is_table_of))]
    fn is_table(self) -> bool {
        self.len() == BYTES
    }

    fn number(self, k: usize) -> f32 {
        cell(self, k)
    }
}
