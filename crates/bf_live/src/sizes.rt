//! How many rows live tables have, where a MIGRATE is to read them.

ghost use Rattle.std.specs.Prelude.{◌≡◌, IfOk, length};
ghost use Rattle.bf_sql.specs.Database.{table_rows};
ghost use Rattle.bf_sql.specs.RowObjections.{first_oversize};

use crate::live_tables::LiveTables;
use bf_base::{MOST_ROWS, Memory, Name};
use bf_tree::Refusal;
use std::alloc::Global;

impl LiveTables {
    /// The number of rows of the table of a name, and 0 where there is none. It compares about log n names, and takes
    /// no memory.
    pub fn row_count(&self, name: &Name) -> u32
        ensures { result ≡ length (table_rows self.now name.now) }
    {
        match self.heap(name) {
            Some(heap) => heap.len(),
            None => 0,
        }
    }

    /// The refusal of the first of some old tables that has more rows than a MIGRATE reads, and `None` exactly where
    /// each has few enough. It compares about log n names for each.
    ///
    /// # Errors
    /// Where memory runs out.
    pub fn oversize(&self, alloc: Global, sources: &[Name]) -> Result<Option<Refusal>, Memory>
        ensures { IfOk result (λ refusal. refusal ≡ first_oversize self.now sources.now) }
    {
        for name in sources {
            let count = self.row_count(name);
            if count > MOST_ROWS {
                return Ok(Some(Refusal::TooManyRows(name.copy(alloc)?, count)));
            }
        }
        Ok(None)
    }
}
