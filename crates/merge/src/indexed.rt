// A good list with the table of its kept lines, as compacting makes it: of the lines with one path the
// last one is kept. Kept lines are numbered from 1.
ghost use Rattle.relative.specs.Relative.{max_pairs};
ghost use Rattle.compact.specs.Held.{IsTable};
ghost use Rattle.merge.specs.Theorems.{IsList};

use compact::table::Table;

#[derive(Clone, Copy)]
pub struct IndexedList<'a> {
    pub list: &'a [u8],
    pub table: &'a Table,
    pub count: usize,
    ghost is_list: { IsList max_pairs list.now },
    ghost is_table: { IsTable max_pairs list.now table.now.heads table.now.links table.now.places count },
}
