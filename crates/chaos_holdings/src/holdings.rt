use crate::kept_list::KeptList;
use chaos_records::Records;
use fd_words::NumberLists;
use inspect_places::PageSet;
use node_tables::TableSet;

/// What a node has between the steps: the elements of each decomposition that stand on it, the local parts
/// of the arrays, the numbers behind records, its pages, what is kept of each FORALL, and the tables of
/// ghosts.
#[derive(Drop)]
pub struct Holdings {
    pub elements: NumberLists,
    pub parts: NumberLists,
    pub records: Records,
    pub pages: PageSet,
    pub kept: KeptList,
    pub tables: TableSet,
}
