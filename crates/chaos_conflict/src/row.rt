/// A row of a letter of claims. Rows go by reference, there by element, and there by iteration.
#[derive(Clone, Copy, Debug, PartialEq, Eq, PartialOrd, Ord)]
pub struct Row {
    pub reference: u32,
    pub element: u64,
    pub iteration: i64,
}
