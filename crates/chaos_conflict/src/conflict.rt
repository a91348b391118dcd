/// Two iterations that assign one element: the first of them, the second, the number of the reference whose
/// assignment it is, from 1, and the array's own element, from 1.
#[derive(Clone, Copy, Debug, PartialEq, Eq)]
pub struct Conflict {
    pub first: i64,
    pub second: i64,
    pub reference: u32,
    pub element: u64,
}
