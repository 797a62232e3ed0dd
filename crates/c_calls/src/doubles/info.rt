// The record of a call, in addition to its lists.

/// The record of a call, in addition to its lists. Each call writes only the fields that belong to
/// its end.
#[repr(C)]
#[derive(Clone, Copy)]
pub struct DoublesInfo {
    /// The place, from 0, of a fault in a list.
    pub place: u64,
    /// The number of persons of a Hall set.
    pub persons: u64,
    /// The number of objects of a Hall set.
    pub objects: u64,
    /// The person that a verdict names.
    pub person: u64,
    /// The object that a verdict names.
    pub object: u64,
    /// 1: each other pair of a person is worse by a margin; 0: that isn't shown.
    pub by_margin: u32,
}
