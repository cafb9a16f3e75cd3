//! Records whose texts are one after another in a buffer of strings.

/// Records, and the strings in which their texts are.
#[derive(Drop)]
pub struct Rows<R> {
    /// The records.
    pub records: Vec<R>,
    /// The texts of the records, one after another.
    pub strings: Vec<u8>,
}
