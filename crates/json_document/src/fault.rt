/// Why a text was not read.
#[derive(Clone, Copy, Debug, Drop, PartialEq, Eq)]
pub enum Fault {
    /// It is no JSON text: it is no UTF-8, breaks the grammar, nests deeper than 127, or has a number that is no finite float.
    NotJson,
    /// It has more than 4 GiB less 256 bytes (`json::MAX_LEN`).
    TooLong,
    /// An allocation was refused.
    NoMemory,
}
