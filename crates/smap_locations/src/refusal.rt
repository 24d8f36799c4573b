//! Why a location is not added, and why a list of them is not taken.

/// Why a location is not added.
#[derive(Clone, Copy)]
pub enum LocationRefusal {
    /// A folder's prefix does not end in `/`, nor the text of its pattern in `/` or `\`.
    NoFolder,
    /// The URL has a file already, or the prefix a folder, or a pattern the text.
    Twice,
    /// Memory ran out.
    Memory,
}

/// Why a list of maps is not taken: the first line that can't be, and why.
#[derive(Clone, Copy, Debug, PartialEq, Eq)]
pub struct ListRefusal {
    /// The line's number, from 1.
    pub line: u64,
    pub fault: ListFault,
}

/// Why a line is not taken. The first that holds, in this order, is reported.
#[derive(Clone, Copy, Debug, PartialEq, Eq)]
pub enum ListFault {
    /// It has no TAB.
    NoTab,
    /// It names a folder, and what stands before the TAB does not end in `/`, nor as a pattern in `\`.
    NoFolder,
    /// What stands before the TAB holds a CR, or is empty or begins with `async ` or `eval at `.
    BadUrl,
    /// The URL has a map or a file already, or the prefix a folder, or a pattern the text.
    Twice,
    /// Memory ran out.
    Memory,
}
