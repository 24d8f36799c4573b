//! Why a row is not asked.

use smap_io::{DeviceFault, ReadFailure};
use std::alloc::{AllocError, AllocFailed};

/// Why a row is not asked, or its answer not written.
#[derive(Clone, Copy, Debug)]
pub enum RowFault {
    /// There is no such call.
    UnknownCall,
    /// A field is missing.
    MissingField,
    /// A field has a `\` that no escape follows.
    BadEscape,
    /// A field that has to be UTF-8 is not.
    NotText,
    /// A field that has to be a number is none, or is out of its range.
    BadNumber,
    /// A field that has to be a URL is none.
    BadUrl,
    /// A map, a text or a list of mappings that the call stands on is refused.
    Refused,
    /// Standard input, standard output or a file of `data/` failed.
    Device,
    /// Memory ran out.
    Memory,
}

impl From<AllocError> for RowFault {
    fn from(_: AllocError) -> RowFault {
        RowFault::Memory
    }
}

impl<T: Drop> From<AllocFailed<T>> for RowFault {
    fn from(_: AllocFailed<T>) -> RowFault {
        RowFault::Memory
    }
}

impl From<DeviceFault> for RowFault {
    fn from(_: DeviceFault) -> RowFault {
        RowFault::Device
    }
}

impl From<ReadFailure> for RowFault {
    fn from(failure: ReadFailure) -> RowFault {
        match failure {
            ReadFailure::Device => RowFault::Device,
            ReadFailure::Memory => RowFault::Memory,
        }
    }
}
