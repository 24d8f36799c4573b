//! A generated place with its original place.
ghost use Rattle.std.specs.Prelude.{◌≡◌};
ghost use Rattle.smap_originals.specs.Originals.{order_of, original_order};

/// Where a mapping stands in the generated file, and where its original stands in its source, from 0, columns in UTF-16 code
/// units.
#[repr(C)]
#[derive(Clone, Copy)]
pub struct GeneratedPlace {
    pub line: u32,
    pub column: u32,
    pub original_line: u32,
    pub original_column: u32,
}

const _: () = prove!(size_of::<GeneratedPlace>() == 16);

impl GeneratedPlace {
    // A number by which places stand in the order of their originals.
    #[inline(always)]
    pub(crate) fn original_order(&self) -> u64
        ensures { result ≡ original_order self.now }
    {
        order_of(self.original_line, self.original_column)
    }
}

// The number of a line and a column.
#[inline(always)]
pub(crate) fn order_of(line: u32, column: u32) -> u64
    ensures { result ≡ order_of line column }
{
    u64::from(line) * 4294967296 + u64::from(column)
}
