//! Which mappings say something new.
ghost use Rattle.std.specs.Prelude.{◌≡◌};
ghost use Rattle.smap_fit.specs.Fresh.{continues, continues_last, is_as_far};

use smap_record::{Mapping, Origin};

/// Whether a mapping continues the last one, where there is one: it stands on its line, and its origin on that of its
/// origin, each as many columns further.
pub fn continues_last(last: Option<Mapping>, mapping: &Mapping) -> bool
    ensures { result ≡ continues_last last mapping.now }
{
    match last {
        Some(last) => continues(&last, mapping),
        None => false,
    }
}

fn continues(last: &Mapping, mapping: &Mapping) -> bool
    ensures { result ≡ continues last.now mapping.now }
{
    last.line == mapping.line && is_as_far(last.column, mapping.column, last.origin, mapping.origin)
}

// Whether the second origin is on the line of the first, as many columns behind it as the second column is behind the first.
fn is_as_far(
    last_column: u32,
    column: u32,
    last_origin: Option<Origin>,
    origin: Option<Origin>,
) -> bool
    ensures { result ≡ is_as_far last_column column last_origin origin }
{
    let (Some(last), Some(origin)) = (last_origin, origin) else {
        return false;
    };
    last.source == origin.source
        && last.line == origin.line
        && u64::from(origin.column) + u64::from(last_column)
            == u64::from(last.column) + u64::from(column)
}
