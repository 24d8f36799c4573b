//! The order of the parts' offsets.

ghost use Rattle.std.specs.Prelude.{◌≡◌, ◌≤◌, length};
ghost use Rattle.smap_index.specs.Parts.{most_parts};
ghost use Rattle.smap_index.specs.Faults.{is_out_of_order, order_fault};

use crate::part::Part;
use crate::placed::offset_of;

// The first part whose offset stands before that of the part before it.
pub fn first_out_of_order(parts: &[Part]) -> Option<u64>
    ensures { result ≡ order_fault parts.now }
{
    for i in 1..parts.len() {
        if is_out_of_order(&parts[i - 1], &parts[i]) {
            return Some(i as u64);
        }
    }
    None
}

// Whether the offset of the second stands before that of the first.
fn is_out_of_order(part: &Part, next: &Part) -> bool
    ensures { result ≡ is_out_of_order (part.now, next.now) }
{
    offset_of(next).is_before(&offset_of(part))
}
