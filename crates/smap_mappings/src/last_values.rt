//! What a mapping is written as a difference from: the last mapping, origin and name before it.
ghost use Rattle.std.specs.Prelude.{◌≡◌, ◌≤◌, pos, ◌-ℤ◌, unsigned_abs, false, Some};
ghost use Rattle.smap_mappings.specs.Limits.{limit};
ghost use Rattle.smap_mappings.specs.Range.{is_mapping_past_limit, is_origin_past_limit};
ghost use Rattle.smap_mappings.specs.Canonical.{column_before};
ghost use Rattle.smap_mappings.specs.Private.Reading.{fields_in, origin_fields};
ghost use Rattle.smap_mappings.specs.Writing.{AreInRange, AreLastOf};
ghost use Rattle.smap_mappings.specs.Private.OneMore.{CanBeSpelled, fields_from, origin_fields_from, last_values_after};

use crate::mapping::{Mapping, Origin};
use crate::segment::{OriginFields, Segment};

// What is kept of the mappings so far. Before the first, the origin's values and the name are 0.
#[derive(Clone, Copy)]
pub struct LastValues {
    pub mapping: Option<Mapping>,
    pub origin: Origin,
    pub name: u32,
}

impl LastValues {
    ghost use Rattle.std.specs.Prelude.{[]};

    // Before the first mapping.
    pub fn none() -> LastValues
        ensures { AreLastOf [] result }
    {
        LastValues {
            mapping: None,
            origin: Origin {
                source: 0,
                line: 0,
                column: 0,
                name: None,
            },
            name: 0,
        }
    }

    // The differences of the next mapping.
    #[inline(always)]
    pub fn segment(&self, mapping: &Mapping) -> Segment
        requires last { AreInRange self.now }
        requires mapping { is_mapping_past_limit mapping.now ≡ false }
        ensures fields { fields_in result ≡ fields_from self.now mapping.now }
        ensures small { CanBeSpelled (fields_in result) }
    {
        let column = difference(mapping.column, column_before(&self.mapping, mapping.line));
        match mapping.origin {
            None => Segment {
                column,
                origin: None,
            },
            Some(origin) => Segment {
                column,
                origin: Some(self.origin_fields(&origin)),
            },
        }
    }

    #[inline(always)]
    fn origin_fields(&self, origin: &Origin) -> OriginFields
        requires last { AreInRange self.now }
        requires origin { is_origin_past_limit (Some origin.now) ≡ false }
        ensures fields { origin_fields (Some result)
            ≡ origin_fields_from self.now (Some origin.now) }
        ensures small { CanBeSpelled (origin_fields (Some result)) }
    {
        let name = match origin.name {
            Some(name) => Some(difference(name, self.name)),
            None => None,
        };
        OriginFields {
            source: difference(origin.source, self.origin.source),
            line: difference(origin.line, self.origin.line),
            column: difference(origin.column, self.origin.column),
            name,
        }
    }

    // What is kept after the next mapping.
    #[inline(always)]
    pub fn after(&self, mapping: &Mapping) -> LastValues
        requires last { AreInRange self.now }
        requires mapping { is_mapping_past_limit mapping.now ≡ false }
        ensures values { result ≡ last_values_after self.now mapping.now }
        ensures in_range { AreInRange result }
    {
        let (origin, name) = match mapping.origin {
            Some(origin) => (origin, origin.name.unwrap_or(self.name)),
            None => (self.origin, self.name),
        };
        LastValues {
            mapping: Some(*mapping),
            origin,
            name,
        }
    }
}

// The column on a line from which the next mapping differs.
#[inline(always)]
fn column_before(last: &Option<Mapping>, line: u32) -> u32
    ensures { result ≡ column_before last.now line }
{
    match last {
        Some(mapping) if mapping.line == line => mapping.column,
        _ => 0,
    }
}

#[inline(always)]
fn difference(value: u32, earlier: u32) -> i32
    requires value { value ≤ limit }
    requires earlier { earlier ≤ limit }
    ensures is { result ≡ pos value -ℤ pos earlier }
    ensures small { unsigned_abs result ≤ limit }
{
    value as i32 - earlier as i32
}
