//! The mappings with the nearest original column, in a walk.
ghost use Rattle.std.specs.Prelude.{◌≡◌, ◌++◌, ◌∷◌, [], List, Some, IfOk};
ghost use Rattle.smap_mappings.specs.declared.mapping.Mapping.{Mapping};
ghost use Rattle.smap_originals.specs.Generated.{column_of};
ghost use Rattle.smap_originals.specs.Private.Nearest.{IsNearestOf};
ghost use Rattle.smap_originals.specs.declared.asked.OriginalDirection.{OriginalDirection};

use crate::asked::OriginalDirection;
use smap_mappings::Mapping;
use std::alloc::{AllocError, Global};

// Those with the nearest original column so far, and that column, where there are any.
#[derive(Drop)]
pub struct NearestMappings {
    pub column: Option<u32>,
    pub mappings: Vec<Mapping>,
}

impl NearestMappings {
    pub fn new(alloc: Global) -> NearestMappings
        ensures { (direction : OriginalDirection) → IsNearestOf direction [] result }
    {
        NearestMappings {
            column: None,
            mappings: Vec::new(alloc),
        }
    }

    // Takes in one more mapping, which has this original column.
    pub fn add(
        &mut self,
        direction: OriginalDirection,
        mapping: Mapping,
        column: u32,
    ) -> Result<(), AllocError>
        requires column { column ≡ column_of mapping.origin }
        ensures { (mappings : List Mapping) → IsNearestOf direction mappings self.old →
            IfOk result (λ _. IsNearestOf direction (mappings ++ mapping ∷ []) self.new) }
    {
        match self.column {
            Some(best) if direction.is_nearer(best, column) => Ok(()),
            Some(best) if direction.is_nearer(column, best) => {
                self.begin(mapping, column)?;
                Ok(())
            }
            Some(_) => {
                self.mappings.push(mapping)?;
                Ok(())
            }
            None => {
                self.begin(mapping, column)?;
                Ok(())
            }
        }
    }

    // Has this mapping alone, which has this original column.
    fn begin(&mut self, mapping: Mapping, column: u32) -> Result<(), AllocError>
        ensures { IfOk result (λ _. (self.new.column ≡ Some column)
            × (self.new.mappings.items ≡ mapping ∷ [])) }
    {
        self.mappings.clear();
        self.mappings.push(mapping)?;
        self.column = Some(column);
        Ok(())
    }
}
