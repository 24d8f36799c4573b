//! A hold on declarations.
ghost use Rattle.std.specs.Prelude.{◌≡◌, IfErr, IfOk};

use smap_declarations::Declarations;
use std::alloc::{AllocError, AllocFailed, Global};
use std::marker::Model;
use std::sync::Arc;

/// A hold on the declarations of a generated program, which others may hold, too. They are freed with the last that holds
/// them. Each hold may go to a thread of its own.
#[derive(Drop)]
pub struct SharedDeclarations {
    declarations: Arc<Declarations, Global>,
}

impl Model for SharedDeclarations {
    ghost use Rattle.std.specs.Arc.{arc_value};
    ghost use Rattle.std.specs.Prelude.{List};
    ghost use Rattle.smap_declarations.specs.Declarations.{Named};

    ghost Value = { List Named };

    ghost view = { λ shared. arc_value shared.declarations };
}

impl SharedDeclarations {
    /// The first hold on declarations. Where memory runs out, they come back.
    pub fn new(
        alloc: Global,
        declarations: Declarations,
    ) -> Result<SharedDeclarations, AllocFailed<Declarations>>
        ensures held { IfOk result (λ shared. shared ≡ declarations) }
        ensures back { IfErr result (λ failed. failed.value ≡ declarations) }
    {
        match Arc::new(alloc, declarations) {
            Ok(declarations) => Ok(SharedDeclarations { declarations }),
            Err(failed) => Err(failed),
        }
    }

    /// The declarations.
    pub fn get(&self) -> &Declarations
        ensures { result.now ≡ self.now }
    {
        &*self.declarations
    }

    /// Another hold on the declarations. The call takes no memory; it fails where there are 2 ^ 63 - 1 of them.
    pub fn share(&self) -> Result<SharedDeclarations, AllocError>
        ensures { IfOk result (λ other. other ≡ self.now) }
    {
        Ok(SharedDeclarations {
            declarations: self.declarations.clone()?,
        })
    }
}
