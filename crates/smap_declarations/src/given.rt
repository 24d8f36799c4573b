//! The name that a map gives to a declaration.
ghost use Rattle.std.specs.Prelude.{◌≡◌};
ghost use Rattle.smap_declarations.specs.Declarations.{given_at, given_by, given_to};

use crate::kind::Kind;
use crate::walk::DeclarationPlace;
use smap_record::{Answer, MapFile, Meter};
use std::alloc::Global;

/// What a map gives to a name: nothing, the name itself, or one of its names, by its index from 0.
#[derive(Clone, Copy)]
pub enum Given {
    Nothing,
    Own,
    Name(u32),
}

// What a map gives to a declaration at this place, and nothing to a property.
#[tactic(auto, unfolding(crate::specs::Declarations::given_to))]
pub fn given_to(alloc: Global, map: &MapFile, place: DeclarationPlace, kind: Kind) -> Given
    ensures { result ≡ given_to map.now.stated place kind }
{
    match kind {
        Kind::Declaration => {
            let answer = map.look_up(place.line, place.column, &mut Meter::new(alloc));
            given_at(place.column, answer)
        }
        Kind::Property => Given::Nothing,
    }
}

// What the mapping that answers gives, where it stands exactly at the column.
fn given_at(column: u32, answer: Answer) -> Given
    ensures { result ≡ given_at column answer }
{
    match answer {
        Answer::Nothing => Given::Nothing,
        Answer::Unmapped { .. } => Given::Nothing,
        Answer::Found {
            column: there,
            origin,
        } => {
            if there == column {
                given_by(origin.name)
            } else {
                Given::Nothing
            }
        }
    }
}

fn given_by(name: Option<u32>) -> Given
    ensures { result ≡ given_by name }
{
    match name {
        Some(name) => Given::Name(name),
        None => Given::Own,
    }
}
