//! The maps of a table, with the written names of functions.
ghost use Rattle.std.specs.Prelude.{◌≡◌, Some, option_map};
ghost use Rattle.smap_trace.specs.FunctionNames.{names_beside, names_of, written_name};

use crate::maps::Maps;
use crate::table::Table;
use crate::url_declarations::UrlDeclarations;
use smap_declarations::{DeclarationPlace, Declarations};
use smap_record::{Meter, ReadyMap};
use std::alloc::Global;

/// The maps of a table, and beside them declarations of their programs, each under the URL of its map.
#[derive(Clone, Copy)]
pub struct NamedTable<'t> {
    pub table: &'t Table,
    pub declared: &'t UrlDeclarations,
}

impl Maps for NamedTable<'_> {
    ghost use Rattle.std.specs.Prelude.{◌≡◌, refl, true};
    ghost use Rattle.smap_locations.specs.ByText.{value_under};
    ghost use Rattle.smap_trace.specs.Laws.Maps.{is_named, named_given, named_given_names, named_same, named_same_names};
    ghost use Rattle.smap_trace.specs.NamedTable.{GivesOfTable, names_in};

    ghost Gives = { λ maps url stated. stated ≡ value_under url maps.table.now };

    ghost Finds = { λ maps url after. after ≡ maps };

    ghost found = { λ maps url. value_under url maps.table.now };

    ghost names = { names_in };

    ghost names_any = { true };

    ghost GivesNames = { GivesOfTable };

    fn find(&mut self, _url: &[u8]) -> bool {
        false
    }

    fn map_for(&self, url: &[u8]) -> Option<&ReadyMap> {
        self.table.map_for(url)
    }

    fn knows_names(&self) -> bool {
        true
    }

    fn written_name<'a>(
        &'a self,
        alloc: Global,
        url: &[u8],
        function: &'a [u8],
        line: u32,
        column: u32,
    ) -> Option<&'a [u8]> {
        let map = self.table.map_for(url);
        let declared = self.declared.get(url);
        name_declared_beside(alloc, map, declared, function, line, column)
    }

    ghost some = { λ maps url. (value_under url maps.table.now, refl) };

    ghost given = { named_given };

    ghost same = { named_same };

    ghost some_names = { λ maps url. (value_under url maps.table.now, names_in maps url, (refl, refl)) };

    ghost given_names = { named_given_names };

    ghost same_names = { named_same_names };

    ghost unnamed = { λ maps url. is_named (names_in maps url) };
}

/// The name that was written for a function of this name, by its map and the declarations of its program, where there are
/// both, at a line and a column as printed, from 1; `None` where these do not say it. The call takes no memory.
pub fn name_declared_beside<'a>(
    alloc: Global,
    map: Option<&'a ReadyMap>,
    declared: Option<&Declarations>,
    function: &'a [u8],
    line: u32,
    column: u32,
) -> Option<&'a [u8]>
    ensures { option_map (λ name. name.now) result ≡ written_name
        (names_beside (option_map (λ map. map.now.stated) map.entry)
        (option_map (λ declared. declared.now) declared.entry)) function.now line column }
{
    let map = map?;
    let declared = declared?;
    name_of(alloc, map, declared, function, line, column)
}

// The same where there are both.
fn name_of<'a>(
    alloc: Global,
    map: &'a ReadyMap,
    declared: &Declarations,
    function: &'a [u8],
    line: u32,
    column: u32,
) -> Option<&'a [u8]>
    ensures { option_map (λ name. name.now) result
        ≡ names_of map.now.stated declared.now function.now line column }
{
    let place = DeclarationPlace {
        line: line.saturating_sub(1),
        column: column.saturating_sub(1),
    };
    declared.name_of(map.map(), function, place, &mut Meter::new(alloc))
}
