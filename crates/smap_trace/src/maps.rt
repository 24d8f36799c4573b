//! Where the maps of URLs come from.
ghost use Rattle.std.specs.Prelude.{◌≡◌, ℕ, Bool, List, None, Option, false, option_map};
ghost use Rattle.smap_record.specs.Record.{MapRecord};
ghost use Rattle.smap_trace.specs.FunctionNames.{FunctionNames, written_name};

use crate::table::Table;
use smap_record::{MapRefusal, ReadyMap};
use std::alloc::Global;

/// Why there is no map for a URL.
#[derive(Clone, Copy, Debug, PartialEq, Eq)]
pub enum NoMap {
    /// No file is named for the URL, or none is asked for.
    Unnamed,
    /// Its file can't be read.
    Unread,
    /// The map in its file is refused, for this.
    Refused(MapRefusal),
    /// Memory ran out while it was read.
    Memory,
}

/// What gives the maps of the URLs that a text names.
pub trait Maps {
    // What map a URL may have from now on: what it states, or none.
    ghost Gives: { Self → (url : List ℕ) → Option MapRecord → Type 0 };

    // How the maps stand after the map of a URL was looked for.
    ghost Finds: { Self → (url : List ℕ) → Self → Type 0 };

    // What is found under a URL then.
    ghost found: { Self → (url : List ℕ) → Option MapRecord };

    // What names the functions of its program then, where that is known.
    ghost names: { Self → (url : List ℕ) → Option FunctionNames };

    // Whether it is known of any; and which maps and which names a URL may have from now on then.
    ghost names_any: { Bool };

    ghost GivesNames: { Self → (url : List ℕ) → Option MapRecord → Option FunctionNames → Type 0 };

    /// Looks for the map of a URL, which may be read for it; and says whether other maps may be found after that, of
    /// whatever URL: if not, those that are found stay.
    fn find(&mut self, url: &[u8]) -> bool
        ensures finds { Finds self.old url.now self.new }
        ensures same { result ≡ false → found self.new ≡ found self.old };

    /// The map of the URL that was looked for last, where it has one. The call takes no memory.
    fn map_for(&self, url: &[u8]) -> Option<&ReadyMap>
        ensures { option_map (λ map. map.now.stated) result ≡ found self.now url.now };

    /// Whether written names are known of any functions: if not, none is looked for. The call takes no memory.
    fn knows_names(&self) -> bool
        ensures { result ≡ names_any };

    /// The name that was written for a function of this name in the program of the URL that was looked for last, at a line
    /// and a column as printed, from 1; `None` where that is not known. The call takes no memory.
    fn written_name<'a>(
        &'a self,
        alloc: Global,
        url: &[u8],
        function: &'a [u8],
        line: u32,
        column: u32,
    ) -> Option<&'a [u8]>
        ensures { option_map (λ name. name.now) result
            ≡ written_name (names self.now url.now) function.now line column };

    // Each URL may have a map, or none.
    ghost some: { (maps : Self) (url : List ℕ) → (stated : Option MapRecord) ×
        Gives maps url stated };

    // What is found is what it may have.
    ghost given: { (maps after : Self) (url : List ℕ) → Finds maps url after →
        Gives maps url (found after url) };

    // What a URL may have after another was looked for, it may have before.
    ghost same: { (maps after : Self) (url other : List ℕ) (stated : Option MapRecord) →
        Finds maps url after → Gives after other stated → Gives maps other stated };

    // The same of maps with names.
    ghost some_names: { (maps : Self) (url : List ℕ) → (stated : Option MapRecord) ×
        (written : Option FunctionNames) × GivesNames maps url stated written };

    ghost given_names: { (maps after : Self) (url : List ℕ) → Finds maps url after →
        GivesNames maps url (found after url) (names after url) };

    ghost same_names: { (maps after : Self) (url other : List ℕ) (stated : Option MapRecord)
        (written : Option FunctionNames) → Finds maps url after →
        GivesNames after other stated written → GivesNames maps other stated written };

    // Where it is known of none, nothing has a name.
    ghost unnamed: { (maps : Self) (url : List ℕ) → names_any ≡ false → names maps url ≡ None };
}

/// The maps of a table.
#[derive(Clone, Copy)]
pub struct TableMaps<'t>(pub &'t Table);

impl Maps for TableMaps<'_> {
    ghost use Rattle.std.specs.Prelude.{◌≡◌, None, false, refl};
    ghost use Rattle.smap_locations.specs.ByText.{value_under};
    ghost use Rattle.smap_trace.specs.Laws.Maps.{table_given, table_same};

    ghost Gives = { λ maps url stated. stated ≡ value_under url maps.0.now };

    ghost Finds = { λ maps url after. after ≡ maps };

    ghost found = { λ maps url. value_under url maps.0.now };

    ghost names = { λ maps url. None };

    ghost names_any = { false };

    ghost GivesNames = { λ maps url stated written. Unit {0} };

    fn find(&mut self, _url: &[u8]) -> bool {
        false
    }

    fn map_for(&self, url: &[u8]) -> Option<&ReadyMap> {
        self.0.map_for(url)
    }

    fn knows_names(&self) -> bool {
        false
    }

    fn written_name<'a>(
        &'a self,
        _alloc: Global,
        _url: &[u8],
        _function: &'a [u8],
        _line: u32,
        _column: u32,
    ) -> Option<&'a [u8]> {
        None
    }

    ghost some = { λ maps url. (value_under url maps.0.now, refl) };

    ghost given = { table_given };

    ghost same = { table_same };

    ghost some_names = { λ maps url. (None, None, tt) };

    ghost given_names = { λ maps after url finds. tt };

    ghost same_names = { λ maps after url other stated written finds gives. tt };

    ghost unnamed = { λ maps url none. refl };
}
