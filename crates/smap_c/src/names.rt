//! The names of functions, by a map and its generated file.
ghost use Rattle.std.specs.Prelude.{◌≡◌, ◌≢◌, ◌⊎◌, ◌*◌, ℕ, List, None, false, Some, IfOk, IfSome, IsSome, IsSomeAnd, MatchOption, is_some, length, option_map};
ghost use Rattle.std.specs.List.Sorted.{IsPermutation};
ghost use Rattle.smap_declarations.specs.Declarations.{Named};
ghost use Rattle.smap_c.specs.Names.{IsNameAt, IsNamedBy, IsUnnamed, is_fitting, name_at};
ghost use Rattle.smap_c.specs.Shares.{IsTextRefused};
ghost use Rattle.smap_c.specs.Size.{counted};

use crate::codes::code_number;
use crate::handles::{Holder, MapHandle, NamesHandle};
use crate::status::{DONE, NO_MEMORY, REFUSED};
use crate::texts::Text;
use smap_codes::Code;
use smap_declarations::{DeclarationPlace, Declarations, function_name};
use smap_fit::fit_of;
use smap_record::{MOST_FILE_BYTES, Meter, SharedMap};
use smap_store::SharedDeclarations;
use std::alloc::{AllocError, Global};

// For how many bytes a declaration counts: 32 of its own, and about as many as its name has.
const DECLARATION_BYTES: u64 = 48;

/// A map, and what its generated file declares.
#[derive(Drop)]
pub struct NamedFunctions {
    pub(crate) map: SharedMap,
    pub(crate) declarations: SharedDeclarations,
}

/// Reads from a map and its generated file which names the file declares, for the names of functions in frames. The map may
/// be freed before. Where nothing is read, `refusal` is the number of `NotUtf8`, of M1, the file has more than 67,108,864
/// bytes, or of A4, the map can't be that of the file.
#[unsafe(no_mangle)]
pub extern "C" fn smap_names_new(
    alloc: Global,
    map: &mut MapHandle,
    generated: &[u8],
    names: &mut NamesHandle,
    refusal: &mut u32,
) -> u32
    requires { IsSome map.old.held }
    ensures made { IfSome map.old.held (λ held. result ≡ 0 →
        IsSomeAnd names.new.held (IsNamedBy held generated.now)) }
    ensures refused { IfSome map.old.held (λ held. result ≡ 1 →
        IsUnnamed held generated.now refusal.new) }
    ensures no_text { (number : ℕ) → IsTextRefused generated.now number → result ≡ 1 }
    ensures unfit { IfSome map.old.held (λ held.
        is_fitting held generated.now ≡ false → result ≢ 0) }
    ensures unreported { result ≢ 1 → refusal.new ≡ refusal.old }
    ensures stays { (map.new.held ≡ map.old.held)
        × (result ≢ 0 → names.new.held ≡ names.old.held) }
    ensures status { (result ≡ 0) ⊎ (result ≡ 1) ⊎ (result ≡ 3) }
{
    if generated.len() > MOST_FILE_BYTES {
        *refusal = code_number(Code::M1);
        return REFUSED;
    }
    let Ok(text) = str::from_utf8(generated) else {
        *refusal = code_number(Code::NotUtf8);
        return REFUSED;
    };
    match NamedFunctions::of(alloc, map.lend(), text) {
        Ok(Some(named)) => hand_out_names(alloc, named, names),
        Ok(None) => {
            *refusal = code_number(Code::A4);
            REFUSED
        }
        Err(_no_memory) => NO_MEMORY,
    }
}

pub(crate) fn hand_out_names(alloc: Global, named: NamedFunctions, names: &mut NamesHandle) -> u32
    ensures made { result ≡ 0 → names.new.held ≡ Some named }
    ensures stays { result ≢ 0 → names.new.held ≡ names.old.held }
    ensures status { (result ≡ 0) ⊎ (result ≡ 3) }
{
    match NamesHandle::new(alloc, named) {
        Ok(handle) => {
            *names = handle;
            DONE
        }
        Err(_failed) => NO_MEMORY,
    }
}

impl NamedFunctions {
    // What a map's generated file declares, and the map, where it can be that of the file.
    fn of(alloc: Global, map: &SharedMap, text: &str) -> Result<Option<NamedFunctions>, AllocError>
        ensures made { IfOk result (λ made. IfSome made (IsNamedBy map.now text.now)) }
        ensures fits { IfOk result (λ made. is_some made ≡ is_fitting map.now text.now) }
    {
        if !fit_of(alloc, map.map(), text)?.fits() {
            return Ok(None);
        }
        let map = map.share()?;
        let Ok(declarations) = Declarations::of_text(alloc, text, map.map()) else {
            return Err(AllocError);
        };
        match SharedDeclarations::new(alloc, declarations) {
            Ok(declarations) => Ok(Some(NamedFunctions { map, declarations })),
            Err(_no_memory) => Err(AllocError),
        }
    }

    // The name of a frame's function at a place, where it has one.
    fn name_of<'a>(
        &'a self,
        alloc: Global,
        function: &'a [u8],
        line: u32,
        column: u32,
    ) -> Option<&'a [u8]>
        ensures name { option_map (λ name. name.now) result
            ≡ name_at self.now function.now line column }
        ensures decided { (all : List Named) → IsPermutation all self.now.declarations →
            IsNameAt all self.now.map.stated.names function.now line column
            (option_map (λ name. name.now) result) }
    {
        let name = function_name(function)?;
        let place = DeclarationPlace { line, column };
        let mut meter = Meter::new(alloc);
        self.declarations
            .get()
            .name_of(self.map.map(), name, place, &mut meter)
    }
}

// Another hold on a map, and on declarations.
pub(crate) fn named_by(
    map: &SharedMap,
    declared: &SharedDeclarations,
) -> Result<NamedFunctions, AllocError>
    ensures { IfOk result (λ named. named ≡ record { map = map.now; declarations = declared.now }) }
{
    Ok(NamedFunctions {
        map: map.share()?,
        declarations: declared.share()?,
    })
}

/// Lends the name that a frame's function has in its source, by what stands in the frame: the function as it is printed, and
/// its generated place, from 0, the column in UTF-16 code units. A function is one name, behind `async ` and `new `, which
/// the name has not. Refused where it is none, and where it gets no name. What is lent may be a part of `function`.
#[unsafe(no_mangle)]
pub extern "C" fn smap_name_of<'a>(
    alloc: Global,
    names: &'a mut NamesHandle,
    function: &'a [u8],
    line: u32,
    column: u32,
    name: &mut Text<'a>,
) -> u32
    requires { IsSome names.old.held }
    ensures name { IfSome names.old.held (λ held.
        MatchOption (name_at held function.now line column)
        ((result ≡ 1) × (name.new ≡ name.old))
        (λ text. (result ≡ 0) × (name.new.text.now ≡ text))) }
    ensures decided { IfSome names.old.held (λ held. (all : List Named) →
        IsPermutation all held.declarations →
        IsNameAt all held.map.stated.names function.now line column
        (name_at held function.now line column)) }
{
    match names.lend().name_of(alloc, function, line, column) {
        Some(text) => {
            name.text = text;
            DONE
        }
        None => REFUSED,
    }
}

/// Makes another handle of the same names of functions: nothing is copied, and they are freed with the last that holds them.
#[unsafe(no_mangle)]
pub extern "C" fn smap_names_share(
    alloc: Global,
    names: &mut NamesHandle,
    other: &mut NamesHandle,
) -> u32
    requires { IsSome names.old.held }
    ensures shared { result ≡ 0 → other.new.held ≡ names.old.held }
    ensures stays { (names.new.held ≡ names.old.held)
        × (result ≢ 0 → other.new.held ≡ other.old.held) }
    ensures status { (result ≡ 0) ⊎ (result ≡ 3) }
{
    let named = names.lend();
    match named_by(&named.map, &named.declarations) {
        Ok(share) => hand_out_names(alloc, share, other),
        Err(_no_memory) => NO_MEMORY,
    }
}

/// Says for how many bytes of memory names of functions count, up to 18,446,744,073,709,551,615: 48 for each declaration,
/// which is about what it takes. Their map counts for itself.
#[unsafe(no_mangle)]
pub extern "C" fn smap_names_size(names: &mut NamesHandle, size: &mut u64) -> u32
    requires { IsSome names.old.held }
    ensures size { IfSome names.old.held (λ held.
        size.new ≡ counted (length held.declarations * 48)) }
    ensures stays { names.new.held ≡ names.old.held }
    ensures status { result ≡ 0 }
{
    let count = names.lend().declarations.get().count() as u64;
    *size = count.saturating_mul(DECLARATION_BYTES);
    DONE
}

/// Frees names of functions, and leaves their handle empty.
#[unsafe(no_mangle)]
pub extern "C" fn smap_names_free(alloc: Global, names: &mut NamesHandle)
    requires { IsSome names.old.held }
    ensures { names.new.held ≡ None }
{
    names.empty(alloc);
}
