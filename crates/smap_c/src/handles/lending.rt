//! The handles as holders. All that follows a pointer of C's stands here.
ghost use Rattle.std.specs.Prelude.{◌≡◌, Some};

use super::{
    BytesHandle, Holder, InnersHandle, MapHandle, NamesHandle, OriginalsHandle, RewritingHandle,
    StoreHandle, TableHandle, UrlFinderHandle,
};
use crate::bytes::Bytes;
use crate::inners::Inners;
use crate::loose::Loose;
use crate::names::NamedFunctions;
use smap_anywhere::UrlFinder;
use smap_originals::Originals;
use smap_piecewise::{KeptMaps, Rewriting};
use smap_record::SharedMap;
use smap_store::UrlTable;
use std::alloc::Global;

impl Holder for MapHandle {
    type Held = SharedMap;

    ghost held = { λ handle. handle.held };

    ghost with_held = { λ handle held. record handle { held = Some held } };

    fn of(loose: Loose<SharedMap, Global>) -> MapHandle
        ensures { result.held ≡ Some loose.value }
    {
        let Loose { at, alloc: _ } = loose;
        MapHandle { at: at as *mut u8 }
    }

    fn lend(&mut self) -> &mut SharedMap {
        unsafe { &mut *(self.at as *mut SharedMap) }
    }

    fn take(&mut self, alloc: Global) -> Loose<SharedMap, Global> {
        Loose {
            at: self.at as *mut SharedMap,
            alloc,
        }
    }
}

impl Holder for TableHandle {
    type Held = UrlTable;

    ghost held = { λ handle. handle.held };

    ghost with_held = { λ handle held. record handle { held = Some held } };

    fn of(loose: Loose<UrlTable, Global>) -> TableHandle
        ensures { result.held ≡ Some loose.value }
    {
        let Loose { at, alloc: _ } = loose;
        TableHandle { at: at as *mut u8 }
    }

    fn lend(&mut self) -> &mut UrlTable {
        unsafe { &mut *(self.at as *mut UrlTable) }
    }

    fn take(&mut self, alloc: Global) -> Loose<UrlTable, Global> {
        Loose {
            at: self.at as *mut UrlTable,
            alloc,
        }
    }
}

impl Holder for InnersHandle {
    type Held = Inners;

    ghost held = { λ handle. handle.held };

    ghost with_held = { λ handle held. record handle { held = Some held } };

    fn of(loose: Loose<Inners, Global>) -> InnersHandle
        ensures { result.held ≡ Some loose.value }
    {
        let Loose { at, alloc: _ } = loose;
        InnersHandle { at: at as *mut u8 }
    }

    fn lend(&mut self) -> &mut Inners {
        unsafe { &mut *(self.at as *mut Inners) }
    }

    fn take(&mut self, alloc: Global) -> Loose<Inners, Global> {
        Loose {
            at: self.at as *mut Inners,
            alloc,
        }
    }
}

impl Holder for BytesHandle {
    type Held = Bytes;

    ghost held = { λ handle. handle.held };

    ghost with_held = { λ handle held. record handle { held = Some held } };

    fn of(loose: Loose<Bytes, Global>) -> BytesHandle
        ensures { result.held ≡ Some loose.value }
    {
        let Loose { at, alloc: _ } = loose;
        BytesHandle { at: at as *mut u8 }
    }

    fn lend(&mut self) -> &mut Bytes {
        unsafe { &mut *(self.at as *mut Bytes) }
    }

    fn take(&mut self, alloc: Global) -> Loose<Bytes, Global> {
        Loose {
            at: self.at as *mut Bytes,
            alloc,
        }
    }
}

impl Holder for OriginalsHandle {
    type Held = Originals;

    ghost held = { λ handle. handle.held };

    ghost with_held = { λ handle held. record handle { held = Some held } };

    fn of(loose: Loose<Originals, Global>) -> OriginalsHandle
        ensures { result.held ≡ Some loose.value }
    {
        let Loose { at, alloc: _ } = loose;
        OriginalsHandle { at: at as *mut u8 }
    }

    fn lend(&mut self) -> &mut Originals {
        unsafe { &mut *(self.at as *mut Originals) }
    }

    fn take(&mut self, alloc: Global) -> Loose<Originals, Global> {
        Loose {
            at: self.at as *mut Originals,
            alloc,
        }
    }
}

impl Holder for NamesHandle {
    type Held = NamedFunctions;

    ghost held = { λ handle. handle.held };

    ghost with_held = { λ handle held. record handle { held = Some held } };

    fn of(loose: Loose<NamedFunctions, Global>) -> NamesHandle
        ensures { result.held ≡ Some loose.value }
    {
        let Loose { at, alloc: _ } = loose;
        NamesHandle { at: at as *mut u8 }
    }

    fn lend(&mut self) -> &mut NamedFunctions {
        unsafe { &mut *(self.at as *mut NamedFunctions) }
    }

    fn take(&mut self, alloc: Global) -> Loose<NamedFunctions, Global> {
        Loose {
            at: self.at as *mut NamedFunctions,
            alloc,
        }
    }
}

impl Holder for UrlFinderHandle {
    type Held = UrlFinder;

    ghost held = { λ handle. handle.held };

    ghost with_held = { λ handle held. record handle { held = Some held } };

    fn of(loose: Loose<UrlFinder, Global>) -> UrlFinderHandle
        ensures { result.held ≡ Some loose.value }
    {
        let Loose { at, alloc: _ } = loose;
        UrlFinderHandle { at: at as *mut u8 }
    }

    fn lend(&mut self) -> &mut UrlFinder {
        unsafe { &mut *(self.at as *mut UrlFinder) }
    }

    fn take(&mut self, alloc: Global) -> Loose<UrlFinder, Global> {
        Loose {
            at: self.at as *mut UrlFinder,
            alloc,
        }
    }
}

impl Holder for StoreHandle {
    type Held = KeptMaps;

    ghost held = { λ handle. handle.held };

    ghost with_held = { λ handle held. record handle { held = Some held } };

    fn of(loose: Loose<KeptMaps, Global>) -> StoreHandle
        ensures { result.held ≡ Some loose.value }
    {
        let Loose { at, alloc: _ } = loose;
        StoreHandle { at: at as *mut u8 }
    }

    fn lend(&mut self) -> &mut KeptMaps {
        unsafe { &mut *(self.at as *mut KeptMaps) }
    }

    fn take(&mut self, alloc: Global) -> Loose<KeptMaps, Global> {
        Loose {
            at: self.at as *mut KeptMaps,
            alloc,
        }
    }
}

impl Holder for RewritingHandle {
    type Held = Rewriting;

    ghost held = { λ handle. handle.held };

    ghost with_held = { λ handle held. record handle { held = Some held } };

    fn of(loose: Loose<Rewriting, Global>) -> RewritingHandle
        ensures { result.held ≡ Some loose.value }
    {
        let Loose { at, alloc: _ } = loose;
        RewritingHandle { at: at as *mut u8 }
    }

    fn lend(&mut self) -> &mut Rewriting {
        unsafe { &mut *(self.at as *mut Rewriting) }
    }

    fn take(&mut self, alloc: Global) -> Loose<Rewriting, Global> {
        Loose {
            at: self.at as *mut Rewriting,
            alloc,
        }
    }
}
