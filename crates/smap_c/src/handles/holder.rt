//! What is the same of each handle: it is made of a value, lends it, and gives it up.
ghost use Rattle.std.specs.Prelude.{◌≡◌, None, Option, Some, IsSome, IfErr, IfOk};
ghost use Rattle.std.specs.Borrow.{sem, Lends};

use crate::loose::Loose;
use std::alloc::{AllocFailed, Global};

/// A pointer of C's that owns a value, or nothing.
pub(crate) trait Holder: Sized {
    type Held: Drop;

    ghost held: { Self → Option Self.Held };

    // the handle while it lends what it holds: it ends with the last value that stood there
    ghost with_held: { Self → Self.Held → Self };

    /// The handle of a value whose box was taken apart.
    fn of(loose: Loose<Self::Held, Global>) -> Self
        ensures { held result ≡ Some loose.value };

    /// What the handle holds, which is not empty.
    fn lend(&mut self) -> &mut Self::Held
        requires { IsSome (held self.old) }
        ensures* writes_back { sem 𝓛 (Lends Self.row Self.Held.row self.entry result (with_held self.old)) }
        ensures value { Some result.now ≡ held self.old };

    /// Takes out what the handle holds, and leaves it empty.
    fn take(&mut self, alloc: Global) -> Loose<Self::Held, Global>
        requires { IsSome (held self.old) }
        ensures taken { Some result.value ≡ held self.old }
        ensures emptied { held self.new ≡ None };

    final fn new(alloc: Global, value: Self::Held) -> Result<Self, AllocFailed<Self::Held>>
        ensures made { IfOk result (λ handle. held handle ≡ Some value) }
        ensures back { IfErr result (λ failed. failed.value ≡ value) }
    {
        Ok(Self::of_box(Box::new(alloc, value)?))
    }

    /// The handle of the value in this box. The call takes no memory.
    final fn of_box(value: Box<Self::Held>) -> Self
        ensures { held result ≡ Some value.value }
    {
        Self::of(Loose::of(value))
    }

    /// Takes out what the handle holds, in its box.
    final fn take_box(&mut self, alloc: Global) -> Box<Self::Held>
        requires { IsSome (held self.old) }
        ensures taken { Some result.value ≡ held self.old }
        ensures emptied { held self.new ≡ None }
    {
        self.take(alloc).into_box()
    }

    /// Takes out what the handle holds, and frees its room.
    final fn empty(&mut self, alloc: Global) -> Self::Held
        requires { IsSome (held self.old) }
        ensures taken { Some result ≡ held self.old }
        ensures emptied { held self.new ≡ None }
    {
        Box::into_inner(self.take_box(alloc))
    }
}
