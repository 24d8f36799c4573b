//! How many bytes of a text are taken.
ghost use Rattle.std.specs.Prelude.{◌≡◌, ◌<◌, ◌≤◌, ◌+◌, ◌^◌, ◌++◌, ◌↔◌, IfErr, OnErr, OnOk, length};
ghost use Rattle.smap_piecewise.specs.declared.stop.GiveFault.TheVariants.{TooMuch};

use crate::given::Given;
use crate::stop::GiveFault;

/// How many bytes a text has at most, and how many of them were given.
#[derive(Clone, Copy)]
pub struct Bound {
    pub most_bytes: u64,
    pub taken: u64,
}

impl Bound {
    /// Of a text of which nothing was given.
    pub fn new(most_bytes: u64) -> Bound
        ensures { result ≡ record { most_bytes = most_bytes; taken = 0 } }
    {
        Bound {
            most_bytes,
            taken: 0,
        }
    }

    /// Takes the next bytes of the text behind those that are not yet done. After a refusal all is as it was.
    pub fn take(&mut self, given: &mut Given, bytes: &[u8]) -> Result<(), GiveFault>
        requires within { self.old.taken ≤ self.old.most_bytes }
        requires countable { self.old.most_bytes < 2 ^ 63 }
        ensures given { OnOk result (given.new ≡ given.old ++ bytes.now) }
        ensures taken { OnOk result (self.new ≡ record {
          most_bytes = self.old.most_bytes;
          taken = self.old.taken + length bytes.now;
        }) }
        ensures few { OnOk result (self.old.taken + length bytes.now ≤ self.old.most_bytes) }
        ensures refused { OnErr result ((self.new ≡ self.old) × (given.new ≡ given.old)) }
        ensures many { IfErr result (λ fault.
            (fault ≡ TooMuch) ↔ (self.old.most_bytes < self.old.taken + length bytes.now)) }
    {
        if bytes.len() as u64 > self.most_bytes - self.taken {
            return Err(GiveFault::TooMuch);
        }
        if given.push(bytes).is_err() {
            return Err(GiveFault::Memory);
        }
        self.taken += bytes.len() as u64;
        Ok(())
    }
}
