//! A source over a source.
ghost use Rattle.std.specs.Prelude.{◌≡◌, ◌<◌, ◌≤◌, [], length, take, true};
ghost use Rattle.smap_io.specs.Sequences.{IsWaiting, most_sequences};
ghost use Rattle.smap_io.specs.WithoutSequences.{ReadsOn, without_seen};
ghost use Rattle.smap_io.specs.Private.Front.{IsFront};
ghost use Rattle.smap_io.specs.Private.Given.{IsGiven, IsLastGiven, IsNearer};
ghost use Rattle.smap_io.specs.declared.front.Front.TheVariants.{Open};

use crate::device::{ByteSource, DeviceFault};
use crate::held::Held;
use crate::telling::tell;

/// The bytes of another source without its control sequences. A sequence that the end cuts off stays, as does one of more
/// than 128 bytes, and what only begins as one. What may become a sequence waits for more, and is at most 127 bytes; after a
/// failure nothing else was held back. A source that has failed fails from then on.
#[derive(Drop)]
pub struct WithoutSequences<R: ByteSource> {
    inner: R,
    // What came of it and was not given yet.
    held: Held,
    // How many sequences are still left out.
    most: u64,
    pub ghost waits: { (R.seen inner).failed ≡ true → IsWaiting held },
}

impl<R: ByteSource> WithoutSequences<R> {
    /// The bytes that `inner` has left, without their sequences. It is not asked yet.
    pub fn new(inner: R) -> WithoutSequences<R>
        ensures over { result.inner ≡ inner }
        ensures none { result.held ≡ [] }
        ensures all { result.most ≡ most_sequences }
    {
        WithoutSequences {
            inner,
            held: Held::new(),
            most: u64::MAX,
        }
    }

    /// The inner source. What came of it and was not given is lost.
    pub fn into_inner(self) -> R
        ensures { result ≡ self.inner }
    {
        let WithoutSequences { inner, .. } = self;
        inner
    }
}

impl<R: ByteSource> ByteSource for WithoutSequences<R> {
    ghost seen = { λ source. without_seen source.held source.most (R.seen source.inner) };

    fn read(&mut self, room: &mut [u8]) -> Result<usize, DeviceFault>
        ensures { ReadsOn (without_seen self.old.held self.old.most (R.seen self.old.inner))
            (without_seen self.new.held self.new.most (R.seen self.new.inner)) room.new result }
    {
        if self.inner.failed() {
            return Err(DeviceFault);
        }
        if room.is_empty() {
            return Ok(0);
        }
        loop {
            let count = give(&mut self.held, &mut self.most, room);
            if count > 0 {
                return Ok(count);
            }
            if !self.held.read_on(&mut self.inner)? {
                return Ok(give_one(&mut self.held, self.most, room));
            }
        }
    }

    fn failed(&self) -> bool {
        self.inner.failed()
    }
}

// Gives what can be told of the bytes that are held, as much as there is room for.
fn give(held: &mut Held, most: &mut u64, room: &mut [u8]) -> usize
    ensures fits { result ≤ length room.new }
    ensures gives { IsGiven held.old most.old (take result room.new) held.new most.new }
    ensures undecided { result ≡ 0 → 0 < length room.new → IsFront held.new most.new Open }
    ensures nearer { result ≡ 0 → IsNearer held.old most.old held.new most.new }
{
    let told = tell(held.bytes(), *most, room);
    held.leave(told.left);
    *most = told.most;
    told.count
}

// At the end what can't be told is no sequence: gives the first byte of it, where there is one.
fn give_one(held: &mut Held, most: u64, room: &mut [u8]) -> usize
    requires some { 0 < length room.old }
    requires undecided { IsFront held.old most Open }
    ensures fits { result ≤ length room.new }
    ensures gives { IsLastGiven held.old most (take result room.new) held.new most }
    ensures end { result ≡ 0 → held.new ≡ [] }
{
    let Some((first, behind)) = held.bytes().split_first() else {
        return 0;
    };
    room[0] = *first;
    let left = behind.len();
    held.leave(left);
    1
}
