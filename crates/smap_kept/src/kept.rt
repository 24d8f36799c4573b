//! What is known of URLs.
ghost use Rattle.std.specs.Prelude.{◌≡◌, ◌/◌, [], length, option_copied, IfErr, IfOk, OnErr, OnOk, true};
ghost use Rattle.smap_kept.specs.Bounded.{bytes_of, is_within};
ghost use Rattle.smap_kept.specs.Kept.{answer, answer_seen, asked_for, forgotten, kept_at_first, own_answer, own_used, why_none, with_none, with_value};
ghost use Rattle.smap_kept.specs.OwnUrls.{key_of};

use crate::answer::{KeptAnswer, NoValue};
use crate::bounded::Bounded;
use crate::own_urls::OwnUrls;
use std::alloc::{AllocError, AllocFailed, Global};
use std::marker::Model;

// Why a URL has no value, and until when that holds, if not for ever.
#[derive(Clone, Copy)]
pub(crate) struct Absence {
    pub(crate) why: NoValue,
    pub(crate) until: Option<u64>,
}

/// What is known of URLs: the value of each, or why it has none, as it was put last. A value counts for its bytes, those
/// of its URL, and 128; their sum is within a bound, or one value stands alone. What is known to have none counts for the
/// bytes of its URL and 128, within a sixteenth of that bound for itself. Where there is no room for one more, what was
/// longest not asked for is dropped.
///
/// A URL without query and fragment also answers for those that have them, but for none under which something was put: such
/// a URL has its own answer, and is wanted again where that is dropped or forgotten. These URLs count for their bytes and
/// 128 each, within another sixteenth; once they are more, every URL has its own answer.
///
/// A look-up compares a URL with as many others as the number of them has binary digits.
#[derive(Drop)]
pub struct Kept<T> {
    values: Bounded<T>,
    nones: Bounded<Absence>,
    own: OwnUrls,
    asked: u64,
    hits: u64,
    dropped: u64,
}

impl<T> Model for Kept<T> {
    ghost use Rattle.smap_kept.specs.Kept.{IsKept, KeptSeen, kept_seen};

    ghost Value = { KeptSeen T };

    ghost view = { kept_seen };

    ghost invariant = { IsKept };
}

impl<T: Drop> Kept<T> {
    /// Nothing is known, and a bound in bytes.
    pub fn new(alloc: Global, most: u64) -> Result<Kept<T>, AllocError>
        ensures { IfOk result (λ kept. kept ≡ kept_at_first most) }
    {
        let values = Bounded::new(alloc, most)?;
        let nones = Bounded::new(alloc, most / 16)?;
        let own = OwnUrls::new(alloc, most / 16)?;
        Ok(Kept {
            values,
            nones,
            own,
            asked: 0,
            hits: 0,
            dropped: 0,
        })
    }

    /// For how many bytes the values count.
    pub fn bytes(&self) -> u64
        ensures sum { result ≡ bytes_of self.now.values }
        ensures within { is_within self.now.most self.now.values ≡ true }
    {
        self.values.bytes()
    }

    /// For how many bytes counts what is known to have no value.
    pub fn none_bytes(&self) -> u64
        ensures sum { result ≡ bytes_of self.now.nones }
        ensures within { is_within (self.now.most / 16) self.now.nones ≡ true }
    {
        self.nones.bytes()
    }

    /// For how many bytes count the URLs with a query or a fragment that have their own answers.
    pub fn own_bytes(&self) -> u64
        ensures sum { result ≡ bytes_of self.now.own.urls }
        ensures within { is_within (self.now.most / 16) self.now.own.urls ≡ true }
    {
        self.own.bytes()
    }

    /// How many values there are.
    pub fn count(&self) -> usize
        ensures { result ≡ length self.now.values }
    {
        self.values.count()
    }

    /// Of how many URLs it is remembered that they have no value, or had none until a time.
    pub fn none_count(&self) -> usize
        ensures { result ≡ length self.now.nones }
    {
        self.nones.count()
    }

    /// How many look-ups there were, up to 18,446,744,073,709,551,615.
    pub fn asked(&self) -> u64
        ensures { result ≡ self.now.asked }
    {
        self.asked
    }

    /// How many of them were answered, up to 18,446,744,073,709,551,615.
    pub fn hits(&self) -> u64
        ensures { result ≡ self.now.hits }
    {
        self.hits
    }

    /// How many entries were dropped because there was no room, up to 18,446,744,073,709,551,615.
    pub fn dropped(&self) -> u64
        ensures { result ≡ self.now.dropped }
    {
        self.dropped
    }

    /// Puts the value of a URL, which has so many bytes, in the place of what was known under this very URL. Where memory
    /// runs out, nothing is changed, and the value comes back.
    pub fn put(
        &mut self,
        alloc: Global,
        url: &[u8],
        value: T,
        bytes: u64,
    ) -> Result<(), AllocFailed<T>>
        ensures put { OnOk result
            (self.new ≡ with_value url.now (record { value = value; bytes = bytes }) self.old) }
        ensures kept { OnErr result (self.new ≡ self.old) }
        ensures back { IfErr result (λ failed. failed.value ≡ value) }
    {
        let Ok(added) = self.own.add(alloc, url) else {
            return Err(AllocFailed { value });
        };
        match self.values.put(alloc, url, value, bytes) {
            Ok(dropped) => {
                self.nones.remove(url);
                self.dropped = self.dropped.saturating_add(dropped as u64);
                Ok(())
            }
            Err(failed) => {
                self.own.take_back(url, added);
                Err(failed)
            }
        }
    }

    /// Puts why a URL has no value, in the place of what was known under this very URL. That holds until a time in what the
    /// caller counts in, or for ever. Where memory runs out, nothing is changed.
    pub fn put_none(
        &mut self,
        alloc: Global,
        url: &[u8],
        why: NoValue,
        until: Option<u64>,
    ) -> Result<(), AllocError>
        ensures put { OnOk result (self.new ≡ with_none url.now
            (record { value = record { why = why; until = until }; bytes = 0 }) self.old) }
        ensures kept { OnErr result (self.new ≡ self.old) }
    {
        let added = self.own.add(alloc, url)?;
        match self.nones.put(alloc, url, Absence { why, until }, 0) {
            Ok(dropped) => {
                self.values.remove(url);
                self.dropped = self.dropped.saturating_add(dropped as u64);
                Ok(())
            }
            Err(_) => {
                self.own.take_back(url, added);
                Err(AllocError)
            }
        }
    }

    /// Forgets what is known under this very URL.
    pub fn forget(&mut self, url: &[u8])
        ensures { self.new ≡ forgotten url.now self.old }
    {
        self.values.remove(url);
        self.nones.remove(url);
    }

    /// Forgets which URLs have no value.
    pub fn forget_none(&mut self)
        ensures { self.new ≡ record self.old { nones = [] } }
    {
        self.nones.clear();
    }

    /// Looks for what is known of a URL, and counts that: what gives the answer is dropped after all others. `peek` lends
    /// the value then.
    pub fn ask(&mut self, url: &[u8], now: u64) -> KeptAnswer<()>
        ensures answer { result ≡ answer_seen (λ _. tt) (answer now self.old url.now) }
        ensures used { self.new ≡ asked_for now self.old url.now }
    {
        let key = self.own.key_for(url);
        let answer = self.use_own(key, now);
        self.asked = self.asked.saturating_add(1);
        if let KeptAnswer::Wanted = answer {
            return answer;
        }
        self.hits = self.hits.saturating_add(1);
        answer
    }

    // Puts first what is known under this very URL.
    fn use_own(&mut self, url: &[u8], now: u64) -> KeptAnswer<()>
        ensures answer { result ≡ answer_seen (λ _. tt) (own_answer now self.old url.now) }
        ensures used { self.new ≡ own_used now self.old url.now }
    {
        if self.values.touch(url) {
            return KeptAnswer::Known(());
        }
        match why_none(self.nones.get(url), now) {
            Some(why) => {
                self.nones.touch(url);
                KeptAnswer::NoneKnown(why)
            }
            None => KeptAnswer::Wanted,
        }
    }

    /// The URL under which is what is known of a URL, and under which it is to be put where it is wanted: the URL itself,
    /// where something was put under it, or else the URL without its query and its fragment.
    pub fn key_for<'u>(&self, url: &'u [u8]) -> &'u [u8]
        ensures { result.now ≡ key_of self.now.own url.now }
    {
        self.own.key_for(url)
    }

    /// What is known of a URL, which is what is known under its key. The call changes nothing, and counts nothing.
    pub fn peek(&self, url: &[u8], now: u64) -> KeptAnswer<&T>
        ensures { answer_seen (λ value. value.now) result ≡ answer now self.now url.now }
    {
        self.own_answer(self.key_for(url), now)
    }

    // What is known under this very URL.
    fn own_answer(&self, url: &[u8], now: u64) -> KeptAnswer<&T>
        ensures { answer_seen (λ value. value.now) result ≡ own_answer now self.now url.now }
    {
        if let Some(value) = self.values.get(url) {
            return KeptAnswer::Known(value);
        }
        match why_none(self.nones.get(url), now) {
            Some(why) => KeptAnswer::NoneKnown(why),
            None => KeptAnswer::Wanted,
        }
    }
}

// Why there is no value, where that still holds.
fn why_none(absence: Option<&Absence>, now: u64) -> Option<NoValue>
    ensures { result ≡ why_none now (option_copied absence.entry) }
{
    let absence = absence?;
    match absence.until {
        Some(until) if until <= now => None,
        _ => Some(absence.why),
    }
}
