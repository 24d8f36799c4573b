//! Rewriting a text piece by piece.
ghost use Rattle.std.specs.Prelude.{◌≡◌, ◌<◌, ◌≤◌, ◌+◌, ◌^◌, ◌++◌, ◌↔◌, IfErr, IfOk, List, OnErr, OnOk, false, length, map, option_map, string_bytes, ℕ};
ghost use Rattle.smap_pairs.specs.Known.{UrlsKnown};
ghost use Rattle.smap_trace.specs.MapsOf.{NamedByUrl};
ghost use Rattle.smap_trace.specs.Rewriting.{counts_seen};
ghost use Rattle.smap_piecewise.specs.Frames.{frames_start};
ghost use Rattle.smap_piecewise.specs.Known.{NamedKnown, with_declared};
ghost use Rattle.smap_piecewise.specs.Places.{nothing_given};
ghost use Rattle.smap_piecewise.specs.Rewriting.{HasRun, HasStopped, IsHandedOn, IsTold, begun_with, outcome_of, output_cleared, stripping_at_first, text_ended, with_allowance, with_bytes};
ghost use Rattle.smap_piecewise.specs.KeptMaps.{holding_of};
ghost use Rattle.smap_piecewise.specs.StoreMaps.{known_over};
ghost use Rattle.smap_piecewise.specs.TableUrls.{maps_of, table_urls};
ghost use Rattle.smap_piecewise.specs.Work.{OfFrames, OfPlaces, counts_of, is_of_places, output_of, wanted_url, whole_lines_of};
ghost use Rattle.smap_piecewise.specs.declared.stop.GiveFault.TheVariants.{TooMuch};

use crate::bound::Bound;
use crate::frames::Frames;
use crate::given::Given;
use crate::kept_maps::KeptMaps;
use crate::known::KnownMaps;
use crate::places::Places;
use crate::stop::{GiveFault, Stop};
use crate::store_maps::StoreMaps;
use crate::stripping::Stripping;
use crate::table_urls::TableUrls;
use crate::work::Work;
use smap_lines::MOST_LINE_BYTES;
use smap_pairs::{KnownUrls, LinePlaces};
use smap_store::UrlTable;
use smap_trace::Summary;
use std::alloc::{AllocError, Global};
use std::marker::Model;

/// How a text is read and written.
#[derive(Clone, Copy)]
pub struct TextOptions {
    /// Whether it is read without the control sequences of a terminal.
    pub strip: bool,
    /// Whether maps are asked for, of which a table and a store know nothing.
    pub asks: bool,
    /// How many bytes it has at most: less than 2^63.
    pub most_bytes: u64,
    /// How many bytes are written at most.
    pub most_output: u64,
}

/// Which frames of a text are left out.
#[derive(Drop)]
pub struct HiddenFrames {
    /// Whether those of sources are that a map says to ignore.
    pub ignored: bool,
    /// So are those of sources whose name, as it is printed, contains one of these texts.
    pub texts: Vec<String>,
}

/// A text whose frames or places are rewritten while it comes.
#[derive(Drop)]
pub struct Rewriting {
    work: Work,
    // How many bytes the output may have.
    limit: u64,
    stripping: Option<Stripping>,
    asks: bool,
    is_ended: bool,
    bound: Bound,
}

impl Model for Rewriting {
    ghost use Rattle.smap_piecewise.specs.Private.Rewriting.{IsInOrder, rewriting_seen};
    ghost use Rattle.smap_piecewise.specs.Rewriting.{RewritingNow};

    ghost Value = { RewritingNow };

    ghost view = { rewriting_seen };

    ghost invariant = { IsInOrder };
}

impl Rewriting {
    /// Of the frames of a text of which nothing was given. The call takes no memory.
    pub fn of_frames(alloc: Global, hidden: HiddenFrames, options: TextOptions) -> Rewriting
        requires { options.most_bytes < 2 ^ 63 }
        ensures { result ≡ begun_with (OfFrames (frames_start (record {
          ignored = hidden.ignored;
          texts = map string_bytes hidden.texts.items;
        }))) options }
    {
        let frames = Frames {
            ignored: hidden.ignored,
            texts: hidden.texts,
            given: Given::new(alloc),
            is_passing: false,
            is_ended: false,
            output: Vec::new(alloc),
            counts: nothing_counted(),
        };
        Rewriting {
            work: Work::Frames(frames),
            limit: options.most_output,
            stripping: stripping_at_first(alloc, options.strip),
            asks: options.asks,
            is_ended: false,
            bound: Bound::new(options.most_bytes),
        }
    }

    /// Of the places of a text of which nothing was given. All room for the places of a line is made here.
    pub fn of_places(alloc: Global, options: TextOptions) -> Result<Rewriting, AllocError>
        requires { options.most_bytes < 2 ^ 63 }
        ensures { IfOk result (λ rewriting.
            rewriting ≡ begun_with (OfPlaces nothing_given) options) }
    {
        let places = Places {
            given: Given::new(alloc),
            chunk: 0,
            from: 0,
            spans: LinePlaces::with_room(alloc, MOST_LINE_BYTES)?,
            done: 0,
            room: vec![in alloc; 0; MOST_LINE_BYTES + 1]?,
            wanted: Vec::new(alloc),
            is_wanted: false,
            is_broken: false,
            is_open: false,
            is_ended: false,
            output: Vec::new(alloc),
            counts: nothing_counted(),
        };
        Ok(Rewriting {
            work: Work::Places(places),
            limit: options.most_output,
            stripping: stripping_at_first(alloc, options.strip),
            asks: options.asks,
            is_ended: false,
            bound: Bound::new(options.most_bytes),
        })
    }

    /// Gives it the next bytes of the text. After a refusal it is as it was.
    pub fn give(&mut self, bytes: &[u8]) -> Result<(), GiveFault>
        requires { self.old.is_ended ≡ false }
        ensures given { OnOk result (self.new ≡ with_bytes bytes.now self.old) }
        ensures comes { OnOk result ((urls : UrlsKnown) (maps : NamedByUrl) (later : List ℕ) →
            outcome_of urls maps self.new later
            ≡ outcome_of urls maps self.old (bytes.now ++ later)) }
        ensures few { OnOk result (self.old.taken + length bytes.now ≤ self.old.most_bytes) }
        ensures refused { OnErr result (self.new ≡ self.old) }
        ensures many { IfErr result (λ fault.
            (fault ≡ TooMuch) ↔ (self.old.most_bytes < self.old.taken + length bytes.now)) }
    {
        if let Some(stripping) = &mut self.stripping {
            return self.bound.take(&mut stripping.held, bytes);
        }
        match &mut self.work {
            Work::Frames(frames) => self.bound.take(&mut frames.given, bytes),
            Work::Places(places) => self.bound.take(&mut places.given, bytes),
        }
    }

    /// Tells it that the text ends with the bytes that were given.
    pub fn end(&mut self)
        ensures { self.new ≡ text_ended self.old }
    {
        self.is_ended = true;
    }

    /// Whether it was told so.
    pub fn is_ended(&self) -> bool
        ensures { result ≡ self.now.is_ended }
    {
        self.is_ended
    }

    /// Goes on: what can be decided of the bytes that were given is done, or all that stands before a frame or a place of
    /// whose URL it is not known what map it has, or before what would make more be written than may be. Where memory runs
    /// out, it stands before a line, bytes or a place that are not done. The places of a line, or of a chunk of a long one,
    /// are those over the URLs that are known when it is begun.
    pub fn run<U: KnownUrls, K: KnownMaps>(
        &mut self,
        alloc: Global,
        urls: &U,
        maps: &mut K,
    ) -> Result<Stop, AllocError>
        ensures goes { HasRun (U.known urls.now)
            (with_declared (K.known maps.old) (K.declared maps.old)) self.old self.new }
        ensures stops { IfOk result (HasStopped
            (with_declared (K.known maps.old) (K.declared maps.old)) self.new) }
        ensures few { length (output_of self.new.work) ≤ self.new.limit }
        ensures known { K.known maps.new ≡ K.known maps.old }
        ensures still { K.still maps.new ≡ K.still maps.old }
    {
        self.pass_told()?;
        self.close();
        self.work.run(alloc, urls, maps, self.limit)
    }

    /// Goes on over the URLs and the maps of a table, and behind them the maps that are kept.
    pub fn run_over(
        &mut self,
        alloc: Global,
        table: &UrlTable,
        kept: &mut KeptMaps,
    ) -> Result<Stop, AllocError>
        ensures goes { HasRun (table_urls self.old.asks (maps_of table.now))
            (known_over self.old.asks table.now kept.old) self.old self.new }
        ensures stops { IfOk result
            (HasStopped (known_over self.old.asks table.now kept.old) self.new) }
        ensures few { length (output_of self.new.work) ≤ self.new.limit }
        ensures still { holding_of kept.new.kept ≡ holding_of kept.old.kept }
        ensures now { kept.new.now ≡ kept.old.now }
    {
        let urls = TableUrls::new(alloc, table, self.asks)?;
        self.run_behind(alloc, &urls, table, kept)
    }

    // The same over these URLs.
    fn run_behind<U: KnownUrls>(
        &mut self,
        alloc: Global,
        urls: &U,
        table: &UrlTable,
        kept: &mut KeptMaps,
    ) -> Result<Stop, AllocError>
        ensures goes { HasRun (U.known urls.now)
            (known_over self.old.asks table.now kept.old) self.old self.new }
        ensures stops { IfOk result
            (HasStopped (known_over self.old.asks table.now kept.old) self.new) }
        ensures few { length (output_of self.new.work) ≤ self.new.limit }
        ensures still { holding_of kept.new.kept ≡ holding_of kept.old.kept }
        ensures now { kept.new.now ≡ kept.old.now }
    {
        let asks = self.asks;
        let mut maps = StoreMaps { table, kept, asks };
        self.run(alloc, urls, &mut maps)
    }

    /// Whether its places are rewritten, and not its frames.
    pub fn is_of_places(&self) -> bool
        ensures { result ≡ is_of_places self.now.work }
    {
        self.work.is_of_places()
    }

    // Hands on what was given, as far as it can be told.
    fn pass_told(&mut self) -> Result<(), AllocError>
        ensures goes { (urls : UrlsKnown) (known : NamedKnown) →
            HasRun urls known self.old self.new }
        ensures few { length (output_of self.new.work) ≤ self.new.limit }
        ensures told { OnOk result (IsTold self.new) }
    {
        match &mut self.stripping {
            Some(stripping) => self.work.take_from(stripping, self.is_ended),
            None => Ok(()),
        }
    }

    // Hands on that the text has ended.
    fn close(&mut self)
        requires { IsTold self.old }
        ensures goes { (urls : UrlsKnown) (known : NamedKnown) →
            HasRun urls known self.old self.new }
        ensures over { IsHandedOn self.new }
    {
        self.work.set_end(self.is_ended);
    }

    /// The URL before which it stands, where it stopped because it was not known what map that has. Where it stands in the
    /// text with two backslashes for one, it has one.
    pub fn wanted_url(&self) -> Option<&[u8]>
        ensures { option_map (λ url. url.now) result ≡ wanted_url self.now.work }
    {
        self.work.wanted_url()
    }

    /// What was written and not yet let go of.
    pub fn output(&self) -> &[u8]
        ensures { result.now ≡ output_of self.now.work }
    {
        self.work.output()
    }

    /// Lets go of what was written. So many bytes less may still be.
    pub fn clear_output(&mut self)
        ensures { self.new ≡ output_cleared self.old }
    {
        self.limit -= self.work.output().len() as u64;
        self.work.clear_output();
    }

    /// Lets so many bytes be written from now on, behind what was written and not yet let go of.
    pub fn allow(&mut self, most_output: u64)
        ensures { self.new ≡ with_allowance most_output self.old }
    {
        self.limit = most_output.saturating_add(self.work.output().len() as u64);
    }

    /// How many whole lines were written, those that were let go of, too.
    pub fn whole_lines(&self) -> u64
        ensures { result ≡ whole_lines_of self.now.work }
    {
        self.work.whole_lines()
    }

    /// What was counted of what is done: with places these as frames, and a line once the first chunk of it is done.
    pub fn summary(&self) -> Summary
        ensures { counts_seen result ≡ counts_of self.now.work }
    {
        self.work.summary()
    }
}

// Nothing was counted.
fn nothing_counted() -> Summary
    ensures { counts_seen result ≡ record { lines = 0; frames = 0; mapped = 0; hidden = 0 } }
{
    Summary {
        lines: 0,
        frames: 0,
        mapped: 0,
        hidden: 0,
    }
}

// What leaves control sequences out of a text, where that is asked for.
fn stripping_at_first(alloc: Global, is_stripped: bool) -> Option<Stripping>
    ensures { result ≡ stripping_at_first is_stripped }
{
    if is_stripped {
        Some(Stripping::new(alloc))
    } else {
        None
    }
}
