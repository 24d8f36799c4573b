//! Laws over the definitions, for all texts: a call does nothing, and its contract is the law.
ghost use Rattle.std.specs.Prelude.{◌≡◌, [], ℕ, List, true};
ghost use Rattle.smap_anywhere.specs.AnywhereBy.{RewritesAnywhereUnder};
ghost use Rattle.smap_anywhere.specs.NamedParts.{by_names, named_parts_in};
ghost use Rattle.smap_io.specs.Device.{Takes};
ghost use Rattle.smap_lines.specs.Editing.{DevicesSeen};
ghost use Rattle.smap_pairs.specs.Known.{UrlsKnown};
ghost use Rattle.smap_trace.specs.Hiding.{HidingSeen};
ghost use Rattle.smap_trace.specs.MapsOf.{MapsByUrl, NamedByUrl};
ghost use Rattle.smap_trace.specs.Rewriting.{counts_seen};
ghost use Rattle.smap_trace.specs.declared.outcome.Summary.{Summary};
ghost use Rattle.smap_piecewise.specs.Frames.{frames_start, of_text};
ghost use Rattle.smap_piecewise.specs.Known.{NamedKnown, found_under};
ghost use Rattle.smap_piecewise.specs.Places.{counts_in, nothing_given, of_places};
ghost use Rattle.smap_piecewise.specs.Rewriting.{HasStopped, RewritingNow, begun_with, outcome_of, text_read};
ghost use Rattle.smap_piecewise.specs.Work.{OfFrames, OfPlaces, work_done};
ghost use Rattle.smap_piecewise.specs.declared.rewriting.TextOptions.{TextOptions};
ghost use Rattle.smap_piecewise.specs.declared.stop.Stop.TheVariants.{Done};

/// A rewriting comes to what its whole text becomes and counts over URLs, maps and names of functions, whatever was given or
/// known of the maps when it went on: it does so at first, and all of it is written and counted once it stops, done, and the
/// text has ended. The text is what is read of it, without control sequences where that is asked for.
pub fn rewriting_comes_to_the_whole()
    ensures frames { (urls : UrlsKnown) (maps : NamedByUrl) (hide : HidingSeen)
        (options : TextOptions) (text : List ℕ) →
        outcome_of urls maps (begun_with (OfFrames (frames_start hide)) options) text
        ≡ of_text maps hide (text_read options.strip text) }
    ensures places { (urls : UrlsKnown) (maps : NamedByUrl)
        (options : TextOptions) (text : List ℕ) →
        outcome_of urls maps (begun_with (OfPlaces nothing_given) options) text
        ≡ of_places urls maps (text_read options.strip text) }
    ensures last { (urls : UrlsKnown) (maps : NamedByUrl) (known : NamedKnown)
        (now : RewritingNow) → HasStopped known now Done → now.is_ended ≡ true →
        outcome_of urls maps now [] ≡ work_done now.work }
{}

/// What the places of a text become and count is what `rewrite_anywhere` writes and counts over the same URLs, maps and
/// names of functions.
pub fn rewriting_places_comes_to_the_whole()
    ensures { (urls : UrlsKnown) (maps : NamedByUrl) (most_bytes : ℕ)
        (before after : DevicesSeen) (summary : Summary) →
        (all : RewritesAnywhereUnder by_names (found_under maps) (named_parts_in urls) most_bytes
        before after summary) →
        Takes before.output.taken after.output.taken (of_places urls maps all.bytes).text
        × (counts_seen summary ≡ counts_in (of_places urls maps all.bytes)) }
{}
