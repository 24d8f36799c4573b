//! The texts of the help: of each command what it does and, after its arguments, how it answers; of each argument what it
//! is.

pub const STATUSES: &str = "\
Columns are UTF-16 code units. LINE and COLUMN count from 1, as V8 prints them in a stack trace.

Status: 0 answered, 1 a map, a text or a trace is refused, 2 wrong arguments, 3 an I/O error or out of memory.

Example: smap lookup examples/preset-react.js.map 65 80";

pub const LOOKUP_ABOUT: &str = "Looks a generated position up in a source map file";

pub const LOOKUP_NOTES: &str = "\
Answers:
  SOURCE:LINE:COLUMN  the original position, from 1; behind it ` name NAME` where the mapping names the
                      identifier there, and ` ignored` where the map says to pass over the source
  unmapped            the mapping is of generated code without an original
  none                no mapping stands at the position or before it on its line

The last mapping at the position or before it answers or, with --after, the first at it or after it.
With --explain the answer is followed by which mappings stand nearest before and after the position, and a refusal by
why the map is refused.

LINE and COLUMN may be one word, LINE:COLUMN, also behind a URL as a frame has it: `app.js:65:80`.

With --generated the arguments are MAP SOURCE LINE [COLUMN], and the answers places of the generated file that come
from there: `smap lookup --generated --help` says more.

Where the map holds the text of the source, its line follows, and a caret under the position.

With --json the answer is one JSON object, on one line.

Columns are UTF-16 code units. LINE and COLUMN count from 1, as V8 prints them in a stack trace.

Example: smap lookup examples/preset-react.js.map 65 80";

pub const GENERATED_ABOUT: &str = "Looks a place in a source up in a source map file";

pub const GENERATED_NOTES: &str = "\
Answers:
  LINE:COLUMN of SOURCE:LINE:COLUMN  a place of the generated file, from 1, and the original place of the mapping
                                     there; behind it ` name NAME` where the mapping names the identifier, and
                                     ` ignored` where the map says to pass over the source
  none                               no mapping leads there

SOURCE is the name of a source, as `smap sources` prints it, or its number there in brackets, such as `[0]`. Each
mapping into its LINE answers, in the order of the generated file. With COLUMN only those into the greatest column
that is not after it or, with --after, into the least that is not before it.

LINE and COLUMN may be one word, LINE:COLUMN.

With --explain a source that the map does not have is followed by those whose names end alike, and a refusal of the
map by why it is refused.

Example: smap lookup --generated examples/preset-react.js.map preset-react.js 40";

pub const POSITIONS_ABOUT: &str = "Answers the positions on standard input from a source map file";

pub const POSITIONS_NOTES: &str = "\
Each line of standard input is a position: LINE and COLUMN of the generated file, from 1, without signs or
leading zeros, and between them blanks or one `:` alone.

Answer: for each line one line, in their order, while they come: the first that `smap lookup` prints for it,
or `bad position`. With --json each is a JSON object.

The last mapping at a position or before it answers or, with --after, the first at it or after it.

Status 1 where a line was no position; standard error then names the first.

Example: printf '65:80\\n66 1\\n' | smap positions examples/preset-react.js.map";

pub const MAPPINGS_ABOUT: &str = "Prints the mappings of a source map file, one a line";

pub const MAPPINGS_NOTES: &str = "\
Answer: for each mapping one line, in their order: LINE:COLUMN of the generated file, from 1, and behind it the
original position, as `smap lookup` prints it, or `unmapped`. With LINE only the mappings on that line; nothing
where it has none. With --json each is a JSON object.

The lines are written while the map is gone through. Where a command behind a pipe ends before, such as `head`, so
does this one, with `device: X2 Write` and status 3.

Example: smap mappings examples/preset-react.js.map 65";

pub const SOURCES_ABOUT: &str =
    "Prints the sources of a source map file, and how much of the generated file each makes";

pub const SOURCES_NOTES: &str = "\
Answer: for each source one line: INDEX SEGMENTS SOURCE or, with GENERATED, INDEX SEGMENTS BYTES SOURCE. INDEX is
its number in the map, from 0; SEGMENTS says how many mappings lead to it, and BYTES how much of the generated
file it makes. Behind it stand ` ignored` where the map says to pass over the source, and ` no content` where it
does not hold its text. With GENERATED `unmapped BYTES` and `total BYTES` follow at the end, and with --fit
`misfits N`, the number of mappings that `smap fit` counts. With --json each line is a JSON object.

A mapping owns the text up to the next one on its line. Line ends are unmapped, and so is what no source owns.

With --content the answer is the text of one source; status 1 where the map does not hold it.

Examples:
  smap sources examples/receipt.min.js.map examples/receipt.min.js
  smap sources --content 0 examples/receipt.min.js.map";

pub const REWRITE_ABOUT: &str = "Rewrites the stack trace on standard input over source map files";

pub const REWRITE_NOTES: &str = "\
Each URL=FILE is the URL of a generated file, as frames of the trace name it, and the path of that file's
map; the last `=` of the argument stands between them. Sources are resolved against the URL of --base or, where
there is none, against the map's own.

What ends in `/` behind the `=` is a folder: PREFIX=FOLDER/, where PREFIX ends in `/`, too. The map of a URL that
begins with PREFIX is the file FOLDER/REST.map, REST being what the URL has behind PREFIX, without its query and
fragment. Each line of the file of --maps is a URL and a file, or a prefix and a folder, with one TAB between
them; empty lines and those that begin with `#` are passed over. Maps of folders, patterns and lists are read when
the text first names them. One that cannot be read is reported on standard error, and the rest goes on.

What begins with `*` is for more than one host or folder: *END=FILE gives the map of each URL that ends in END, from
a `/` on, and *=FILE that of every URL; *MIDDLE=FOLDER/, where MIDDLE ends in `/` or `\\`, the folder of those that
have MIDDLE in them. A URL or a prefix that fits comes first, and then the longest of these.

With --paths a source with a relative name goes on from the folder of the map's URL, where that is a path, as node
prints paths: not with --base.

Answer: the trace, line by line. In a frame of V8, Firefox or Safari whose URL has a map, the place becomes
the original one; the rest of the line stays, and so does each other line, byte for byte. With --hide-ignored
the lines of frames from sources that a map says to pass over are left out, and with --hide those from sources
whose printed names have TEXT in them. With --anywhere each place URL:LINE:COLUMN whose URL
has a map becomes the original one, wherever it stands in a line; with --names too, functions
of frames that are a line, or one of a string of JSON, are named.

With --explain standard error says at the end of each URL that the text names which map it has, or why it has none.

Examples:
  smap rewrite https://example.test/receipt.min.js=examples/receipt.min.js.map < examples/receipt.trace
  smap rewrite https://example.test/=examples/ < examples/receipt.trace";

pub const LOCATE_ABOUT: &str =
    "Answers places in many generated files, on standard input, over source map files";

pub const LOCATE_NOTES: &str = "\
Each line of standard input is a place, URL:LINE:COLUMN: the last two numbers are LINE and COLUMN, from 1, without
signs or leading zeros, and what stands before them is the URL of a generated file.

The arguments name maps as those of `smap rewrite` do: URL=FILE, PREFIX=FOLDER/, or one that begins with `*`. Those
of folders and of --maps are read when a line first names them, and one that cannot be read is reported on standard
error too.

Answer: for each line one line, in their order, while they come:
  what `smap lookup` prints first for the position in the map of the URL, and else
  no map         no argument names a map for the URL
  no file        the file of its map cannot be read
  refused CODE   its map is refused, as `smap explain CODE` says
  no memory      memory ran out
  bad place      the line is no place
With --json each is a JSON object. With --context one that has an original has the line of its source, and those
around it, where the map has the source's text.

The last mapping at a position or before it answers or, with --after, the first at it or after it.

With --names a line may go on with a TAB and a function, as frames have it: its answer then ends with a TAB and the
function, in JSON it has `function`, with the name that was written where that is known.

Example: printf 'https://a.test/preset-react.js:65:80\\n' | smap locate https://a.test/=examples/";

pub const CHECK_ABOUT: &str = "Checks source map files and prints their counts";

pub const CHECK_NOTES: &str = "\
Answer: how many sections, sources, names and segments the map has, how many generated lines hold a segment,
and how many checkpoints its index has.

With several PATHs each has a line, in their order: `PATH: ok ..` on standard output, or
`refused: PATH: ..` or `device: read PATH` on standard error. A file is let go before the next is read, and
one that is refused or can't be read stops no other. The status is the greatest of all.

With --json each map is one JSON object, on one line of standard output, with its path: also one that is
refused. A file that can't be read has none, but its line on standard error.

With --explain indented lines after a refusal say which value is wrong, where it stands and what may stand
there, and after a file that can't be read why not.

Examples:
  smap check examples/preset-react.js.map
  smap check --explain examples/preset-react.js.map
  find . -name '*.map' -print0 | xargs -0r smap check --json";

pub const SHOW_ABOUT: &str = "Writes a source map file as one regular map";

pub const SHOW_NOTES: &str = "\
Answer: the map as one regular map, in compact JSON on one line. An index map is joined, each source stands
under its resolved name, and `mappings` in its shortest spelling. Keys that smap does not read are dropped,
and so is `sourceRoot`, which the names then have.

With --prune sources and names that no mapping has are left out. Of sources with one name, content and mark, and
of equal names, the first stands for all. Mappings keep their places.

Examples:
  smap show examples/bundle.js.map > joined.js.map
  smap show --prune --no-content examples/bundle.js.map > small.js.map";

pub const COMPOSE_ABOUT: &str = "Composes source map files into one regular map";

pub const COMPOSE_NOTES: &str = "\
OUTER is the map of a file that was made of others, and INNER the map of one of these: of the source of
OUTER with the number SOURCE, from 0.

In place of SOURCE and INNER, the maps of several sources of OUTER are given by --inner and --inners, and composed
at once. Each NAME=FILE is the name of a source, as `smap show` writes it, and the path of its map; the last `=`
of the argument stands between them. Each line of the file of --inners is a name and a file, with one TAB between
them.

Answer: one regular map, in compact JSON on one line. Its sources are those of OUTER and then those of INNER.
A mapping into source SOURCE leads to the place to which INNER maps that one, or nowhere, where INNER maps it
to no place; the other mappings stay. So it is for each source that has a map; the sources of these maps come in
the order of OUTER's sources.

With --prune sources and names that no mapping has are left out. Of sources with one name, content and mark, and
of equal names, the first stands for all. Mappings keep their places.

Examples:
  smap compose examples/preset-react.min.js.map 0 examples/preset-react.js.map > whole.js.map
  smap compose --inner preset-react.js=examples/preset-react.js.map examples/preset-react.min.js.map > all.map";

pub const FIT_ABOUT: &str =
    "Says of source map files whether they can be those of their generated files";

pub const FIT_NOTES: &str = "\
Answer: for each pair one line, in their order: `MAP: fits, M mappings, K same of N`, or `MAP: does not fit
GENERATED: P past the text, W inside a word, of M mappings`. A map that does not fit is that of another file, or the
file was changed after it was made. Of N mappings into sources with content, K lead to the same word or character as
they stand at. With --json each line is a JSON object.

With --explain lines after a map that does not fit say where the first mapping of each kind stands, and with which
shift of all mappings, by some lines or columns, fewest would not fit.

A mapping that only goes on from the one before it, as far in its source as in the line, is not counted.

A pair is let go before the next is read, and one whose map is refused or can't be read stops no other. The status is
the greatest of all: 1 where a map does not fit.

Example: smap fit examples/receipt.min.js.map examples/receipt.min.js";

pub const EXPLAIN_ABOUT: &str = "Says what a code of a refusal means, and what to do about it";

pub const EXPLAIN_NOTES: &str = "\
CODE is a code, such as `M14`, the name behind it, such as `Text`, or a word that is printed without a code, such as
`memory`; in capital or small letters.

Answer: what the code means, what usually causes it, and what to do. Without CODE all codes and names, one a line.

Status 1 where there is no such code; standard error then has all that there are.

Example: smap explain M14";

pub const RAW_ABOUT: &str =
    "Looks a generated position up in the bare mappings text on standard input";

pub const RAW_NOTES: &str = "\
Answers:
  source S line L column C  the original position, L and C from 1; S is a place in `sources`, from 0; behind
                            it ` name N` where the mapping has a name, N being a place in `names`, from 0
  unmapped                  the mapping is of generated code without an original
  none                      no mapping stands at the position or before it on its line

Columns are UTF-16 code units. LINE and COLUMN count from 1, as V8 prints them in a stack trace.

Example: printf 'AAAA,CAAC;AACA' | smap raw 1 6";

pub const PATH_HELP: &str = "Path of the source map file";

pub const PATHS_HELP: &str = "Path of a source map file";

pub const LINE_HELP: &str = "Line of the generated file, from 1";

pub const ONE_LINE_HELP: &str = "Line of the generated file, from 1; without it all lines";

pub const GENERATED_HELP: &str =
    "Path of the generated file, to count how many of its bytes each source makes";

pub const FIT_HELP: &str = "Path of a source map file, and of its generated file";

pub const ORDER_HELP: &str = "Print those that make most first: `bytes`";

pub const MISFIT_COUNT_HELP: &str =
    "Say at the end how many mappings do not fit the generated file";

pub const CONTENT_HELP: &str = "Write the content of this source, from 0, and nothing else";

pub const SOURCE_NAME_HELP: &str =
    "Name of a source of the map, or its number, from 0, in brackets";

pub const SOURCE_LINE_HELP: &str = "Line of the source, from 1";

pub const SOURCE_COLUMN_HELP: &str =
    "Column of the source, from 1, in UTF-16 code units; without it the whole line";

pub const TO_GENERATED_HELP: &str =
    "Answer with the generated places of MAP SOURCE LINE [COLUMN], a place in a source";

pub const COLUMN_HELP: &str = "Column of the generated file, from 1, in UTF-16 code units";

pub const PAIRS_HELP: &str =
    "URL of a generated file, `=` and the path of its source map file; or PREFIX=FOLDER/";

pub const LIST_HELP: &str = "Path of a list of more maps: on each line URL, TAB and FILE";

pub const CODE_HELP: &str = "Code of a refusal, such as M14, or its name";

pub const OUTER_HELP: &str = "Path of the source map file of the last step";

pub const SOURCE_HELP: &str = "Number of the source of OUTER that INNER is the map of, from 0";

pub const INNER_HELP: &str = "Path of the source map file of the step before";

pub const INNER_PAIRS_HELP: &str =
    "Name of a source of OUTER, `=` and the path of its map; may be given more than once";

pub const INNER_LIST_HELP: &str = "Path of a list of more: on each line NAME, TAB and FILE";

pub const PRUNE_HELP: &str =
    "Leave out sources and names that no mapping has, and all but the first of equal ones";

pub const NO_CONTENT_HELP: &str = "Leave out the texts of the sources (`sourcesContent`)";

pub const DEBUG_ID_HELP: &str = "Write the debug id of the map, or of OUTER, too (`debugId`)";

pub const INTERVAL_HELP: &str = "\
Checkpoints in the index stand at every K-th segment of a line, 1 to 4096, else 64. A
smaller K answers look-ups faster and takes more memory; their answers are the same";

pub const AFTER_HELP: &str =
    "Answer by the first mapping on the line at the position or after it, not the last before";

pub const CONTEXT_HELP: &str =
    "With --json, show up to N lines of the source on each side of the original line, 0 to 100";

pub const JSON_HELP: &str = "Answer in JSON: one compact object a line";

pub const WHY_HELP: &str = "Say after a refusal why the map is refused";

pub const MISFITS_HELP: &str = "Say of a map that does not fit where, and what it would fit";

pub const NEAREST_HELP: &str = "Say which mappings stand nearest to the position (not with --json)";

pub const HIDE_HELP: &str =
    "Leave out the frames from sources that a map says to pass over (its `ignoreList`)";

pub const TEXT_HELP: &str =
    "Leave out the frames from sources with this text in their names; up to 16 times";

pub const ANYWHERE_HELP: &str =
    "Rewrite every URL:LINE:COLUMN anywhere in a line, not frames alone";

pub const PATHS_OF_SOURCES_HELP: &str =
    "Name sources by paths, from the folder of the map's URL on, where that is a path";

pub const NAMES_HELP: &str = "\
Name functions as they were written, where the generated file beside a map, FILE without its
last `.map`, says it";

pub const LOCATED_NAMES_HELP: &str = "\
Answer the function behind a TAB as it was written, where the generated file beside a map,
FILE without its last `.map`, says it";

pub const MISFITS_REFUSED_HELP: &str =
    "Refuse a map that does not fit the generated file beside it, FILE without its last `.map`";

pub const REQUIRED_HELP: &str = "\
Report it, with status 1, where the text has frames and none gets its place or, written
--require-mapped=PERCENT, fewer than so many of a hundred, 1 to 100";

pub const MISSING_HELP: &str = "Report a map that is not there, and change no status: `ok`";

pub const URLS_HELP: &str = "Say at the end which map each URL of the text has, or why it has none";

pub const SOURCE_AFTER_HELP: &str =
    "Answer by the first column on the line at COLUMN or after it, not the last before";

pub const ALIKE_HELP: &str = "Say which sources end alike where there is no such one";

pub const CACHE_HELP: &str = "\
Keep maps of folders, patterns and lists up to this many bytes of their files, else
1073741824; the output is the same";

pub const LIMIT_HELP: &str =
    "Refuse a text of more bytes than this, 1 to 9223372036854775807, else 1073741824";

pub const STRIP_HELP: &str =
    "Leave colours and other control sequences of a terminal out of the text";

pub const SUMMARY_HELP: &str = "Print counts on standard error at the end";
