//! Which names generated texts declare, and which names their maps give to functions of frames.
use crate::same::assert_holds;
use smap_declarations::{
    DeclarationPlace, Declarations, DeclarationsRefusal, MOST_GENERATED_BYTES, function_name,
};
use smap_record::{MapFile, Meter};
use std::test::Fail;

// A generated text with its map, and functions at places with the names that they have.
struct Row {
    text: &'static str,
    map: &'static str,
    names: &'static [(&'static str, u32, u32, Option<&'static str>)],
}

const ROWS: &[Row] = &[
    // The last declaration at the place or before it decides.
    Row {
        text: "function a(){}a=()=>1",
        map: r#"{"version":3,"sources":["s.ts"],"names":["one","two"],"mappings":"SAAAA,KAAAC"}"#,
        names: &[
            ("a", 0, 8, None),
            ("a", 0, 9, Some("one")),
            ("a", 0, 13, Some("one")),
            ("a", 0, 14, Some("two")),
            ("a", 0, 20, Some("two")),
            ("a", 9, 0, None),
        ],
    },
    // Where its body has ended, nothing does.
    Row {
        text: "function a(){function a(){}b()}c()",
        map: r#"{"version":3,"sources":["s.ts"],"names":["one","two"],"mappings":"SAAAA,aAAAC"}"#,
        names: &[
            ("a", 0, 13, Some("one")),
            ("a", 0, 22, Some("two")),
            ("a", 0, 26, Some("two")),
            ("a", 0, 27, None),
            ("a", 0, 31, None),
        ],
    },
    // Blocks within it do not end it.
    Row {
        text: "function a(){if(b){c({d:{}})}\ne()}f()",
        map: r#"{"version":3,"sources":["s.ts"],"names":["one"],"mappings":"SAAAA"}"#,
        names: &[
            ("a", 0, 28, Some("one")),
            ("a", 1, 3, Some("one")),
            ("a", 1, 4, None),
        ],
    },
    // Braces are counted as bytes, wherever they stand.
    Row {
        text: "function a(){b(\"}\");c()}",
        map: r#"{"version":3,"sources":["s.ts"],"names":["one"],"mappings":"SAAAA"}"#,
        names: &[("a", 0, 16, Some("one")), ("a", 0, 17, None)],
    },
    Row {
        text: "function a(){b(\"{\")}c()",
        map: r#"{"version":3,"sources":["s.ts"],"names":["one"],"mappings":"SAAAA"}"#,
        names: &[("a", 0, 23, Some("one"))],
    },
    // Without a block it ends at the next one's end, or at that of the block around it.
    Row {
        text: "{a=()=>b()}c();d=()=>1;if(e){f()}g()",
        map: r#"{"version":3,"sources":["s.ts"],"names":["one","two"],"mappings":"CAAAA,cAAAC"}"#,
        names: &[
            ("a", 0, 10, Some("one")),
            ("a", 0, 11, None),
            ("d", 0, 32, Some("two")),
            ("d", 0, 33, None),
        ],
    },
    // A property decides too.
    Row {
        text: "function a(){}x={a(){}}",
        map: r#"{"version":3,"sources":["s.ts"],"names":["one","two"],"mappings":"SAAAA,QAAAC"}"#,
        names: &[("a", 0, 13, Some("one")), ("a", 0, 17, None)],
    },
    // A mapping beside the place gives nothing.
    Row {
        text: "function a(){}",
        map: r#"{"version":3,"sources":["s.ts"],"names":["one","two"],"mappings":"QAAAA,EAAAC"}"#,
        names: &[("a", 0, 12, None)],
    },
    // A mapping without a name gives the name itself.
    Row {
        text: "class A{}",
        map: r#"{"version":3,"sources":["s.ts"],"names":[],"mappings":"MAAA"}"#,
        names: &[("A", 0, 8, Some("A"))],
    },
    // One without an origin gives nothing.
    Row {
        text: "class A{}",
        map: r#"{"version":3,"sources":["s.ts"],"names":[],"mappings":"M"}"#,
        names: &[("A", 0, 8, None)],
    },
    // Of two mappings at a place the last gives.
    Row {
        text: "class A{}",
        map: r#"{"version":3,"sources":["s.ts"],"names":["one","two"],"mappings":"MAAAA,AAAAC"}"#,
        names: &[("A", 0, 8, Some("two"))],
    },
    // == and => declare nothing.
    Row {
        text: "a==function(){};b=>c",
        map: r#"{"version":3,"sources":["s.ts"],"names":["one"],"mappings":"AAAAA,gBAAAA"}"#,
        names: &[("a", 0, 20, None), ("b", 0, 20, None)],
    },
    // A word inside another is none.
    Row {
        text: "ba=()=>1;a$=()=>1",
        map: r#"{"version":3,"sources":["s.ts"],"names":["one"],"mappings":"CAAAA,QAAAA"}"#,
        names: &[("a", 0, 17, None), ("a$", 0, 17, Some("one"))],
    },
    // Behind a dot stands a property.
    Row {
        text: "function a(){}x.a=function(){}",
        map: r#"{"version":3,"sources":["s.ts"],"names":["one"],"mappings":"SAAAA,OAAAA"}"#,
        names: &[("a", 0, 13, Some("one")), ("a", 0, 29, None)],
    },
    // What is no function declares nothing.
    Row {
        text: "a=functional;b=(c)+1;d=async(e);f=g",
        map: r#"{"version":3,"sources":["s.ts"],"names":["one"],"mappings":"AAAAA,aAAAA,QAAAA,WAAAA"}"#,
        names: &[
            ("a", 0, 35, None),
            ("b", 0, 35, None),
            ("d", 0, 35, None),
            ("f", 0, 35, None),
        ],
    },
    // Functions of all kinds.
    Row {
        text: "a=function*(){};b = async (x) => 1;c=async y=>2;d=class{};e=(f,(g))=>3",
        map: r#"{"version":3,"sources":["s.ts"],"names":["one","two","three","four","five"],"mappings":"AAAAA,gBAAAC,mBAAAC,aAAAC,UAAAC"}"#,
        names: &[
            ("a", 0, 14, Some("one")),
            ("b", 0, 32, Some("two")),
            ("c", 0, 46, Some("three")),
            ("d", 0, 56, Some("four")),
            ("e", 0, 70, Some("five")),
        ],
    },
    // Keywords with blanks.
    Row {
        text: "function *a(){}async function\nb(){}class  c extends d{}",
        map: r#"{"version":3,"sources":["s.ts"],"names":["one","two","three"],"mappings":"UAAAA;AAAAC,YAAAC"}"#,
        names: &[
            ("a", 0, 14, Some("one")),
            ("b", 1, 4, Some("two")),
            ("c", 1, 24, Some("three")),
            ("d", 1, 24, None),
        ],
    },
    // Keys of functions.
    Row {
        text: "function a(){}function b(){}({\"a\":function(){},'b' :c=>1})",
        map: r#"{"version":3,"sources":["s.ts"],"names":["one","two"],"mappings":"SAAAA,cAAAC"}"#,
        names: &[
            ("a", 0, 13, Some("one")),
            ("b", 0, 27, Some("two")),
            ("a", 0, 44, None),
            ("b", 0, 55, None),
        ],
    },
    // Quotation marks that differ are none.
    Row {
        text: "function a(){({\"b a':function(){}})}",
        map: r#"{"version":3,"sources":["s.ts"],"names":["one"],"mappings":"SAAAA"}"#,
        names: &[("a", 0, 35, Some("one"))],
    },
    // Statements are no methods.
    Row {
        text: "function a(){if(a){}for(;;){}a(b){}}",
        map: r#"{"version":3,"sources":["s.ts"],"names":["one"],"mappings":"SAAAA"}"#,
        names: &[
            ("a", 0, 28, Some("one")),
            ("if", 0, 28, None),
            ("a", 0, 34, None),
        ],
    },
    // A call is no method.
    Row {
        text: "function a(){a(b);a(c)}",
        map: r#"{"version":3,"sources":["s.ts"],"names":["one"],"mappings":"SAAAA"}"#,
        names: &[("a", 0, 22, Some("one"))],
    },
    // Columns are of UTF-16.
    Row {
        text: "'é😀';function a(){}",
        map: r#"{"version":3,"sources":["s.ts"],"names":["one"],"mappings":"eAAAA"}"#,
        names: &[("a", 0, 17, Some("one")), ("a", 0, 14, None)],
    },
    // Lines end as those of ECMAScript.
    Row {
        text: "x\r\ny\rz\nw /*\u{2028}*/;function a(){}",
        map: r#"{"version":3,"sources":["s.ts"],"names":["one"],"mappings":";;;;YAAAA"}"#,
        names: &[("a", 4, 12, Some("one")), ("a", 4, 11, None)],
    },
    // A byte order mark is passed over.
    Row {
        text: "\u{FEFF}function a(){}",
        map: r#"{"version":3,"sources":["s.ts"],"names":["one"],"mappings":"SAAAA"}"#,
        names: &[("a", 0, 9, Some("one"))],
    },
    // Names are of any script.
    Row {
        text: "function é(){}",
        map: r#"{"version":3,"sources":["s.ts"],"names":["größe"],"mappings":"SAAAA"}"#,
        names: &[("é", 0, 9, Some("größe"))],
    },
    // A name that can't be printed gives none.
    Row {
        text: "function a(){}function b(){}",
        map: r#"{"version":3,"sources":["s.ts"],"names":["\",\"admin\":true,\"",""],"mappings":"SAAAA,cAAAC"}"#,
        names: &[("a", 0, 13, None), ("b", 0, 27, None)],
    },
    // Brackets are counted as bytes.
    Row {
        text: "a=(b=\")\")=>1;c=(d=(\"(\"),e)=>2",
        map: r#"{"version":3,"sources":["s.ts"],"names":["one","two"],"mappings":"AAAAA,aAAAC"}"#,
        names: &[("a", 0, 30, None), ("c", 0, 30, None)],
    },
    // Texts that end in the middle.
    Row {
        text: "a=(b",
        map: r#"{"version":3,"sources":["s.ts"],"names":["one"],"mappings":"AAAAA"}"#,
        names: &[("a", 0, 4, None)],
    },
    // A text that ends in function.
    Row {
        text: "x=1;function",
        map: r#"{"version":3,"sources":["s.ts"],"names":["one"],"mappings":"AAAAA"}"#,
        names: &[("x", 0, 4, None), ("function", 0, 12, None)],
    },
    // An empty text.
    Row {
        text: "",
        map: r#"{"version":3,"sources":["s.ts"],"names":[],"mappings":""}"#,
        names: &[("a", 0, 0, None)],
    },
];

fn bytes_of<'a>(text: &Option<&'a str>) -> Option<&'a [u8]> {
    match text {
        Some(text) => Some(text.as_bytes()),
        None => None,
    }
}

#[test]
fn maps_name_functions_at_places(rt: HostRuntime) -> Result<(), Fail> {
    for row in ROWS {
        let map = MapFile::read(rt.alloc(), row.map.as_bytes(), None, 64)?;
        let declarations = Declarations::of_text(rt.alloc(), row.text, &map)?;
        for (function, line, column, wanted) in row.names {
            let place = DeclarationPlace {
                line: *line,
                column: *column,
            };
            let mut meter = Meter::new(rt.alloc());
            let name = declarations.name_of(&map, function.as_bytes(), place, &mut meter);
            assert_holds(&rt, function, name == bytes_of(wanted));
        }
    }
    Ok(())
}

// Functions of frames, and the one name that each is.
const FUNCTIONS: &[(&str, Option<&str>)] = &[
    ("a", Some("a")),
    ("$_9", Some("$_9")),
    ("größe", Some("größe")),
    ("async a", Some("a")),
    ("new A", Some("A")),
    ("async new a", Some("a")),
    ("async", Some("async")),
    ("new", Some("new")),
    ("new async a", None),
    ("async  a", None),
    ("async ", None),
    ("", None),
    (" a", None),
    ("a.b", None),
    ("Object.<anonymous>", None),
    ("<anonymous>", None),
    ("a [as b]", None),
    ("a/<", None),
    ("a/b", None),
    ("async*a", None),
    ("#a", None),
];

#[test]
fn a_function_of_a_frame_is_one_name(rt: HostRuntime) -> Result<(), Fail> {
    for (function, wanted) in FUNCTIONS {
        let name = function_name(function.as_bytes());
        assert_holds(&rt, function, name == bytes_of(wanted));
    }
    Ok(())
}

#[test]
fn a_text_has_at_most_so_many_bytes(rt: HostRuntime) -> Result<(), Fail> {
    let map = MapFile::read(
        rt.alloc(),
        br#"{"version":3,"sources":[],"mappings":""}"#,
        None,
        64,
    )?;
    let mut text = String::new(rt.alloc());
    for _ in 0..MOST_GENERATED_BYTES / 5 + 1 {
        text.push_str("a(){}")?;
    }
    let listed = Declarations::of_text(rt.alloc(), text.as_str(), &map);
    let is_refused = matches!(listed, Err(DeclarationsRefusal::TooLarge));
    assert_holds(&rt, "a large text is refused", is_refused);
    Ok(())
}
