//! Laws over the definitions, for all frames: a call does nothing, and its contract is the law.
ghost use Rattle.std.specs.Prelude.{◌≡◌, ◌++◌, ℕ, IfSome, List, None, Option, Some, true};
ghost use Rattle.smap_declarations.specs.Declarations.{Named};
ghost use Rattle.smap_declarations.specs.Frames.{is_name};
ghost use Rattle.smap_lines.specs.Lines.{Line};
ghost use Rattle.smap_record.specs.Record.{MapRecord};
ghost use Rattle.smap_trace.specs.Frame.{FrameParts};
ghost use Rattle.smap_trace.specs.FunctionNames.{FunctionNames, HeadCut, IsRenamed, IsSamePlace, head_cut, named, names_of};
ghost use Rattle.smap_trace.specs.Hiding.{HidingSeen};
ghost use Rattle.smap_trace.specs.Rewritten.{SourceLocation, fate_at, is_hidden, is_mapped, line_after};

/// Where functions get their written names, nothing else changes: what a line becomes with them and without differs in one
/// name of a function at most; a name comes in, and nothing that is none; the place and what is counted stay; and where
/// nothing is known of a program's functions, all is as without names.
pub fn names_change_names_alone()
    ensures lines { (names : Option FunctionNames) (parts : FrameParts) (line : Line)
        (hide : HidingSeen) (original : Option SourceLocation) →
        IsRenamed (line_after line (fate_at hide parts original))
        (line_after line (fate_at hide (named names parts) original)) }
    ensures heads { (head : List ℕ) (cut : HeadCut) → head_cut head ≡ Some cut →
        (head ≡ cut.before ++ cut.name ++ cut.behind) × (is_name cut.name ≡ true) }
    ensures written { (stated : MapRecord) (kept : List Named) (function : List ℕ)
        (line column : ℕ) → IfSome (names_of stated kept function line column)
        (λ name. is_name name ≡ true) }
    ensures places { (names : Option FunctionNames) (parts : FrameParts) →
        IsSamePlace parts (named names parts) }
    ensures counted { (names : Option FunctionNames) (parts : FrameParts) (hide : HidingSeen)
        (original : Option SourceLocation) →
        (is_mapped (fate_at hide (named names parts) original)
        ≡ is_mapped (fate_at hide parts original))
        × (is_hidden (fate_at hide (named names parts) original)
        ≡ is_hidden (fate_at hide parts original)) }
    ensures none { (parts : FrameParts) → named None parts ≡ parts }
{}
