//! The name of a frame's function, and what stands around it.
ghost use Rattle.std.specs.Prelude.{◌≡◌, option_map};
ghost use Rattle.smap_trace.specs.FunctionNames.{call_name, cut_before, head_cut, name_alone, sign_name};
ghost use Rattle.smap_trace.specs.HeadSeen.{cut_seen};

use smap_declarations::{function_name, is_name};
use smap_lines::blanks;

/// The name of a frame's function, what stands before it, and what stands between it and the frame's URL.
#[derive(Clone, Copy)]
pub struct HeadCut<'a> {
    pub before: &'a [u8],
    pub name: &'a [u8],
    pub behind: &'a [u8],
}

/// The name of the function of a frame, of which this stands before the URL: as V8 prints it, behind `at ` and before ` (`,
/// perhaps behind `async ` and `new `; or as Firefox and Safari do, before `@`. `None` where it is no name, or not one
/// alone, as `TYPE.method`, `<anonymous>`, `f/<` or what has `[as x]`. The call takes no memory.
#[tactic(auto, unfolding(crate::specs::FunctionNames::head_cut))]
pub fn head_cut(head: &[u8]) -> Option<HeadCut<'_>>
    ensures { option_map cut_seen result ≡ head_cut head.now }
{
    if head.ends_with(b" (") {
        cut_before(head, b" (".len(), call_name(head))
    } else if head.ends_with(b"@") {
        cut_before(head, b"@".len(), sign_name(head))
    } else {
        None
    }
}

// The name of a function as V8 prints it.
fn call_name(head: &[u8]) -> Option<&[u8]>
    ensures { option_map (λ name. name.now) result ≡ call_name head.now }
{
    let start = blanks(head) + b"at ".len();
    let end = head.len().saturating_sub(b" (".len());
    if start > end {
        return None;
    }
    function_name(&head[start..end])
}

// The name of a function as Firefox and Safari print it.
fn sign_name(head: &[u8]) -> Option<&[u8]>
    ensures { option_map (λ name. name.now) result ≡ sign_name head.now }
{
    let function = &head[..head.len().saturating_sub(b"@".len())];
    if is_name(function) {
        Some(function)
    } else {
        None
    }
}

// Cuts at a name that so many bytes follow.
fn cut_before<'a>(head: &'a [u8], size: usize, name: Option<&'a [u8]>) -> Option<HeadCut<'a>>
    ensures { option_map cut_seen result
        ≡ cut_before head.now size (option_map (λ name. name.now) name.entry) }
{
    let name = name?;
    let before = head.len().saturating_sub(size).saturating_sub(name.len());
    Some(HeadCut {
        before: &head[..before],
        name,
        behind: &head[head.len().saturating_sub(size)..],
    })
}
