//! The colours of a line.
ghost use Rattle.std.specs.Prelude.{◌≡◌, ◌+◌, ◌<◌, ◌≤◌, drop, length, IfSome};
ghost use Rattle.smap_pairs.specs.Colours.{colour_behind, is_parameter};

/// How many bytes a colour has whose ESC has so many, if behind that stands this text. At most 34 bytes of it are read.
#[tactic(auto, unfolding(crate::specs::Colours::colour_behind), using(crate::proofs::ColoursLaws::colour_steps))]
pub fn colour_behind(size: usize, text: &[u8]) -> Option<usize>
    requires { size + length text.now ≤ usize.MAX }
    ensures colour { result ≡ colour_behind size text.now }
    ensures within { IfSome result (λ end. (size < end) × (end ≤ size + length text.now)) }
{
    let (byte, behind) = text.split_first()?;
    if *byte != b'[' {
        return None;
    }
    let mut rest = behind;
    let mut size = size + 1;
    let mut many: u8 = 33;
    while many > 0 {
        let (byte, behind) = rest.split_first()?;
        size += 1;
        if *byte == b'm' {
            return Some(size);
        }
        if !is_parameter(*byte) {
            return None;
        }
        rest = behind;
        many -= 1;
    }
    None
}

// Whether the parameters of a colour are made of a byte.
fn is_parameter(byte: u8) -> bool
    ensures { result ≡ is_parameter byte }
{
    byte.is_ascii_digit() || byte == b';'
}
