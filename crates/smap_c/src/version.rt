//! The version of the library.
ghost use Rattle.std.specs.Prelude.{◌≡◌, codes};

use crate::status::DONE;
use crate::texts::Text;

/// Lends the version of the library.
#[unsafe(no_mangle)]
pub extern "C" fn smap_version(version: &mut Text<'_>) -> u32
    ensures text { version.new.text.now ≡ codes "0.3.0" }
    ensures status { result ≡ 0 }
{
    version.text = b"0.3.0";
    DONE
}
