//! The version of the library.

ghost use Rattle.std.specs.Prelude.{◌≡◌};

/// The version as one number: 65,536 times the first of its three, 256 times the second, and the
/// third.
const VERSION: u32 = 0x00_01_00;

/// The version of the library: 65,536 times the first of its three numbers, 256 times the second, and
/// the third.
#[unsafe(no_mangle)]
pub extern "C" fn telgovan_version() -> u32
    ensures { result ≡ 256 }
{
    VERSION
}
