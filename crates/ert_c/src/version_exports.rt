//! The version of the library.
ghost use Rattle.std.specs.Prelude.{◌≡◌};

/// The version: 1,000,000 times the major, 1,000 times the minor, and the patch number. It is `ERTIME_VERSION` of the
/// header that the library is published with.
pub const VERSION: u32 = 1_000_000;

/// The version of the library that the program runs with.
#[unsafe(no_mangle)]
pub extern "C" fn ert_version() -> u32
    ensures { result ≡ VERSION }
{
    VERSION
}
