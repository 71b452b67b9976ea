//! The version of the library.
ghost use Rattle.std.specs.Prelude.{◌≡◌};
ghost use Rattle.wt_c.specs.Version.{version_number};

/// The version as a number, with a byte for each of its three parts.
pub const VERSION: u32 = 0x000800;

/// Returns the version of the library, with a byte for each of its three parts: `0x010203` is
/// version 1.2.3.
#[unsafe(no_mangle)]
pub extern "C" fn wt_version() -> u32
    ensures { result ≡ version_number 0 8 0 }
{
    VERSION
}
