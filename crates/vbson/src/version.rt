//! Which version of the library this is.
ghost use Rattle.std.specs.Prelude.{◌≡◌};

/// Ten thousand times the first number of the version, a hundred times the second, and the third:
/// 300 is 0.3.0.
#[unsafe(no_mangle)]
pub extern "C" fn vbson_version() -> u32
    ensures { result ≡ 300 }
{
    300
}
