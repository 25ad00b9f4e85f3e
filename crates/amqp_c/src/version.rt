//! The version of the library.

ghost use Rattle.std.specs.Prelude.{◌≡◌};
ghost use Rattle.amqp_c.specs.Versions.{version_number};

const MAJOR: u32 = 0;

const MINOR: u32 = 1;

const PATCH: u32 = 0;

/// The version that runs, as one number. `feksroum.h` has that of the header which a caller was compiled with.
#[unsafe(no_mangle)]
pub extern "C" fn feksroum_version() -> u32
    ensures { result ≡ version_number 0 1 0 }
{
    MAJOR * 65_536 + MINOR * 256 + PATCH
}
