//! What was built.
ghost use Rattle.std.specs.Prelude.{◌≡◌};
ghost use Rattle.rtpwire.specs.declared.limits.TheConstants.{MAX_PAYLOAD};

use rtpwire::MAX_PAYLOAD;

/// The version of this library: 10000 times the major number, 100 times the minor one, and the patch level.
const VERSION: u32 = 20500;

/// The version of the library that a program is linked with, whatever the header was that it was compiled with.
#[unsafe(no_mangle)]
pub extern "C" fn gozdrit_version() -> u32
    ensures { result ≡ 20500 }
{
    VERSION
}

/// How many octets a payload may have at most: the library and the header have to agree in that.
#[unsafe(no_mangle)]
pub extern "C" fn gozdrit_max_payload() -> u32
    ensures { result ≡ MAX_PAYLOAD }
{
    MAX_PAYLOAD as u32
}
