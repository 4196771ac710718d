// The digest of a slice for programs in Rust and C that measure it (bench/). No part of the library: gateway exports that.
#![tactic(auto)]

ghost use Rattle.std.specs.Prelude.{◌≡◌};
ghost use Rattle.sha256.specs.Sha256 as Spec;

use sha256::digest;

// The digest of a message, written to out.
#[unsafe(no_mangle)]
pub extern "C" fn teplovist_sha256(message: &[u8], out: &mut [u8; 32])
    ensures { out.new ≡ Spec.sha256 message.now }
{
    *out = digest(message);
}
