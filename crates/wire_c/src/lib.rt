// SHA-256 for Rust and C: a static library, whose function is that of `wire::sha256` under its own name.
#![tactic(auto)]

ghost use Rattle.std.specs.Prelude.{◌≡◌};
ghost use Rattle.wire.specs.Sha256.{digest_of, fits, bytes_of};

use wire::layout::DIGEST;
use wire::sha256;

#[unsafe(no_mangle)]
pub extern "C" fn wire_sha256(message: &[u8], out: &mut [u8; DIGEST]) -> bool
    ensures { (result ≡ fits (digest_of message.now)) × (out.new ≡ bytes_of (digest_of message.now)) }
{
    sha256::wire_sha256(message, out)
}
