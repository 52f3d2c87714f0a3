//! What is done with octets of any kind.
ghost use Rattle.std.specs.Prelude.{◌≡◌, ◌≤◌, length};
ghost use Rattle.srtp.specs.Octets.{xor_octets};

/// Brings the second slice into the first by exclusive or.
pub(crate) fn xor_into(octets: &mut [u8], with: &[u8])
    requires { length with.now ≤ length octets.old }
    ensures { octets.new ≡ xor_octets octets.old with.now }
{
    for i in 0..with.len() {
        octets[i] ^= with[i];
    }
}
