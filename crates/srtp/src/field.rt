//! The finite field of AES (FIPS 197, section 4), with no branch and no index that depends on an octet.
ghost use Rattle.std.specs.Prelude.{◌≡◌, ◌<◌};
ghost use Rattle.srtp.specs.Field.{xtime, product, inverse};

/// The product by x.
#[inline(always)]
pub(crate) fn xtime(b: u8) -> u8
    ensures { result ≡ xtime b }
{
    b << 1 ^ (b >> 7) * 0x1b
}

/// The product of two octets.
#[inline(always)]
fn product(a: u8, b: u8) -> u8
    ensures { result ≡ product a b }
{
    let mut power = a;
    let mut sum = 0;
    for i in 0..8u8 {
        sum ^= (b >> i & 1) * power;
        power = xtime(power);
    }
    sum
}

/// The inverse of an octet, and 0 of 0: its 254th power.
#[inline(always)]
pub(crate) fn inverse(b: u8) -> u8
    ensures { result ≡ inverse b }
{
    let power_2 = product(b, b);
    let power_3 = product(power_2, b);
    let power_6 = product(power_3, power_3);
    let power_12 = product(power_6, power_6);
    let power_15 = product(power_12, power_3);
    let power_30 = product(power_15, power_15);
    let power_60 = product(power_30, power_30);
    let power_120 = product(power_60, power_60);
    let power_240 = product(power_120, power_120);
    product(product(power_240, power_12), power_2)
}
