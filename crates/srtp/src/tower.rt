//! The inverse in AES's field by a tower of fields (Canright, "A very compact S-box for AES", 2005), in 64 lanes at
//! once: each word holds a coefficient of 64 elements, and every step is an exclusive or, or an and, of words.
ghost use Rattle.std.specs.Prelude.{◌≡◌};
ghost use Rattle.srtp.specs.Tower.{sum_2, product_2, square_2, times_w, sum_4, product_4, inverse_4, scaled_square, inverse_8, to_tower, affine_of};

/// Elements of GF(2^2).
#[derive(Clone, Copy)]
pub(crate) struct Pair {
    pub(crate) high: u64,
    pub(crate) low: u64,
}

/// Elements of GF(2^4).
#[derive(Clone, Copy)]
pub(crate) struct Quad {
    pub(crate) high: Pair,
    pub(crate) low: Pair,
}

/// Elements of GF(2^8).
#[derive(Clone, Copy)]
pub(crate) struct Tower {
    pub(crate) high: Quad,
    pub(crate) low: Quad,
}

#[inline(always)]
#[tactic(auto, unfolding(crate::specs::Tower::sum_2))]
fn sum_2(a: Pair, b: Pair) -> Pair
    ensures { result ≡ sum_2 a b }
{
    Pair {
        high: a.high ^ b.high,
        low: a.low ^ b.low,
    }
}

#[inline(always)]
#[tactic(auto, unfolding(crate::specs::Tower::product_2))]
fn product_2(a: Pair, b: Pair) -> Pair
    ensures { result ≡ product_2 a b }
{
    let both = (a.high ^ a.low) & (b.high ^ b.low);
    Pair {
        high: both ^ a.high & b.high,
        low: both ^ a.low & b.low,
    }
}

/// The square, which is the inverse too.
#[inline(always)]
#[tactic(auto, unfolding(crate::specs::Tower::square_2))]
fn square_2(a: Pair) -> Pair
    ensures { result ≡ square_2 a }
{
    Pair {
        high: a.low,
        low: a.high,
    }
}

#[inline(always)]
#[tactic(auto, unfolding(crate::specs::Tower::times_w))]
fn times_w(a: Pair) -> Pair
    ensures { result ≡ times_w a }
{
    Pair {
        high: a.low,
        low: a.high ^ a.low,
    }
}

#[inline(always)]
#[tactic(auto, unfolding(crate::specs::Tower::sum_4))]
fn sum_4(a: Quad, b: Quad) -> Quad
    ensures { result ≡ sum_4 a b }
{
    Quad {
        high: sum_2(a.high, b.high),
        low: sum_2(a.low, b.low),
    }
}

#[inline(always)]
#[tactic(auto, unfolding(crate::specs::Tower::product_4))]
fn product_4(a: Quad, b: Quad) -> Quad
    ensures { result ≡ product_4 a b }
{
    let both = times_w(product_2(sum_2(a.high, a.low), sum_2(b.high, b.low)));
    Quad {
        high: sum_2(both, product_2(a.high, b.high)),
        low: sum_2(both, product_2(a.low, b.low)),
    }
}

#[inline(always)]
#[tactic(auto, unfolding(crate::specs::Tower::inverse_4))]
fn inverse_4(a: Quad) -> Quad
    ensures { result ≡ inverse_4 a }
{
    let norm = sum_2(
        times_w(square_2(sum_2(a.high, a.low))),
        product_2(a.high, a.low),
    );
    Quad {
        high: product_2(square_2(norm), a.low),
        low: product_2(square_2(norm), a.high),
    }
}

#[inline(always)]
#[tactic(auto, unfolding(crate::specs::Tower::scaled_square))]
fn scaled_square(a: Quad) -> Quad
    ensures { result ≡ scaled_square a }
{
    Quad {
        high: times_w(times_w(square_2(a.high))),
        low: square_2(sum_2(a.high, a.low)),
    }
}

#[inline(always)]
#[tactic(auto, unfolding(crate::specs::Tower::inverse_8))]
pub(crate) fn inverse_8(a: Tower) -> Tower
    ensures { result ≡ inverse_8 a }
{
    let norm = sum_4(
        scaled_square(sum_4(a.high, a.low)),
        product_4(a.high, a.low),
    );
    Tower {
        high: product_4(inverse_4(norm), a.low),
        low: product_4(inverse_4(norm), a.high),
    }
}

/// The coefficients of octets whose bits stand in eight words.
#[inline(always)]
#[tactic(auto, unfolding(crate::specs::Tower::to_tower))]
pub(crate) fn to_tower(bits: &[u64; 8]) -> Tower
    ensures { result ≡ to_tower bits.now }
{
    let [b0, b1, b2, b3, b4, b5, b6, b7] = *bits;
    let ends = b0 ^ b6;
    let sum = ends ^ b5;
    let next = b1 ^ b2;
    Tower {
        high: Quad {
            high: Pair {
                high: sum ^ b1,
                low: sum ^ b7,
            },
            low: Pair {
                high: sum ^ b7 ^ next,
                low: sum ^ b4,
            },
        },
        low: Quad {
            high: Pair {
                high: sum,
                low: ends ^ b3 ^ next,
            },
            low: Pair {
                high: b3 ^ b4 ^ b7 ^ (b0 ^ b1),
                low: b0,
            },
        },
    }
}

/// The affine map of the S-box, from coefficients to bits.
#[inline(always)]
#[tactic(auto, unfolding(crate::specs::Tower::affine_of))]
pub(crate) fn affine_of(a: Tower) -> [u64; 8]
    ensures { result ≡ affine_of 0xffff_ffff_ffff_ffff a }
{
    let top = a.high.high.high ^ a.low.low.high;
    let next = a.high.high.low ^ a.high.low.low;
    let fourth = top ^ a.high.low.high;
    let fifth = a.high.low.low ^ a.low.high.low;
    [
        next ^ a.low.high.high ^ u64::MAX,
        a.high.high.high ^ a.high.high.low ^ a.low.high.high ^ u64::MAX,
        top ^ a.low.low.low ^ fifth,
        fourth ^ next,
        fourth,
        fifth ^ u64::MAX,
        a.high.low.high ^ a.low.low.high ^ u64::MAX,
        top,
    ]
}
