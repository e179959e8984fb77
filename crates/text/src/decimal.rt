// Plain decimal, written into a caller's buffer (no heap). Each call writes in front of a place `end`
// and leaves all other bytes as they were, so that a line is written from its end to its front and
// nothing is moved. `put_decimal` and `put_signed` return the place of their first byte, which is
// the `end` of the call that writes the bytes before it. `end` and the buffer stay two parameters: a
// value that holds both would be taken apart again by each caller, which goes on in the same buffer
// from the place that it got back.
ghost use Rattle.std.specs.Prelude.{◌≡◌, ◌∷◌, ◌++◌, ◌-◌, ◌^◌, ◌≤◌, ◌<◌, nat_abs, length, take, drop};
ghost use Rattle.text.specs.Decimal.{digit as digit_of, decimal, decimal_before, signed, signed_before, two_before};

// The decimal logarithm of 2 is 0.30103. 77 / 256 is a little less.
const LOG10_OF_2: usize = 77;

const LOG10_SCALE: usize = 256;

// How many digits n has; zero has one. Every number takes the same steps: the count of its bits
// gives an estimate, which is right or one too few, and one comparison tells which. Both are of v,
// n with its lowest bit set, which has as many digits as n and is never zero.
pub fn count_digits(n: u64) -> usize
    ensures { (result ≡ length (decimal n)) × (1 ≤ result) × (result ≤ 20) }
{
    let v = n | 1;
    let bits = 64 - (u64::leading_zeros(v) as usize);
    let estimate = bits * LOG10_OF_2 / LOG10_SCALE;
    if v < pow10(estimate) {
        estimate
    } else {
        estimate + 1
    }
}

// 10^k. A `match` is compiled to a look-up. A `static` array in its place was tried: the check finds no
// proof that its entries are these powers, and finds this one alone. The last arm is never taken.
fn pow10(k: usize) -> u64
    requires { k < 20 }
    ensures { result ≡ 10 ^ k }
{
    match k {
        0 => 1,
        1 => 10,
        2 => 100,
        3 => 1000,
        4 => 10000,
        5 => 100000,
        6 => 1000000,
        7 => 10000000,
        8 => 100000000,
        9 => 1000000000,
        10 => 10000000000,
        11 => 100000000000,
        12 => 1000000000000,
        13 => 10000000000000,
        14 => 100000000000000,
        15 => 1000000000000000,
        16 => 10000000000000000,
        17 => 100000000000000000,
        18 => 1000000000000000000,
        19 => 10000000000000000000,
        _ => 0,
    }
}

// The absolute value of z. It fits for the least number too, whose negation does not fit an `i64`.
pub fn magnitude(z: i64) -> u64
    ensures { result ≡ nat_abs z }
{
    z.unsigned_abs()
}

// How many bytes z takes: its digits, and one more if it is negative.
pub fn signed_width(z: i64) -> usize
    ensures { (result ≡ length (signed z)) × (1 ≤ result) × (result ≤ 20) }
{
    let n = count_digits(magnitude(z));
    if z < 0 { n + 1 } else { n }
}

// Writes the digits of n in front of `end`, two at a time: each division has to wait for the one
// before it, and this takes half as many. The loop runs on v, and not over places, since v alone says
// how many there are. std's `write!` is no plainer here: it writes from the front, so that the digits
// would have to be counted first or moved afterwards.
pub fn put_decimal(n: u64, end: usize, room: &mut [u8]) -> usize
    requires { (length (decimal n) ≤ end) × (end ≤ length room.old) }
    ensures value { result ≡ end - length (decimal n) }
    ensures room_after { room.new ≡ take (end - length (decimal n)) room.old ++ decimal_before n (drop end room.old) }
{
    let mut v = n;
    let mut i = end;
    while 100 <= v {
        put_two(v % 100, i, room);
        v /= 100;
        i -= 2;
    }
    if 10 <= v {
        put_two(v, i, room);
        i - 2
    } else {
        put_byte(digit(v), i, room);
        i - 1
    }
}

// Writes z in front of `end`: its digits, and `-` in front of them if it is negative.
pub fn put_signed(z: i64, end: usize, room: &mut [u8]) -> usize
    requires { (length (signed z) ≤ end) × (end ≤ length room.old) }
    ensures value { result ≡ end - length (signed z) }
    ensures room_after { room.new ≡ take (end - length (signed z)) room.old ++ signed_before z (drop end room.old) }
{
    let at = put_decimal(magnitude(z), end, room);
    if z < 0 {
        put_byte(b'-', at, room);
        at - 1
    } else {
        at
    }
}

// Writes two digits of n in front of `end`: 7 is `07`.
pub fn put_two(n: u64, end: usize, room: &mut [u8])
    requires { (n < 100) × (1 < end) × (end ≤ length room.old) }
    ensures { room.new ≡ take (end - 2) room.old ++ two_before n (drop end room.old) }
{
    put_byte(digit(n % 10), end, room);
    put_byte(digit(n / 10), end - 1, room);
}

// Writes b in front of `end`.
pub fn put_byte(b: u8, end: usize, room: &mut [u8])
    requires { (0 < end) × (end ≤ length room.old) }
    ensures { room.new ≡ take (end - 1) room.old ++ b ∷ drop end room.old }
{
    room[end - 1] = b;
}

// The byte of a digit.
fn digit(d: u64) -> u8
    requires { d < 10 }
    ensures { result ≡ digit_of d }
{
    b'0' + (d as u8)
}
