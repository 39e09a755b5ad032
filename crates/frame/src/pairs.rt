// Digits and pairs of digits, for lines of any number of pairs. What a caller must have tested before is in the `requires`.
//     worth, digit             a digit's rule for reading and for writing
//     joined                   the number of two digits
//     read_pairs, put_pairs    the pairs that begin a text, read and written; put_pair writes one
//     sum, check               what all pairs add up to, and what brings that to 0
ghost use Rattle.std.specs.Prelude.{◌≡◌, ◌+◌, ◌*◌, ◌/◌, ◌%◌, ◌<◌, ◌≤◌, ◌++◌, length, drop, slice_set};
ghost use Rattle.frame.specs.Pairs.{worth_of, digit_of, sum_of, check_of};
ghost use Rattle.frame.specs.Reading.{pairs_of};
ghost use Rattle.frame.specs.Writing.{digits_of};

// A digit stands for a number below this.
const BASE: u8 = 16;

// What a byte that is no digit is taken for. An `Option` in its place was tried in six forms: then the bytes of a line are looked
// at one by one, and the reader takes 49 instructions a line more at the least.
const NO_DIGIT: u8 = 16;

// The bit by which a lower-case letter differs from its upper-case one.
const CASE: u8 = 32;

// The bytes that lie between 9 and A.
const GAP: u8 = 7;

// What the reader takes a byte for: 0-9, A-F and a-f for what they stand for, any other for no digit. With the bit of `CASE`
// set A-F are a-f, and no other bytes come to lie there. The tests are joined by `&`, without a branch between them, and the
// letters are tested first, so that the bytes of a line are looked at side by side. With the library's `to_digit` they are not,
// and the reader takes 90 instructions a line more.
pub(crate) fn worth(b: u8) -> u8
    ensures { result ≡ worth_of b }
{
    let lower = b | CASE;
    if (b'a' <= lower) & (lower <= b'f') {
        return lower - b'a' + 10;
    }
    if (b'0' <= b) & (b <= b'9') {
        return b - b'0';
    }
    NO_DIGIT
}

// The upper-case digit that stands for v, where std's `from_digit` gives lower case. The byte is tested, and not v, so that both digits of a
// pair are made alike.
#[tactic(auto, unfolding(crate::specs::Pairs::digit_of))]
pub(crate) fn digit(v: u8) -> u8
    requires { v < 16 }
    ensures { result ≡ digit_of v }
{
    let b = b'0' + v;
    if b <= b'9' { b } else { b + GAP }
}

// The number of two digits, by what they stand for. Where one of them is no digit it is some number, and of no use.
pub(crate) fn joined(high: u8, low: u8) -> u8
    ensures { high < 16 → low < 16 → result ≡ high * 16 + low }
{
    (high << 4) | low
}

// The first N pairs of a text, where they are digits throughout: one pass, which looks at each byte once.
#[inline(always)]
pub(crate) fn read_pairs<const N: usize>(text: &[u8]) -> Option<[u8; N]>
    requires { 2 * N ≤ length text.now }
    ensures { result ≡ pairs_of N text.now }
{
    // The text by places: `zip` with `chunks_exact(2)` is as fast, but an adapter of `iter_mut` forgets what it goes over.
    let mut all = true;
    let mut numbers = [0; N];
    for (i, number) in numbers.iter_mut().enumerate() {
        let high = worth(text[2 * i]);
        let low = worth(text[2 * i + 1]);
        all &= (high < NO_DIGIT) & (low < NO_DIGIT);
        *number = joined(high, low);
    }
    all.then_some(numbers)
}

// The sum of values, wrapping at 256.
pub(crate) fn sum(values: &[u8]) -> u8
    ensures { result ≡ sum_of values.now }
{
    values.iter().fold(0, |total, v| total.wrapping_add(*v))
}

// The value that brings the sum of values to 0.
#[tactic(auto, using(crate::proofs::Sums::negated_is_check))]
pub(crate) fn check(values: &[u8]) -> u8
    ensures { result ≡ check_of values.now }
{
    sum(values).wrapping_neg()
}

// Writes v as pair number i of a buffer, the high digit first.
pub(crate) fn put_pair(out: &mut [u8], i: usize, v: u8)
    requires { 2 * i + 1 < length out.old }
    ensures { out.new ≡ slice_set (slice_set out.old (2 * i) (digit_of (v / 16))) (2 * i + 1) (digit_of (v % 16)) }
{
    out[2 * i] = digit(v / BASE);
    out[2 * i + 1] = digit(v % BASE);
}

// Writes the values as the first pairs of a buffer.
#[tactic(auto, using(crate::proofs::Buffers::put_goes_on), unfolding(crate::specs::Writing::digits_of))]
pub(crate) fn put_pairs(out: &mut [u8], values: &[u8])
    requires { 2 * length values.now ≤ length out.old }
    ensures { out.new ≡ digits_of values.now ++ drop (2 * length values.now) out.old }
{
    for (i, v) in values.iter().enumerate() {
        put_pair(out, i, *v);
    }
}
