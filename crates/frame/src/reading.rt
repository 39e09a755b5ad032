// The reader. Refusals in document 01's order: 2, 3, 4, 5.
//     read         a line as a frame, or the refusal
//     rest         what follows a line
//     read_line    a line of any number of pairs, for `read`
ghost use Rattle.std.specs.Prelude.{◌≡◌, ◌<◌};
ghost use Rattle.frame.specs.Reading.{told, told_line, begins, reads, read_as, is_torn, kind_of, rest_of};

use crate::{Frame, Kind, LINE, LINE_FEED, Refusal, pairs};

// The text's first 9 bytes as a frame, or why they are none. `is_first`: line 1 is wanted, not a later one. It and what it calls are put
// into the loop of their caller, where the frame needs no memory: 43 instructions a line less.
#[inline(always)]
pub fn read(text: &[u8], is_first: bool) -> Result<Frame, Refusal>
    ensures { told result ≡ reads text.now is_first }
{
    let [kind, first, second, check] = read_line::<4>(text, kind_of(is_first))?;
    Ok(Frame {
        kind,
        first,
        second,
        check,
    })
}

// The part that follows the first 9 bytes; the empty part at the end where there are 9 or fewer.
pub fn rest(text: &[u8]) -> &[u8]
    ensures { result.now ≡ rest_of text.now }
{
    // Written with `min` or `get` it takes three or four instructions a line more.
    if text.len() < LINE {
        return &text[text.len()..];
    }
    &text[LINE..]
}

// The kind of the line that is wanted.
fn kind_of(is_first: bool) -> Kind
    ensures { begins result ≡ kind_of is_first }
{
    if is_first { Kind::Header } else { Kind::Event }
}

// The N pairs of a line that is to be of a kind. The tests are made in the order of their numbers.
#[inline(always)]
pub(crate) fn read_line<const N: usize>(text: &[u8], kind: Kind) -> Result<[u8; N], Refusal>
    requires { (0 < N) × (N < 128) }
    ensures { told_line result ≡ read_as N (begins kind) text.now }
{
    if is_torn(text, N) {
        return Err(Refusal::Torn);
    }
    let numbers = pairs::read_pairs::<N>(text).ok_or(Refusal::NotDigits)?;
    if pairs::sum(&numbers) != 0 {
        return Err(Refusal::WrongCheck);
    }
    if numbers[0] != u8::from(kind) {
        return Err(Refusal::WrongKind);
    }
    Ok(numbers)
}

// Whether a line of k pairs is cut short, or does not end in a line feed.
#[tactic(auto, unfolding(crate::specs::Reading::is_torn))]
pub(crate) fn is_torn(text: &[u8], k: usize) -> bool
    requires { k < 128 }
    ensures { result ≡ is_torn k text.now }
{
    text.len() < 2 * k + 1 || text[2 * k] != LINE_FEED
}
