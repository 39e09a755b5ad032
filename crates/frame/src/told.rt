// What each public function promises, told once more: a private function whose contract is the definition and whose body
// is the call. It is proved from the public contract alone, so a public contract that says less than its definition, or
// asks something of the caller, is refused here. With `OnlyOneAnswerFits` of `specs/Laws.antt` that leaves each public
// function one answer, and a lent buffer one content. Nobody calls these.
//     told_read, told_rest                the reader
//     told_write, told_frame, told_header, told_row, told_count, told_refusal    the writer
//     told_number, told_no_room           the refusals' numbers
//     told_laws, told_case                the laws, which answer nothing
ghost use Rattle.std.specs.Prelude.{◌≡◌, [], ◌∷◌};
ghost use Rattle.frame.specs.Laws.{DigitsAreInverse, CheckComesToZero, LengthsAreKnown, WritesUpperCase, WrittenIsReadBack, AcceptedIsWrittenUpToCase, ReadInEveryCase, CaseIsSharp, RefusalsGoByOrder, OnlyOneAnswerFits};
ghost use Rattle.frame.specs.Reading.{told, number, reads, rest_of};
ghost use Rattle.frame.specs.Writing.{line_of, written, no_room, writes, leaves, header_line, row_line, count_line, refusal_line};

use crate::{Frame, NoRoom, Refusal};

fn told_read(text: &[u8], is_first: bool) -> Result<Frame, Refusal>
    ensures { told result ≡ reads text.now is_first }
{
    crate::read(text, is_first)
}

fn told_rest(text: &[u8]) -> &[u8]
    ensures { result.now ≡ rest_of text.now }
{
    crate::rest(text)
}

fn told_write(out: &mut [u8], values: &[u8]) -> Result<(), NoRoom>
    ensures value { written result ≡ writes (line_of values.now) out.old }
    ensures out_after { out.new ≡ leaves (line_of values.now) out.old }
{
    crate::write(out, values)
}

fn told_frame(out: &mut [u8], kind: u8, first: u8, second: u8) -> Result<(), NoRoom>
    ensures value { written result ≡ writes (line_of (kind ∷ first ∷ second ∷ [])) out.old }
    ensures out_after { out.new ≡ leaves (line_of (kind ∷ first ∷ second ∷ [])) out.old }
{
    crate::write_frame(out, kind, first, second)
}

fn told_header(out: &mut [u8], edition: u8, n: u8) -> Result<(), NoRoom>
    ensures value { written result ≡ writes (header_line edition n) out.old }
    ensures out_after { out.new ≡ leaves (header_line edition n) out.old }
{
    crate::write_header(out, edition, n)
}

fn told_row(
    out: &mut [u8],
    p: u8,
    place: u8,
    tail: u8,
    locked: u8,
    next: u8,
    marks: u8,
) -> Result<(), NoRoom>
    ensures value { written result ≡ writes (row_line p place tail locked next marks) out.old }
    ensures out_after { out.new ≡ leaves (row_line p place tail locked next marks) out.old }
{
    crate::write_row(out, p, place, tail, locked, next, marks)
}

fn told_count(out: &mut [u8], high: u8, low: u8) -> Result<(), NoRoom>
    ensures value { written result ≡ writes (count_line high low) out.old }
    ensures out_after { out.new ≡ leaves (count_line high low) out.old }
{
    crate::write_count(out, high, low)
}

fn told_refusal(out: &mut [u8], refusal: u8, high: u8, low: u8) -> Result<(), NoRoom>
    ensures value { written result ≡ writes (refusal_line refusal high low) out.old }
    ensures out_after { out.new ≡ leaves (refusal_line refusal high low) out.old }
{
    crate::write_refusal(out, refusal, high, low)
}

fn told_number(refusal: Refusal) -> u8
    ensures { result ≡ number refusal }
{
    u8::from(refusal)
}

fn told_no_room(refusal: NoRoom) -> u8
    ensures { result ≡ no_room }
{
    u8::from(refusal)
}

fn told_laws()
    ensures digits_are_inverse { DigitsAreInverse }
    ensures check_comes_to_zero { CheckComesToZero }
    ensures lengths_are_known { LengthsAreKnown }
    ensures written_is_read_back { WrittenIsReadBack }
    ensures refusals_go_by_order { RefusalsGoByOrder }
    ensures only_one_answer_fits { OnlyOneAnswerFits }
{
    crate::laws::digits_are_inverse();
    crate::laws::check_comes_to_zero();
    crate::laws::lengths_are_known();
    crate::laws::written_is_read_back();
    crate::laws::refusals_go_by_order();
    crate::laws::only_one_answer_fits();
}

fn told_case()
    ensures writes_upper_case { WritesUpperCase }
    ensures accepted_is_written_up_to_case { AcceptedIsWrittenUpToCase }
    ensures read_in_every_case { ReadInEveryCase }
    ensures case_is_sharp { CaseIsSharp }
{
    crate::laws::writes_upper_case();
    crate::laws::accepted_is_written_up_to_case();
    crate::laws::read_in_every_case();
    crate::laws::case_is_sharp();
}
