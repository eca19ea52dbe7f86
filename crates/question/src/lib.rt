// pathcheck's work on slices: the whole input in, the whole output out. Rests on `leveecrumb` and all below.
// What a reader must believe stands in specs/Question.antt: `CheckedAs`. The promises of the steps between stand in specs/Steps.antt.
#![tactic(auto)]

ghost use Rattle.std.specs.Prelude.{◌≡◌};
ghost use Rattle.lines.specs.Line.{EncodedAs};
ghost use Rattle.ask.specs.Ask.{answer_of};
ghost use Rattle.question.specs.Question.{fits, CheckedAs};
ghost use Rattle.question.specs.Steps.{line_number, LineAs, HasPath, asked_by, refusal, ToldAs, RespondedAs, AnsweredAs};

use ask::{Answer, Unanswered};
use gran::Asked;
use lines::Frame;
use policy::frame;

// The question line that is missing, or of wrong line form, type or length, with its place among the three.
#[derive(Clone, Copy)]
enum Unasked {
    Account = 1,
    Start = 2,
    Target = 3,
}

impl Unasked {
    fn number(self) -> usize
        ensures { result ≡ line_number self }
    {
        self as usize
    }
}

// The first line of a text: its frame, and what follows it.
#[derive(Clone, Copy)]
struct Line<'a> {
    frame: Frame,
    rest: &'a [u8],
}

// Whether the frame is of this type, with a payload of these lengths.
#[tactic(auto, unfolding(crate::specs::Question::fits))]
fn fits(f: &Frame, kind: u8, shortest: usize, longest: usize) -> bool
    ensures { result ≡ fits kind shortest longest f.now }
{
    frame::byte(&f.bytes, 0) == kind && shortest < f.size && f.size - 1 <= longest
}

// The first line of a text, where its frame is so.
#[tactic(auto, using(lines::proofs::Lines::line_within))]
fn first_line(text: &[u8], kind: u8, shortest: usize, longest: usize) -> Option<Line>
    ensures { LineAs kind shortest longest text.now result }
{
    let frame = lines::decode(text);
    if !fits(&frame, kind, shortest, longest) {
        return None;
    }
    let rest = &text[lines::line_length(text)..];
    Some(Line { frame, rest })
}

// Writes a refusal's line in front of the output: its length, or 0 where it does not fit. A number, since `tell` answers for each.
#[tactic(auto, unfolding(store::specs::Layout::two))]
fn refuse(number: u8, line: usize, output: &mut [u8]) -> usize
    ensures { EncodedAs (refusal number line) output.old result output.new }
{
    let [.., high, low] = line.to_be_bytes();
    lines::encode(&[0x8f, number, high, low], output)
}

// The length of what is printed for an ask's answer: its lines stand in front of the output already, and a refusal's line goes there.
pub fn tell(answer: Answer, output: &mut [u8]) -> usize
    ensures { ToldAs (answer_of answer) output.old result output.new }
{
    match answer {
        Ok(size) => size,
        Err(Unanswered::Refused(number, line)) => refuse(number, line, output),
        Err(Unanswered::Short(_)) => refuse(17, 0, output),
    }
}

// The areas that an ask needs, as long as it needs them; a contract over their content would write it out.
fn fresh_store() -> [u8; 16384] {
    [0u8; 16384]
}

fn fresh_work() -> [u16; 24576] {
    [0u16; 24576]
}

// Asks what the three frames ask of a policy's text.
fn respond(text: &[u8], account: &Frame, start: &Frame, target: &Frame, output: &mut [u8]) -> usize
    requires { HasPath start.now × HasPath target.now }
    ensures { RespondedAs text.now (asked_by account.now start.now target.now) output.old result output.new }
{
    let mut store = fresh_store();
    let mut work = fresh_work();
    let asked = Asked {
        uid: frame::number4(&account.bytes, 2),
        gid: frame::number4(&account.bytes, 6),
        start: &start.bytes[1..start.size],
        target: &target.bytes[1..target.size],
        kind: frame::byte(&account.bytes, 1),
    };
    let answer = leveecrumb::ask(text, &mut store, &mut work, output, asked);
    tell(answer, output)
}

// Asks what the three question lines ask of the policy behind them: each type, 60 to 62, stands here once, with its lengths.
fn answered(input: &[u8], output: &mut [u8]) -> Result<usize, Unasked>
    ensures { AnsweredAs input.now output.old result output.new }
{
    let account = first_line(input, 0x60, 9, 9).ok_or(Unasked::Account)?;
    let start = first_line(account.rest, 0x61, 1, 79).ok_or(Unasked::Start)?;
    let target = first_line(start.rest, 0x62, 1, 79).ok_or(Unasked::Target)?;
    Ok(respond(
        target.rest,
        &account.frame,
        &start.frame,
        &target.frame,
        output,
    ))
}

// Answers an input of three question lines and a policy: what is printed stands in front of the output.
pub fn check(input: &[u8], output: &mut [u8]) -> usize
    ensures { CheckedAs input.now output.old result output.new }
{
    match answered(input, output) {
        Ok(printed) => printed,
        Err(unasked) => refuse(18, unasked.number(), output),
    }
}
