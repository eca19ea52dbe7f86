// Hexadecimal lines: a line's form, the bytes that it stands for, and bytes written as a line. Rests on nothing.
// What a reader must believe stands in specs/Line.antt: `line_length`, `first_line` and `lines_of`; `good_line`, `bytes_of` and `decoded`;
// `line_of` and `encoded`; and what these name.
#![tactic(auto)]

ghost use Rattle.std.specs.Prelude.{◌≡◌, cond, [], ◌*◌, ◌<◌, ◌≤◌, eqb, leb, get_or};
ghost use Rattle.lines.specs.Line.{Digits, pair_value, line_length, first_line, zeros, frame_of, decoded, DecodedInto, digit_of, EncodedAs};

const LF: u8 = b'\n';

// The longest good line, with its LF.
const LONGEST: usize = 161;

// The bytes of a good line, zero filled, and how many they are; size 0 for any other line: a number and no `Option`, since `decoded` and
// `frame_of` of specs/Line.antt have it, and with them the theorems on lines.
#[derive(Clone, Copy)]
pub struct Frame {
    pub size: usize,
    pub bytes: [u8; 80],
}

// The lowercase digit of a value below 16.
#[tactic(auto, unfolding(crate::specs::Line::digit_of))]
fn digit(value: u8) -> u8
    requires { value < 16 }
    ensures { result ≡ digit_of value }
{
    if value < 10 {
        value + b'0'
    } else {
        value - 10 + b'a'
    }
}

// For each byte its value as a digit, or 256 for one that is no digit. Made once for a text: which digit comes next cannot be foreseen,
// so that a test of each would cost more than the rest of the decoding. A table as it stands, 256 and all: `Digits` says what it holds, and
// `decode_first` asks for that and no more.
pub fn digits() -> [u16; 256]
    ensures { Digits result }
{
    let mut values = [256; 256];
    for v in 0..16 {
        values[usize::from(digit(v))] = u16::from(v);
    }
    values
}

// The byte that two digits stand for, or none where one of them is no digit.
fn pair_value(values: &[u16; 256], a: u8, b: u8) -> Option<u8>
    requires { Digits values.now }
    ensures { result ≡ cond (leb (pair_value a b) 255) (Some (pair_value a b)) None }
{
    let value = values[usize::from(a)] * 16 + values[usize::from(b)];
    u8::try_from(value).ok()
}

// The length of the first line of a text, with its LF where it has one.
pub fn line_length(text: &[u8]) -> usize
    ensures { result ≡ line_length text.now }
{
    match text.iter().position(|b| *b == LF) {
        Some(i) => i + 1,
        None => text.len(),
    }
}

// The frame of a line that is not good.
#[tactic(auto, unfolding(crate::specs::Line::frame_of, crate::specs::Line::zeros))]
fn empty() -> Frame
    ensures { result ≡ frame_of [] }
{
    Frame {
        size: 0,
        bytes: [0u8; 80],
    }
}

// What a line gives whose digits end after i bytes: i where LF stands there, else 0.
fn ends(text: &[u8], i: usize) -> usize
    requires { i ≤ 80 }
    ensures { result ≡ cond (eqb (get_or text.now (2 * i) 0) 10) i 0 }
{
    if text.get(2 * i) == Some(&LF) { i } else { 0 }
}

// Writes the bytes of a text's first line in front of bytes 0: how many they are, 0 where that line is not good, as `DecodedInto` says.
// No LF is sought: the digits end at it, as it is no digit.
pub fn decode_first(text: &[u8], values: &[u16; 256], bytes: &mut [u8; 80]) -> usize
    requires { Digits values.now × (bytes.old ≡ zeros 80) }
    ensures { DecodedInto (first_line text.now) result bytes.new }
{
    let most = text.len().min(LONGEST);
    for i in 0..most / 2 {
        let Some(value) = pair_value(values, text[2 * i], text[2 * i + 1]) else {
            return ends(text, i);
        };
        bytes[i] = value;
    }
    ends(text, most / 2)
}

// The frame of a text's first line; size 0 where that line is not good.
#[tactic(auto, unfolding(crate::specs::Line::zeros))]
pub fn decode(text: &[u8]) -> Frame
    ensures { result ≡ decoded (first_line text.now) }
{
    let values = digits();
    let mut bytes = [0u8; 80];
    let size = decode_first(text, &values, &mut bytes);
    if size == 0 {
        return empty();
    }
    Frame { size, bytes }
}

// Writes the line of `bytes` in front of `room`: the line's length, or 0 where it does not fit, as `EncodedAs` says.
pub fn encode(bytes: &[u8], room: &mut [u8]) -> usize
    ensures { EncodedAs bytes.now room.old result room.new }
{
    let size = 2 * bytes.len() + 1;
    if room.len() < size {
        return 0;
    }
    for (i, b) in bytes.iter().enumerate() {
        room[2 * i] = digit(b / 16);
        room[2 * i + 1] = digit(b % 16);
    }
    room[2 * bytes.len()] = LF;
    size
}
