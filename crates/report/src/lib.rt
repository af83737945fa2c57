// The text that the program `spectrum` prints for its input (document 01, "Program `spectrum`").
//
// `report` takes any bytes, and its contract gives every byte of the text: the bits of the dimension and of the entropy
// as hexadecimal lines, or `refused N P`. It tests 21 by the length of the input, then 23; diagnostics tests the rest.
// Start with specs/Report.antt; specs/Marked.antt has document 01's example.
#![tactic(auto)]

ghost use Rattle.std.specs.Prelude.{◌≡◌, ◌++◌, ◌+◌, ◌/◌, ◌≤◌, ◌<◌, length};
ghost use Rattle.std.specs.Float.{binary64};
ghost use Rattle.std.specs.Float.Ieee.{of_bits};
ghost use Rattle.error.specs.Refusal.{refusal};
ghost use Rattle.report.specs.Bytes as Bytes;
ghost use Rattle.report.specs.Digits as Digits;
ghost use Rattle.report.specs.Report as Report;

use arrayvec::{ArrayString, ArrayVec};
use error::{LyapunovError, Refusal};
use itoa::Buffer;

// The longest text is a refusal with two numbers of 20 digits.
pub type Text = ArrayString<50>;

// The float of a bit pattern. Every NaN's pattern gives the one NaN.
fn from_bits(pattern: u64) -> f64
    ensures { result ≡ of_bits binary64 pattern }
{
    if pattern % floats::SIGN_BIT > floats::INFINITY_BITS {
        0.0 / 0.0
    } else {
        f64::from_bits(pattern)
    }
}

fn decode(bytes: &[u8]) -> ArrayVec<f64, 256>
    requires { length bytes.now ≤ 2048 }
    ensures { result.items ≡ Bytes.decoded (length bytes.now / 8) bytes.now }
{
    let (patterns, _) = bytes.as_chunks::<8>();
    let mut exponents = ArrayVec::new();
    for pattern in patterns {
        exponents.push(from_bits(u64::from_le_bytes(*pattern)));
    }
    exponents
}

// The dimension and the entropy of the exponents.
#[tactic(auto, using(crate::proofs::Texts::rates_steps))]
fn rates(exponents: &[f64]) -> Result<(f64, f64), LyapunovError>
    ensures { Report.text result ≡ Report.exponents_text exponents.now }
{
    let dimension = diagnostics::kaplan_yorke_dimension(exponents)?;
    let entropy = diagnostics::kolmogorov_sinai_entropy(exponents)?;
    Ok((dimension, entropy))
}

// Those of the exponents in bytes.
#[tactic(auto, using(crate::proofs::Texts::output_steps))]
fn values(bytes: &[u8]) -> Result<(f64, f64), LyapunovError>
    ensures { Report.text result ≡ Report.output bytes.now }
{
    let n = bytes.len();
    if n > 2048 {
        return Err(LyapunovError::TooManyExponents);
    }
    if n % 8 != 0 {
        return Err(LyapunovError::IncompleteBytes);
    }
    rates(&decode(bytes))
}

// `char::from_digit` would answer an `Option` to be opened.
fn digit(d: u64) -> char
    requires { d < 16 }
    ensures { result ≡ Digits.digit d }
{
    let d = d as u8;
    char::from(if d < 10 { b'0' + d } else { b'a' - 10 + d })
}

// Appends a bit pattern as a line of 16 hexadecimal digits. They are pushed one by one: a proof does not compute a whole format.
#[tactic(auto, using(crate::proofs::Lines::line_steps), unfolding(crate::specs::Report::line))]
fn push_line(text: &mut Text, pattern: u64)
    requires { length text.old.bytes + 17 ≤ 50 }
    ensures { text.new.bytes ≡ text.old.bytes ++ Report.line pattern }
{
    for i in 0..16u32 {
        text.push(digit((pattern >> (60 - 4 * i)) % 16));
    }
    text.push('\n');
}

#[tactic(auto, using(crate::proofs::Lines::line_length), unfolding(crate::specs::Report::values_text))]
fn values_text(dimension: f64, entropy: f64) -> Text
    ensures { result.bytes ≡ Report.values_text dimension entropy }
{
    let mut text = Text::new();
    push_line(&mut text, floats::to_bits(dimension));
    push_line(&mut text, floats::to_bits(entropy));
    text
}

fn refusal_text(error: LyapunovError) -> Text
    ensures { result.bytes ≡ Report.refusal_text (refusal error) }
{
    let refusal = Refusal::from(error);
    let mut number = Buffer::new();
    let mut place = Buffer::new();
    let mut text = Text::new();
    text.push_str("refused ");
    text.push_str(number.format(refusal.number));
    text.push(' ');
    text.push_str(place.format(refusal.place));
    text.push('\n');
    text
}

pub fn report(bytes: &[u8]) -> Text
    ensures { result.bytes ≡ Report.output bytes.now }
{
    match values(bytes) {
        Ok((dimension, entropy)) => values_text(dimension, entropy),
        Err(error) => refusal_text(error),
    }
}
