// The words of a line, each read off its front.
ghost use Rattle.std.specs.Prelude.{◌≡◌, ℕ, ◌^◌, ◌<◌, true, false, [], length, decimal, MatchBool, MatchOption, ◌≢◌};
ghost use Rattle.std.specs.Option.{SomeIff};
ghost use Rattle.std.specs.Str.Parse.{AllDigits, digits_value as number_of};
ghost use Rattle.std.specs.Char.{digit_char};
ghost use Rattle.script.specs.Readings.{Plain, SplitBefore, SplitDigits, Reads, Whole};
ghost use Rattle.script.specs.Fields.{field_text, byte_text};

// A value that was read, and what stands behind it.
#[derive(Clone, Copy)]
pub struct Piece<'a, T> {
    pub value: T,
    pub rest: &'a [u8],
}

impl<T: Copy> Piece<'_, T> {
    // The value, if nothing stands behind it.
    pub fn alone(self) -> Option<T>
        ensures { MatchOption result (0 < length self.entry.rest.now) (λ v. (v ≡ self.entry.value) × (self.entry.rest.now ≡ [])) }
    {
        self.rest.is_empty().then_some(self.value)
    }
}

// What stands in front of the first byte that passes a test, and the rest: nothing, or that byte and more.
fn split_before<F: Fn(u8) -> bool>(line: &[u8], stops: F) -> (&[u8], &[u8])
    requires { F.IsAlwaysCallable stops }
    ensures { SplitBefore (λ b. F.post stops b false) (λ b. F.post stops b true) line.now result.0.now result.1.now }
{
    let end = line.iter().position(|b| stops(*b)).unwrap_or(line.len());
    line.split_at(end)
}

// A line, split behind the digits that it begins with.
fn split_digits(line: &[u8]) -> (&[u8], &[u8])
    ensures { SplitDigits line.now result.0.now result.1.now }
{
    split_before(line, |b| !b.is_ascii_digit())
}

// A line, split in front of the first of such bytes.
pub fn split_at_byte(line: &[u8], byte: u8) -> (&[u8], &[u8])
    ensures { SplitBefore (λ b. b ≢ byte) (λ b. b ≡ byte) line.now result.0.now result.1.now }
{
    split_before(line, |b| b == byte)
}

// Whether there are digits, and no nought in front of others.
fn is_plain(digits: &[u8]) -> bool
    ensures { MatchBool result (Plain digits.now) (Plain digits.now → ⊥) }
{
    !matches!(digits, [] | [b'0', _, ..])
}

// The number that digits write, if it is below 2^32. By hand, since `parse` is of `str`, and `from_utf8` would have to be told that digits are text.
fn digits_value(digits: &[u8]) -> Option<u32>
    requires { AllDigits 10 digits.now }
    ensures { SomeIff result (number_of 10 digits.now < 2 ^ 32) (number_of 10 digits.now) }
{
    let mut n: u32 = 0;
    for c in digits {
        n = n.checked_mul(10)?.checked_add(u32::from(*c - b'0'))?;
    }
    Some(n)
}

// The number that a line begins with, up to the first byte that is no digit.
fn number(line: &[u8]) -> Option<Piece<'_, u32>>
    ensures { Reads decimal (λ n. n < 2 ^ 32) line.now result }
{
    let (digits, rest) = split_digits(line);
    if !is_plain(digits) {
        return None;
    }
    let value = digits_value(digits)?;
    Some(Piece { value, rest })
}

// A space and a number.
pub fn field(line: &[u8]) -> Option<Piece<'_, u32>>
    ensures { Reads field_text (λ n. n < 2 ^ 32) line.now result }
{
    let [b' ', rest @ ..] = line else {
        return None;
    };
    number(rest)
}

// A space and a number below 256.
pub fn tag_field(line: &[u8]) -> Option<Piece<'_, u8>>
    ensures { Reads field_text (λ n. n < 256) line.now result }
{
    let Piece { value, rest } = field(line)?;
    let value = u8::try_from(value).ok()?;
    Some(Piece { value, rest })
}

// The value of a small hexadecimal digit.
fn hex_digit(c: u8) -> Option<u8>
    ensures { MatchOption result ((d : ℕ) → d < 16 → c ≢ digit_char d) (λ d. (d < 16) × (c ≡ digit_char d)) }
{
    match c {
        b'0'..=b'9' => Some(c - b'0'),
        b'a'..=b'f' => Some(c - b'a' + 10),
        _ => None,
    }
}

// A space and two hexadecimal digits, and nothing more.
pub fn byte_field(line: &[u8]) -> Option<u8>
    ensures { Whole byte_text (λ b. b < 256) line.now result }
{
    let [b' ', high, low] = line else {
        return None;
    };
    let high = hex_digit(*high)?;
    let low = hex_digit(*low)?;
    Some(16 * high + low)
}
