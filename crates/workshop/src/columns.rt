// Numbers in columns of six bytes, read and printed.
ghost use Rattle.std.specs.Prelude.{◌≡◌, ◌<◌, ◌≤◌, length, IfSome};
ghost use Rattle.workshop.specs.Columns.{behind_spaces, column_of, digit_at, digits_after, natural_in, number_in, numbers_of, signed_in};

// The bytes of a field.
pub(crate) const WIDTH: usize = 6;

// A field of a line, or a column of the report.
pub type Field = [u8; WIDTH];

// The first field, counted from 1, that holds no number. A type beside `OutOfLimits`, so that `?` tells the two.
#[derive(Clone, Copy, Debug, PartialEq, Eq)]
pub struct IllFormed {
    pub field: u8,
}

// The numbers of the fields, or the first that holds none.
// Not by `try_from_fn`, with which this is not proved: its contract leaves open which of several errors comes back.
// Nor by `iter_mut`, whose writes through `zip` the proof does not see.
pub(crate) fn numbers<const N: usize>(fields: &[Field; N]) -> Result<[i32; N], IllFormed>
    requires { N < 256 }
    ensures { result ≡ numbers_of fields.now }
{
    let mut numbers = [0; N];
    for (i, field) in fields.iter().enumerate() {
        numbers[i] = number(field).ok_or(IllFormed { field: i as u8 + 1 })?;
    }
    Ok(numbers)
}

fn number(field: &Field) -> Option<i32>
    ensures { result ≡ number_in field.now }
{
    signed(skip_spaces(field))
}

// By hand: `trim_ascii_start` takes tabs and line ends too.
fn skip_spaces(field: &[u8]) -> &[u8]
    ensures rest { result.now ≡ behind_spaces field.now }
    ensures shorter { length result.now ≤ length field.now }
{
    let mut rest = field;
    while let [b' ', tail @ ..] = rest {
        rest = tail;
    }
    rest
}

// A part of a field is short, here and below: a type for short text would have to cut it by hand.
fn signed(text: &[u8]) -> Option<i32>
    requires { length text.now ≤ 6 }
    ensures { result ≡ signed_in text.now }
{
    match text {
        [b'-', digits @ ..] => match natural(digits)? {
            // Zero has no sign.
            0 => None,
            size => Some(-(size as i32)),
        },
        digits => Some(natural(digits)? as i32),
    }
}

// A zero stands alone. By hand, since `parse` takes a plus sign and leading zeros.
fn natural(digits: &[u8]) -> Option<u32>
    requires { length digits.now ≤ 6 }
    ensures read { result ≡ natural_in digits.now }
    ensures small { IfSome result (λ n. n < 1000000) }
{
    match digits {
        [] => None,
        [b'0'] => Some(0),
        [b'0', ..] => None,
        _ => value(digits),
    }
}

fn value(digits: &[u8]) -> Option<u32>
    requires { length digits.now ≤ 6 }
    ensures read { result ≡ digits_after 0 digits.now }
    ensures small { IfSome result (λ n. n < 1000000) }
{
    let mut value = 0;
    for digit in digits {
        value = 10 * value + char::from(*digit).to_digit(10)?;
    }
    Some(value)
}

// The number in decimal, at the right behind spaces.
// By hand: `{:>6}` pads and never cuts, and a column has six bytes whatever the number.
pub(crate) fn column(number: u32) -> Field
    ensures { result ≡ column_of number }
{
    [
        digit(number, 100_000),
        digit(number, 10_000),
        digit(number, 1_000),
        digit(number, 100),
        digit(number, 10),
        b'0' + (number % 10) as u8,
    ]
}

// A space where the number does not reach the weight.
fn digit(number: u32, weight: u32) -> u8
    requires { 1 ≤ weight }
    ensures { result ≡ digit_at number weight }
{
    if number < weight {
        b' '
    } else {
        b'0' + (number / weight % 10) as u8
    }
}
