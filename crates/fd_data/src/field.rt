ghost use Rattle.std.specs.Prelude.{◌≡◌, ◌-◌, ◌^◌, min};
ghost use Rattle.std.specs.List.{list_all};
ghost use Rattle.std.specs.Char.{is_ascii_digit};
ghost use Rattle.fd_data.specs.Data.{without_first_blanks, without_last_blanks, value_in, digits_value, all_digits, spelled};

/// What a field holds.
#[derive(Clone, Copy, Debug, PartialEq, Eq)]
pub enum Spelled {
    Value(i64),
    NoNumber,
    OutOfRange,
}

/// A field without the blanks before it.
fn without_start(field: &[u8]) -> &[u8]
    ensures { result.now ≡ without_first_blanks field.now }
{
    let mut rest = field;
    while let [b' ' | b'\t', after @ ..] = rest {
        rest = after;
    }
    rest
}

/// A field without the blanks behind it.
fn without_end(field: &[u8]) -> &[u8]
    ensures { result.now ≡ without_last_blanks field.now }
{
    let mut rest = field;
    while let Some((last, before)) = rest.split_last() {
        if *last != b' ' && *last != b'\t' {
            return rest;
        }
        rest = before;
    }
    rest
}

/// Whether there are digits, and nothing else.
fn are_digits(text: &[u8]) -> bool
    ensures { result ≡ all_digits text.now }
{
    if text.len() == 0 {
        return false;
    }
    has_only_digits(text)
}

/// Whether there is nothing but digits.
fn has_only_digits(text: &[u8]) -> bool
    ensures { result ≡ list_all is_ascii_digit text.now }
{
    text.iter().all(|c| c.is_ascii_digit())
}

/// The number that digits show, where it is not too great for 64 bits.
fn natural(digits: &[u8]) -> u64
    ensures { result ≡ min (digits_value digits.now) (2 ^ 64 - 1) }
{
    let mut value = 0u64;
    for digit in digits {
        value = value
            .saturating_mul(10)
            .saturating_add(u64::from(digit.saturating_sub(b'0')));
    }
    value
}

/// A number from its sign and its digits.
fn signed(minus: bool, digits: &[u8]) -> Spelled
    ensures { result ≡ value_in minus digits.now }
{
    if !are_digits(digits) {
        return Spelled::NoNumber;
    }
    let size = natural(digits);
    let value = if minus {
        0i128 - i128::from(size)
    } else {
        i128::from(size)
    };
    match i64::try_from(value) {
        Ok(value) => Spelled::Value(value),
        Err(_) => Spelled::OutOfRange,
    }
}

/// What a field spells.
pub fn spelled_in(field: &[u8]) -> Spelled
    ensures { result ≡ spelled field.now }
{
    match without_end(without_start(field)) {
        [b'+', digits @ ..] => signed(false, digits),
        [b'-', digits @ ..] => signed(true, digits),
        digits => signed(false, digits),
    }
}
