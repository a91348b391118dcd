ghost use Rattle.std.specs.Prelude.{◌≡◌};
ghost use Rattle.std.specs.List.{list_all};
ghost use Rattle.std.specs.Char.{is_ascii_digit};
ghost use Rattle.fd_spell.specs.Spelled.{is_canonical, number_in};

/// Whether there is nothing but digits.
fn has_only_digits(text: &[u8]) -> bool
    ensures { result ≡ list_all is_ascii_digit text.now }
{
    text.iter().all(|c| c.is_ascii_digit())
}

/// Whether a text is digits without needless zeros.
fn is_canonical(text: &[u8]) -> bool
    ensures { result ≡ is_canonical text.now }
{
    match text {
        [] => false,
        [digit] => digit.is_ascii_digit(),
        [first, ..] => *first != b'0' && has_only_digits(text),
    }
}

/// The number from `low` to `high` that a text writes without a sign or needless zeros.
pub fn number(low: u32, high: u32, text: &str) -> Option<u32>
    ensures { result ≡ number_in low high text.now }
{
    if !is_canonical(text.as_bytes()) {
        return None;
    }
    let Ok(number) = text.parse::<u32>() else {
        return None;
    };
    if number < low {
        return None;
    }
    if number > high {
        return None;
    }
    Some(number)
}
