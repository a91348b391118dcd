ghost use Rattle.std.specs.Prelude.{◌≡◌};
ghost use Rattle.fd_spell.specs.Spelled.{is_name};

/// Whether a word names a file: it isn't empty and doesn't begin with a dash.
pub fn is_name(word: &str) -> bool
    ensures { result ≡ is_name word.now }
{
    match word.as_bytes() {
        [] => false,
        [first, ..] => *first != b'-',
    }
}
