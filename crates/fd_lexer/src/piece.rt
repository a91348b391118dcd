ghost use Rattle.std.specs.Prelude.{◌≡◌, ◌≤◌, length, map, slice_index, EachIndex, IsTrue};
ghost use Rattle.std.specs.List.{prefix_len};
ghost use Rattle.std.specs.Char.{to_ascii_uppercase, is_ascii_digit};
ghost use Rattle.fd_lexer.specs.Bytes.{is_blank, is_word_byte, is_inside_line};
ghost use Rattle.fd_lexer.specs.Piece.{sign_byte, opening_of, number_of, number_piece, word_piece, piece_at};

use crate::TokenKind;
use fd_words::{Name, SourceCause};

/// What a byte begins where no token has begun.
#[derive(Clone, Copy, Debug, PartialEq, Eq)]
pub enum Opening {
    Blank,
    Comment,
    Digit,
    Letter,
    Sign(TokenKind),
    Unlisted,
}

/// What stands at the front of a text, with its bytes: nothing, bytes between tokens, a token, or a fault.
#[derive(Clone, Copy, Debug, PartialEq, Eq)]
pub enum Piece {
    Nothing,
    Gap(usize),
    Lexeme(TokenKind, usize),
    Fault(SourceCause),
}

fn is_blank(byte: u8) -> bool
    ensures { result ≡ is_blank byte }
{
    byte == b'\t' || byte == b'\r' || byte == b' '
}

fn is_word_byte(byte: u8) -> bool
    ensures { result ≡ is_word_byte byte }
{
    byte.is_ascii_alphanumeric() || byte == b'_'
}

/// The token of one byte.
fn sign_of(byte: u8) -> Option<TokenKind>
    ensures { result ≡ sign_byte byte }
{
    match byte {
        b'\n' => Some(TokenKind::LineEnd),
        b'(' => Some(TokenKind::OpenParen),
        b')' => Some(TokenKind::CloseParen),
        b'*' => Some(TokenKind::Star),
        b'+' => Some(TokenKind::Plus),
        b',' => Some(TokenKind::Comma),
        b'-' => Some(TokenKind::Minus),
        b'=' => Some(TokenKind::Equals),
        _ => None,
    }
}

fn opening_of(byte: u8) -> Opening
    ensures { result ≡ opening_of byte }
{
    if is_blank(byte) {
        return Opening::Blank;
    }
    if byte.is_ascii_digit() {
        return Opening::Digit;
    }
    if byte.is_ascii_alphabetic() {
        return Opening::Letter;
    }
    if byte == b'!' {
        return Opening::Comment;
    }
    match sign_of(byte) {
        Some(kind) => Opening::Sign(kind),
        None => Opening::Unlisted,
    }
}

/// How many bytes stand before the line end.
fn line_len(text: &[u8]) -> usize
    ensures { result ≡ prefix_len is_inside_line text.now }
{
    text.iter().take_while(|byte| **byte != b'\n').count()
}

/// How many digits stand at the front.
fn digits_len(text: &[u8]) -> usize
    ensures { result ≡ prefix_len is_ascii_digit text.now }
{
    text.iter().take_while(|byte| byte.is_ascii_digit()).count()
}

/// How many bytes of a word stand at the front.
fn word_len(text: &[u8]) -> usize
    ensures { result ≡ prefix_len is_word_byte text.now }
{
    text.iter().take_while(|byte| is_word_byte(**byte)).count()
}

/// The number that digits write; none over the greatest.
fn number_of(digits: &[u8]) -> Option<i64>
    requires { EachIndex digits.now (λ k. IsTrue (is_ascii_digit (slice_index digits.now k))) }
    ensures { result ≡ number_of digits.now }
{
    let mut value: u64 = 0;
    for byte in digits {
        let digit = u64::from(*byte - b'0');
        value = value.checked_mul(10)?.checked_add(digit)?;
    }
    i64::try_from(value).ok()
}

fn number_at(text: &[u8]) -> Piece
    ensures { result ≡ number_piece text.now }
{
    let len = digits_len(text);
    match number_of(&text[..len]) {
        Some(value) => Piece::Lexeme(TokenKind::Number(value), len),
        None => Piece::Fault(SourceCause::NumberTooLarge),
    }
}

fn upper_case(word: &[u8]) -> Name
    requires { length word.now ≤ 31 }
    ensures { result ≡ map to_ascii_uppercase word.now }
{
    let mut name = Name::new();
    for byte in word {
        name.push(byte.to_ascii_uppercase());
    }
    name
}

fn word_at(text: &[u8]) -> Piece
    ensures { result ≡ word_piece text.now }
{
    let len = word_len(text);
    if len > Name::MOST {
        return Piece::Fault(SourceCause::NameTooLong);
    }
    Piece::Lexeme(TokenKind::Word(upper_case(&text[..len])), len)
}

/// What stands at the front of a text.
pub fn piece_at(text: &[u8]) -> Piece
    ensures { result ≡ piece_at text.now }
{
    let [byte, ..] = text else {
        return Piece::Nothing;
    };
    match opening_of(*byte) {
        Opening::Blank => Piece::Gap(1),
        Opening::Comment => Piece::Gap(line_len(text)),
        Opening::Digit => number_at(text),
        Opening::Letter => word_at(text),
        Opening::Sign(kind) => Piece::Lexeme(kind, 1),
        Opening::Unlisted => Piece::Fault(SourceCause::BadByte),
    }
}
