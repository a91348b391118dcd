ghost use Rattle.std.specs.Prelude.{◌≡◌, ◌+◌, ◌^◌, ◌<◌, ◌≤◌, ◌++◌, length, MatchResult};
ghost use Rattle.fd_words.specs.declared.source.SourceStop.TheVariants.{Memory};
ghost use Rattle.fd_lexer.specs.Tokens.{IsLexed, line_closed};

use crate::cursor::Cursor;
use crate::piece::{Piece, piece_at};
use crate::{TokenKind, TokenList, Tokens};
use fd_words::{SourceFault, SourceStop};
use sqlite_items::Items;
use std::alloc::Global;

/// The tokens with the last line's end.
fn finished(mut tokens: Tokens, cursor: Cursor) -> Result<TokenList, SourceStop>
    requires { cursor.at < 2 ^ 32 }
    ensures { MatchResult result
        (λ list. (list.tokens ≡ tokens ++ line_closed cursor.at cursor.place cursor.begun) × (list.end ≡ cursor.place))
        (λ stop. stop ≡ Memory) }
{
    if cursor.begun {
        let token = cursor.token(TokenKind::LineEnd, 0);
        tokens.push(token)?;
    }
    Ok(TokenList {
        tokens,
        end: cursor.place,
    })
}

/// The tokens of a source, or the first fault: a byte that isn't listed, a number over
/// 9223372036854775807, a word of over 31 bytes.
pub fn tokens(alloc: Global, text: &[u8]) -> Result<TokenList, SourceStop>
    requires { length text.now ≤ 1048576 }
    ensures { IsLexed text.now result }
{
    let mut found = Items::new(alloc);
    let mut cursor = Cursor::start();
    loop {
        match piece_at(&text[cursor.at..]) {
            Piece::Nothing => return finished(found, cursor),
            Piece::Gap(len) => cursor.skip(len),
            Piece::Lexeme(kind, len) => {
                let token = cursor.take(kind, len);
                found.push(token)?;
            }
            Piece::Fault(cause) => {
                let at = cursor.place;
                return Err(SourceStop::Fault(SourceFault { at, cause }));
            }
        }
    }
}
