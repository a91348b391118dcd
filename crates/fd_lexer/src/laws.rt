ghost use Rattle.fd_lexer.specs.Laws.{SpansAreInOrder, TokensAreDetermined, FaultIsDetermined, HasEither, HasNotBoth};

/// Spans are in order. A text has either tokens or a first fault, and one of them.
pub fn token_laws()
    ensures order { SpansAreInOrder }
    ensures tokens_determined { TokensAreDetermined }
    ensures fault_determined { FaultIsDetermined }
    ensures either { HasEither }
    ensures not_both { HasNotBoth }
{}
