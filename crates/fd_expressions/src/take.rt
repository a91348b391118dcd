/// Takes the next token, if it is the one that is wanted.
macro_rules! take_if {
    ($parser:ident, $token:ident, $is:expr) => {
        match $parser.rest {
            [$token, rest @ ..] if $is => {
                $parser.rest = rest;
                Ok(())
            }
            _ => Err(Stop::Wrong),
        }
    };
}

/// Takes tokens and goes on behind each, as long as something is made of the next one's sort.
#[macro_export]
macro_rules! while_some {
    ($parser:ident, $token:ident, $of:ident, $found:ident => $then:expr) => {
        while let [$token, rest @ ..] = $parser.rest {
            let Some($found) = $of(sort_of($token.kind)) else {
                break;
            };
            $parser.rest = rest;
            $then
        }
    };
}

pub(crate) use take_if;
