ghost use Rattle.fd_grammar.specs.Unambiguous.{EachHasOneProgram};

/// Two programs with the same tokens are equal.
pub fn programs_of_equal_tokens()
    ensures { EachHasOneProgram }
{}
