ghost use Rattle.inspect_enter.specs.Laws.{FormulasTellAll};

/// Where an inspection asks for no places of its references, formulas tell them all.
pub fn formulas_tell_all()
    ensures { FormulasTellAll }
{}
