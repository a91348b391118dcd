ghost use Rattle.section_laws.specs.Laws.{SectionAsks, SectionIsLoop, SectionIsReached, SectionRows};

/// What chaos_section tells of a loop that is a section, against the loop's facts and owners.
pub fn section_laws()
    ensures rows { SectionRows }
    ensures reached { SectionIsReached }
    ensures iterations { SectionIsLoop }
    ensures asks { SectionAsks }
{}
