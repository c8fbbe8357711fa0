ghost use Rattle.dill_script.specs.Nesting.{ReadsNested};
ghost use Rattle.dill_script.specs.Spelling.{ReadsSpelling, ReadsEachSpelling, CanonicalSpells, ReadsBack, ReadsWithin, ReadsFormed, ReadsApart, ReadsStarts, ReadsMains, ReadsBuilt};

/// What reading and printing promise each other: a script is spelled by the text that it was read from and by its
/// canonical text, and is read from each text that spells it, up to the limit on its bytes. What is read is within the
/// limits, each of its lines stands in a block where it may, its calls are built and have operands that fit their words,
/// and the programs that it starts are there, once each.
pub fn script_laws()
    ensures spelled { ReadsSpelling }
    ensures each { ReadsEachSpelling }
    ensures canonical { CanonicalSpells }
    ensures again { ReadsBack }
    ensures within { ReadsWithin }
    ensures formed { ReadsFormed }
    ensures apart { ReadsApart }
    ensures starts { ReadsStarts }
    ensures mains { ReadsMains }
    ensures built { ReadsBuilt }
    ensures nested { ReadsNested }
{}
