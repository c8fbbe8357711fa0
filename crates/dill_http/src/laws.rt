ghost use Rattle.dill_http.specs.Laws.{LineLaws, HeadLaws};

/// What was written is read again, whatever follows it, and says the same. What was judged stays so. No line begins
/// another, and a line says one thing.
pub fn http_laws()
    ensures lines { LineLaws }
    ensures heads { HeadLaws }
{}
