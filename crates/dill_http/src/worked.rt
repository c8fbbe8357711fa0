ghost use Rattle.dill_http.specs.Rows.{LineRows};

/// Lines worked by hand are what the definitions compute.
pub fn rows()
    ensures { LineRows }
{}
