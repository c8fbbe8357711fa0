ghost use Rattle.dill_loop.specs.Rows.{WaitRows, LinkRows, ByteRows, FullRows, CloseRows};

/// Small sessions worked by hand are what the definitions compute.
pub fn rows()
    ensures waits { WaitRows }
    ensures links { LinkRows }
    ensures bytes { ByteRows }
    ensures full { FullRows }
    ensures closes { CloseRows }
{}
