ghost use Rattle.std.specs.Prelude.{◌≡◌};
ghost use Rattle.dill_meaning.specs.Effects.{compares, is_same_errno, holds};
ghost use Rattle.dill_meaning.specs.Values.{num_value, bytes_value, deadline_value};
ghost use Rattle.relay_body.specs.Seen.{seen};

use crate::held::Held;
use dill_base::{Deadline, Errno};
use dill_script::{Bytes, Cond, Num, Relation, Wait};

impl Held {
    /// A number that is written out, or what its register holds.
    pub(crate) fn num_value(&self, value: Num) -> u64
        ensures { result ≡ num_value (seen self.now) value }
    {
        match value {
            Num::Literal(number) => number,
            Num::Register(place) => self.number(place),
        }
    }

    /// Bytes that are written out, or what their register holds.
    pub(crate) fn bytes_value<'a>(&'a self, value: &'a Bytes) -> &'a [u8]
        ensures { result.now ≡ bytes_value (seen self.now) value.now }
    {
        match value {
            Bytes::Literal(bytes) => bytes.as_slice(),
            Bytes::Register(place) => self.bytes(*place),
        }
    }

    /// Until when a call may wait.
    pub(crate) fn deadline_value(&self, value: Wait) -> Deadline
        ensures { result ≡ deadline_value (seen self.now) value }
    {
        match value {
            Wait::Never => Deadline::Never,
            Wait::At(moment) => Deadline::At(self.num_value(moment)),
            Wait::After(span) => Deadline::After(self.num_value(span)),
        }
    }

    /// Whether a condition holds.
    pub(crate) fn holds(&self, cond: &Cond) -> bool
        ensures { result ≡ holds (seen self.now) cond.now }
    {
        match cond {
            Cond::Number(place, relation, value) => {
                compares(*relation, self.number(*place), self.num_value(*value))
            }
            Cond::Same(place, value) => self.bytes(*place) == self.bytes_value(value),
            Cond::Differs(place, value) => self.bytes(*place) != self.bytes_value(value),
            Cond::Err(errno) => is_same_errno(self.err, *errno),
        }
    }
}

/// How two numbers compare.
fn compares(relation: Relation, a: u64, b: u64) -> bool
    ensures { result ≡ compares relation a b }
{
    match relation {
        Relation::Equal => a == b,
        Relation::Unequal => a != b,
        Relation::Less => a < b,
        Relation::AtMost => a <= b,
        Relation::Greater => b < a,
        Relation::AtLeast => b <= a,
    }
}

/// Whether both are the same errno, or both none.
fn is_same_errno(a: Option<Errno>, b: Option<Errno>) -> bool
    ensures { result ≡ is_same_errno a b }
{
    match a {
        Some(a) => match b {
            Some(b) => a.name() == b.name(),
            None => false,
        },
        None => b.is_none(),
    }
}
