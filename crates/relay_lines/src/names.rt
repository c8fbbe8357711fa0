ghost use Rattle.std.specs.Prelude.{◌≡◌, ◌∷◌, []};
ghost use Rattle.dill_script.specs.Numbers.{named, errno_of};
ghost use Rattle.dill_script.specs.Operands.{order_text, mode_text, role_text};
ghost use Rattle.dill_script.specs.Statements.{relation_text};

use dill_base::Errno;
use dill_script::{Mode, Order, Relation, Role};

const ERRNOS: [Errno; 16] = [
    Errno::Ebadf,
    Errno::Enotsup,
    Errno::Einval,
    Errno::Ebusy,
    Errno::Epipe,
    Errno::Econnreset,
    Errno::Emsgsize,
    Errno::Emfile,
    Errno::Enomem,
    Errno::Ecanceled,
    Errno::Etimedout,
    Errno::Eproto,
    Errno::Econnrefused,
    Errno::Eaddrinuse,
    Errno::Eaddrnotavail,
    Errno::Ehostunreach,
];

/// An errno by its name.
pub(crate) fn errno_of(word: &[u8]) -> Option<Errno>
    ensures { result ≡ errno_of word.now }
{
    ERRNOS.iter().copied().find(|errno| errno.name() == word)
}

/// `big` or `little`.
pub(crate) fn order_of(word: &[u8]) -> Option<Order>
    ensures { result ≡ named order_text (Order.Big ∷ Order.Little ∷ []) word.now }
{
    match word {
        b"big" => Some(Order::Big),
        b"little" => Some(Order::Little),
        _ => None,
    }
}

/// `text` or `binary`.
pub(crate) fn mode_of(word: &[u8]) -> Option<Mode>
    ensures { result ≡ named mode_text (Mode.Text ∷ Mode.Binary ∷ []) word.now }
{
    match word {
        b"text" => Some(Mode::Text),
        b"binary" => Some(Mode::Binary),
        _ => None,
    }
}

/// `client` or `server`.
pub(crate) fn role_of(word: &[u8]) -> Option<Role>
    ensures { result ≡ named role_text (Role.Client ∷ Role.Server ∷ []) word.now }
{
    match word {
        b"client" => Some(Role::Client),
        b"server" => Some(Role::Server),
        _ => None,
    }
}

/// A sign of comparing.
pub(crate) fn relation_named(word: &[u8]) -> Option<Relation>
    ensures { result ≡ named relation_text (Relation.Equal ∷ Relation.Unequal ∷ Relation.Less ∷ Relation.AtMost ∷ Relation.Greater ∷ Relation.AtLeast ∷ []) word.now }
{
    match word {
        b"=" => Some(Relation::Equal),
        b"!=" => Some(Relation::Unequal),
        b"<" => Some(Relation::Less),
        b"<=" => Some(Relation::AtMost),
        b">" => Some(Relation::Greater),
        b">=" => Some(Relation::AtLeast),
        _ => None,
    }
}
