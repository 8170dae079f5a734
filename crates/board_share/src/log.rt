//! The list of events, which exists in the proofs alone: at run time it is their number.

ghost use Rattle.std.specs.Prelude.{◌≡◌, ◌<◌, ◌^◌, ◌++◌, ◌∷◌, [], true, length};
ghost use Rattle.board_share.specs.Logs.{head_of_book};

use logbook::{Gain, Offer, Plain, Play, Rule, Seen, Word};

/// The rule of the number.
pub struct Law;

impl<E> Rule<E, u64> for Law {
    ghost use Rattle.std.specs.Prelude.{[]};
    ghost use base.Fml.{ftrue};
    ghost use Rattle.board_share.specs.Logs.{IsLogKept};

    ghost holds = { λ cells list. IsLogKept cells list };

    ghost first = { [] };

    ghost hinted = { λ value list. Unit {0} };

    ghost shows = { λ list. [] };

    ghost keeps = { λ names list. ftrue };

    ghost moves = { λ ask before after answer. Unit {0} };
}

/// Callers trade nothing.
pub struct Nothing;

impl<E> Gain<E, u64> for Nothing {
    ghost use base.Fml.{ftrue};

    ghost after = { λ names about answer. ftrue };
}

/// The step that adds an entry.
pub struct Add;

impl<E> Play<E, u64> for Add {
    ghost use Rattle.board_share.specs.Logs.{AppendsEntry};

    ghost then = { AppendsEntry };
}

/// What the step asks for: the entry.
impl<E> Plain<E, E, u64> for Add {
    ghost use Rattle.std.specs.Prelude.{None};

    ghost ask = { λ entry. entry };

    ghost state = { λ entry. None };
}

/// Adds an entry behind so many that were seen, and says whether it did. It did not where there are
/// more of them.
pub fn append<E>(
    head: &Word<E, u64, Law>,
    seen: &mut Seen<E, u64, Law>,
    count: u64,
    entry: &E,
) -> bool
    requires head { head.now ≡ head_of_book seen.old.book }
    requires count { count ≡ length seen.old.log }
    requires room { count < 2 ^ 62 }
    ensures book { seen.new.book ≡ seen.old.book }
    ensures added { result ≡ true → seen.new.log ≡ seen.old.log ++ entry.now ∷ [] }
{
    let mut offer: Offer<E, u64, Law, Nothing> = seen.plain::<Nothing, E, Add>(entry);
    let mut pen = seen.no_pen();
    head.compare_exchange::<Add, Nothing>(count, count + 1, seen, &mut offer, &mut pen) == count
}
