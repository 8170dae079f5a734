//! The least of numbers, where they are there.

ghost use Rattle.std.specs.Prelude.{◌≡◌, true};
ghost use Rattle.compound_words.specs.Counting.{least_of_two, one_more, number_at};

/// The lesser of two numbers, or the one that is there.
pub(crate) fn least(number: Option<usize>, other: Option<usize>) -> Option<usize>
    ensures { result ≡ least_of_two number other }
{
    match (number, other) {
        (Some(a), Some(b)) => { if a <= b { Some(a) } else { Some(b) } }
        (Some(a), None) => Some(a),
        (None, _) => other,
    }
}

/// Whether a number is no more than the other, where that is there.
pub(crate) fn is_at_most(number: Option<usize>, other: Option<usize>) -> bool
    ensures { result ≡ true → least_of_two number other ≡ number }
{
    match (number, other) {
        (_, None) => true,
        (None, Some(_)) => false,
        (Some(a), Some(b)) => a <= b,
    }
}

/// One more.
pub(crate) fn one_more(number: Option<usize>) -> Option<usize>
    ensures { result ≡ one_more number }
{
    let number = number?;
    Some(number.saturating_add(1))
}

/// The number at a place, if there is one.
pub(crate) fn number_at(numbers: &[Option<usize>], place: usize) -> Option<usize>
    ensures { result ≡ number_at numbers.now place }
{
    *numbers.get(place)?
}
