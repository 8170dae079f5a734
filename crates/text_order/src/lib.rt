//! Texts in order, each with a value, and those of them that begin alike.
#![tactic(auto)]

ghost use Rattle.std.specs.Prelude.{◌≡◌, ℕ, List, [], ◌∷◌, ◌++◌, length, nat_eq, slice_get};
ghost use Rattle.std.specs.List.{filter};
ghost use Rattle.std.specs.Option.{option_map_or};
ghost use Rattle.std.specs.List.Sorted.{IsNonDecreasingBy};
ghost use Rattle.text_order.specs.TextOrder.{Row, AreInOrder, beginning, having, next_at, next_in};

/// Of the rows whose texts begin with the same characters, and so many, those whose texts go on
/// with this one. They are found by halves, so that it does not matter how many rows there are.
pub fn going_on<V>(rows: &[(Vec<char>, V)], depth: usize, c: char) -> &[(Vec<char>, V)]
    ensures { (all : List (Row V)) (front : List ℕ) → AreInOrder all → length front ≡ depth
        → rows.now ≡ beginning front all → result.now ≡ beginning (front ++ c ∷ []) all }
{
    with_next(rows, depth, c as usize + 1)
}

/// Of the rows whose texts begin with the same characters, and so many, those whose texts have no
/// more.
pub fn ending<V>(rows: &[(Vec<char>, V)], depth: usize) -> &[(Vec<char>, V)]
    ensures { (all : List (Row V)) (front : List ℕ) → AreInOrder all → length front ≡ depth
        → rows.now ≡ beginning front all → result.now ≡ having front all }
{
    with_next(rows, depth, 0)
}

/// The rows in whose texts this comes next. Where that is all of them or none, the first and the
/// last one tell.
fn with_next<V>(rows: &[(Vec<char>, V)], depth: usize, next: usize) -> &[(Vec<char>, V)]
    ensures { IsNonDecreasingBy (next_in depth) rows.now
        → result.now ≡ filter (λ row. nat_eq (next_in depth row) next) rows.now }
{
    let low = next_of(rows, 0, depth);
    let high = next_of(rows, rows.len().saturating_sub(1), depth);
    if low == next && high == next {
        return rows;
    }
    if next < low || high < next {
        return rows.split_at(0).0;
    }
    found_next(rows, depth, next)
}

/// What comes next in the text of the row with a place; 0 where there is no row.
fn next_of<V>(rows: &[(Vec<char>, V)], place: usize, depth: usize) -> usize
    ensures { result ≡ option_map_or (next_in depth) (slice_get rows.now place) 0 }
{
    match rows.get(place) {
        None => 0,
        Some(row) => next_at(row.0.as_slice(), depth),
    }
}

/// The rows in whose texts this comes next, found by halves.
fn found_next<V>(rows: &[(Vec<char>, V)], depth: usize, next: usize) -> &[(Vec<char>, V)]
    ensures { IsNonDecreasingBy (next_in depth) rows.now
        → result.now ≡ filter (λ row. nat_eq (next_in depth row) next) rows.now }
{
    let start = rows.partition_point(|row| next_at(row.0.as_slice(), depth) < next);
    let (_, rest) = rows.split_at(start);
    let end = rest.partition_point(|row| next_at(row.0.as_slice(), depth) <= next);
    let (found, _) = rest.split_at(end);
    found
}

/// The code of the character at a place of a text, and one more; 0 where the text has none there.
fn next_at(text: &[char], place: usize) -> usize
    ensures { result ≡ next_at place text.now }
{
    match text.get(place) {
        None => 0,
        Some(c) => *c as usize + 1,
    }
}
