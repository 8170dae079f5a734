/// REP: the lines of its table. What its pairs do stands in `checkcompoundrep`.
pub const ROWS: &str = "
# A row has two texts.
fault aff 3 MissingField: REP 2|REP a b|REP c
fault aff 1 TableShort: REP 1
";
