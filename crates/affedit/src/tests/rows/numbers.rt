/// Numbers in a text.
pub const ROWS: &str = "
aff WORDCHARS 0123456789.,
dic 0
text 1,000.50 7-8 1..2 1a
1 1 13 17 1..2|1 18 20 1a|2 of 5
";
