/// The lines of a document, and the words in them.
pub const ROWS: &str = "
# Words, and the signs in them and around them.
aff SET UTF-8|# words|WORDCHARS 0123456789
dic 2|hello|2nd
text hello 2nd wrld
1 1 10 14 wrld|1 of 3
text hello|wrld hello
1 2 0 4 wrld|1 of 3
text
0 0 of 0
text don't 'hello' o''o 'tis
1 1 0 5 don't|1 14 15 o|1 17 18 o|1 20 23 tis|4 of 5
text a\u{2019}b \u{2019}hello\u{2019} c\u{2019}
1 1 0 5 a\u{2019}b|1 18 19 c|2 of 3
text he\u{301}llo \u{301} \u{301}x
1 1 0 7 he\u{301}llo|1 11 14 \u{301}x|2 of 2
text \u{10400}\u{1d7d8} \u{43f}\u{440}\u{438}
1 1 0 4 \u{10400}|1 9 15 \u{43f}\u{440}\u{438}|2 of 2
text 12 3a4
1 1 3 6 3a4|1 of 2
text a-b c_d
1 1 0 1 a|1 2 3 b|1 4 5 c|1 6 7 d|4 of 4
text hello'
0 0 of 1
text 2nd'2nd
1 1 0 7 2nd'2nd|1 of 1

# A carriage return ends a line, and a byte order mark at the start is dropped.
aff SET UTF-8|# words|WORDCHARS 0123456789|
dic 2|hello|2nd|
text hello 2nd|
0 0 of 2
text \u{feff}hello\r|\r|wrld\r|
1 3 0 4 wrld|1 of 2
text ||hello\rwrld
1 3 6 10 wrld|1 of 2
text \u{feff}\u{feff}wrld|\u{feff}wrld\r\r|wrld\r
1 1 3 7 wrld|2 3 7 wrld|3 0 4 wrld|3 of 3
";
