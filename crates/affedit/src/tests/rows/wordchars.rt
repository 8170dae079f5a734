/// WORDCHARS: further characters of words.
pub const ROWS: &str = "
aff WORDCHARS -
dic 1|co-op
text co-op -
0 0 of 1

aff WORDCHARS .
dic 1|etc
text etc. a.b
1 1 5 8 a.b|1 of 2

# Word characters end with their field.
aff WORDCHARS 0\u{e9}9 more
dic 2|a0b|a9b
text a0b a9b a1b
1 1 8 9 a|1 10 11 b|2 of 4

# Digits and a dash as characters of words, combining marks, and both apostrophes between two letters.
aff WORDCHARS 09-
dic 0
text a0b a9b a1b|co-op -|90 1|don't 'x' don\u{2019}t|\u{e9} b\u{301}|\u{301}|' - \u{2019}|
1 1 0 3 a0b|1 4 7 a9b|1 8 9 a|1 10 11 b|2 0 5 co-op|4 0 5 don't|4 7 8 x|4 10 17 don\u{2019}t|5 0 2 \u{e9}|5 3 6 b\u{301}|10 of 11

# Dots at the end are dropped where dots are word characters.
aff WORDCHARS 0123456789.|FORBIDDENWORD Z|SFX S Y 1|SFX S 0 s|ICONV 1|ICONV \u{f6} .
dic 4|tea|bar/S|bars/Z|etc
text etc. etc... 1.5. Tea. \u{f6} bars. etd.
1 1 22 24 \u{f6}|1 25 30 bars.|1 31 35 etd.|3 of 7

fault aff 1 MissingField: WORDCHARS \t
fault aff 2 MissingField: WORDCHARS a|WORDCHARS
fault aff 2 Twice: WORDCHARS a|WORDCHARS a
fault aff 1 MissingField: WORDCHARS
";
