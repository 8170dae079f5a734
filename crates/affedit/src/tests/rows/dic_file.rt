/// The lines of a .dic file: the count, and entries with their flags.
pub const ROWS: &str = "
aff WORDCHARS /
dic 3|a\\/b|/c|/d/A
text a/b /c /d a
1 1 10 11 a|1 of 4

dic 0
text a
1 1 0 1 a|1 of 1

# The count of entries: digits of ASCII without a sign, behind blanks. It counts no line.
dic 0
text foo
1 1 0 3 foo|1 of 1

dic  12 words|foo|
text foo words
1 1 4 9 words|1 of 2

aff NEEDAFFIX A
dic 3foo/A|bar|
text foo bar
1 1 0 3 foo|1 of 2

dic \u{feff}1|foo
text foo
0 0 of 1

# Lines behind it, of which blank ones and those that begin with a tab have no entry.
aff NEEDAFFIX A
dic 1\r|foo/A\r|bar\r|
text foo bar
1 1 0 3 foo|1 of 2

aff NEEDAFFIX A
dic 1|foo|bar/A
text foo bar
1 1 4 7 bar|1 of 2

dic 1||| \t |\tfoo|\t|\r|bar|
text foo bar
1 1 0 3 foo|1 of 2

aff NEEDAFFIX A
dic 2|run/A|run/B|run|go/A|go/B
text run go
0 0 of 2

# Where an entry ends: before a tab, and before blanks and a field of two small letters and a colon.
aff WORDCHARS :\u{a0}|NEEDAFFIX A
dic 16|one\ttab|two/AB\tpo:noun|three po:noun|four/BA po:noun is:x|five bar  po:noun|six PO:noun|seven pO:noun|eight p1:noun|nine po noun|ten po|po:noun|foo\u{a0}po:noun|  eleven  |\u{a0}|New York/A|twelve /A
text one|tab|two|three|four|five|six|seven|eight|nine|ten|po:noun|foo\u{a0}po:noun|eleven|New|York|twelve
1 2 0 3 tab|3 0 3 two|5 0 4 four|6 0 4 five|7 0 3 six|8 0 5 seven|9 0 5 eight|10 0 4 nine|11 0 3 ten|15 0 3 New|16 0 4 York|17 0 6 twelve|12 of 17

aff NEEDAFFIX B
dic 2|two/AB\tpo:noun|four/BA po:noun is:x
text two four
1 1 0 3 two|1 4 8 four|2 of 2

# Where its word ends: before the first slash that is not the first character and has no backslash before it.
aff WORDCHARS /\\|NEEDAFFIX B
dic 12|/A/B|km\\/h|lm\\/h/B|a\\\\/b/B|\\/C/B|foo\\|bar\\n/B|/D|x//B|y\\//B|/|//
text /A|km/h|lm/h|a\\/b|/C|foo\\|bar\\n|/D|x|y/|km
1 1 0 2 /A|3 0 4 lm/h|4 0 4 a\\/b|5 0 2 /C|7 0 5 bar\\n|9 0 1 x|10 0 2 y/|11 0 2 km|8 of 11

aff WORDCHARS \\|NEEDAFFIX \u{1f600}
dic 1|\u{e4}\\\u{2019}b/\u{1f600}
text \u{e4}\\\u{2019}b
1 1 0 7 \u{e4}\\\u{2019}b|1 of 1

# Its flags: all that stands behind that slash.
aff NEEDAFFIX B
dic 4|one/|two/A/B|three/B A|four/AA\\/
text one two three four
1 1 4 7 two|1 8 13 three|2 of 4

aff NEEDAFFIX A
dic 4|one/|two/A/B|three/B A|four/AA\\/
text one two three four
1 1 4 7 two|1 8 13 three|1 14 18 four|3 of 4

aff NEEDAFFIX /
dic 4|one/|two/A/B|three/B A|four/AA\\/
text one two three four
1 1 4 7 two|1 14 18 four|2 of 4

aff NEEDAFFIX \\
dic 4|one/|two/A/B|three/B A|four/AA\\/
text one two three four
1 1 14 18 four|1 of 4

# Entries are parted likewise.
aff WORDCHARS /\\12|SFX A Y 1|SFX A 0 1|SFX / Y 1|SFX / 0 2
dic 8|ab|cd/|ef/A/B|gh//A|i\\/j/A\\/|\\//A|k\\\\/A|l\\m\\
text ab ab1 cd cd1 ef ef1 ef2 gh gh1 gh2 gh/ i/j i/j1 i/j2 /1 /2 k\\/A k\\1 l\\m\\
1 1 3 6 ab1|1 10 13 cd1|1 36 39 gh/|1 57 59 /2|1 65 68 k\\1|5 of 19

# The count is digits of ASCII without a sign at the front of the first line.
fault dic 1 BadCount: x|foo
fault dic 1 BadCount: x|work
fault dic 1 BadCount:
fault dic 1 BadCount: |foo
fault dic 1 BadCount: |1
fault dic 1 BadCount: \t1|foo
fault dic 1 BadCount: +1|foo
fault dic 1 BadCount: foo 1|foo
fault dic 1 BadCount: \u{ff11}|foo
fault dic 1 BadCount: \u{feff}
fault dic 1 BadCount: x| po:noun
# An entry without a word.
fault dic 2 EmptyWord: 1| po:noun
fault dic 3 EmptyWord: 1|work| po:noun
fault dic 3 EmptyWord: 1|foo| po:noun|| po:verb|

aff FLAG long|IGNORE -\u{5b0}
# Bytes that are no text are told before all else, and then the lowest line.
fault dic 1 NotUtf8: @xff@
fault dic 3 NotUtf8: x|foo|@xff@|
fault dic 5 NotUtf8: 1|foo/A| po:noun|bar|@xff@|
fault dic 3 NotUtf8: 1|foo|@xff@|bar|@xff@
fault dic 2 EmptyWord: 1| po:noun|foo/A|
fault dic 2 BadFlag: 1|foo/AaB
# Ignored characters go from words and not from flags; where nothing is left of a word, that goes before its flags.
fault dic 2 EmptyWord: 1|--
fault dic 2 EmptyWord: 1|--/abc
fault dic 2 BadFlag: 1|f/abc

# Bytes that are no text.
fault dic 1 NotUtf8: @xff@|
fault dic 3 NotUtf8: x| po:noun|@xff@|
fault dic 3 NotUtf8: 1|a/|@xff@|
# A character that is cut short, and half of a byte order mark.
fault dic 2 NotUtf8: 1\r|a@xe282@\r|
fault dic 1 NotUtf8: @xefbb@|1
";
