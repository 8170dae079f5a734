/// FLAG: flags of each type.
pub const ROWS: &str = "
# Flags without a meaning change nothing.
dic 1|work/A
text work
0 0 of 1

# Types of flags, in any case, with fields and blanks beside them.
aff \u{feff}SET utf-8\r|FLAG UTF-8\r|NEEDAFFIX \u{2019}|
dic 2|foo/a\u{2019}|bar/a
text foo bar
1 1 0 3 foo|1 of 2

aff FLAG utf-8|NEEDAFFIX \u{e4}
dic 1|foo/\u{e4}A
text foo
1 1 0 3 foo|1 of 1

aff FLAG LONG more fields|NEEDAFFIX Aa
dic 3|foo/BbAa|bar/Bb|baz/aABb
text foo bar baz
1 1 0 3 foo|1 of 3

aff  FLAG\tnum |NEEDAFFIX 5
dic 4|foo/300,5,300|bar/300|baz/|qux/55
text foo bar baz qux
1 1 0 3 foo|1 of 4

# Flags that other directives give a meaning, before the line FLAG too.
aff FORBIDDENWORD 2|WARN 65000|ONLYINCOMPOUND 7|FLAG num|FORBIDWARN
dic 5|foo/2|bar/65000|baz/7|qux/1|bar
text foo baz qux
1 1 0 3 foo|1 4 7 baz|2 of 3

aff FLAG long|FORBIDDENWORD Zz|NEEDAFFIX Na
dic 4|foo/Zz|bar/Na|baz/Nb|qux/aN
text foo bar baz qux
1 1 0 3 foo|1 4 7 bar|2 of 4

# Each class adds a digit. A flag has one to four bytes; a comma, a digit and a space are flags too; repeats are none.
aff WORDCHARS 12345678|SFX A Y 1|SFX A 0 1|SFX z Y 1|SFX z 0 2|SFX \u{1f600} Y 1|SFX \u{1f600} 0 3|SFX \u{e4} Y 1|\
    SFX \u{e4} 0 4|SFX \u{2019} Y 1|SFX \u{2019} 0 5|SFX a Y 1|SFX a 0 6|SFX , Y 1|SFX , 0 7|SFX 1 Y 1|SFX 1 0 8
dic 5|b/|c/A|d/zAzA|f/\u{1f600}\u{e4}\u{2019}a|g/, 1
text b b1 c1 c2 c6 d1 d2 d3 d6 f1 f2 f3 f4 f5 f6 g1 g7 g8
1 1 2 4 b1|1 8 10 c2|1 11 13 c6|1 20 22 d3|1 23 25 d6|1 26 28 f1|1 29 31 f2|1 44 46 g1|8 of 18

# Flags of the type UTF-8 are the same.
aff FLAG UTF-8|WORDCHARS 12345678|SFX A Y 1|SFX A 0 1|SFX z Y 1|SFX z 0 2|SFX \u{1f600} Y 1|SFX \u{1f600} 0 3|\
    SFX \u{e4} Y 1|SFX \u{e4} 0 4|SFX \u{2019} Y 1|SFX \u{2019} 0 5|SFX a Y 1|SFX a 0 6|SFX , Y 1|SFX , 0 7|\
    SFX 1 Y 1|SFX 1 0 8
dic 5|b/|c/A|d/zAzA|f/\u{1f600}\u{e4}\u{2019}a|g/, 1
text b b1 c1 c2 c6 d1 d2 d3 d6 f1 f2 f3 f4 f5 f6 g1 g7 g8
1 1 2 4 b1|1 8 10 c2|1 11 13 c6|1 20 22 d3|1 23 25 d6|1 26 28 f1|1 29 31 f2|1 44 46 g1|8 of 18

# Pairs, in which the order of the two characters counts.
aff FLAG long|WORDCHARS 12345|SFX Aa Y 1|SFX Aa 0 1|SFX aA Y 1|SFX aA 0 2|SFX \u{e4}\u{1f600} Y 1|\
    SFX \u{e4}\u{1f600} 0 3|SFX \u{1f600}\u{e4} Y 1|SFX \u{1f600}\u{e4} 0 4|SFX AA Y 1|SFX AA 0 5
dic 5|b/|c/Aa|d/aAAa|f/AaAa|g/\u{e4}\u{1f600}
text b b1 c1 c2 c5 d1 d2 d3 d5 f1 f2 f5 g1 g3 g4
1 1 2 4 b1|1 8 10 c2|1 11 13 c5|1 20 22 d3|1 23 25 d5|1 29 31 f2|1 32 34 f5|1 35 37 g1|1 41 43 g4|9 of 15
fault dic 2 BadFlag: 1|foo/A
fault dic 2 BadFlag: 1|foo/Aa\u{e4}

# Numbers, in any order.
aff FLAG num|WORDCHARS 12345|SFX 1 Y 1|SFX 1 0 1|SFX 7 Y 1|SFX 7 0 2|SFX 65000 Y 1|SFX 65000 0 3|SFX 300 Y 1|\
    SFX 300 0 4|SFX 5 Y 1|SFX 5 0 5
dic 5|b/|c/1|d/007|f/65000|g/300,5,300,5
text b b1 c1 c2 d1 d2 f1 f3 g1 g2 g3 g4 g5
1 1 2 4 b1|1 8 10 c2|1 11 13 d1|1 17 19 f1|1 23 25 g1|1 26 28 g2|1 29 31 g3|7 of 13
# The last three are a wide digit one, a number of 20 digits, and 2^64 + 1.
fault dic 2 BadFlag: 1|foo/2,1,0
fault dic 2 BadFlag: 1|foo/0
fault dic 2 BadFlag: 1|foo/65001
fault dic 2 BadFlag: 1|foo/65001,1
fault dic 2 BadFlag: 1|foo/,
fault dic 2 BadFlag: 1|foo/1,
fault dic 2 BadFlag: 1|foo/,1
fault dic 2 BadFlag: 1|foo/1,,2
fault dic 2 BadFlag: 1|foo/1, 2
fault dic 2 BadFlag: 1|foo/+1
fault dic 2 BadFlag: 1|foo/-1
fault dic 2 BadFlag: 1|foo/1.5
fault dic 2 BadFlag: 1|foo/A
fault dic 2 BadFlag: 1|foo/\u{ff11}
fault dic 2 BadFlag: 1|foo/99999999999999999999
fault dic 2 BadFlag: 1|foo/18446744073709551617

# Of nine classes an entry allows three.
aff FLAG num|SFX 2 Y 1|SFX 2 0 b|SFX 3 Y 1|SFX 3 0 c|SFX 4 Y 1|SFX 4 0 d|SFX 5 Y 1|SFX 5 0 e|SFX 6 Y 1|SFX 6 0 f|\
    SFX 7 Y 1|SFX 7 0 g|SFX 8 Y 1|SFX 8 0 h|SFX 9 Y 1|SFX 9 0 i|SFX 10 Y 1|SFX 10 0 j
dic 2|to/9,3,5|at
text tob toc tod toe tof tog toh toi toj atc ate ati
1 1 0 3 tob|1 8 11 tod|1 16 19 tof|1 20 23 tog|1 24 27 toh|1 32 35 toj|1 36 39 atc|1 40 43 ate|1 44 47 ati|9 of 12

# One flag of each type.
aff NEEDAFFIX A
dic 2|foo/A|bar/AB
text foo bar
1 1 0 3 foo|1 4 7 bar|2 of 2
fault aff 1 BadFlag: NEEDAFFIX AA

aff FLAG UTF-8|NEEDAFFIX \u{e4}
dic 2|foo/\u{e4}|bar/b
text foo bar
1 1 0 3 foo|1 of 2
fault aff 2 BadFlag: FLAG UTF-8|NEEDAFFIX \u{e4}b

aff FLAG long|NEEDAFFIX A\u{e4}
dic 2|foo/A\u{e4}|bar/\u{e4}A
text foo bar
1 1 0 3 foo|1 of 2
fault aff 2 BadFlag: FLAG long|NEEDAFFIX A
fault aff 2 BadFlag: FLAG long|NEEDAFFIX AaA
fault aff 2 BadFlag: FLAG long|NEEDAFFIX AaAa

aff FLAG num|NEEDAFFIX 05|FORBIDDENWORD 65000
dic 3|foo/5|bar/65000|baz/6
text foo bar baz
1 1 0 3 foo|1 4 7 bar|2 of 3
fault aff 2 BadFlag: FLAG num|NEEDAFFIX 0
fault aff 2 BadFlag: FLAG num|NEEDAFFIX 65001
fault aff 2 BadFlag: FLAG num|NEEDAFFIX 5,5
fault aff 2 BadFlag: FLAG num|NEEDAFFIX 5,

fault aff 1 MissingField: FLAG
fault aff 1 OtherFlag: FLAG utf8
fault aff 2 Twice: FLAG long|FLAG long
fault aff 2 MissingField: FLAG num|FLAG
fault aff 2 Twice: FLAG num|FLAG other
fault aff 1 OtherFlag: FLAG wide
fault aff 2 MissingField: FLAG long|FLAG
fault aff 2 Twice: FLAG num|FLAG num
fault aff 2 Twice: FLAG num|FLAG wide

aff FLAG num
fault dic 2 BadFlag: 1|foo/0
fault dic 2 BadFlag: 1|foo/65001
fault dic 2 BadFlag: 1|foo/5,
fault dic 2 BadFlag: 1|foo/A

aff FLAG long
fault dic 2 BadFlag: 1|foo/abc
";
