/// ICONV: what is written, converted before it is looked up.
pub const ROWS: &str = "
aff ICONV 3|ICONV \u{2019} '|ICONV ae x|ICONV a y
dic 2|don't|xt
text don\u{2019}t dan\u{2019}t aet
1 1 8 15 dan\u{2019}t|1 of 3

# The rows of ICONV, between those of another table.
aff WORDCHARS ^$-|ICONV 2|BREAK 1|ICONV \u{2019} ' x|BREAK -|ICONV ^a b$
dic 3|don't|b$|foo
text don\u{2019}t ^a foo-foo a$ -foo
1 1 19 21 a$|1 22 26 -foo|2 of 5

# Nothing is ignored in them.
aff IGNORE a-|ICONV 1|ICONV a ab
dic 2|xb|cd
text xa cad
1 1 3 6 cad|1 of 2

# Words as they are looked up.
aff WORDCHARS .~|IGNORE ~|ICONV 2|ICONV \u{2019} '|ICONV \u{df} ss|COMPOUNDFLAG X
dic 3|foo'/X|bar/X|fuss/X
text foo\u{2019}bar foo'bar foo\u{2019}~b~ar barfoo\u{2019}bar barfu\u{df}. fu~\u{df}bar. barbar... bar.bar \
    FOO\u{2019}BAR barfoo\u{2019}
1 1 72 79 bar.bar|1 90 96 barfoo|2 of 10

# The longest pattern, wherever its row stands.
aff ICONV 2|ICONV a y|ICONV ae x
dic 1|xyb
text aeab xb
1 1 5 7 xb|1 of 2

aff ICONV 2|ICONV ae x|ICONV a y
dic 1|xyb
text aeab ya
1 1 5 7 ya|1 of 2

# The first of equally long ones.
aff ICONV 2|ICONV a 1|ICONV a 2
dic 2|1x|2y
text ax ay
1 1 3 5 ay|1 of 2

aff ICONV 3|ICONV a 3|ICONV ae 1|ICONV ae 2
dic 2|13x|23y
text aeax aeay
1 1 5 9 aeay|1 of 2

# What was written is not read again, alone or with what follows.
aff ICONV 3|ICONV a y|ICONV ae x|ICONV y z
dic 1|yxz
text aaey aaez
0 0 of 2

aff ICONV 2|ICONV a b|ICONV bc x
dic 1|bc
text ac bc
1 1 3 5 bc|1 of 2

aff ICONV 1|ICONV a aa
dic 1|aaaa
text aa a
1 1 3 4 a|1 of 2

# Patterns overlap, or end past the end.
aff ICONV 1|ICONV aa x
dic 2|xa|b
text aaa baa
1 1 4 7 baa|1 of 2

aff ICONV 2|ICONV ab 1|ICONV bcd 2
dic 1|1cd
text abcd
0 0 of 1

aff ICONV 1|ICONV abc x
dic 1|ab
text ab abc
1 1 3 6 abc|1 of 2

aff ICONV 2|ICONV abc x|ICONV b y
dic 1|aay
text aab aaabc
1 1 4 9 aaabc|1 of 2

# Patterns that begin alike, and equal ones.
aff ICONV 4|ICONV aaab 1|ICONV aaac 2|ICONV aaad 3|ICONV a x
dic 1|xxx3
text aaaaaad
0 0 of 1

aff ICONV 3|ICONV a 1|ICONV a 1|ICONV a 1
dic 1|11x
text aax
0 0 of 1

aff ICONV 4|ICONV a 1|ICONV aa 2|ICONV aaa 3|ICONV aaaa 4
dic 1|43x
text aaaaaaax
0 0 of 1

aff ICONV 1|ICONV aaaaaaaab 1
dic 1|aaaaaaaa
text aaaaaaaa
0 0 of 1

aff ICONV 3|ICONV aab 1|ICONV aa 2|ICONV aab 3
dic 1|2ab
text aaab
0 0 of 1

# Each word becomes one entry, in one table.
aff ICONV 6|ICONV \u{2019} '|ICONV a y|ICONV ae x|ICONV ae z|ICONV y a|ICONV ss \u{df}
dic 6|don't|dyn't|xyb|ya|\u{df}s|hello
text don\u{2019}t dan\u{2019}t aeab ay sss hello
0 0 of 6
dic 6|dan't|zyb|aa|yy|s\u{df}|sss
1 1 0 7 don\u{2019}t|1 8 15 dan\u{2019}t|1 16 20 aeab|1 21 23 ay|1 24 27 sss|1 28 33 hello|6 of 6

# Texts are literal.
aff WORDCHARS .|ICONV 1|ICONV . x
dic 1|axb
text a.b aab
1 1 4 7 aab|1 of 2

aff ICONV 2|ICONV ^a x|ICONV a$ y
dic 1|a
text a
0 0 of 1

# Characters of several bytes.
aff ICONV 1|ICONV \u{2019} '
dic 1|it's
text it\u{2019}s
0 0 of 1

aff ICONV 1|ICONV ss \u{df}
dic 1|\u{10400}\u{df}
text \u{10400}ss \u{10400}s
1 1 7 12 \u{10400}s|1 of 2

# By ICONV a word may hold a dot where dots are no word characters, or be a dash alone; by IGNORE it may be empty.
aff WORDCHARS 0123456789*,-|FORBIDDENWORD Z|KEEPCASE K|IGNORE *q|SFX S Y 1|SFX S 0 s|ICONV 3|ICONV \u{2019} '|\
    ICONV \u{f6} .|ICONV \u{fc} -|BREAK 1|BREAK -
dic 7|Paris|kg/K|tea/S|bar/S|bars/Z|it's|etc
text Paris PARIS paris kg Kg KG tea teas Tea TEAS tEa bar Bar BAR bars Bars BARS it's it\u{2019}s its t*ea q
1 1 12 17 paris|1 21 23 Kg|1 24 26 KG|1 45 48 tEa|1 61 65 bars|1 66 70 Bars|1 71 75 BARS|1 88 91 its|8 of 22
text tea-bar tea-kg TEA-bar tea-bars tea--bar tea-1 \u{fc}
1 1 23 31 tea-bars|1 32 40 tea--bar|1 41 46 tea-1|1 47 49 \u{fc}|4 of 7
text 1\u{f6}5 1,000-2 \u{f6}5 1\u{f6}\u{f6}5 1\u{f6}5\u{f6} etc etc\u{f6}
1 1 13 16 \u{f6}5|1 17 23 1\u{f6}\u{f6}5|1 24 30 1\u{f6}5\u{f6}|1 35 40 etc\u{f6}|4 of 7

fault aff 3 MissingField: ICONV 2|ICONV a b|ICONV a
fault aff 1 TableShort: ICONV 2|ICONV a b
fault aff 3 Twice: ICONV 1|ICONV a b|ICONV
fault aff 1 BadNumber: ICONV x
fault aff 2 MissingField: ICONV 1|ICONV a
";
