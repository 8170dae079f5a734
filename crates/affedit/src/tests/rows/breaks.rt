/// BREAK: where words are broken, and which pieces are asked for.
pub const ROWS: &str = "
aff WORDCHARS -
dic 2|foo|bar
text foo-bar -foo foo- foo--bar foo-baz
1 1 27 34 foo-baz|1 of 5

aff WORDCHARS -|BREAK 1|BREAK -
dic 2|foo|bar
text foo-bar -foo foo- foo--bar foo-baz
1 1 8 12 -foo|1 13 17 foo-|1 18 26 foo--bar|1 27 34 foo-baz|4 of 5

aff WORDCHARS -|BREAK 0
dic 2|foo|bar
text foo-bar -foo foo- foo--bar foo-baz
1 1 0 7 foo-bar|1 8 12 -foo|1 13 17 foo-|1 18 26 foo--bar|1 27 34 foo-baz|5 of 5

aff WORDCHARS -
dic 2|foo|bar
text foo - bar
0 0 of 2

# A row of one text, and a second field that is none of it.
aff WORDCHARS -|BREAK 1|BREAK - x
dic 2|foo|bar
text foo-bar -foo
1 1 8 12 -foo|1 of 2

# What is an anchor, and what is literal.
aff WORDCHARS -|BREAK 3|BREAK ^-|BREAK -$|BREAK ^-$
dic 2|foo|bar
text -foo foo- -foo- foo-bar
1 1 16 23 foo-bar|1 of 4

aff WORDCHARS ^$|BREAK 2|BREAK ^|BREAK $
dic 2|foo|bar
text foo^bar foo$bar ^foo foo$
1 1 16 20 ^foo|1 21 25 foo$|2 of 4

aff WORDCHARS ^$|BREAK 3|BREAK ^$|BREAK ^^|BREAK $$
dic 2|foo|bar
text $foo ^foo foo$ foo^ foo$bar foo^bar
1 1 15 19 foo^|1 20 27 foo$bar|1 28 35 foo^bar|3 of 6

aff WORDCHARS ^$|BREAK 2|BREAK a^|BREAK $a
dic 2|foo|bor
text fooa^bor foo$abor foo^bor foobor
1 1 18 25 foo^bor|1 26 32 foobor|2 of 4

aff BREAK 1|BREAK a b
dic 1|foo
text fooafoo foobfoo
1 1 8 15 foobfoo|1 of 2

# Compounds between break points.
aff WORDCHARS -|COMPOUNDFLAG X|ONLYINCOMPOUND O
dic 3|foo/X|bar/X|baz/XO
text foobar-barfoo foobar-baz foobaz-foo -foobar foobar- foo-bar Foobar-FOOBAR foobar--foo foobar-foobat bazbaz-baz
1 1 14 24 foobar-baz|1 86 99 foobar-foobat|1 100 110 bazbaz-baz|3 of 10
# Parts with a dash at their ends, with and without break points.
aff WORDCHARS -|BREAK 0|COMPOUNDFLAG X
dic 3|foo-/X|bar/X|-qux/X
text foo-bar foo--qux bar-qux bar-quxbar foo bar- foobar bar-bar bar-foo-
1 1 36 39 foo|1 40 44 bar-|1 45 51 foobar|1 52 59 bar-bar|1 60 68 bar-foo-|5 of 9
aff WORDCHARS -|COMPOUNDFLAG X
1 1 36 39 foo|1 45 51 foobar|2 of 9
# A compound that is barred is not broken.
aff WORDCHARS -|COMPOUNDFLAG X|FORBIDDENWORD Z
dic 5|foo/X|bar/X|foobar/Z|foo-/X|foo-bar/Z
text foobar-foo foo-bar foo-foo barfoo-bar foo-foobar bar-foobar barfoobar-foo
1 1 0 10 foobar-foo|1 11 18 foo-bar|1 49 59 bar-foobar|3 of 7

# A pattern without an anchor breaks between two pieces, and each piece is a word, or broken again.
aff WORDCHARS -|BREAK 1|BREAK -
dic 2|tea|cup
text tea-cup -tea tea- tea-cop cop-cup tea-tea-cup tea--cup
1 1 8 12 -tea|1 13 17 tea-|1 18 25 tea-cop|1 26 33 cop-cup|1 46 54 tea--cup|5 of 7

# One with an anchor at the front is dropped there, and one with an anchor at the end there; one with both breaks nothing.
aff WORDCHARS -|BREAK 1|BREAK ^-
dic 2|tea|cup
text tea-cup -tea tea- --tea -tea-
1 1 0 7 tea-cup|1 13 17 tea-|1 24 29 -tea-|3 of 5
aff WORDCHARS -|BREAK 1|BREAK -$
text tea-cup -tea tea- tea-- -tea-
1 1 0 7 tea-cup|1 8 12 -tea|1 24 29 -tea-|3 of 5
aff WORDCHARS -|BREAK 1|BREAK ^-$
text tea-cup -tea tea- -tea-
1 1 0 7 tea-cup|1 8 12 -tea|1 13 17 tea-|1 18 23 -tea-|4 of 4

# Without the option a dash breaks everywhere.
aff WORDCHARS -
dic 2|tea|cup
text --tea-cup--- --tea-cop--- tea--cup
1 1 13 25 --tea-cop---|1 of 3

# What is barred is not broken, the word or a piece of it; the piece may be broken at another place.
aff WORDCHARS -|FORBIDDENWORD Z|BREAK 1|BREAK -
dic 7|tea|cup|cup/Z|a|b|c|b-c/Z
text tea-cup cup a-b-c c-b-c b-c
1 1 0 7 tea-cup|1 8 11 cup|1 24 27 b-c|3 of 5
dic 5|a|b|c|a-b/Z|b-c/Z
text a-b-c
1 1 0 5 a-b-c|1 of 1
dic 3|a|b-c|a-b/Z
text a-b-c a-b
1 1 6 9 a-b|1 of 2
dic 3|a-b|c|a/Z
text a-b-c a-b a
1 1 10 11 a|1 of 3

# The dash breaks between two pieces, and is dropped at the end. What is barred is no piece either, and no piece may be empty.
aff WORDCHARS -|FORBIDDENWORD Z|BREAK 2|BREAK -|BREAK -$
dic 7|tea|cup|cup/Z|a|b|c|b-c/Z
text tea cup cop tea-tea tea-cup tea-cop a-b-c b-c tea- tea-- -tea
1 1 4 7 cup|1 8 11 cop|1 20 27 tea-cup|1 28 35 tea-cop|1 42 45 b-c|1 57 61 -tea|6 of 11

# Each place and each pattern is tried, where texts overlap and where one is longer than the word.
aff BREAK 1|BREAK aa
dic 2|b|ab
text baaab baab aab
1 1 11 14 aab|1 of 3
dic 2|ba|b
1 1 11 14 aab|1 of 3

aff BREAK 2|BREAK ab|BREAK ba
text xabay
dic 2|x|ay
0 0 of 1
dic 2|xa|y
0 0 of 1
dic 2|x|y
1 1 0 5 xabay|1 of 1

aff WORDCHARS +-|BREAK 3|BREAK +|BREAK -|BREAK --
dic 2|a|b
text a-b a+b a+b-a a--b a+-b a---b
1 1 19 23 a+-b|1 24 29 a---b|2 of 6

aff WORDCHARS -|BREAK 3|BREAK ---|BREAK ^---|BREAK ---$
dic 2|a|b
text a- -a a---b ---a b--- a--b
1 1 0 2 a-|1 3 5 -a|1 22 26 a--b|3 of 6

# Characters of several bytes.
aff WORDCHARS \u{2013}|BREAK 1|BREAK \u{2013}
dic 2|\u{e9}t\u{e9}|b
text \u{e9}t\u{e9}\u{2013}b b\u{2013}\u{e9}t\u{e9} \u{e9}t\u{e9}\u{2013}c
1 1 20 29 \u{e9}t\u{e9}\u{2013}c|1 of 3

# Equal patterns, and equal texts with other anchors, whichever stands first.
dic 2|tea|cup
aff WORDCHARS -|BREAK 3|BREAK -|BREAK -|BREAK ^-
text tea-cup -tea tea-
1 1 13 17 tea-|1 of 3
aff WORDCHARS -|BREAK 3|BREAK ^-|BREAK -|BREAK ^-
1 1 13 17 tea-|1 of 3
aff WORDCHARS -|BREAK 3|BREAK -$|BREAK -|BREAK ^-
0 0 of 3
aff WORDCHARS -|BREAK 3|BREAK ^-|BREAK -$|BREAK ^-$
1 1 0 7 tea-cup|1 of 3

# Patterns that begin alike.
aff BREAK 4|BREAK a|BREAK aa|BREAK aaa|BREAK aaaa
dic 2|b|c
text bac baaac baaaac baaaaac
1 1 17 24 baaaaac|1 of 4

aff BREAK 2|BREAK aaaaaaaab|BREAK aaac
dic 2|b|c
text baaac baaacc
1 1 0 5 baaac|1 of 2

aff BREAK 3|BREAK aab|BREAK aac|BREAK aad
dic 2|x|y
text xaacy xaady xaaey xaay
1 1 12 17 xaaey|1 18 22 xaay|2 of 4

aff BREAK 4|BREAK ab|BREAK abc|BREAK ^abc|BREAK abc$
dic 2|x|y
text xabcy abcx xabc xaby abx xab
1 1 21 24 abx|1 25 28 xab|2 of 6

fault aff 3 MissingField: BREAK 2|BREAK -|BREAK
fault aff 1 TableShort: BREAK 1
fault aff 2 Twice: BREAK 0|BREAK -
fault aff 1 MissingField: BREAK
fault aff 2 MissingField: BREAK 1|BREAK
";
