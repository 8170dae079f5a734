/// CHECKCOMPOUNDPATTERN: parts that may not meet, by their texts and flags, and what stands in place of these texts.
pub const ROWS: &str = "
# Parts that may not meet, by their texts.
aff COMPOUNDFLAG X|CHECKCOMPOUNDPATTERN 1|REP 1|CHECKCOMPOUNDPATTERN oo ba|REP a b
dic 3|foo/X|bar/X|qux/X
text foobar barfoo fooqux quxbar
1 1 0 6 foobar|1 of 4

# By their flags, of which one may be wanting.
aff COMPOUNDFLAG X|CHECKCOMPOUNDPATTERN 1|CHECKCOMPOUNDPATTERN oo/A ba/B
dic 4|foo/XA|bar/XB|bat/X|boo/X
text foobar foobat boobar boobat
1 1 0 6 foobar|1 of 4
aff COMPOUNDFLAG X|CHECKCOMPOUNDPATTERN 1|CHECKCOMPOUNDPATTERN oo ba/B
1 1 0 6 foobar|1 14 20 boobar|2 of 4
aff COMPOUNDFLAG X|CHECKCOMPOUNDPATTERN 2|CHECKCOMPOUNDPATTERN /A ba|CHECKCOMPOUNDPATTERN boo /B
1 1 0 6 foobar|1 7 13 foobat|1 14 20 boobar|3 of 4
aff COMPOUNDFLAG X|CHECKCOMPOUNDPATTERN 1|CHECKCOMPOUNDPATTERN /A /B
1 1 0 6 foobar|1 of 4

aff FLAG num|COMPOUNDFLAG 1|CHECKCOMPOUNDPATTERN 1|CHECKCOMPOUNDPATTERN oo/65000 ba/20
dic 3|foo/1,65000|bar/1,20|bat/1,2
text foobar foobat
1 1 0 6 foobar|1 of 2

aff AF 2|AF XA|AF X|COMPOUNDFLAG X|CHECKCOMPOUNDPATTERN 1|CHECKCOMPOUNDPATTERN oo/A ba
dic 3|foo/1|bar/2|boo/2
text foobar boobar
1 1 0 6 foobar|1 of 2

# A zero on the left is the entry's word as it is, and on the right a zero.
aff COMPOUNDFLAG X|COMPOUNDPERMITFLAG P|SFX S Y 1|SFX S 0 s/P|CHECKCOMPOUNDPATTERN 1|CHECKCOMPOUNDPATTERN 0 ba
dic 3|foo/XS|bar/X|qux/X
text foobar foosbar fooqux
1 1 0 6 foobar|1 of 3

aff COMPOUNDFLAG X|CHECKCOMPOUNDPATTERN 1|CHECKCOMPOUNDPATTERN 0/A ba
dic 3|foo/XA|qux/X|bar/X
text foobar quxbar
1 1 0 6 foobar|1 of 2

aff WORDCHARS 0|COMPOUNDFLAG X|CHECKCOMPOUNDPATTERN 2|CHECKCOMPOUNDPATTERN oo 0|CHECKCOMPOUNDPATTERN 00 ba
dic 4|foo/X|0ab/X|bar/X|ab0/X
text foo0ab foobar ab0bar
1 1 0 6 foo0ab|1 of 3

# The first slash parts a text, whatever stands before it.
aff WORDCHARS \\|COMPOUNDFLAG X|CHECKCOMPOUNDPATTERN 1|CHECKCOMPOUNDPATTERN oo \\/B
dic 3|foo/X|\\ab/XB|bar/XB
text foo\\ab foobar
1 1 0 6 foo\\ab|1 of 2

# What the left part ends with and the right one begins with: two texts, of one or of two rows.
aff COMPOUNDFLAG X|CHECKCOMPOUNDPATTERN 2|CHECKCOMPOUNDPATTERN oo bar|CHECKCOMPOUNDPATTERN x q
dic 4|foo/X|bar/X|bat/X|qux/X
text foobar foobat barfoo foobarfoo barfoobar quxqux quxfoo fooqux barquxqux FOOBAR
1 1 0 6 foobar|1 21 30 foobarfoo|1 31 40 barfoobar|1 41 47 quxqux|1 62 71 barquxqux|1 72 78 FOOBAR|6 of 10
# A text as long as the part, and a longer one; and texts inside the parts.
aff COMPOUNDFLAG X|CHECKCOMPOUNDPATTERN 4|CHECKCOMPOUNDPATTERN foo bar|CHECKCOMPOUNDPATTERN xfoo bat|\
    CHECKCOMPOUNDPATTERN ar fooq|CHECKCOMPOUNDPATTERN ux bart
text foobar foobat barfoo barfooqux quxbar
1 1 0 6 foobar|1 of 5
aff COMPOUNDFLAG X|CHECKCOMPOUNDPATTERN 3|CHECKCOMPOUNDPATTERN fo ba|CHECKCOMPOUNDPATTERN oo a|\
    CHECKCOMPOUNDPATTERN u ba
0 0 of 5
# Another way to part the word.
aff COMPOUNDFLAG X|COMPOUNDMIN 2|CHECKCOMPOUNDPATTERN 1|CHECKCOMPOUNDPATTERN oo ba
dic 4|foo/X|bar/X|foob/X|ar/X
text foobar foobarfoo foobarbar
0 0 of 3
dic 3|foo/X|bar/X|ar/X
1 1 0 6 foobar|1 7 16 foobarfoo|1 17 26 foobarbar|3 of 3

# By flags of either part or of both, beside another entry of the word without them.
aff COMPOUNDFLAG X|CHECKCOMPOUNDPATTERN 1|CHECKCOMPOUNDPATTERN oo/A ba/B
dic 7|foo/AX|boo/X|bar/XB|bat/X|too/X|too/XA|qux/XAB
text foobar foobat boobar boobat toobar fooqux quxbar quxqux
1 1 0 6 foobar|1 of 8
aff COMPOUNDFLAG X|CHECKCOMPOUNDPATTERN 1|CHECKCOMPOUNDPATTERN oo/A ba
1 1 0 6 foobar|1 7 13 foobat|2 of 8
aff COMPOUNDFLAG X|CHECKCOMPOUNDPATTERN 1|CHECKCOMPOUNDPATTERN oo ba/B
1 1 0 6 foobar|1 14 20 boobar|1 28 34 toobar|3 of 8
# A left text that is empty, and a right one.
aff COMPOUNDFLAG X|CHECKCOMPOUNDPATTERN 1|CHECKCOMPOUNDPATTERN /A ba
1 1 0 6 foobar|1 7 13 foobat|1 42 48 quxbar|3 of 8
aff COMPOUNDFLAG X|CHECKCOMPOUNDPATTERN 1|CHECKCOMPOUNDPATTERN oo /B
1 1 0 6 foobar|1 14 20 boobar|1 28 34 toobar|1 35 41 fooqux|4 of 8
aff COMPOUNDFLAG X|CHECKCOMPOUNDPATTERN 1|CHECKCOMPOUNDPATTERN /A /B
1 1 0 6 foobar|1 35 41 fooqux|1 42 48 quxbar|1 49 55 quxqux|4 of 8
# The first row fits by its texts and not by its flags, and the second fits.
aff COMPOUNDFLAG X|CHECKCOMPOUNDPATTERN 2|CHECKCOMPOUNDPATTERN oo/B ba/A|CHECKCOMPOUNDPATTERN o/A a
0 0 of 8
aff COMPOUNDFLAG X|CHECKCOMPOUNDPATTERN 2|CHECKCOMPOUNDPATTERN oo/B ba/A|CHECKCOMPOUNDPATTERN o/A b
1 1 0 6 foobar|1 7 13 foobat|2 of 8
# The flags of an affix do not count.
aff COMPOUNDFLAG X|COMPOUNDPERMITFLAG P|SFX S Y 1|SFX S 0 s/PA|PFX T Y 1|PFX T 0 ba/PB|CHECKCOMPOUNDPATTERN 2|\
    CHECKCOMPOUNDPATTERN s/A qux|CHECKCOMPOUNDPATTERN x ba/B
dic 4|foo/XS|fos/XA|qux/XT|ban/XBT
text foosqux fosqux quxbaqux quxban quxbaban
1 1 8 14 fosqux|1 24 30 quxban|1 31 39 quxbaban|3 of 5

# `0` is a left part that is its entry's word: as it is, also with affixes that change nothing.
aff COMPOUNDFLAG X|COMPOUNDPERMITFLAG P|NEEDAFFIX N|SFX S Y 1|SFX S 0 s/P|SFX Z Y 1|SFX Z 0 0/P|\
    CHECKCOMPOUNDPATTERN 1|CHECKCOMPOUNDPATTERN 0 ba
dic 4|foo/XS|bar/X|qux/X|hop/XNZS
text foobar foosbar fooqux quxbar barqux hopbar hopsbar hopqux foosquxbar
1 1 0 6 foobar|1 22 28 quxbar|1 36 42 hopbar|1 58 68 foosquxbar|4 of 9
aff COMPOUNDFLAG X|CHECKCOMPOUNDPATTERN 1|CHECKCOMPOUNDPATTERN 0/A ba
dic 3|foo/XA|qux/X|bar/XA
text foobar quxbar barbar fooqux
1 1 0 6 foobar|1 14 20 barbar|2 of 4
aff COMPOUNDFLAG X|CHECKCOMPOUNDPATTERN 1|CHECKCOMPOUNDPATTERN 0 /A
1 1 0 6 foobar|1 7 13 quxbar|1 14 20 barbar|3 of 4
# What is another entry's word is not, where a suffix makes it.
aff COMPOUNDFLAG X|COMPOUNDPERMITFLAG P|SFX S Y 1|SFX S 0 o/P|CHECKCOMPOUNDPATTERN 1|CHECKCOMPOUNDPATTERN 0 ba
dic 3|foo/X|bar/X|fo/S
text foobar barfoo
1 1 0 6 foobar|1 of 2
dic 3|foo/X|bar/X|fo/XS
0 0 of 2

# A third text stands in place of what the row names on both sides.
aff COMPOUNDFLAG X|CHECKCOMPOUNDPATTERN 1|CHECKCOMPOUNDPATTERN a/A u/B o
dic 2|surya/XA|udaya/XB
text suryodaya suryaudaya udayasurya
1 1 10 20 suryaudaya|1 of 3
# One that begins with `#` is none, and what stands behind it is not looked at.
aff COMPOUNDFLAG X|CHECKCOMPOUNDPATTERN 1|CHECKCOMPOUNDPATTERN a/A u/B #o
1 1 0 9 suryodaya|1 10 20 suryaudaya|2 of 3
aff COMPOUNDFLAG X|CHECKCOMPOUNDPATTERN 1|CHECKCOMPOUNDPATTERN a/A u/B # o
1 1 0 9 suryodaya|1 10 20 suryaudaya|2 of 3
aff COMPOUNDFLAG X|CHECKCOMPOUNDPATTERN 1|CHECKCOMPOUNDPATTERN a/A u/B
1 1 0 9 suryodaya|1 10 20 suryaudaya|2 of 3
aff COMPOUNDFLAG X|CHECKCOMPOUNDPATTERN 1|CHECKCOMPOUNDPATTERN a/A u/B o # more
1 1 10 20 suryaudaya|1 of 3
# The text is put only where the row fits, with both flags.
aff COMPOUNDFLAG X|CHECKCOMPOUNDPATTERN 1|CHECKCOMPOUNDPATTERN a/A u/B o
dic 4|surya/XA|udaya/XB|tara/X|uda/X
text suryauda suryoda taraudaya tarodaya
1 1 9 16 suryoda|1 27 35 tarodaya|2 of 4
# It is literal: a slash, a zero and a `#` inside are characters of it.
aff WORDCHARS /0#|COMPOUNDFLAG X|CHECKCOMPOUNDPATTERN 2|CHECKCOMPOUNDPATTERN a/A u/B o/B|CHECKCOMPOUNDPATTERN a e 0
dic 3|surya/XA|udaya/XB|eda/X
text suryo/Bdaya suryodaya sury0da suryda
1 1 12 21 suryodaya|1 30 36 suryda|2 of 4
aff WORDCHARS /0#|COMPOUNDFLAG X|CHECKCOMPOUNDPATTERN 1|CHECKCOMPOUNDPATTERN a u o#
text suryo#daya
0 0 of 1
# No character of it is ignored, so that no written word has it.
aff IGNORE x|COMPOUNDFLAG X|CHECKCOMPOUNDPATTERN 1|CHECKCOMPOUNDPATTERN o b x
dic 2|foo/X|bar/X
text foxar foar
1 1 0 5 foxar|1 6 10 foar|2 of 2

# Longer than both ends, and the same as both: `fo`, `ob` and `ar`, where `foo` and `bar` do not meet as they are.
aff COMPOUNDFLAG X|CHECKCOMPOUNDPATTERN 1|CHECKCOMPOUNDPATTERN o b xyz
dic 2|foo/X|bar/X
text foxyzar foobar barfoo fooxyzbar
1 1 8 14 foobar|1 22 31 fooxyzbar|2 of 4
aff COMPOUNDFLAG X|CHECKCOMPOUNDPATTERN 1|CHECKCOMPOUNDPATTERN o b ob
text foobar
0 0 of 1
# Of two rows that fit each has its text, and a row without one forbids the parts as they are alone.
aff COMPOUNDFLAG X|CHECKCOMPOUNDPATTERN 2|CHECKCOMPOUNDPATTERN o b x|CHECKCOMPOUNDPATTERN oo ba y
text foxar fyr foobar
1 1 10 16 foobar|1 of 3
aff COMPOUNDFLAG X|CHECKCOMPOUNDPATTERN 2|CHECKCOMPOUNDPATTERN oo ba|CHECKCOMPOUNDPATTERN o b x
1 1 6 9 fyr|1 10 16 foobar|2 of 3

# A left part that is its entry's word stays whole: `foo`, `zz` and the `r` of `bar`. `foos` is none.
aff COMPOUNDFLAG X|COMPOUNDPERMITFLAG P|SFX S Y 1|SFX S 0 s/P|CHECKCOMPOUNDPATTERN 1|CHECKCOMPOUNDPATTERN 0 ba zz
dic 2|foo/XS|bar/X
text foozzr foobar foosbar fooszzr barfoo barzzr
1 1 7 13 foobar|1 22 29 fooszzr|2 of 6
# Both parts stay whole where the right text is empty too.
aff COMPOUNDFLAG X|CHECKCOMPOUNDPATTERN 1|CHECKCOMPOUNDPATTERN 0/A /B s
dic 3|foo/XA|bar/XB|qux/X
text foosbar foobar fooqux foosqux quxbar
1 1 8 14 foobar|1 22 29 foosqux|2 of 5
# What is taken off is of the affixed word.
aff COMPOUNDFLAG X|COMPOUNDPERMITFLAG P|SFX S Y 1|SFX S 0 s/P|CHECKCOMPOUNDPATTERN 1|CHECKCOMPOUNDPATTERN s b x
dic 2|foo/XS|bar/X
text fooxar foosbar foobar
1 1 7 14 foosbar|1 of 3

# A part keeps a character: between two joints `bco` has its `c` left, and `bo` nothing. At either end of a word `bo` keeps
# one.
aff COMPOUNDFLAG X|COMPOUNDMIN 2|CHECKCOMPOUNDPATTERN 1|CHECKCOMPOUNDPATTERN o b x
dic 4|foo/X|bo/X|bco/X|bar/X
text foxxar foxcxar foxo bxar
1 1 0 6 foxxar|1 of 4
# Of the three characters of `obo` one joint takes the first two and the other the last two.
aff COMPOUNDFLAG X|CHECKCOMPOUNDPATTERN 1|CHECKCOMPOUNDPATTERN bo ob y
dic 3|abo/X|obo/X|oba/X
text ayo oya ayya ayoya
1 1 8 12 ayya|1 13 18 ayoya|2 of 4

# COMPOUNDMIN counts the characters of the whole part, and none of the text that is put.
aff COMPOUNDFLAG X|CHECKCOMPOUNDPATTERN 1|CHECKCOMPOUNDPATTERN o b xyz
dic 3|foo/X|bar/X|ba/X
text foxyzar foxyza
1 1 8 14 foxyza|1 of 2
aff COMPOUNDFLAG X|COMPOUNDMIN 2|CHECKCOMPOUNDPATTERN 1|CHECKCOMPOUNDPATTERN o b xyz
0 0 of 2
aff COMPOUNDFLAG X|COMPOUNDMIN 4|CHECKCOMPOUNDPATTERN 1|CHECKCOMPOUNDPATTERN o b xyz
1 1 0 7 foxyzar|1 8 14 foxyza|2 of 2
# COMPOUNDWORDMAX counts parts.
aff COMPOUNDFLAG X|COMPOUNDWORDMAX 2|CHECKCOMPOUNDPATTERN 1|CHECKCOMPOUNDPATTERN o b x
dic 3|foo/X|bco/X|bar/X
text foxar foxcxar
1 1 6 13 foxcxar|1 of 2
aff COMPOUNDFLAG X|COMPOUNDWORDMAX 3|CHECKCOMPOUNDPATTERN 1|CHECKCOMPOUNDPATTERN o b x
0 0 of 2
# The parts of a rule are written together so too, and the rule matches them as before.
aff COMPOUNDRULE 1|COMPOUNDRULE ab*c|CHECKCOMPOUNDPATTERN 1|CHECKCOMPOUNDPATTERN o b x
dic 3|foo/a|bco/b|bar/c
text foxar foxcxar foxcxcxar foobar barfoo foxco
1 1 24 30 foobar|1 31 37 barfoo|1 38 43 foxco|3 of 6

# A common misspelling is told of the word as the parts write it.
aff COMPOUNDFLAG X|CHECKCOMPOUNDREP|REP 1|REP xa ka|CHECKCOMPOUNDPATTERN 1|CHECKCOMPOUNDPATTERN o b x
dic 3|foo/X|bar/X|fokar
text foxar
1 1 0 5 foxar|1 of 1
aff COMPOUNDFLAG X|CHECKCOMPOUNDREP|REP 1|REP oob ok|CHECKCOMPOUNDPATTERN 1|CHECKCOMPOUNDPATTERN o b x
0 0 of 1

# In another case: an entry that keeps its case is no part, and a last one may ask for a capital at the front.
aff COMPOUNDFLAG X|KEEPCASE K|CHECKCOMPOUNDPATTERN 1|CHECKCOMPOUNDPATTERN o b x
dic 3|foo/XK|boo/X|bar/X
text foxar Foxar FOXAR boxar Boxar BOXAR
1 1 6 11 Foxar|1 12 17 FOXAR|2 of 6
aff COMPOUNDFLAG X|FORCEUCASE U|CHECKCOMPOUNDPATTERN 1|CHECKCOMPOUNDPATTERN o b x
dic 2|foo/X|bar/XU
text foxar Foxar FOXAR
1 1 0 5 foxar|1 of 3
dic 2|Foo/X|bar/X
1 1 0 5 foxar|1 of 3

# What a switch forbids of the parts forbids that they are written so: CHECKCOMPOUNDDUP those that are the same.
aff COMPOUNDFLAG X|CHECKCOMPOUNDDUP|CHECKCOMPOUNDPATTERN 1|CHECKCOMPOUNDPATTERN o o x
dic 2|oto/X|ono/X
text otxto otxno
1 1 0 5 otxto|1 of 2
aff COMPOUNDFLAG X|CHECKCOMPOUNDPATTERN 1|CHECKCOMPOUNDPATTERN o o x
0 0 of 2
# CHECKCOMPOUNDCASE a capital of theirs, and none of the text that is put.
aff COMPOUNDFLAG X|CHECKCOMPOUNDCASE|CHECKCOMPOUNDPATTERN 1|CHECKCOMPOUNDPATTERN o B x
dic 2|foo/X|Bar/X
text foxar
1 1 0 5 foxar|1 of 1
aff COMPOUNDFLAG X|CHECKCOMPOUNDPATTERN 1|CHECKCOMPOUNDPATTERN o B x
0 0 of 1
aff COMPOUNDFLAG X|CHECKCOMPOUNDCASE|CHECKCOMPOUNDPATTERN 1|CHECKCOMPOUNDPATTERN o b X
dic 2|foo/X|bar/X
text foXar foxar FOXAR
1 1 6 11 foxar|1 12 17 FOXAR|2 of 3
# CHECKCOMPOUNDTRIPLE three equal characters, and then SIMPLIFIEDTRIPLE leaves out none, since the row fits.
aff COMPOUNDFLAG X|CHECKCOMPOUNDTRIPLE|SIMPLIFIEDTRIPLE|CHECKCOMPOUNDPATTERN 1|CHECKCOMPOUNDPATTERN oo o y
dic 2|foo/X|oxa/X
text fyxa fooxa foooxa
1 1 0 4 fyxa|1 5 10 fooxa|1 11 17 foooxa|3 of 3
aff COMPOUNDFLAG X|SIMPLIFIEDTRIPLE|CHECKCOMPOUNDPATTERN 1|CHECKCOMPOUNDPATTERN oo o y
1 1 5 10 fooxa|1 11 17 foooxa|2 of 3

# Two texts, each with exactly one flag behind its first slash, if it has a slash.
fault aff 1 MissingField: CHECKCOMPOUNDPATTERN
fault aff 1 BadNumber: CHECKCOMPOUNDPATTERN x
fault aff 1 BadNumber: CHECKCOMPOUNDPATTERN 4294967296
fault aff 1 TooMany: CHECKCOMPOUNDPATTERN 65001|CHECKCOMPOUNDPATTERN a
fault aff 1 TableShort: CHECKCOMPOUNDPATTERN 2|CHECKCOMPOUNDPATTERN a b
fault aff 2 MissingField: CHECKCOMPOUNDPATTERN 1|CHECKCOMPOUNDPATTERN
fault aff 2 MissingField: CHECKCOMPOUNDPATTERN 1|CHECKCOMPOUNDPATTERN oo
fault aff 2 MissingField: CHECKCOMPOUNDPATTERN 1|CHECKCOMPOUNDPATTERN oo/ab
fault aff 2 BadFlag: CHECKCOMPOUNDPATTERN 1|CHECKCOMPOUNDPATTERN oo/ab ba
fault aff 2 BadFlag: CHECKCOMPOUNDPATTERN 1|CHECKCOMPOUNDPATTERN oo ba/ab
fault aff 2 BadFlag: CHECKCOMPOUNDPATTERN 1|CHECKCOMPOUNDPATTERN oo/ ba
fault aff 2 BadFlag: CHECKCOMPOUNDPATTERN 1|CHECKCOMPOUNDPATTERN oo ba/
fault aff 2 BadFlag: CHECKCOMPOUNDPATTERN 1|CHECKCOMPOUNDPATTERN / ba
fault aff 2 BadFlag: CHECKCOMPOUNDPATTERN 1|CHECKCOMPOUNDPATTERN oo/a/b ba
fault aff 2 BadFlag: CHECKCOMPOUNDPATTERN 1|CHECKCOMPOUNDPATTERN o\\/oo ba
fault aff 4 BadFlag: CHECKCOMPOUNDPATTERN 3|CHECKCOMPOUNDPATTERN oo/A ba|CHECKCOMPOUNDPATTERN /A 0/B|CHECKCOMPOUNDPATTERN a/AB b
fault aff 3 BadFlag: FLAG num|CHECKCOMPOUNDPATTERN 1|CHECKCOMPOUNDPATTERN a/65001 b
fault aff 3 BadFlag: FLAG long|CHECKCOMPOUNDPATTERN 1|CHECKCOMPOUNDPATTERN a/Aa b/A
fault aff 4 BadFlag: AF 1|AF AB|CHECKCOMPOUNDPATTERN 1|CHECKCOMPOUNDPATTERN a/12 b
# A third text mends nothing of the others, has no flag, and is none in the header or past the rows.
fault aff 2 BadFlag: CHECKCOMPOUNDPATTERN 1|CHECKCOMPOUNDPATTERN oo/ab ba oba
fault aff 2 BadFlag: CHECKCOMPOUNDPATTERN 1|CHECKCOMPOUNDPATTERN oo/ab ba #
fault aff 3 MissingField: CHECKCOMPOUNDPATTERN 1|CHECKCOMPOUNDPATTERN oo ba oba/ab|WARN
fault aff 3 MissingField: CHECKCOMPOUNDPATTERN 1|CHECKCOMPOUNDPATTERN oo ba /|WARN
fault aff 2 MissingField: CHECKCOMPOUNDPATTERN 1 a b|CHECKCOMPOUNDPATTERN oo
fault aff 3 Twice: CHECKCOMPOUNDPATTERN 1|CHECKCOMPOUNDPATTERN oo ba|CHECKCOMPOUNDPATTERN oo ba oba
fault aff 2 Twice: CHECKCOMPOUNDPATTERN 0|CHECKCOMPOUNDPATTERN oo/ab
# The lower line.
fault aff 2 BadFlag: CHECKCOMPOUNDPATTERN 2|CHECKCOMPOUNDPATTERN oo/ab ba|CHECKCOMPOUNDPATTERN oo ba oba
fault aff 4 MissingField: CHECKCOMPOUNDPATTERN 2|CHECKCOMPOUNDPATTERN oo ba|CHECKCOMPOUNDPATTERN oo ba oba|WARN
";
