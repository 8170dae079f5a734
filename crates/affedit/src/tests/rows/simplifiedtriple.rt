/// SIMPLIFIEDTRIPLE: of three equal characters where two parts meet, one is left out.
pub const ROWS: &str = "
aff COMPOUNDFLAG X|CHECKCOMPOUNDTRIPLE|SIMPLIFIEDTRIPLE
dic 2|Schiff/X|fahrt/X
text Schifffahrt Schiffahrt Schifahrt
1 1 0 11 Schifffahrt|1 23 32 Schifahrt|2 of 3
# Without the switch no part is shortened, and without CHECKCOMPOUNDTRIPLE there is nothing to shorten.
aff COMPOUNDFLAG X|CHECKCOMPOUNDTRIPLE
1 1 0 11 Schifffahrt|1 12 22 Schiffahrt|1 23 32 Schifahrt|3 of 3
aff COMPOUNDFLAG X|SIMPLIFIEDTRIPLE
1 1 12 22 Schiffahrt|1 23 32 Schifahrt|2 of 3
# In another case, and behind a part that meets the next one as it is.
aff COMPOUNDFLAG X|CHECKCOMPOUNDTRIPLE|SIMPLIFIEDTRIPLE
text SCHIFFAHRT SCHIFFFAHRT schiffahrt fahrtSchiffahrt Schiffahrtfahrt
1 1 11 22 SCHIFFFAHRT|1 23 33 schiffahrt|2 of 5

# One character at the end of the left part, and two at the front of the right one: `fo` and `oox` write `f` and `oox`.
aff COMPOUNDFLAG X|COMPOUNDMIN 2|CHECKCOMPOUNDTRIPLE|SIMPLIFIEDTRIPLE
dic 2|fo/X|oox/X
text fooox foox fox
1 1 0 5 fooox|1 11 14 fox|2 of 3

# A part keeps a character: before `bbc` the end of `cb` goes, and `c` is left. Of `b` nothing would be left, so that
# `ab`, `b` and `bbc` do not write `abbbc`.
aff COMPOUNDFLAG X|COMPOUNDMIN 1|CHECKCOMPOUNDTRIPLE|SIMPLIFIEDTRIPLE
dic 4|ab/X|b/X|cb/X|bbc/X
text abbbc abcbbc
1 1 0 5 abbbc|1 of 2

# What else forbids that the parts meet forbids the shortened ones too: CHECKCOMPOUNDDUP those that are the same. In
# `baaaa` two parts are shortened, `ba`, `a` and `aa`, and the second and the third are the same.
aff COMPOUNDFLAG X|COMPOUNDMIN 2|CHECKCOMPOUNDTRIPLE|SIMPLIFIEDTRIPLE|CHECKCOMPOUNDDUP
dic 2|aa/X|baa/X
text aaa baaa baaaa
1 1 0 3 aaa|1 9 14 baaaa|2 of 3
aff COMPOUNDFLAG X|COMPOUNDMIN 2|CHECKCOMPOUNDTRIPLE|SIMPLIFIEDTRIPLE
0 0 of 3
# CHECKCOMPOUNDCASE a capital there.
aff COMPOUNDFLAG X|COMPOUNDMIN 2|CHECKCOMPOUNDTRIPLE|SIMPLIFIEDTRIPLE|CHECKCOMPOUNDCASE
dic 4|aB/X|BBc/X|ab/X|bbc/X
text aBBc abbc
1 1 0 4 aBBc|1 of 2
aff COMPOUNDFLAG X|COMPOUNDMIN 2|CHECKCOMPOUNDTRIPLE|SIMPLIFIEDTRIPLE
0 0 of 2
# And a row of CHECKCOMPOUNDPATTERN the parts that it fits, which is told by flags as well.
aff COMPOUNDFLAG X|CHECKCOMPOUNDTRIPLE|SIMPLIFIEDTRIPLE|CHECKCOMPOUNDPATTERN 1|CHECKCOMPOUNDPATTERN ff/A fa
dic 3|Schiff/XA|Griff/X|fahrt/X
text Schiffahrt Griffahrt
1 1 0 10 Schiffahrt|1 of 2

# COMPOUNDMIN counts the characters of the whole part: of `foo` two stand in `fooxa`.
aff COMPOUNDFLAG X|COMPOUNDMIN 3|CHECKCOMPOUNDTRIPLE|SIMPLIFIEDTRIPLE
dic 2|foo/X|oxa/X
text fooxa
0 0 of 1
aff COMPOUNDFLAG X|COMPOUNDMIN 4|CHECKCOMPOUNDTRIPLE|SIMPLIFIEDTRIPLE
1 1 0 5 fooxa|1 of 1

# COMPOUNDWORDMAX counts a shortened part as any other.
aff COMPOUNDFLAG X|COMPOUNDWORDMAX 2|CHECKCOMPOUNDTRIPLE|SIMPLIFIEDTRIPLE
dic 3|Schiff/X|fahrt/X|amt/X
text Schiffahrt Schiffahrtamt
1 1 11 24 Schiffahrtamt|1 of 2
aff COMPOUNDFLAG X|COMPOUNDWORDMAX 3|CHECKCOMPOUNDTRIPLE|SIMPLIFIEDTRIPLE
0 0 of 2

# In a compound rule: it is asked for the flags of both parts, in their order.
aff COMPOUNDRULE 1|COMPOUNDRULE ab|CHECKCOMPOUNDTRIPLE|SIMPLIFIEDTRIPLE
dic 3|Schiff/a|fahrt/b|fest/c
text Schiffahrt Schifffahrt fahrtSchiff Schiffest
1 1 11 22 Schifffahrt|1 23 34 fahrtSchiff|1 35 44 Schiffest|3 of 4

# An entry that keeps its case is no part of a word in another one, shortened or not.
aff COMPOUNDFLAG X|KEEPCASE K|CHECKCOMPOUNDTRIPLE|SIMPLIFIEDTRIPLE
dic 3|schiff/XK|griff/X|fahrt/X
text schiffahrt Schiffahrt SCHIFFAHRT Griffahrt GRIFFAHRT
1 1 11 21 Schiffahrt|1 22 32 SCHIFFAHRT|2 of 5

# A last part that asks for a capital at the front of the word.
aff COMPOUNDFLAG X|FORCEUCASE U|CHECKCOMPOUNDTRIPLE|SIMPLIFIEDTRIPLE
dic 2|schiff/X|fahrt/XU
text schiffahrt Schiffahrt SCHIFFAHRT
1 1 0 10 schiffahrt|1 of 3

# A common misspelling is told of the word as the parts write it, and not of the three characters that are not there.
aff COMPOUNDFLAG X|CHECKCOMPOUNDTRIPLE|SIMPLIFIEDTRIPLE|CHECKCOMPOUNDREP|REP 1|REP ff f
dic 4|Schiff/X|Griff/X|fahrt/X|Schifahrt
text Schiffahrt Griffahrt
1 1 0 10 Schiffahrt|1 of 2
aff COMPOUNDFLAG X|CHECKCOMPOUNDTRIPLE|SIMPLIFIEDTRIPLE|CHECKCOMPOUNDREP|REP 1|REP fff x
dic 4|Schiff/X|Griff/X|fahrt/X|Schixahrt
0 0 of 2
";
