/// COMPOUNDWORDMAX: how many parts a compound may have.
pub const ROWS: &str = "
# How many parts there may be.
aff COMPOUNDFLAG X|COMPOUNDWORDMAX 2
dic 2|foo/X|bar/X
text foobar foobarfoo
1 1 7 16 foobarfoo|1 of 2
aff COMPOUNDFLAG X|COMPOUNDWORDMAX 3
0 0 of 2
aff COMPOUNDFLAG X|COMPOUNDWORDMAX 4294967295
0 0 of 2
aff COMPOUNDFLAG X|COMPOUNDWORDMAX 0
1 1 0 6 foobar|1 7 16 foobarfoo|2 of 2

# At most so many parts.
aff COMPOUNDFLAG X|COMPOUNDMIN 2|COMPOUNDWORDMAX 2
dic 3|foo/X|bar/X|ox/X
text foobar foobarox
1 1 7 15 foobarox|1 of 2
# Words that two parts write, and three.
aff COMPOUNDFLAG X|COMPOUNDWORDMAX 2
dic 4|foo/X|bar/X|qux/X|foobar/X
text foobar foobarqux quxfoobar barquxfoo foobarfoobar foobarquxfoobar quxquxqux
1 1 27 36 barquxfoo|1 50 65 foobarquxfoobar|1 66 75 quxquxqux|3 of 7
aff COMPOUNDFLAG X|COMPOUNDWORDMAX 3
0 0 of 7
aff COMPOUNDFLAG X|COMPOUNDWORDMAX 1
1 1 7 16 foobarqux|1 17 26 quxfoobar|1 27 36 barquxfoo|1 37 49 foobarfoobar|1 50 65 foobarquxfoobar|\
    1 66 75 quxquxqux|6 of 7
aff COMPOUNDFLAG X|COMPOUNDWORDMAX 0
1 1 7 16 foobarqux|1 17 26 quxfoobar|1 27 36 barquxfoo|1 37 49 foobarfoobar|1 50 65 foobarquxfoobar|\
    1 66 75 quxquxqux|6 of 7
# Where few parts may not meet it takes more.
aff COMPOUNDFLAG X|COMPOUNDMIN 1|CHECKCOMPOUNDDUP|COMPOUNDWORDMAX 2
dic 3|ab/X|c/X|abc/X
text abcabc abcab abcc
1 1 0 6 abcabc|1 of 3
aff COMPOUNDFLAG X|COMPOUNDMIN 1|CHECKCOMPOUNDDUP|COMPOUNDWORDMAX 3
0 0 of 3
# In a rule, where flags allow fewer parts, and in long words.
aff COMPOUNDFLAG X|COMPOUNDRULE 1|COMPOUNDRULE a*|COMPOUNDWORDMAX 2
dic 4|foo/a|bar/a|foobar/X|qux/aX
text foobar foobarfoo foobarqux quxfoo foobarquxfoo
1 1 7 16 foobarfoo|1 34 46 foobarquxfoo|2 of 5
aff COMPOUNDFLAG X|COMPOUNDMIN 1|COMPOUNDWORDMAX 50
dic 2|a/X|aa/X
text @100 a@ @99 a@
0 0 of 2
aff COMPOUNDFLAG X|COMPOUNDMIN 1|COMPOUNDWORDMAX 49
1 1 0 100 @100 a@|1 101 200 @99 a@|2 of 2
aff COMPOUNDFLAG X|COMPOUNDMIN 1|CHECKCOMPOUNDDUP|COMPOUNDWORDMAX 67
0 0 of 2
aff COMPOUNDFLAG X|COMPOUNDMIN 1|CHECKCOMPOUNDDUP|COMPOUNDWORDMAX 66
1 1 0 100 @100 a@|1 of 2

fault aff 1 MissingField: COMPOUNDWORDMAX
fault aff 1 BadNumber: COMPOUNDWORDMAX x
fault aff 1 BadNumber: COMPOUNDWORDMAX -1
fault aff 1 BadNumber: COMPOUNDWORDMAX 4294967296
fault aff 2 Twice: COMPOUNDWORDMAX 1|COMPOUNDWORDMAX 1
fault aff 2 Twice: COMPOUNDWORDMAX 1|COMPOUNDWORDMAX x
# The largest number has no fault.
fault aff 2 MissingField: COMPOUNDWORDMAX 4294967295|FORCEUCASE
";
