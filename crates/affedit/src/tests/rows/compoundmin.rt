/// COMPOUNDMIN: the least length of a part, in characters.
pub const ROWS: &str = "
# The least length of a part: three, or a number, and never none.
aff COMPOUNDFLAG X
dic 3|a/X|ab/X|abc/X
text aa abab abcabc
1 1 0 2 aa|1 3 7 abab|2 of 3
aff COMPOUNDFLAG X|COMPOUNDMIN 2
1 1 0 2 aa|1 of 3
aff COMPOUNDFLAG X|COMPOUNDMIN 001 more
0 0 of 3
aff COMPOUNDFLAG X|COMPOUNDMIN 0
0 0 of 3
aff COMPOUNDFLAG X|COMPOUNDMIN 4
1 1 0 2 aa|1 3 7 abab|1 8 14 abcabc|3 of 3
aff COMPOUNDFLAG X|COMPOUNDMIN 4294967295
1 1 0 2 aa|1 3 7 abab|1 8 14 abcabc|3 of 3

# The least length of a part, in characters: three, or a number above zero.
aff COMPOUNDFLAG X
dic 8|a/X|ab/X|abc/X|abcd/X|\u{e9}/X|\u{e9}\u{e0}/X|\u{e9}\u{e0}\u{fc}/X|\u{e9}\u{e0}\u{fc}\u{f6}/X
text aa abab abcabc abcdabcd \u{e9}\u{e9} \u{e9}\u{e0}\u{e9}\u{e0} \u{e9}\u{e0}\u{fc}\u{e9}\u{e0}\u{fc} \
    \u{e9}\u{e0}\u{fc}\u{f6}\u{e9}\u{e0}\u{fc}\u{f6} abcda a\u{e9}\u{e0}\u{fc}
1 1 0 2 aa|1 3 7 abab|1 24 28 \u{e9}\u{e9}|1 29 37 \u{e9}\u{e0}\u{e9}\u{e0}|1 68 73 abcda|\
    1 74 81 a\u{e9}\u{e0}\u{fc}|6 of 10
aff COMPOUNDFLAG X|COMPOUNDMIN 3
1 1 0 2 aa|1 3 7 abab|1 24 28 \u{e9}\u{e9}|1 29 37 \u{e9}\u{e0}\u{e9}\u{e0}|1 68 73 abcda|\
    1 74 81 a\u{e9}\u{e0}\u{fc}|6 of 10
aff COMPOUNDFLAG X|COMPOUNDMIN 0
0 0 of 10
aff COMPOUNDFLAG X|COMPOUNDMIN 1
0 0 of 10
aff COMPOUNDFLAG X|COMPOUNDMIN 2
1 1 0 2 aa|1 24 28 \u{e9}\u{e9}|1 68 73 abcda|1 74 81 a\u{e9}\u{e0}\u{fc}|4 of 10
aff COMPOUNDFLAG X|COMPOUNDMIN 4
1 1 0 2 aa|1 3 7 abab|1 8 14 abcabc|1 24 28 \u{e9}\u{e9}|1 29 37 \u{e9}\u{e0}\u{e9}\u{e0}|\
    1 38 50 \u{e9}\u{e0}\u{fc}\u{e9}\u{e0}\u{fc}|1 68 73 abcda|1 74 81 a\u{e9}\u{e0}\u{fc}|8 of 10

# It is that of the form, and not of the entry.
aff COMPOUNDFLAG X|SFX S Y 1|SFX S 0 s|SFX C Y 1|SFX C bc 0|PFX P Y 1|PFX P 0 un
dic 3|ab/XSP|abc/XC|foo/X
text fooab fooabs unabfoo fooabc fooa abcfoo absfoo
1 1 0 5 fooab|1 28 32 fooa|1 40 46 absfoo|3 of 7

fault aff 1 MissingField: COMPOUNDMIN
fault aff 1 BadNumber: COMPOUNDMIN x
fault aff 1 BadNumber: COMPOUNDMIN -1
fault aff 1 BadNumber: COMPOUNDMIN 4294967296
fault aff 2 Twice: COMPOUNDMIN 1|COMPOUNDMIN 1
fault aff 2 Twice: COMPOUNDMIN 1|COMPOUNDMIN x
# The largest number has no fault.
fault aff 2 MissingField: COMPOUNDMIN 4294967295|FORCEUCASE
";
