/// CHECKCOMPOUNDDUP: a part does not stand twice in a row.
pub const ROWS: &str = "
# A part does not stand twice in a row, also by two entries. What is written is compared.
aff COMPOUNDFLAG X|COMPOUNDMIN 2|CHECKCOMPOUNDDUP|CHECKCOMPOUNDTRIPLE
dic 3|foo/X|bar/X|ox/X
text foobar foofoo fooox barox
1 1 7 13 foofoo|1 14 19 fooox|2 of 4
aff COMPOUNDFLAG X|COMPOUNDMIN 1|CHECKCOMPOUNDDUP
dic 1|a/X
text a aa
1 1 2 4 aa|1 of 2
aff COMPOUNDFLAG X|CHECKCOMPOUNDDUP|COMPOUNDPERMITFLAG P|SFX S Y 1|SFX S 0 s/P
dic 4|foo/XS|foo/X|bar/X|Foo/X
text foofoo foofoobar foobarfoo foofoos foosfoo foosfoos barfoofoo barbar Foofoo FOOFOO fooFoo
1 1 0 6 foofoo|1 7 16 foofoobar|1 43 51 foosfoos|1 52 61 barfoofoo|1 62 68 barbar|5 of 11
# Where other parts write the word it is right.
aff COMPOUNDFLAG X|CHECKCOMPOUNDDUP|COMPOUNDMIN 1
dic 3|ab/X|c/X|abc/X
text abcabc abcabcabc abcabccabc abab cabc cabcabc ccab
1 1 28 32 abab|1 46 50 ccab|2 of 7
aff COMPOUNDFLAG X|CHECKCOMPOUNDDUP
dic 2|foo/X|foofoo/X
text foofoo foofoofoo foofoofoofoo foofoofoofoofoo
0 0 of 4

# Many ways to part a word, of which none is right, or one.
aff COMPOUNDFLAG X|COMPOUNDMIN 1|CHECKCOMPOUNDDUP
dic 3|a/X|aa/X|aaa/X
text @99 a@b @100 a@
1 1 0 100 @99 a@b|1 of 2

aff CHECKCOMPOUNDDUP|COMPOUNDFLAG X
dic 4|foo/X|bar/X|Baz/X|oxen/X
text foofoo barfoo fooBaz foooxen
1 1 0 6 foofoo|1 of 4
aff COMPOUNDFLAG X
0 0 of 4
";
