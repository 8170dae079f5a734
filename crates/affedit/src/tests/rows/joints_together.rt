/// Several checks of joints in one dictionary.
pub const ROWS: &str = "
# Each of two.
aff COMPOUNDFLAG X|CHECKCOMPOUNDDUP|CHECKCOMPOUNDCASE
dic 5|foo/X|bar/X|Bar/X|oxen/X|qux/X
text foofoo fooBar foooxen foobar quxfoo
1 1 0 6 foofoo|1 7 13 fooBar|2 of 5
aff COMPOUNDFLAG X|CHECKCOMPOUNDDUP|CHECKCOMPOUNDTRIPLE
1 1 0 6 foofoo|1 14 21 foooxen|2 of 5
aff COMPOUNDFLAG X|CHECKCOMPOUNDDUP|CHECKCOMPOUNDPATTERN 1|CHECKCOMPOUNDPATTERN oo ba
1 1 0 6 foofoo|1 22 28 foobar|2 of 5
aff COMPOUNDFLAG X|CHECKCOMPOUNDCASE|CHECKCOMPOUNDTRIPLE
1 1 7 13 fooBar|1 14 21 foooxen|2 of 5
aff COMPOUNDFLAG X|CHECKCOMPOUNDCASE|CHECKCOMPOUNDPATTERN 1|CHECKCOMPOUNDPATTERN oo ba
1 1 7 13 fooBar|1 22 28 foobar|2 of 5
aff COMPOUNDFLAG X|CHECKCOMPOUNDTRIPLE|CHECKCOMPOUNDPATTERN 1|CHECKCOMPOUNDPATTERN oo ba
1 1 14 21 foooxen|1 22 28 foobar|2 of 5
aff COMPOUNDFLAG X|REP 1|REP a b
0 0 of 5
# All of them, at each of two joints, and in a rule.
aff COMPOUNDFLAG X|CHECKCOMPOUNDDUP|CHECKCOMPOUNDCASE|CHECKCOMPOUNDTRIPLE|CHECKCOMPOUNDPATTERN 1|\
    CHECKCOMPOUNDPATTERN oo ba
text foofooqux quxfooBar quxfoooxen foobarqux quxfoobar quxbarfoo quxbarqux foofoobar
1 1 0 9 foofooqux|1 10 19 quxfooBar|1 20 30 quxfoooxen|1 31 40 foobarqux|1 41 50 quxfoobar|1 71 80 foofoobar|6 of 8
aff COMPOUNDRULE 1|COMPOUNDRULE a*|CHECKCOMPOUNDDUP|CHECKCOMPOUNDCASE|CHECKCOMPOUNDTRIPLE|CHECKCOMPOUNDPATTERN 1|\
    CHECKCOMPOUNDPATTERN oo ba
dic 5|foo/a|bar/a|Bar/a|oxen/a|qux/a
text foofooqux quxfooBar quxfoooxen foobarqux quxfoobar quxbarfoo quxbarqux foofoobar quxqux
1 1 0 9 foofooqux|1 10 19 quxfooBar|1 20 30 quxfoooxen|1 31 40 foobarqux|1 41 50 quxfoobar|1 71 80 foofoobar|\
    1 81 87 quxqux|7 of 9
";
