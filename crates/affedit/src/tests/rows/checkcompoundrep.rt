/// CHECKCOMPOUNDREP: a compound is no word where a pair of REP makes of it a word that stands alone.
pub const ROWS: &str = "
# REP, which is looked at for compounds if a switch says so: anchors, and an underscore that is a space.
aff COMPOUNDFLAG X|CHECKCOMPOUNDREP|REP 2|REP ^foo fu|REP bar$ ber
dic 5|foo/X|bar/X|qux/X|fubar|barfu
text foobar barfoo quxbar
1 1 0 6 foobar|1 of 3
aff COMPOUNDFLAG X|REP 2|REP ^foo fu|REP bar$ ber
0 0 of 3

aff COMPOUNDFLAG X|CHECKCOMPOUNDREP|REP 1|REP oo u_ more
dic 3|foo/X|bar/X|fu bar
text foobar
1 1 0 6 foobar|1 of 1

aff WORDCHARS _|COMPOUNDFLAG X|CHECKCOMPOUNDREP|REP 2|REP _ x|REP _$ x
dic 4|foo_/X|bar_/X|fooxbar_|foo_barx
text foo_bar_
0 0 of 1

# Nothing is ignored in it.
aff IGNORE -|COMPOUNDFLAG X|CHECKCOMPOUNDREP|REP 1|REP -o u
dic 3|foo/X|bar/X|foubar
text foobar
0 0 of 1

# A compound is no word if a pair makes of it one that stands alone.
aff COMPOUNDFLAG X|COMPOUNDMIN 2|CHECKCOMPOUNDREP|REP 2|REP y i|REP d$ t
dic 6|ser/X|vyz/X|serviz|ba/X|nd/X|bant
text servyz vyzser band ndba
1 1 0 6 servyz|1 14 18 band|2 of 4
aff COMPOUNDFLAG X|COMPOUNDMIN 2|REP 2|REP y i|REP d$ t
0 0 of 4

# Both anchors, one and none.
aff COMPOUNDFLAG X|CHECKCOMPOUNDREP|REP 1|REP ^foobar$ fubar
dic 5|foo/X|bar/X|fubar|fubarfoo|barfubar
text foobar foobarfoo barfoobar Foobar FOOBAR
1 1 0 6 foobar|1 27 33 Foobar|1 34 40 FOOBAR|3 of 5
aff COMPOUNDFLAG X|CHECKCOMPOUNDREP|REP 1|REP ^foobar fubar
1 1 0 6 foobar|1 7 16 foobarfoo|1 27 33 Foobar|1 34 40 FOOBAR|4 of 5
aff COMPOUNDFLAG X|CHECKCOMPOUNDREP|REP 1|REP foobar$ fubar
1 1 0 6 foobar|1 17 26 barfoobar|1 27 33 Foobar|1 34 40 FOOBAR|4 of 5
aff COMPOUNDFLAG X|CHECKCOMPOUNDREP|REP 1|REP foobar fubar
1 1 0 6 foobar|1 7 16 foobarfoo|1 17 26 barfoobar|1 27 33 Foobar|1 34 40 FOOBAR|5 of 5
aff COMPOUNDFLAG X|CHECKCOMPOUNDREP|REP 2|REP ^bar fu|REP foo$ fu
0 0 of 5

# An underscore is a space, in an entry of two words.
aff COMPOUNDFLAG X|COMPOUNDMIN 1|CHECKCOMPOUNDREP|REP 2|REP ^alot$ a_lot|REP of_f x
dic 4|a/X|lot/X|a lot|off/X
text alot lota alota offlot lotalot
1 1 0 4 alot|1 of 5
aff COMPOUNDFLAG X|CHECKCOMPOUNDREP|REP 1|REP o o_
dic 4|foo/X|bar/X|foo bar|fo o
text foobar barfoo foofoo
1 1 0 6 foobar|1 of 3

# The pair is applied once, at each place in turn, and what stands there is not read again.
aff COMPOUNDFLAG X|CHECKCOMPOUNDREP|REP 1|REP e i
dic 3|bel/X|bar/X|bilbil
text belbel belbar
0 0 of 2
dic 3|bel/X|bar/X|bilbel
1 1 0 6 belbel|1 of 2
dic 3|bel/X|bar/X|belbil
1 1 0 6 belbel|1 of 2
aff COMPOUNDFLAG X|CHECKCOMPOUNDREP|REP 2|REP e ee|REP ee i
dic 3|bel/X|bar/X|bilbar
text belbar
0 0 of 1
dic 3|beel/X|bar/X|beeelbar
text beelbar
1 1 0 7 beelbar|1 of 1
dic 3|beel/X|bar/X|beeeelbar
0 0 of 1

# A variant that is forbidden, or stands in compounds only, or is a rare word that is refused, or needs an affix, is no
# word alone; one that keeps its case is, and so is one that has an affix.
aff COMPOUNDFLAG X|CHECKCOMPOUNDREP|FORBIDDENWORD Z|ONLYINCOMPOUND O|WARN W|FORBIDWARN|NEEDAFFIX N|KEEPCASE K|\
    SFX S Y 1|SFX S 0 s|REP 1|REP e i
dic 15|bea/X|bed/X|bel/X|ben/X|bet/X|bes/X|beg/X|bar/XS|biabar/Z|bidbar/O|bilbar/W|binbar/NS|bitbar/K|bisbar|bigbar/Z
text beabar bedbar belbar benbar benbars betbar besbar besbars begbar Betbar
1 1 28 35 benbars|1 36 42 betbar|1 43 49 besbar|1 65 71 Betbar|4 of 10
aff COMPOUNDFLAG X|CHECKCOMPOUNDREP|FORBIDDENWORD Z|ONLYINCOMPOUND O|WARN W|NEEDAFFIX N|KEEPCASE K|SFX S Y 1|\
    SFX S 0 s|REP 1|REP e i
1 1 14 20 belbar|1 28 35 benbars|1 36 42 betbar|1 43 49 besbar|1 65 71 Betbar|5 of 10
# A forbidden variant that another entry has too, one in another case, and a word of its own.
aff COMPOUNDFLAG X|CHECKCOMPOUNDREP|FORBIDDENWORD Z|REP 1|REP e i
dic 9|beg/X|bed/X|bes/X|bar/X|bigbar/Z|bigbar|Bidbar|besbar|bisbar
text begbar bedbar Bedbar BEDBAR besbar Besbar bigbar
1 1 0 6 begbar|1 42 48 bigbar|2 of 7
# A variant that is a compound and no word alone.
aff COMPOUNDFLAG X|CHECKCOMPOUNDREP|REP 1|REP e i
dic 3|bel/X|bil/X|bar/X
text belbar bilbar
0 0 of 2
# A compound by a rule, and one between break points.
aff WORDCHARS -|CHECKCOMPOUNDREP|COMPOUNDRULE 1|COMPOUNDRULE ab|REP 1|REP e i
dic 4|bel/a|bar/b|ban/b|bilbar
text belbar belban belbar-belban belban-bilbar
1 1 0 6 belbar|1 14 27 belbar-belban|2 of 4
# A word of more than one spelling, of which one is a misspelling.
aff COMPOUNDFLAG X|CHECKCOMPOUNDREP|REP 1|REP el il
dic 4|bel/X|Bel/X|bar/X|bilbar
text belbar Belbar BELBAR
1 1 0 6 belbar|1 of 3
";
