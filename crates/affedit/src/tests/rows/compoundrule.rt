/// COMPOUNDRULE: compounds by patterns of flags.
pub const ROWS: &str = "
# Compound rules, between other lines.
aff COMPOUNDRULE 2|COMPOUNDRULE ab*c?|TRY x|COMPOUNDRULE (d)(d) # two
dic 4|foo/a|bar/b|baz/c|qux/d
text foobar foobarbar foobaz foobarbaz barfoo quxqux quxquxqux
1 1 34 40 barfoo|1 48 57 quxquxqux|2 of 7

aff FLAG long|COMPOUNDRULE 1|COMPOUNDRULE (aa)(bb)*
dic 2|foo/aa|bar/bb
text foobar foobarbar barfoo
1 1 17 23 barfoo|1 of 3

aff FLAG num|COMPOUNDRULE 1|COMPOUNDRULE (1001)(7)?(5)
dic 3|foo/1001|bar/7|baz/5
text foobaz foobarbaz foobarbarbaz
1 1 17 29 foobarbarbaz|1 of 3

aff AF 1|AF ab|COMPOUNDRULE 1|COMPOUNDRULE a(1)
dic 2|foo/1|bar/1
text foobar
1 1 0 6 foobar|1 of 1

aff COMPOUNDRULE 0
dic 2|foo/a|bar/b
text foobar
1 1 0 6 foobar|1 of 1

# Ordinals.
aff WORDCHARS 0123456789|COMPOUNDMIN 1|ONLYINCOMPOUND c|COMPOUNDRULE 2|COMPOUNDRULE n*1t|COMPOUNDRULE n*mp
dic 7|0/nm|1/n1|2/nm|1st/p|2nd/p|1th/tc|2th/tc
text 1st 2nd 1th 11th 12th 21st 22th
1 1 8 11 1th|1 27 31 22th|2 of 7
text 101st 111th 1101st 11st 211th 100 1012nd 2112th 01st 101th 11th11th
1 1 19 23 11st|1 34 40 1012nd|1 53 58 101th|1 59 67 11th11th|4 of 11

aff SET UTF-8|TRY esianrtolcdugmphbyfvkwz'|ICONV 1|ICONV \u{2019} '|NOSUGGEST !|# ordinals|COMPOUNDMIN 1|\
    ONLYINCOMPOUND c|COMPOUNDRULE 2|COMPOUNDRULE n*1t|COMPOUNDRULE n*mp|WORDCHARS 0123456789|PFX A Y 1|PFX A 0 re .|\
    SFX M Y 1|SFX M 0 's .|SFX S Y 4|SFX S y ies [^aeiou]y|SFX S 0 s [aeiou]y|SFX S 0 es [sxzh]|SFX S 0 s [^sxzhy]|\
    REP 2|REP a ei|REP ^alot$ a_lot
dic 6|box/MS|city/MS|day/MS|do/A|1/n1|1th/tc
text Boxes, cities; day\u{2019}s redo 11th boxs.
1 1 33 37 boxs|1 of 6

# A flag alone stands for one part, with `?` for one or none, with `*` for any number.
aff COMPOUNDMIN 1|COMPOUNDRULE 1|COMPOUNDRULE ab?c*d
dic 4|k/a|l/b|m/c|n/d
text kn kln kmn klmn kmmmmn kllmn klnn kml kmlmn lmn klm k knn kkn
1 1 23 28 kllmn|1 29 33 klnn|1 34 37 kml|1 38 43 kmlmn|1 44 47 lmn|1 48 51 klm|1 54 57 knn|1 58 61 kkn|8 of 14
aff COMPOUNDMIN 1|COMPOUNDRULE 2|COMPOUNDRULE a*b?|COMPOUNDRULE c?d*
text kk kkkl kl ll lk mn mnn nn mm nm kn mkl kmn l m
1 1 11 13 ll|1 14 16 lk|1 27 29 mm|1 30 32 nm|1 33 35 kn|1 36 39 mkl|1 40 43 kmn|7 of 15
# Between neighbours of the same flag, and with all steps left out.
aff COMPOUNDMIN 1|COMPOUNDRULE 3|COMPOUNDRULE a*ab|COMPOUNDRULE c?cd|COMPOUNDRULE e*f*e
dic 7|k/a|l/b|m/c|n/d|p/e|q/f|r/ef
text kl kkl kkkkl mn mmn mmmn pp pqp pqqp ppqp qp rr prqr qrp qrqp prqrp
1 1 20 24 mmmn|1 of 16
text pqpq qq pq pqpqp prqpr kmn klkl mnn qr rq
1 1 0 4 pqpq|1 5 7 qq|1 8 10 pq|1 11 16 pqpqp|1 17 22 prqpr|1 23 26 kmn|1 27 31 klkl|1 32 35 mnn|1 39 41 rq|9 of 10
aff COMPOUNDMIN 1|COMPOUNDRULE 1|COMPOUNDRULE a?b?c?d?
text klmn kn lm ln kmn mk klkl nk kk
1 1 18 20 mk|1 21 25 klkl|1 26 28 nk|1 29 31 kk|4 of 9

# A rule of one part makes no compound, and no word that stands in compounds only.
aff COMPOUNDMIN 1|COMPOUNDRULE 2|COMPOUNDRULE a|COMPOUNDRULE b?|ONLYINCOMPOUND o
dic 2|k/ao|l/b
text k l kk kl lk ll
1 1 0 1 k|1 4 6 kk|1 7 9 kl|1 10 12 lk|1 13 15 ll|5 of 6

# Flags in parentheses; in them a sign is a flag.
aff COMPOUNDMIN 1|COMPOUNDRULE 2|COMPOUNDRULE (a)(b)*c?|COMPOUNDRULE (()?(*)
dic 5|k/a|l/b|m/c|p/(|q/*
text kl kllm km lm pq qq pp ppq k(l
1 1 11 13 lm|1 17 19 qq|1 20 22 pp|1 23 26 ppq|4 of 10
aff FLAG long|COMPOUNDMIN 1|COMPOUNDRULE 1|COMPOUNDRULE (aa)?(ab)*(ba)
dic 4|k/aa|l/ab|m/ba|n/abba
text klm km lm llm ml nn kn kk mk kln kmm nnn
1 1 14 16 ml|1 23 25 kk|1 26 28 mk|1 33 36 kmm|4 of 12
aff FLAG num|COMPOUNDMIN 1|COMPOUNDRULE 1|COMPOUNDRULE (1)(65000)?(10)*(101)
dic 4|k/1|l/65000|m/10,101|n/1,10
text km klm kmm nm nnm kl kn mm llm kllm kln nlnm
1 1 18 20 kl|1 21 23 kn|1 24 26 mm|1 27 30 llm|1 31 35 kllm|1 36 39 kln|6 of 12
aff AF 2|AF ab|AF c|COMPOUNDMIN 1|COMPOUNDRULE 1|COMPOUNDRULE ac*b
dic 2|k/1|l/2
text kk klk kllk kl lk kkk
1 1 12 14 kl|1 15 17 lk|1 18 21 kkk|3 of 6

# A part has the least length in a rule too.
aff COMPOUNDRULE 1|COMPOUNDRULE a*
dic 2|ab/a|abc/a
text abab abcabc ababc abcabcabc
1 1 0 4 abab|1 12 17 ababc|2 of 4

# In a rule a suffix stands last alone and a prefix nowhere, whatever is permitted; and flags are those of entries.
aff COMPOUNDRULE 1|COMPOUNDRULE ab*c|COMPOUNDPERMITFLAG P|COMPOUNDMORESUFFIXES|SFX S Y 1|SFX S 0 s/PT|SFX T Y 1|\
    SFX T 0 t/Pc|PFX U Y 1|PFX U 0 un/P
dic 4|foo/aSU|bar/bcSTU|baz/cSU|qux/aT
text foobar foobarbaz foosbaz foobazs foobars foobarsbaz unfoobaz foounbaz foobart fooqux fooquxt foobarunbaz
1 1 17 24 foosbaz|1 41 51 foobarsbaz|1 52 60 unfoobaz|1 61 69 foounbaz|1 78 84 fooqux|1 85 92 fooquxt|\
    1 93 104 foobarunbaz|7 of 12
text foobarbarbars foobazst foobarst foostbaz foobarstbaz quxbaz quxtbaz unfoos
1 1 32 40 foostbaz|1 41 52 foobarstbaz|1 60 67 quxtbaz|3 of 8

# Which entries may stand in a rule. That one forbids compounds counts for flags alone, and that an affix does for both.
aff COMPOUNDRULE 1|COMPOUNDRULE ab|FORBIDDENWORD Z|WARN W|NEEDAFFIX N|ONLYINCOMPOUND O|COMPOUNDFORBIDFLAG F|\
    KEEPCASE K|SFX S Y 1|SFX S 0 s/F|SFX T Y 1|SFX T 0 t
dic 13|foo/a|fof/aF|fon/aN|fow/aW|foz/aZ|foc/aO|bar/bST|baf/bF|ban/bNT|baw/bW|baz/bZ|bac/bO|bak/bK
text foobar fofbar fonbar fowbar fozbar focbar foobaf fooban foobant foobaw foobaz foobac foobak Foobak foobars \
    foobart
1 1 14 20 fonbar|1 28 34 fozbar|1 49 55 fooban|1 71 77 foobaz|1 92 98 Foobak|1 99 106 foobars|6 of 16
aff FORBIDWARN|COMPOUNDRULE 1|COMPOUNDRULE ab|FORBIDDENWORD Z|WARN W|NEEDAFFIX N|ONLYINCOMPOUND O|\
    COMPOUNDFORBIDFLAG F|KEEPCASE K|SFX S Y 1|SFX S 0 s/F|SFX T Y 1|SFX T 0 t
1 1 14 20 fonbar|1 21 27 fowbar|1 28 34 fozbar|1 49 55 fooban|1 64 70 foobaw|1 71 77 foobaz|1 92 98 Foobak|\
    1 99 106 foobars|8 of 16

# What flags and a rule allow, what one of them does, and what they do part by part.
aff COMPOUNDFLAG X|COMPOUNDRULE 1|COMPOUNDRULE ab
dic 4|foo/Xa|bar/Xb|baz/a|qux/b
text foobar bazqux bazbar fooqux barfoo quxfoo foobarbar bazquxbar foobazqux barqux foofoobar
1 1 35 41 quxfoo|1 52 61 bazquxbar|1 62 71 foobazqux|1 72 78 barqux|4 of 11
# A part that a rule allows with one derivation, and flags with another.
aff COMPOUNDFLAG X|COMPOUNDRULE 1|COMPOUNDRULE ab|SFX S Y 1|SFX S 0 s
dic 4|foo/a|foo/X|bars/b|bar/XS
text foobars foobar foobarsfoo barsfoo barfoo
1 1 15 25 foobarsfoo|1 26 33 barsfoo|2 of 5

# Rules that stand for many parts, in many ways.
aff COMPOUNDMIN 1|COMPOUNDRULE 2|COMPOUNDRULE a*b|COMPOUNDRULE a*a*a*a*a*a*a*a*c?c?c?c?c
dic 2|a/a|aa/a
text @100 a@
1 1 0 100 @100 a@|1 of 1
aff COMPOUNDMIN 1|COMPOUNDRULE 1|COMPOUNDRULE a*a*a?aa*a
0 0 of 1
text @99 a@b
1 1 0 100 @99 a@b|1 of 1

fault aff 1 MissingField: COMPOUNDRULE
fault aff 1 BadNumber: COMPOUNDRULE n*
fault aff 1 TooMany: COMPOUNDRULE 65001|COMPOUNDRULE *
fault aff 1 TableShort: COMPOUNDRULE 2|COMPOUNDRULE *a
fault aff 2 MissingField: COMPOUNDRULE 1|COMPOUNDRULE
fault aff 2 BadPattern: COMPOUNDRULE 1|COMPOUNDRULE *a
fault aff 2 BadPattern: COMPOUNDRULE 1|COMPOUNDRULE a*?
fault aff 2 BadPattern: COMPOUNDRULE 1|COMPOUNDRULE ?
fault aff 2 BadPattern: COMPOUNDRULE 1|COMPOUNDRULE (a
fault aff 2 BadPattern: COMPOUNDRULE 1|COMPOUNDRULE a)
fault aff 2 BadPattern: COMPOUNDRULE 1|COMPOUNDRULE (a)b)
fault aff 2 BadFlag: COMPOUNDRULE 1|COMPOUNDRULE (ab)*
fault aff 2 BadFlag: COMPOUNDRULE 1|COMPOUNDRULE ()
fault aff 2 BadFlag: COMPOUNDRULE 1|COMPOUNDRULE a(*?)b
fault aff 3 BadPattern: FLAG num|COMPOUNDRULE 1|COMPOUNDRULE 1
fault aff 3 BadPattern: FLAG long|COMPOUNDRULE 1|COMPOUNDRULE (aa)bb
fault aff 3 BadFlag: FLAG num|COMPOUNDRULE 1|COMPOUNDRULE (1)(65001)?
fault aff 3 BadFlag: FLAG long|COMPOUNDRULE 1|COMPOUNDRULE (abc)
fault aff 4 BadFlag: AF 1|AF AB|COMPOUNDRULE 1|COMPOUNDRULE (12)
# One fault of a text, of which there may be two.
fault aff 2 BadPattern: COMPOUNDRULE 1|COMPOUNDRULE (ab)*)
fault aff 3 BadPattern: FLAG num|COMPOUNDRULE 1|COMPOUNDRULE (a)(b
# Rows alone are looked at, between other lines, and the lower line goes first.
fault aff 2 Twice: COMPOUNDRULE 0|COMPOUNDRULE *a
fault aff 3 Twice: COMPOUNDRULE 1|COMPOUNDRULE a*|COMPOUNDRULE *a
fault aff 4 BadPattern: COMPOUNDRULE 2|COMPOUNDRULE ab?|WARN a|COMPOUNDRULE *a|WARN a
fault aff 2 BadFlag: COMPOUNDRULE 1|WARN ab|COMPOUNDRULE *a
fault aff 3 BadPattern: COMPOUNDRULE 2|COMPOUNDRULE a|COMPOUNDRULE *|SFX
fault aff 2 MissingField: COMPOUNDRULE 2|SFX|COMPOUNDRULE a|COMPOUNDRULE *
";
