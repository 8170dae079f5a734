/// COMPOUNDFLAG, COMPOUNDBEGIN, COMPOUNDMIDDLE and COMPOUNDLAST, or COMPOUNDEND: which parts make up a compound.
pub const ROWS: &str = "
# Flags of parts, under both names of the last one.
aff COMPOUNDFLAG X
dic 3|foo/X|bar/X|baz
text foobar barfoo foofoobar foobaz
1 1 24 30 foobaz|1 of 4

aff COMPOUNDBEGIN B|COMPOUNDMIDDLE M|COMPOUNDLAST L
dic 3|foo/B|bar/M|baz/L
text foobaz foobarbaz foobar barbaz bazfoo
1 1 17 23 foobar|1 24 30 barbaz|1 31 37 bazfoo|3 of 5
aff FLAG num|COMPOUNDEND 65000|COMPOUNDMIDDLE 2|COMPOUNDBEGIN 1
dic 3|foo/1|bar/2|baz/65000
1 1 17 23 foobar|1 24 30 barbaz|1 31 37 bazfoo|3 of 5

# Each place has its flag.
aff COMPOUNDBEGIN B|COMPOUNDMIDDLE M|COMPOUNDLAST E|COMPOUNDMIN 2
dic 3|aa/B|bb/M|cc/E
text aacc aabbcc aabbbbcc bbcc aabb aa
1 1 21 25 bbcc|1 26 30 aabb|2 of 6

# One entry at all places, by one flag and by three.
aff COMPOUNDFLAG X
dic 2|foo/X|bar
text foofoo foofoofoo foofoofoofoo foobar barfoo foobarfoo
1 1 30 36 foobar|1 37 43 barfoo|1 44 53 foobarfoo|3 of 6
aff COMPOUNDBEGIN B|COMPOUNDMIDDLE M|COMPOUNDEND E
dic 1|foo/BME
text foo foofoo foofoofoo foofoofoofoo
0 0 of 4
dic 1|foo/BE
1 1 11 20 foofoofoo|1 21 33 foofoofoofoo|2 of 4
dic 1|foo/BM
1 1 4 10 foofoo|1 11 20 foofoofoo|1 21 33 foofoofoofoo|3 of 4
dic 1|foo/ME
1 1 4 10 foofoo|1 11 20 foofoofoo|1 21 33 foofoofoofoo|3 of 4
# By three entries, of which each is for one place.
dic 3|foo/M|foo/E|foo/B
0 0 of 4
aff COMPOUNDMIDDLE M
dic 1|foo/M
1 1 4 10 foofoo|1 11 20 foofoofoo|1 21 33 foofoofoofoo|3 of 4
aff
1 1 4 10 foofoo|1 11 20 foofoofoo|1 21 33 foofoofoofoo|3 of 4

# The flag of all places beside those of one.
aff COMPOUNDFLAG X|COMPOUNDBEGIN B|COMPOUNDMIDDLE M|COMPOUNDLAST E
dic 4|foo/X|bar/B|baz/M|qux/E
text fooqux barfoo barqux foobazqux barbazfoo foobarfoo quxfoo bazqux foobaz fooquxfoo
1 1 41 50 foobarfoo|1 51 57 quxfoo|1 58 64 bazqux|1 65 71 foobaz|1 72 81 fooquxfoo|5 of 10

# The first way to part a word is not the only one.
aff COMPOUNDFLAG X
dic 4|foo/X|foob/X|bar/X|arbar/X
text foobar foobarbar foobbar foobarb foobara foobarfoobar
1 1 25 32 foobarb|1 33 40 foobara|2 of 6
aff COMPOUNDFLAG X|COMPOUNDMIN 1
dic 4|a/X|ab/X|abc/X|cd/X
text abcd abccd aabcd abcdd abcabcabccd bcd
1 1 17 22 abcdd|1 35 38 bcd|2 of 6

# An affix that carries the flag of parts, and a second suffix that does.
aff COMPOUNDFLAG X|COMPOUNDPERMITFLAG P|SFX S Y 1|SFX S 0 s/X|SFX T Y 1|SFX T 0 t/XP|PFX U Y 1|PFX U 0 un/X
dic 2|foo/STU|bar/X
text foobar barfoo foosbar barfoos footbar barfoot unfoobar barunfoo unfootbar barfootbar unfoo foos
1 1 0 6 foobar|1 7 13 barfoo|1 14 21 foosbar|1 55 63 barunfoo|4 of 12
aff COMPOUNDFLAG X|SFX S Y 1|SFX S 0 s/T|SFX T Y 1|SFX T 0 t/X
dic 2|foo/S|bar/X
text barfoo barfoos barfoost foostbar
1 1 0 6 barfoo|1 7 14 barfoos|1 24 32 foostbar|3 of 4
# One that carries the flag of its place, or of another.
aff COMPOUNDBEGIN B|COMPOUNDMIDDLE M|COMPOUNDLAST E|COMPOUNDPERMITFLAG P|SFX S Y 1|SFX S 0 s/E|SFX T Y 1|\
    SFX T 0 t/BP|PFX U Y 1|PFX U 0 un/MP
dic 3|foo/STU|bar/B|baz/E
text barfoos barfoot footbaz foosbaz foobaz barfoo barunfoobaz unfoobaz barunfoo barfoobaz unfootbaz
1 1 8 15 barfoot|1 24 31 foosbaz|1 32 38 foobaz|1 39 45 barfoo|1 58 66 unfoobaz|1 67 75 barunfoo|1 76 85 barfoobaz|\
    7 of 11

# An affix of a class that does not cross, and one that the word does not fit.
aff COMPOUNDFLAG X|PFX P N 1|PFX P 0 un|SFX S Y 1|SFX S 0 s|SFX Y Y 1|SFX Y y ies [^aeiou]y
dic 3|foo/XPS|try/XY|toy/XY
text unfootry tryfoos tryunfoo unfoos footries footoies footryies unfootries
1 1 17 25 tryunfoo|1 26 32 unfoos|1 42 50 footoies|1 51 60 footryies|4 of 8

fault aff 1 MissingField: COMPOUNDFLAG
fault aff 1 BadFlag: COMPOUNDFLAG AB
fault aff 2 Twice: COMPOUNDFLAG A|COMPOUNDFLAG A
fault aff 1 MissingField: COMPOUNDBEGIN
fault aff 1 BadFlag: COMPOUNDBEGIN AB
fault aff 2 Twice: COMPOUNDBEGIN A|COMPOUNDBEGIN A
fault aff 1 MissingField: COMPOUNDMIDDLE
fault aff 1 BadFlag: COMPOUNDMIDDLE AB
fault aff 2 Twice: COMPOUNDMIDDLE A|COMPOUNDMIDDLE A
fault aff 1 MissingField: COMPOUNDLAST
fault aff 1 BadFlag: COMPOUNDLAST AB
fault aff 2 Twice: COMPOUNDLAST A|COMPOUNDLAST A
fault aff 1 MissingField: COMPOUNDEND
fault aff 1 BadFlag: COMPOUNDEND AB
fault aff 2 Twice: COMPOUNDEND A|COMPOUNDEND A
# The two names are one option.
fault aff 2 Twice: COMPOUNDLAST A|COMPOUNDEND A
fault aff 2 Twice: COMPOUNDLAST A|COMPOUNDEND B
fault aff 3 Twice: COMPOUNDEND A||COMPOUNDLAST A
fault aff 2 MissingField: COMPOUNDEND A|COMPOUNDLAST
# Flags of each type. With aliases none is an ordinal.
fault aff 4 BadFlag: AF 2|AF A|AF B|COMPOUNDFLAG 12
fault aff 2 BadFlag: FLAG num|COMPOUNDBEGIN 65001
";
