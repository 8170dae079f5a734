/// COMPOUNDPERMITFLAG: affixes that stand inside compounds.
pub const ROWS: &str = "
# Flags of affixes.
aff COMPOUNDFLAG X|COMPOUNDPERMITFLAG P|SFX S Y 1|SFX S 0 s/P
dic 2|foo/XS|bar/X
text foosbar barfoos
0 0 of 2
aff COMPOUNDFLAG X|SFX S Y 1|SFX S 0 s/P
1 1 0 7 foosbar|1 of 2
aff COMPOUNDFLAG X|COMPOUNDFORBIDFLAG P|SFX S Y 1|SFX S 0 s/P
1 1 0 7 foosbar|1 8 15 barfoos|2 of 2

# Affixes with the flag that permits them, with another one, and with the flag that forbids compounds.
aff COMPOUNDFLAG X|COMPOUNDPERMITFLAG P|COMPOUNDFORBIDFLAG F|SFX S Y 1|SFX S 0 s/P .|SFX T Y 1|SFX T 0 n .|SFX U Y 1|\
    SFX U 0 m/F .
dic 2|arbeit/XSTU|tag/X
text arbeitstag arbeitntag tagarbeitn tagarbeitm
1 1 11 21 arbeitntag|1 33 43 tagarbeitm|2 of 4

# A suffix stands last and a prefix first, and each of them everywhere where it is permitted.
aff COMPOUNDFLAG X|COMPOUNDPERMITFLAG Y|PFX P Y 1|PFX P 0 un|SFX S Y 1|SFX S 0 s
dic 2|foo/XPS|bar/X
text unfoobar foosbar barfoos barunfoo barunfoos barfoosbar barunfoobar unfoosbar unfoobarfoos barunfoosbar
1 1 9 16 foosbar|1 25 33 barunfoo|1 34 43 barunfoos|1 44 54 barfoosbar|1 55 66 barunfoobar|1 67 76 unfoosbar|\
    1 90 102 barunfoosbar|7 of 10
aff COMPOUNDFLAG X|COMPOUNDPERMITFLAG Y|PFX P Y 1|PFX P 0 un/Y|SFX S Y 1|SFX S 0 s
1 1 9 16 foosbar|1 44 54 barfoosbar|1 67 76 unfoosbar|1 90 102 barunfoosbar|4 of 10
aff COMPOUNDFLAG X|COMPOUNDPERMITFLAG Y|PFX P Y 1|PFX P 0 un|SFX S Y 1|SFX S 0 s/Y
1 1 25 33 barunfoo|1 34 43 barunfoos|1 55 66 barunfoobar|1 90 102 barunfoosbar|4 of 10
aff COMPOUNDFLAG X|COMPOUNDPERMITFLAG Y|PFX P Y 1|PFX P 0 un/Y|SFX S Y 1|SFX S 0 s/Y
0 0 of 10
# The entry's flag permits nothing.
aff COMPOUNDFLAG X|COMPOUNDPERMITFLAG Y|PFX P Y 1|PFX P 0 un|SFX S Y 1|SFX S 0 s
dic 2|foo/XYPS|bar/X
1 1 9 16 foosbar|1 25 33 barunfoo|1 34 43 barunfoos|1 44 54 barfoosbar|1 55 66 barunfoobar|1 67 76 unfoosbar|\
    1 90 102 barunfoosbar|7 of 10

fault aff 1 MissingField: COMPOUNDPERMITFLAG
fault aff 1 BadFlag: COMPOUNDPERMITFLAG AB
fault aff 2 Twice: COMPOUNDPERMITFLAG A|COMPOUNDPERMITFLAG A
";
