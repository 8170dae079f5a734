/// COMPOUNDMORESUFFIXES: two suffixes of a part that is not the last one.
pub const ROWS: &str = "
# Switches, each with and without it.
aff COMPOUNDMORESUFFIXES|COMPOUNDFLAG X|COMPOUNDPERMITFLAG P|SFX S Y 1|SFX S 0 s/PT|SFX T Y 1|SFX T 0 t/P
dic 2|foo/XS|bar/X
text foostbar barfoost
0 0 of 2
aff COMPOUNDFLAG X|COMPOUNDPERMITFLAG P|SFX S Y 1|SFX S 0 s/PT|SFX T Y 1|SFX T 0 t/P
1 1 0 8 foostbar|1 of 2

# Two suffixes stand last, and by an option elsewhere, where each of them is permitted.
aff COMPOUNDFLAG X|COMPOUNDPERMITFLAG P|SFX S Y 1|SFX S 0 s/PT|SFX T Y 1|SFX T 0 t/P
dic 2|foo/XS|bar/X
text foostbar barfoost barfoostbar foosbar barfoosbar
1 1 0 8 foostbar|1 18 29 barfoostbar|2 of 5
aff COMPOUNDMORESUFFIXES|COMPOUNDFLAG X|COMPOUNDPERMITFLAG P|SFX S Y 1|SFX S 0 s/PT|SFX T Y 1|SFX T 0 t/P
0 0 of 5
aff COMPOUNDMORESUFFIXES|COMPOUNDFLAG X|COMPOUNDPERMITFLAG P|SFX S Y 1|SFX S 0 s/PT|SFX T Y 1|SFX T 0 t
1 1 0 8 foostbar|1 18 29 barfoostbar|2 of 5
aff COMPOUNDMORESUFFIXES|COMPOUNDFLAG X|COMPOUNDPERMITFLAG P|SFX S Y 1|SFX S 0 s/T|SFX T Y 1|SFX T 0 t/P
1 1 0 8 foostbar|1 18 29 barfoostbar|1 30 37 foosbar|1 38 48 barfoosbar|4 of 5
aff COMPOUNDMORESUFFIXES|COMPOUNDFLAG X|SFX S Y 1|SFX S 0 s/T|SFX T Y 1|SFX T 0 t
1 1 0 8 foostbar|1 18 29 barfoostbar|1 30 37 foosbar|1 38 48 barfoosbar|4 of 5
";
