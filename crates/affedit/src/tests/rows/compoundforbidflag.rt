/// COMPOUNDFORBIDFLAG: entries and affixes that forbid compounds.
pub const ROWS: &str = "
# An affix that forbids compounds does so at each place, an entry at each place but the last.
aff COMPOUNDFLAG X|COMPOUNDFORBIDFLAG F|COMPOUNDPERMITFLAG P|SFX S Y 1|SFX S 0 s/F|SFX T Y 1|SFX T 0 t/PF|PFX U Y 1|\
    PFX U 0 un/F|SFX W Y 1|SFX W 0 w/P
dic 3|foo/XSTU|bar/X|baz/XFW
text foobar barfoo barfoos footbar barfoot unfoobar bazbar barbaz barbazbar bazbaz barbazw bazwbar foos unfoo \
    foobarbaz
1 1 14 21 barfoos|1 22 29 footbar|1 30 37 barfoot|1 38 46 unfoobar|1 47 53 bazbar|1 61 70 barbazbar|1 71 77 bazbaz|\
    1 86 93 bazwbar|8 of 15
aff COMPOUNDFLAG X|COMPOUNDFORBIDFLAG F|SFX S Y 1|SFX S 0 s/T|SFX T Y 1|SFX T 0 t/F
dic 3|foo/XSF|bar/X|foo/X
text barfoos barfoost foost foobar foofoobar
1 1 8 16 barfoost|1 of 5

fault aff 1 MissingField: COMPOUNDFORBIDFLAG
fault aff 1 BadFlag: COMPOUNDFORBIDFLAG AB
fault aff 2 Twice: COMPOUNDFORBIDFLAG A|COMPOUNDFORBIDFLAG A
fault aff 2 BadFlag: FLAG long|COMPOUNDFORBIDFLAG A
";
