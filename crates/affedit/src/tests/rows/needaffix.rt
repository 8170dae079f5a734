/// NEEDAFFIX, or PSEUDOROOT: stems and affixes that do not stand alone.
pub const ROWS: &str = "
# A homonym that stands alone is enough where the other needs an affix.
aff PSEUDOROOT N
dic 2|qux/N|qux
text qux
0 0 of 1

aff NEEDAFFIX X|SFX A Y 2|SFX A 0 suf/B .|SFX A 0 pseudosuf/XB .|SFX B Y 1|SFX B 0 bar .|PFX C Y 2|PFX C 0 pre .|PFX C 0 pseudopre/X .
dic 1|foo/AC
text prefoopseudosuf pseudoprefoo foopseudosuf pseudoprefoopseudosuf foo
1 1 16 28 pseudoprefoo|1 29 41 foopseudosuf|1 42 63 pseudoprefoopseudosuf|3 of 5

aff NEEDAFFIX X|SFX Z Y 1|SFX Z 0 0 .
dic 2|zero/XZ|none/X
text zero none
1 1 5 9 none|1 of 2

# Both names.
aff NEEDAFFIX X
dic 2|foo/X|bar/x
text foo bar
1 1 0 3 foo|1 of 2

aff PSEUDOROOT X
dic 2|foo/X|bar/x
text foo bar
1 1 0 3 foo|1 of 2

fault aff 1 BadFlag: NEEDAFFIX ab
# The two names are one option.
fault aff 3 Twice: NEEDAFFIX A|#|PSEUDOROOT B
fault aff 1 MissingField: PSEUDOROOT|NEEDAFFIX ab
fault aff 2 Twice: PSEUDOROOT X|NEEDAFFIX X
fault aff 1 BadFlag: NEEDAFFIX XY|PSEUDOROOT
";
