/// FULLSTRIP: words that are stripped whole.
pub const ROWS: &str = "
aff SFX W Y 1|SFX W go went go
dic 1|go/W
text go went
1 1 3 7 went|1 of 2

aff FULLSTRIP|SFX W Y 1|SFX W go went go
dic 1|go/W
text go went
0 0 of 2

# Words that are stripped whole. An empty form is no part.
aff FULLSTRIP|COMPOUNDFLAG X|SFX W Y 1|SFX W go went go
dic 2|go/XW|foo/X
text foowent wentfoo foogo
1 1 8 15 wentfoo|1 16 21 foogo|2 of 3
aff FULLSTRIP|COMPOUNDFLAG X|COMPOUNDMIN 0|ONLYINCOMPOUND O|SFX Z Y 1|SFX Z bar 0|PFX Z Y 1|PFX Z qux 0
dic 3|foo/XO|bar/XZ|qux/XZ
text foo foobar quxfoo foofoo bar
1 1 0 3 foo|1 of 5

# What is left of `go` is the empty word, which no piece fits.
aff FULLSTRIP|SFX A Y 1|SFX A go 0/BP .|SFX B Y 4|SFX B 0 s|SFX B 0 t .|SFX B 0 u [^y]|SFX B 0 v [^y]a.|PFX P Y 4|\
    PFX P 0 w|PFX P 0 x .|PFX P 0 y [^y]|PFX P 0 z [^y]a.
dic 1|go/A
text go s t u v w x y z
1 1 7 8 u|1 9 10 v|1 15 16 y|1 17 18 z|4 of 9

# Without FULLSTRIP something has to be left.
aff SFX A Y 1|SFX A go 0/BP .|SFX B Y 1|SFX B 0 s|PFX P Y 1|PFX P 0 w
dic 1|go/A
text go s w
1 1 3 4 s|1 5 6 w|2 of 3

# Words may be stripped whole.
aff FULLSTRIP|SFX A Y 1|SFX A go went go|PFX P Y 1|PFX P \u{e4} \u{fc} .
dic 2|go/A|\u{e4}/P
text went \u{fc}
0 0 of 2
";
