/// `forms`: the forms of dictionaries.
pub const ROWS: &str = "
# They rise by characters, and their number is the last line. A form whose rule has another condition is left out.
aff SET UTF-8|TRY esianrtolc|REP 2|REP f ph|REP ph f|PFX A Y 1|PFX A 0 re .|SFX B Y 2|SFX B 0 ed [^y]|SFX B y ied y
dic 3|hello|try/B|work/AB
words forms a.aff a.dic
0 hello|rework|reworked|tried|try|work|worked|7 forms

# By the numbers of the characters, in UTF-8.
aff SET UTF-8
dic 7|z|\u{e9}|Z|aa|\u{df}|a|\u{1d11e}
words forms a.aff a.dic
0 Z|a|aa|z|\u{df}|\u{e9}|\u{1d11e}|7 forms

# Each once, whichever entries and rules give it.
aff SFX S Y 1|SFX S 0 s .|SFX T Y 2|SFX T 0 s .|SFX T 0 er .
dic 3|drink/S|drink/T|drinks
words forms a.aff a.dic
0 drink|drinker|drinks|3 forms

# None, and one.
aff NEEDAFFIX N
words forms a.aff a.dic
dic 0
0 0 forms
dic 1|foo/N
0 0 forms
dic 1|foo
0 foo|1 forms

# A bare word that needs an affix is left out, and so is one that is part of compounds alone.
aff NEEDAFFIX N|ONLYINCOMPOUND O|SFX S Y 1|SFX S 0 s .
dic 3|foo/NS|bar/O|baz
words forms a.aff a.dic
0 baz|foos|2 forms

# An affix that needs another one.
aff NEEDAFFIX N|SFX S Y 1|SFX S 0 s/NT .|SFX T Y 1|SFX T 0 t .
dic 1|foo/S
words forms a.aff a.dic
0 foo|foost|2 forms

# A forbidden word is left out, a form of another entry too. Compounds and other cases are no forms.
aff FORBIDDENWORD Z|COMPOUNDFLAG X|COMPOUNDMIN 1|SFX S Y 1|SFX S 0 s .
dic 4|bar/S|bars/Z|foo/X|baz/XZ
words forms a.aff a.dic
0 bar|foo|2 forms

# A prefix and a suffix that need each other.
aff CIRCUMFIX X|PFX A Y 1|PFX A 0 leg/X .|SFX C Y 2|SFX C 0 obb .|SFX C 0 obb/AX .
dic 1|nagy/C
words forms a.aff a.dic
0 legnagyobb|nagy|nagyobb|3 forms

# A prefix that a first suffix allows, one that a second one does, and a suffix that a prefix allows.
words forms a.aff a.dic
aff PFX P Y 1|PFX P 0 un .|SFX R Y 1|SFX R 0 able/P .
dic 1|drink/R
0 drink|drinkable|undrinkable|3 forms
aff SFX A Y 1|SFX A 0 a/B .|SFX B Y 1|SFX B 0 b/P .|PFX P Y 1|PFX P 0 p .
dic 1|x/A
0 pxab|x|xa|xab|4 forms
aff PFX P Y 1|PFX P 0 p/S .|SFX S Y 1|SFX S 0 s .
dic 1|x/P
0 px|pxs|x|3 forms

# No second suffix where the first one is not allowed, and no crossing of a class that does not cross.
aff SFX A Y 1|SFX A 0 a/B .|SFX B Y 1|SFX B 0 b .|PFX P N 1|PFX P 0 p .
dic 2|x/B|y/AP
words forms a.aff a.dic
0 py|x|xb|y|ya|yab|6 forms

# A suffix that allows a second one and a prefix, beside an entry of the same word.
aff PFX P Y 1|PFX P 0 un .|SFX S Y 1|SFX S 0 s .|SFX Q Y 1|SFX Q 0 s .|SFX R Y 1|SFX R 0 able/PS .
dic 2|drink/RQ|drink/S
words forms a.aff a.dic
0 drink|drinkable|drinkables|drinks|undrinkable|undrinkables|6 forms

# Affixes that need another one, on both sides and behind one another.
aff NEEDAFFIX X|SFX A Y 2|SFX A 0 suf/B .|SFX A 0 pseudosuf/XB .|SFX B Y 1|SFX B 0 bar .|\
    PFX C Y 2|PFX C 0 pre .|PFX C 0 pseudopre/X .
dic 1|foo/AC
words forms a.aff a.dic
0 foo|foopseudosufbar|foosuf|foosufbar|prefoo|prefoopseudosuf|prefoopseudosufbar|prefoosuf|prefoosufbar|\
    pseudoprefoopseudosufbar|pseudoprefoosuf|pseudoprefoosufbar|12 forms

# A form that is empty is left out.
aff FULLSTRIP|SFX W Y 1|SFX W a 0 a
dic 1|a/W
words forms a.aff a.dic
0 a|1 forms

# A form that another entry forbids, and a compound that one does.
aff FORBIDDENWORD Z|COMPOUNDFLAG X|SFX S Y 1|SFX S 0 s .
dic 5|bar/S|bars/Z|foo/X|baz/X|foobaz/Z
words forms a.aff a.dic
0 bar|baz|foo|3 forms

# The files are loaded as by `check`: the .aff file before the .dic file, and no third one.
words forms a.aff a.dic
5 missing
aff SET ISO8859-1
3 aff 1 OtherEncoding
aff SET UTF-8
5 missing
dic hello
3 dic 1 BadCount
aff SET UTF-8|COMPLEXPREFIXES
3 aff 2 LeftOut
aff SET UTF-8
dic 2|hello|hello/X
loads 1
5 files
loads 2
5 files
loads 3
0 hello|1 forms

# A put that fails takes nothing, a part or all of what is written.
aff SET UTF-8
dic 2|hello|wrold
words forms a.aff a.dic
puts 1 0
6
puts 1 7
6 hello|w
puts 1 99
6 hello|wrold|2 forms|

words forms a.aff a.dic
puts 1 3
6 mis

# The input is not read.
words forms b.aff b.dic
reads 1
> quit
0 wrold|1 forms

# Words of no form, which are refused before any file is loaded. There are no options.
loads 1 2 3
words forms
2 affedit: words
words forms a.aff
2 affedit: words
words forms a.aff a.dic text
2 affedit: words
words forms a.aff a.dic --workers 4
2 affedit: words
words forms a.aff a.dic --own own
2 affedit: words
words Forms a.aff a.dic
2 affedit: words
words form a.aff a.dic
2 affedit: words
";
