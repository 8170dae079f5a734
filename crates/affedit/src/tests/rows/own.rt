/// Personal words: `--own OWN`, and `own` in dialogues.
pub const ROWS: &str = "
# Words that are added, prohibited, and added by a model; each `own` keeps the words before it.
> ins 1 retry Hello wurk
< ok 1
> own wurk
< dict 1
> own *hello
< dict 2
> own retry
< dict 3
> settle
< ok 1
> show
< text 1 dict 3
< 1 6 11 Hello
< .
> own jig/work
< dict 4
> put 1 rejig jiged jigs
< ok 2
> settle
< ok 2
> show
< text 2 dict 4
< 1 12 16 jigs
< .
> own *
< no own EmptyWord

# A blank text adds nothing, and is told the text's version.
> own
< ok 0
> ins 1 wurk
< ok 1
> own 
< ok 1
> own \t 
< ok 1
> own x/
< no own EmptyWord
> settle
< ok 1
> show
< text 1 dict 0
< 1 0 4 wurk
< .

# What is checked waits again, and what is parked stays so.
> ins 1 wurk
< ok 1
> ins 2 wurk
< ok 2
> settle
< ok 2
> put 1 wurk
< ok 3
> stop 1
< ok 3
> own wurk
< dict 1
> show
< text 3 dict 1
< 1 ?
< 2 ?
< .
> settle
< ok 3
> show
< text 3 dict 1
< 1 ?
< .
> ask 1
< ok 3
> settle
< ok 3
> show
< text 3 dict 1
< .

# The words stay when another dictionary is loaded, and models are looked for in that one.
> own wurk
< dict 1
> own jig/wrold
< dict 2
> own *hello
< dict 3
> load b.aff b.dic
< dict 4
> ins 1 wurk jig hello try wrold
< ok 1
> settle
< ok 1
> show
< text 1 dict 4
< 1 9 14 hello
< 1 15 18 try
< .
> load c.aff b.dic
< no aff 1 OtherEncoding
> own try
< dict 5
> settle
< ok 1
> show
< text 1 dict 5
< 1 9 14 hello
< .

# An item keeps the characters that were not ignored when it was read.
file i.aff IGNORE x
file i.dic 1|hello
> ins 1 axb cxd
< ok 1
> own axb
< dict 1
> load i.aff i.dic
< dict 2
> own cxd
< dict 3
> own xx
< no own EmptyWord
> settle
< ok 1
> show
< text 1 dict 3
< 1 0 3 axb
< .

# The list of a file, and what dialogues add to it.
file own wurk|*hello|
words edit a.aff a.dic --own own
> ins 1 hello wurk jig
< ok 1
> settle
< ok 1
> show
< text 1 dict 0
< 1 0 5 hello
< 1 11 14 jig
< .
> own jig
< dict 1
> settle
< ok 1
> show
< text 1 dict 1
< 1 0 5 hello
< .

# There is no room for one more; what is wrong with a line goes before.
file own 10000*wurk|
words edit a.aff a.dic --own own
> own a/
< no own EmptyWord
> own a
< no own TooMany
> own
< ok 0

# The list of `check`. A slash that stands first is of the word.
aff SET UTF-8|TRY esianrtolc|REP 2|REP f ph|REP ph f|PFX A Y 1|PFX A 0 re .|SFX B Y 2|SFX B 0 ed [^y]|SFX B y ied y
dic 3|hello|try/B|work/AB
text wurk hello
words check a.aff a.dic text --own own
file own wurk|*hello|
1 1 5 10 hello|1 of 2
file own wurk|/|
0 0 of 2
file own |
1 1 0 4 wurk|1 of 2
file own wurk|x/|
3 own 2 EmptyWord
file own *|
3 own 1 EmptyWord
file own *hello/|  wurk  |
1 1 5 10 hello|1 of 2
file own *|@xff@|
3 own 2 NotUtf8
file own 10000*wurk|
0 0 of 2
file own 10000*wurk||x/|
3 own 10002 EmptyWord
file own 10000*wurk||x|y|
3 own 10002 TooMany

# A model that no entry has gives no flags; of entries with one word the first is the model, and no
# item is one.
aff PFX A Y 1|PFX A 0 re .|SFX B Y 1|SFX B 0 ed .
dic 2|play/B|play/A
words check a.aff a.dic text --own own
text jig jiged
file own jig/none|
1 1 4 9 jiged|1 of 2
text jiged rejig
file own jig/play|
1 1 6 11 rejig|1 of 2
file own walk/play|jig/walk|
1 1 0 5 jiged|1 6 11 rejig|2 of 2

# `\\/` is a slash of the word, and of a model a backslash and a slash.
aff WORDCHARS /\\|BREAK 0
dic 1|c\\/d/X
words check a.aff a.dic text --own own
text a/b
file own a\\/b|
0 0 of 1
file own a/b|
1 1 0 3 a/b|1 of 1
text a
0 0 of 1

# Characters to ignore are dropped from words and models.
aff IGNORE -|SFX B Y 1|SFX B 0 ed .
dic 1|play/B
words check a.aff a.dic text --own own
text ab jiged
file own a-b|jig/pl-ay|
0 0 of 2
file own --|
3 own 1 EmptyWord
file own jig/-|
3 own 1 EmptyWord

# A prohibited word is no compound either, and the flag of forbidden words is the dictionary's.
aff COMPOUNDFLAG X|COMPOUNDMIN 2
dic 2|foo/X|bar/X
words check a.aff a.dic text --own own
text foobar barfoo
file own *foobar|
1 1 0 6 foobar|1 of 2
aff FORBIDDENWORD Z|SFX S Y 1|SFX S 0 s .
dic 2|bar/S|bars/Z
text bar bars foo foos
file own foo/bar|*bar|
1 1 0 3 bar|1 4 8 bars|2 of 4

# The list is loaded behind the .dic file and before the document.
aff SET UTF-8
dic 1|hello
words check a.aff a.dic none --own none
5 missing
words check a.aff a.dic none --own own
file own *
3 own 1 EmptyWord
words check a.aff b.dic text --own own
file b.dic hello
3 dic 1 BadCount
words check a.aff a.dic text --own own
text hello
file own hello
loads 3
5 files
loads 9
file own @16777217 #@
8 limit 16777216

# Options of no form, which are refused before any file is loaded.
loads 1 2 3
words check a.aff a.dic text --own
2 affedit: words
words check a.aff a.dic text own
2 affedit: words
words check a.aff a.dic text --Own own
2 affedit: words
words check a.aff a.dic text --own own own
2 affedit: words
words check a.aff a.dic --own own
2 affedit: words
words check --own own a.aff a.dic text
2 affedit: words
words edit a.aff a.dic --own
2 affedit: words
words edit a.aff a.dic own
2 affedit: words
words make 1 4 --own own
2 affedit: words
";
