/// Dialogues of `pipe`: lines of words, and what is answered to them.
pub const ROWS: &str = "
# A stem, a word that is not known, and its place behind a circumflex; terse answers, and the end of these.
words pipe a.aff a.dic
> hello tried
< *
< + try
< 
> reworked retry
< + work
< # retry 9
< 
> ^*retry
< # retry 2
< 
> !
> hello retry
< # retry 6
< 
> %
> tried
< + try
< 
> 
< 
> hello
< *
< 

# Compounds.
file a.aff COMPOUNDFLAG X|COMPOUNDMIN 2|CHECKCOMPOUNDDUP|CHECKCOMPOUNDTRIPLE
file a.dic 3|foo/X|bar/X|ox/X
words pipe a.aff a.dic
> foobar foo fooox
< -
< *
< # fooox 11
< 

# Nothing is asked for.
words pipe a.aff a.dic
> !
> %

# Each first character that is not answered, while answers are terse and while they are not.
words pipe a.aff a.dic
> *retry
> &retry
> @x40@retry
> +retry
> -retry
> ~retry
> #retry
> $retry
< # retry 1
< 
> !retry
> *retry
> hello wrold tried
< # wrold 6
< 
> &hello
> %retry
> hello wrold tried
< *
< # wrold 6
< + try
< 

# Lines that are not UTF-8, by their numbers; terse answers tell them too. The first character comes before.
words pipe a.aff a.dic
> hello
< *
< 
> @xff@
< bad 2
< 
> !
> hello @xc0af@
< bad 4
< 
> *@xff@
> %@xff@
> hello
< *
< 

# The ends of lines are CR LF, and a byte order mark stands before the first. Elsewhere it is of the line, and of no word.
words pipe a.aff a.dic
> @xefbbbf@hello retry\r
< *
< # retry 6
< 
> @xefbbbf@retry tried\r
< # retry 3
< + try
< 
> \r
< 
> retry\r tried\r
< # retry 0
< + try
< 

# A line as long as a line may be, and one that is longer.
words pipe a.aff a.dic
> @131072 a@
< # @131072 a@ 0
< 
> hello
< *
< 

words pipe a.aff a.dic
> @131071 a@\r
< # @131071 a@ 0
< 

words pipe a.aff a.dic
> hello
> @131073 a@
< *
< 
8 limit 131072

words pipe a.aff a.dic
> !
> hello
> retry
> *@131072 a@
< 
< # retry 0
< 
8 limit 131072

# Each first character, while answers are terse and while they are not, again behind other lines.
file a.aff PFX A Y 1|PFX A 0 re .|SFX B Y 2|SFX B 0 ed [^y]|SFX B y ied y
file a.dic 3|hello|try/B|work/AB
words pipe a.aff a.dic
> hello tried
< *
< + try
< 
> reworked retry
< + work
< # retry 9
< 
> ^*retry
< # retry 2
< 
> !
> hello retry
< # retry 6
< 
> %
> tried
< + try
< 
> 
< 
> !retry
> retry tried rework
< # retry 0
< 
> @xff@retry
< bad 11
< 
> 
< 
> *retry
> &retry
> @x40@retry
> +retry
> -retry
> ~retry
> #retry
> hello 12 wurk
< # wurk 9
< 
> %retry
> @xff@tried
< bad 22
< 
> hello@xff@
< bad 23
< 
> hello 12 HELLO wurk
< *
< *
< # wurk 15
< 
> @xefbbbf@retry tried
< # retry 3
< + try
< 
> ^
< 
> ^^retry
< # retry 2
< 
> ^hello
< *
< 
> retry\r tried
< # retry 0
< + try
< 
>  !retry
< # retry 2
< 
> $retry
< # retry 1
< 
> \u{e9}t\u{e9} retry
< # \u{e9}t\u{e9} 0
< # retry 6
< 
> !@xff@
> tried @xff@
< bad 34
< 
> %@xff@
> tried
< + try
< 

# A compound, a word, and one that has a letter too many.
file a.aff COMPOUNDFLAG X|COMPOUNDMIN 2|CHECKCOMPOUNDDUP|CHECKCOMPOUNDTRIPLE
file a.dic 3|foo/X|bar/X|ox/X
words pipe a.aff a.dic
> foobar foo fooox
< -
< *
< # fooox 11
< 

# A spelling that is forbidden, where the word covers another one that is not.
file a.aff FORBIDDENWORD Z|SFX S Y 1|SFX S 0 s .
file a.dic 3|foo/S|foos/Z|Foo/S
words pipe a.aff a.dic
> FOOS Foos foos foo
< + Foo
< + Foo
< # foos 10
< *
< 

# Words of several entries, of which the first one counts.
file a.aff SFX B Y 1|SFX B 0 ed .|PFX A Y 1|PFX A 0 re .
file a.dic 4|work/AB|worked|tried|tri/B
words pipe a.aff a.dic
> worked tried rework
< + work
< *
< + work
< 

# An entry that keeps its case.
file a.aff KEEPCASE K|SFX S Y 1|SFX S 0 s .
file a.dic 2|drink/KS|Drinks
words pipe a.aff a.dic
> Drinks drinks DRINK
< *
< + drink
< # DRINK 14
< 

# Words that are converted, that have a character to ignore, that are broken, and a number.
file a.aff ICONV 1|ICONV y i|IGNORE \u{e4}|WORDCHARS -0123456789|SFX S Y 1|SFX S 0 s .
file a.dic 1|hi/S
words pipe a.aff a.dic
> hy hyys h\u{e4}ys hi-hys 12
< *
< # hyys 3
< + hi
< -
< -
< 

# Files that are not there, that have a fault, and that fail. Nothing is read then.
words pipe a.aff none.dic
> hello
5 missing
words pipe none.aff c.dic
5 missing
words pipe c.aff none.dic
3 aff 1 OtherEncoding
words pipe a.aff c.dic
3 dic 1 BadCount
words pipe a.aff a.dic
loads 1
5 files
loads 2
5 files

# The input fails, behind the answers to the lines before.
words pipe a.aff a.dic
> hello wrold
> tried
piece 12
reads 2
< *
< # wrold 6
< 
5 input

# The sink fails.
words pipe a.aff a.dic
> hello wrold
puts 1 0
6
puts 1 5
6 *|# w

# Words of no form.
words pipe a.aff
2 affedit: words
words pipe a.aff a.dic text
2 affedit: words
words pipe a.aff a.dic --workers 1
2 affedit: words
words pipe a.aff a.dic --own own
2 affedit: words
words Pipe a.aff a.dic
2 affedit: words
";
