/// Sessions at once. What is written does not depend here on which of them comes first.
pub const ROWS: &str = "
# One session.
aff SET UTF-8|TRY esianrtolc|REP 2|REP f ph|REP ph f|PFX A Y 1|PFX A 0 re .|SFX B Y 2|SFX B 0 ed [^y]|SFX B y ied y
dic 3|hello|try/B|work/AB
words team a.aff a.dic script
file script 1 ins 1 hello wrold|1 settle|1 show
closed 1 0
0 session 1|ok 1|ok 1|text 1 dict 0|1 6 11 wrold|.|total text 1 dict 0

# Two sessions: a pair is loaded by one, and another is refused to the other.
aff SET UTF-8|TRY esianrtolc|REP 2|REP f ph|REP ph f|PFX A Y 1|PFX A 0 re .|SFX B Y 2|SFX B 0 ed [^y]|SFX B y ied y
dic 3|hello|try/B|work/AB
file b.aff SET UTF-8
file b.dic 1|wrold
file c.aff SET ISO8859-1
words team a.aff a.dic script
file script 1 load b.aff b.dic|2 load c.aff b.dic
closed 0 1
0 session 1|dict 1|session 2|no aff 1 OtherEncoding|total text 0 dict 1

# `quit` ends its own session alone.
aff
dic 1|hello
words team a.aff a.dic script
file script 1 ins 1 a|1 quit|1 ins 1 b|2 xyz
closed 1 0
0 session 1|ok 1|session 2|no Command|total text 1 dict 0
file script 2 quit|10 ins 1 a|2 show|10 del 1
closed 2 0
0 session 2|session 10|ok 1|ok 2|total text 2 dict 0

# A dictionary comes into force for all that is checked behind it.
aff
dic 1|hello
file b.aff
file b.dic 1|wrold
words team a.aff a.dic script
file script 3 ins 1 hello wrold|3 settle|3 show|3 load b.aff b.dic|3 settle|3 show|3 load a.aff a.dic|3 settle|3 show
closed 1 2
0 session 3|ok 1|ok 1|text 1 dict 0|1 6 11 wrold|.|dict 1|ok 1|text 1 dict 1|1 0 5 hello|.|dict 2|ok 1|text 1 dict 2|1 6 11 wrold|.|total text 1 dict 2

# A pair that is refused is replied to each line that names it, and the dictionary stays.
aff
dic 1|hello
file b.aff FLAG num
file b.dic 0|word/x|
file c.aff FLAG none
file c.dic 0
words team a.aff a.dic script
file script 1 load b.aff b.dic|1 load c.aff c.dic|1 load c.aff none.dic|2 load b.aff b.dic|1 load a.aff a.dic
closed 0 1
0 session 1|no dic 2 BadFlag|no aff 1 OtherFlag|no aff 1 OtherFlag|dict 1|session 2|no dic 2 BadFlag|total text 0 dict 1

# A session has no personal words.
aff
dic 1|hello
words team a.aff a.dic script
file script 1 own wrold|1 own|1 ins 1 wrold|1 settle|1 show
closed 1 0
0 session 1|no Command|no Command|ok 1|ok 1|text 1 dict 0|1 0 5 wrold|.|total text 1 dict 0

# What is refused is told as in every console.
aff
dic 1|hello
words team a.aff a.dic script
file script 1 put 1 a|1 ins 1 a|1 ins 3 a|1 sub 1 0 2 b|1 settle|1 stop 1|1 del 1|1 ask 1
closed 2 0
0 session 1|no Place 0|ok 1|no Place 1|no BadSpan 1|ok 1|no Finished|ok 2|no Place 0|total text 2 dict 0
workers 0
file script 1 ins 1 a|1 stop 1|1 stop 1|1 settle|1 show|1 ask 1|1 ask 1|1 settle|1 ask 1
closed 1 0
0 session 1|ok 1|ok 1|no Parked|ok 1|text 1 dict 0|1 ?|.|ok 1|no NotParked|ok 1|no NotParked|total text 1 dict 0

# A session is there by any of its lines, and blank lines are of none.
aff
dic 0
words team a.aff a.dic script
file script
0 total text 0 dict 0
file script | \t||
0 total text 0 dict 0
file script 16|1 |09  |
0 session 1|session 9|session 16|total text 0 dict 0
file script @xefbbbf@1 xyz@x0d0a@2 show@x0d0a@
0 session 1|no Command|session 2|text 0 dict 0|.|total text 0 dict 0

# The first line that is of no form.
aff
dic 0
words team a.aff a.dic script
file script 17 show
4 script 1
file script 1 show||0 show
4 script 3
file script 1 show| 1 show
4 script 2
file script 1 show|001 show
4 script 2
file script 1 show|2show
4 script 2
file script show
4 script 1
file script 1 show|2 @xff@|0
4 script 2

# A line that is too long, and too many pairs.
aff
dic 0
words team a.aff a.dic script
file script 12 @131072 a@
0 session 12|no Command|total text 0 dict 0
file script 12 @131073 a@
8 limit 131072
file script 12 @131073 a@|x
4 script 2
file script 1 load a b|1 load a c|2 load a d|2 load a e|1 load b a|1 @131073 a@
8 limit 131072
file script 1 load a b|1 load a c|2 load a d|2 load a e|1 load b a
8 limit 4
file script 1 quit|1 load a b|1 load a c|2 load a d|2 load a e|1 load b a
8 limit 4
file script 1 load a.aff a.dic|2 load a.aff a.dic|1 load a b|1 load a b|2 load a c|2 load b d
5 missing

# Files that are not there, or too large, in their order.
words team a.aff a.dic script
5 missing
aff FLAG none
3 aff 1 OtherFlag
aff
5 missing
dic
3 dic 1 BadCount
dic 0
5 missing
file script @16777217  @
8 limit 16777216
file script x|1 load b.aff b.dic
4 script 1
file script 1 load b.aff b.dic
5 missing
file b.aff @16777217 #@
8 limit 16777216
file b.aff
5 missing
file b.dic @16777217 #@
8 limit 16777216
file b.dic
closed 0 0
0 session 1|no dic 1 BadCount|total text 0 dict 0
closed
file script 1 load a.aff a.dic|2 load b.aff none.dic
5 missing

# Loads that fail.
aff
dic 0
file script 1 load b.aff b.dic
file b.aff
file b.dic 0
words team a.aff a.dic script
loads 1
5 files
loads 2
5 files
loads 3
5 files
loads 4
5 files
loads 5
5 files
loads 6
0 session 1|dict 1|total text 0 dict 1

# Puts that fail.
aff
dic 0
file script 1 xyz|2 xyz
words team a.aff a.dic script
puts 1 0
6
puts 1 12
6 session 1|no
puts 2 3
6 session 1|no Command|ses
puts 3 19
6 session 1|no Command|session 2|no Command|total text 0 dict 0
puts 4 0
0 session 1|no Command|session 2|no Command|total text 0 dict 0|

# Words of no form.
words team
2 affedit: words
words team a.aff a.dic
2 affedit: words
words team a.aff a.dic script --workers
2 affedit: words
words team a.aff a.dic script --workers 17
2 affedit: words
words team a.aff a.dic script --own own
2 affedit: words
words team a.aff a.dic script --workers 1 --own own
2 affedit: words
";
