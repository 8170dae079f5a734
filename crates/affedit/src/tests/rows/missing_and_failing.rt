/// Files that are missing, at fault or too large, and loads and puts that fail.
pub const ROWS: &str = "
words edit none.aff none.dic
reads 1
> show
5 missing

words edit a.aff none.dic
reads 1
> show
5 missing

words edit c.aff none.dic
reads 1
> show
3 aff 1 OtherEncoding

words edit b.aff c.dic
reads 1
> show
3 dic 1 BadCount

file large.aff @16777217 #@
words edit large.aff b.dic
reads 1
> show
8 limit 16777216

file large.aff @16777217 #@
words edit b.aff large.aff
reads 1
> show
8 limit 16777216

# No .aff file.
words check a b c
file b 2|hello|2nd|
file c
5 missing

# An .aff file with a fault, and nothing else.
words check a b c
file a COMPLEXPREFIXES|
3 aff 1 LeftOut

# No .dic file.
words check a b c
file a SET UTF-8|# words|WORDCHARS 0123456789|
file c
5 missing

# A .dic file with a fault, and no document.
words check a b c
file a SET UTF-8|# words|WORDCHARS 0123456789|
file b
3 dic 1 BadCount

# No document.
words check a b c
file a SET UTF-8|# words|WORDCHARS 0123456789|
file b 2|hello|2nd|
5 missing

# A document that is no text.
words check a b c
file a SET UTF-8|# words|WORDCHARS 0123456789|
file b 2|hello|2nd|
file c hello|@xff@|
4 doc 2

# Each load that fails.
aff SET UTF-8|# words|WORDCHARS 0123456789|
dic 2|hello|2nd|
text hello 2nd wrld
loads 1
5 files
loads 2
5 files
loads 3
5 files

# A put that fails takes nothing, a part or all of what is written.
aff SET UTF-8|# words|WORDCHARS 0123456789|
dic 2|hello|2nd|
text hello 2nd wrld
puts 1 0
6
puts 1 7
6 1 10 14
puts 1 99
6 1 10 14 wrld|1 of 3|

words check a b c
puts 1 0
6
puts 1 3
6 mis
puts 1 99
6 missing|
";
