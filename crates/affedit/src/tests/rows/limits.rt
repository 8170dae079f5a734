/// How large files, tables, documents and paragraphs may be.
pub const ROWS: &str = "
# As many rules as may be announced.
aff PFX A Y 100000|100000*PFX A 0 a|SFX A Y 99999|99999*SFX A 0 a|SFX C Y 0|SFX D Y 1|SFX D 0 d
dic 1|foo
text foo
0 0 of 1

# As many entries as there may be.
dic 1|1000000*a
text a
0 0 of 1

# The length of a paragraph.
> ins 1 @65536 a@
< ok 1
> ins 1 @65537 a@
< no TooLong 65537
> put 1 @65537 a@
< no TooLong 65537
> sub 1 5 5 b
< no TooLong 65537
> sub 1 0 1 b
< ok 2
> put 1 @65536 a@
< ok 3
> show
< text 3 dict 0
< 1 ?
< .

# The paragraphs of a document, and the bytes of one.
aff SET UTF-8|# words|WORDCHARS 0123456789|
dic 2|hello|2nd|
text 19999*hello|@65536  @
0 0 of 19999
text 19999*hello|@65536  @\r|
0 0 of 19999
text 20000*hello|
0 0 of 20000
text 20000*hello|@1  @
8 limit 20000
text 20001*hello|
8 limit 20000
text 19999*hello|@65537  @
8 limit 65536
text @65537  @
8 limit 65536
text @65537  @\r|
8 limit 65536
text @65536  @\r|
0 0 of 0
text 20000*hello|@65537  @
8 limit 20000
text 19999*hello|@65537  @@xff@
4 doc 20000
text 20001*hello|@xff@
4 doc 20002

# Announced rules are added up, of both kinds of classes, in the order of the file.
fault aff 100002 TooMany: PFX A Y 100000|100000*PFX A 0 a|SFX A Y 100001
fault aff 200005 TooMany: PFX A Y 100000|100000*PFX A 0 a|SFX A Y 99999|99999*SFX A 0 a|SFX C Y 0|SFX D Y 1|SFX D 0 d|SFX E Y 1

aff FLAG num
# At most 1,000,000 entries: one more is told before the faults of later lines, behind those of its own and of lower ones.
fault dic 1000004 TooMany: 1|999999*a|| |a|a/1|bad/x
fault dic 1000002 BadFlag: 1|1000000*a|baz/x
fault dic 3 EmptyWord: 1|a| po:noun|1000000*a

# Files that are too large, whatever they say.
words check a b c
file a @16777217 #@
8 limit 16777216

words check a b c
file a @16777216 #@
file b @16777217 #@
8 limit 16777216

words check a b c
file a SET UTF-8|# words|WORDCHARS 0123456789|
file b 2|hello|2nd|
file c @67108865 #@
8 limit 67108864
";
