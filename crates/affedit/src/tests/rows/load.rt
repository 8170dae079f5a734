/// Dialogues on `load`.
pub const ROWS: &str = "
# The faults of a load, each of which leaves the dictionary.
file large.aff @16777217 #@
> ins 1 hello wrold
< ok 1
> settle
< ok 1
> load none.aff none.dic
< no Missing
> load b.aff none.dic
< no Missing
> load c.aff none.dic
< no aff 1 OtherEncoding
> load b.aff c.dic
< no dic 1 BadCount
> load large.aff b.dic
< no Large 16777216
> load b.aff large.aff
< no Large 16777216
> show
< text 1 dict 0
< 1 6 11 wrold
< .

# What a load makes wait is checked by the new dictionary alone.
> ins 1 hello wrold
< ok 1
> settle
< ok 1
> load b.aff b.dic
< dict 1
> load a.aff a.dic
< dict 2
> settle
< ok 1
> show
< text 1 dict 2
< 1 6 11 wrold
< .

loads 1
> ins 1 hello wrold
> settle
> show
> load b.aff b.dic
> show
> settle
> show
> load c.aff b.dic
> show
5 files

loads 2
> ins 1 hello wrold
> settle
> show
> load b.aff b.dic
> show
> settle
> show
> load c.aff b.dic
> show
5 files

loads 3
> ins 1 hello wrold
< ok 1
> settle
< ok 1
> show
< text 1 dict 0
< 1 6 11 wrold
< .
> load b.aff b.dic
< no Files
> show
< text 1 dict 0
< 1 6 11 wrold
< .
> settle
< ok 1
> show
< text 1 dict 0
< 1 6 11 wrold
< .
> load c.aff b.dic
< no aff 1 OtherEncoding
> show
< text 1 dict 0
< 1 6 11 wrold
< .

loads 4
> ins 1 hello wrold
< ok 1
> settle
< ok 1
> show
< text 1 dict 0
< 1 6 11 wrold
< .
> load b.aff b.dic
< no Files
> show
< text 1 dict 0
< 1 6 11 wrold
< .
> settle
< ok 1
> show
< text 1 dict 0
< 1 6 11 wrold
< .
> load c.aff b.dic
< no aff 1 OtherEncoding
> show
< text 1 dict 0
< 1 6 11 wrold
< .

loads 5
> ins 1 hello wrold
< ok 1
> settle
< ok 1
> show
< text 1 dict 0
< 1 6 11 wrold
< .
> load b.aff b.dic
< dict 1
> show
< text 1 dict 1
< 1 ?
< .
> settle
< ok 1
> show
< text 1 dict 1
< 1 0 5 hello
< .
> load c.aff b.dic
< no Files
> show
< text 1 dict 1
< 1 0 5 hello
< .

loads 6
> ins 1 hello wrold
< ok 1
> settle
< ok 1
> show
< text 1 dict 0
< 1 6 11 wrold
< .
> load b.aff b.dic
< dict 1
> show
< text 1 dict 1
< 1 ?
< .
> settle
< ok 1
> show
< text 1 dict 1
< 1 0 5 hello
< .
> load c.aff b.dic
< no aff 1 OtherEncoding
> show
< text 1 dict 1
< 1 0 5 hello
< .
";
