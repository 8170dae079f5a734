/// Dialogues that are also cut, and whose reads and puts fail, at each place.
pub const ROWS: &str = "
closed 3 0
> ins 1 hello wrold
< ok 1
> ins 2 wurk
< ok 2
> show
< text 2 dict 0
< 1 ?
< 2 ?
< .
> settle
< ok 2
> show
< text 2 dict 0
< 1 6 11 wrold
< 2 0 4 wurk
< .
> put 1 hello work
< ok 3
> show
< text 3 dict 0
< 1 ?
< 2 0 4 wurk
< .
> stop 1
< ok 3
> settle
< ok 3
> show
< text 3 dict 0
< 1 ?
< 2 0 4 wurk
< .
> ask 1
< ok 3
> settle
< ok 3
> show
< text 3 dict 0
< 2 0 4 wurk
< .
> quit

closed 1 1
> ins 1 hello wrold
< ok 1
> settle
< ok 1
> show
< text 1 dict 0
< 1 6 11 wrold
< .
> load b.aff b.dic
< dict 1
> show
< text 1 dict 1
< 1 ?
< .
> settle
< ok 1
> show
< text 1 dict 1
< 1 0 5 hello
< .
> load c.aff b.dic
< no aff 1 OtherEncoding
> show
< text 1 dict 1
< 1 0 5 hello
< .

words pipe a.aff a.dic
> hello wrold
< *
< # wrold 6
< 
> tried
< + try
< 
> !
> rework wurk
< # wurk 7
< 
> %
";
