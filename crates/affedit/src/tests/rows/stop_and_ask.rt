/// Dialogues on `stop` and `ask`.
pub const ROWS: &str = "
# A paragraph is stopped and asked for; an edit and nothing else wakes it.
> ins 1 wurk
< ok 1
> stop 1
< ok 1
> stop 1
< no Parked
> load a.aff a.dic
< dict 1
> settle
< ok 1
> show
< text 1 dict 1
< 1 ?
< .
> put 1 wurk
< ok 2
> ask 1
< no NotParked
> settle
< ok 2
> show
< text 2 dict 1
< 1 0 4 wurk
< .
> stop 1
< no Finished
> ask 1
< no NotParked
";
