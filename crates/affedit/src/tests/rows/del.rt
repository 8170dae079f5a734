/// Dialogues on `del`.
pub const ROWS: &str = "
# A paragraph that is stopped is taken out, and one that is put in its place waits.
> ins 1 wurk
< ok 1
> stop 1
< ok 1
> del 1
< ok 2
> ins 1 wurk
< ok 3
> settle
< ok 3
> show
< text 3 dict 0
< 1 0 4 wurk
< .
";
