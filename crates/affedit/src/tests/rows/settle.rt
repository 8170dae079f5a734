/// Dialogues on `settle`.
pub const ROWS: &str = "
# Without a paragraph there is nothing to check or to show.
> settle
< ok 0
> show
< text 0 dict 0
< .
> load a.aff a.dic
< dict 1
> settle
< ok 0
> show
< text 0 dict 1
< .
";
