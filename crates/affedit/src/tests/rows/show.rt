/// Dialogues on `show`.
pub const ROWS: &str = "
# A text that is put in twice is shown twice; a word of several bytes.
> ins 1 wröld
< ok 1
> ins 1 wröld
< ok 2
> settle
< ok 2
> show
< text 2 dict 0
< 1 0 6 wröld
< 2 0 6 wröld
< .
";
