/// Dialogues on `quit`.
pub const ROWS: &str = "
# Nothing is read behind `quit`.
> ins 1 hello
< ok 1
> quit
> show
> foo
> quit
";
