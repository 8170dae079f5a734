/// Dialogues on lines of any kind: those that are no command, blank ones, and the bytes that end or begin them.
pub const ROWS: &str = "
# What is no command; a blank line has no reply.
> 
>  \t 
> show 
< no Command
>  show
< no Command
> SHOW
< no Command
> ins
< no Command
> ins 1234567890 x
< no Command
> ins x y
< no Command
> ins -1 y
< no Command
> del 1 2
< no Command
> load a.aff
< no Command
> load a.aff a.dic a.dic
< no Command
> @xff@
< no Command
> ins 1 @xff@
< no Command
> show
< text 0 dict 0
< .

# Lines that end with a carriage return; only the last one is dropped.
> ins 1 wurk\r
< ok 1
> settle\r
< ok 1
> show\r
< text 1 dict 0
< 1 0 4 wurk
< .
> \r
> show\r\r
< no Command
> quit\r
> show

# A byte order mark is dropped at the start, and nowhere else.
> \u{feff}ins 1 wurk
< ok 1
> \u{feff}show
< no Command

# A byte order mark, and then a line that is blank.
> \u{feff}
> show
< text 0 dict 0
< .

# No line, and blank lines.
>

>
>

# A byte order mark alone, and a part of one.
> \u{feff}

> @xefbb@
< no Command
";
