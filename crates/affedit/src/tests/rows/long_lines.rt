/// Dialogues with lines as long as they may be, and longer ones.
pub const ROWS: &str = "
> @131072 a@
< no Command

> @131073 a@
8 limit 131072

> @131072 a@\r
< no Command

> @131073 a@\r
8 limit 131072

> @131072 a@
> show
< no Command
< text 0 dict 0
< .

> @131073 a@
> show
8 limit 131072

> @131072 a@\r
> show
< no Command
< text 0 dict 0
< .

> @131073 a@\r
> show
8 limit 131072

> @131073 a@\r\r
> show
8 limit 131072

> @131071 a@\r\r
> show
< no Command
< text 0 dict 0
< .

> \u{feff}@131072 a@
> show
< no Command
< text 0 dict 0
< .

> \u{feff}@131073 a@
> show
8 limit 131072

> show
> \u{feff}@131070 a@
< text 0 dict 0
< .
8 limit 131072

> ins 1 wurk
> @131073 a@
> show
< ok 1
8 limit 131072

> @131073 a@
> @131073 a@
8 limit 131072

> quit
> @131073 a@

> show
> @200000 a@
< text 0 dict 0
< .
8 limit 131072
";
