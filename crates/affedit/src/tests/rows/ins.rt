/// Dialogues on `ins`.
pub const ROWS: &str = "
# Places: none before the first, one past the last for `ins` alone.
> del 0
< no Place 0
> ins 0 x
< no Place 0
> ins 2 x
< no Place 0
> put 1 x
< no Place 0
> sub 1 0 0 x
< no Place 0
> stop 1
< no Place 0
> ask 1
< no Place 0
> ins 1 b
< ok 1
> ins 1 a
< ok 2
> ins 4 d
< no Place 2
> ins 3 c
< ok 3
> ins 000000002 work
< ok 4
> settle
< ok 4
> show
< text 4 dict 0
< 1 0 1 a
< 3 0 1 b
< 4 0 1 c
< .
> del 999999999
< no Place 4
> del 5
< no Place 4
> del 4
< ok 5
> del 1
< ok 6
> show
< text 6 dict 0
< 2 0 1 b
< .

# An empty text, with its space or without; a text with spaces at its ends; and one in a text.
> ins 1
< ok 1
> ins 2 
< ok 2
> ins 3  wurk 
< ok 3
> sub 1 0 0 wrold
< ok 4
> sub 3 0 1
< ok 5
> settle
< ok 5
> show
< text 5 dict 0
< 1 0 5 wrold
< 3 0 4 wurk
< .
> put 1
< ok 6
> put 3 
< ok 7
> settle
< ok 7
> show
< text 7 dict 0
< .
";
