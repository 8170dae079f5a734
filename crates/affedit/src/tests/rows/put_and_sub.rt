/// Dialogues on `put` and `sub`.
pub const ROWS: &str = "
> ins 1 hello
< ok 1
> sub 1 0 1 j
< ok 2
> settle
< ok 2
> show
< text 2 dict 0
< 1 0 5 jello
< .
> sub 1 3 9 x
< no BadSpan 5
> del 2
< no Place 1
> ask 1
< no NotParked
> stop 1
< no Finished
> del 1
< ok 3
> show
< text 3 dict 0
< .
> foo
< no Command

# The ends of a span stand between characters.
> load signs.aff signs.dic
< dict 1
> ins 1 é-é naïve
< ok 1
> sub 1 1 2 x
< no BadSpan 12
> sub 1 0 3 x
< ok 2
> sub 1 0 12 x
< no BadSpan 10
> sub 1 5 3 x
< no BadSpan 10
> sub 1 10 10 é-é
< ok 3
> sub 1 0 1
< ok 4
> settle
< ok 4
> show
< text 4 dict 1
< 1 0 2 é
< 1 3 14 naïveé-é
< .

# An edit wakes its own paragraph alone.
> ins 1 wurk
< ok 1
> ins 2 helo
< ok 2
> ins 3 hello
< ok 3
> settle
< ok 3
> sub 2 2 4 llo
< ok 4
> show
< text 4 dict 0
< 1 0 4 wurk
< 2 ?
< .
> ins 2 x
< ok 5
> show
< text 5 dict 0
< 1 0 4 wurk
< 2 ?
< 3 ?
< .
> settle
< ok 5
> show
< text 5 dict 0
< 1 0 4 wurk
< 2 0 1 x
< .

# Of two refusals the first is told: the span, and then the length.
> ins 1 ab
< ok 1
> sub 1 1 3 @65537 a@
< no BadSpan 2
> sub 1 1 2 @65536 a@
< no TooLong 65537
> sub 2 1 3 @65537 a@
< no Place 1
> ins 3 @65537 a@
< no Place 1
";
