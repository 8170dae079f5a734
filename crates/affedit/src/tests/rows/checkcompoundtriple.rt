/// CHECKCOMPOUNDTRIPLE: a character does not stand three times in a row across a joint.
pub const ROWS: &str = "
# A character does not stand three times in a row across a joint, from either side of it.
aff COMPOUNDFLAG X|COMPOUNDMIN 2|CHECKCOMPOUNDTRIPLE
dic 2|foo/X|ox/X
text fooox oxfoo foofoo oxox FOOOX
1 1 0 5 fooox|1 24 29 FOOOX|2 of 5
dic 2|fo/X|oox/X
text fooox fofo fooofo oxfo
1 1 0 5 fooox|1 11 17 fooofo|1 18 22 oxfo|3 of 4
dic 5|foo/X|oo/X|bar/X|fooo/X|Ox/X
text foooo barooo foobar fooobar barfooo fooOx oobar oooo fooofoo
1 1 0 5 foooo|1 6 12 barooo|1 48 52 oooo|3 of 9
dic 4|schiff/X|fahrt/X|\u{df}a\u{df}\u{df}/X|\u{df}o/X
text schifffahrt schiffahrt fahrtschiff \u{df}a\u{df}\u{df}\u{df}o \u{df}o\u{df}o \u{df}o\u{df}a\u{df}\u{df}
1 1 0 11 schifffahrt|1 12 22 schiffahrt|1 35 45 \u{df}a\u{df}\u{df}\u{df}o|3 of 6
# Of three parts none sees more than its neighbours.
aff COMPOUNDFLAG X|COMPOUNDMIN 1|CHECKCOMPOUNDTRIPLE
dic 2|o/X|fo/X
text ooo foooo fofo
0 0 of 3

aff CHECKCOMPOUNDTRIPLE|COMPOUNDFLAG X|CHECKCOMPOUNDTRIPLE
dic 4|foo/X|bar/X|Baz/X|oxen/X
text foofoo barfoo fooBaz foooxen
1 1 21 28 foooxen|1 of 4
";
