/// CHECKCOMPOUNDCASE: no capital stands on either side of a joint, unless a dash stands there.
pub const ROWS: &str = "
# No capital stands on either side of a joint, unless a dash stands there. A title case letter is none.
aff WORDCHARS -|BREAK 0|COMPOUNDFLAG X|CHECKCOMPOUNDCASE
dic 6|foo/X|bar/X|Bar/X|foO/X|fOo/X|bAr/X
text foobar fooBar foObar foOBar barfoO fOobAr Foobar FOOBAR Barfoo barBar BARfoo FOOBAr
1 1 7 13 fooBar|1 14 20 foObar|1 21 27 foOBar|1 63 69 barBar|1 70 76 BARfoo|1 77 83 FOOBAr|6 of 12
dic 4|foo-/X|Bar/X|foO/X|-bar/X
text foo-Bar foO-bar foOBar foo--bar Bar-bar FOO-BAR foO-barfoo-Bar Barfoo-Bar foO-barBar
1 1 16 22 foOBar|1 40 47 FOO-BAR|1 74 84 foO-barBar|3 of 9
dic 5|foo/X|\u{c4}b\u{df}/X|\u{df}b\u{c4}/X|\u{1c5}ab/X|A\u{df}\u{c4}/X
text foo\u{c4}b\u{df} \u{c4}b\u{df}foo \u{df}b\u{c4}foo foo\u{df}b\u{c4} foo\u{1c5}ab foo\u{e4}b\u{df} \
    A\u{df}\u{c4}foo
1 1 0 8 foo\u{c4}b\u{df}|1 18 26 \u{df}b\u{c4}foo|1 44 52 foo\u{e4}b\u{df}|1 53 61 A\u{df}\u{c4}foo|4 of 7

aff CHECKCOMPOUNDCASE x|COMPOUNDFLAG X
dic 4|foo/X|bar/X|Baz/X|oxen/X
text foofoo barfoo fooBaz foooxen
1 1 14 20 fooBaz|1 of 4
";
