/// IGNORE: characters that are left out of words.
pub const ROWS: &str = "
aff IGNORE -|WORDCHARS -|BREAK 0
dic 1|co-op
text coop co-op c-o-o-p
0 0 of 3

aff IGNORE -x|WORDCHARS -|BREAK 0
dic 1|co-op
text x
0 0 of 1

# What is ignored goes from what is stripped and added, and not from a condition.
aff IGNORE -~|SFX A Y 1|SFX A -y i-ed [^-]-y
dic 1|try/A
text tried
1 1 0 5 tried|1 of 1

aff IGNORE -~|SFX A Y 1|SFX A -y i-ed/BC [^-]y|SFX B Y 1|SFX B 0 s|SFX C Y 1|SFX C 0 t
dic 1|try/A
text tried trieds triedt
0 0 of 3

aff IGNORE -~|PFX A N 1|PFX A -- -
dic 1|foo/A
text foo
0 0 of 1

# A zero that is left is literal, and one alone is nothing.
aff IGNORE -~|WORDCHARS 01|SFX A Y 1|SFX A -0 1-
dic 2|x0/A|foo/A
text x1 foo1 x01
1 1 3 7 foo1|1 8 11 x01|2 of 3

aff IGNORE -~|SFX A Y 1|SFX A 0 0
dic 1|foo/A
text foo
0 0 of 1

# Ignored characters go from words and not from flags.
aff FLAG long|IGNORE -\u{5b0}|NEEDAFFIX --
dic 5|f-oo|-bar-|\u{5d0}\u{5b0}|baz/--|qux
text foo bar \u{5d0} baz qux
1 1 11 14 baz|1 of 5

# A word of which nothing is left is accepted.
aff IGNORE aet
dic 0
text tea teas
1 1 4 8 teas|1 of 2

# A character is itself, not another case of it.
aff IGNORE ex
dic 1|tr
text tree tExr
1 1 5 9 tExr|1 of 2

aff IGNORE E
dic 1|tree
text tree tr
1 1 5 7 tr|1 of 2

aff IGNORE \u{5b0}\u{5b8}
dic 1|\u{5d0}\u{5d1}
text \u{5d0}\u{5b8}\u{5d1} \u{5d0}\u{5b7}\u{5d1}
1 1 7 13 \u{5d0}\u{5b7}\u{5d1}|1 of 2

fault aff 1 MissingField: IGNORE
fault aff 2 Twice: IGNORE a|IGNORE a

aff IGNORE -
fault dic 3 EmptyWord: 2|foo|--
";
