/// FORBIDDENWORD: words that are barred, whatever else allows them.
pub const ROWS: &str = "
# A forbidden homonym forbids the word.
aff FLAG long|FORBIDDENWORD Zz|NEEDAFFIX Na
dic 4|foo|bar/Zz|bar|qux/Na
text foo bar qux
1 1 4 7 bar|1 8 11 qux|2 of 3

aff AF 1|AF XY|FORBIDDENWORD Y
dic 2|foo|foo/1
text foo
1 1 0 3 foo|1 of 1

# A bare stem that is forbidden bars no word.
aff NEEDAFFIX N|FORBIDDENWORD Z
dic 2|foo/NZ|foo
text foo
0 0 of 1

aff FLAG num|FORBIDDENWORD 65000
dic 2|foo/1,65000|bar/65,1
text foo bar
1 1 0 3 foo|1 of 2

# The affixed forms of a forbidden word are forbidden.
aff FORBIDDENWORD Z|SFX S Y 1|SFX S 0 s .
dic 3|bar/S|bars/Z|baz/SZ
text bar bars baz bazs
1 1 4 8 bars|1 9 12 baz|1 13 17 bazs|3 of 4

aff FORBIDDENWORD Z|SFX S Y 1|SFX S 0 s .
dic 2|bar/S|bars/Z
text bar bars Bars BARS
1 1 4 8 bars|1 9 13 Bars|1 14 18 BARS|3 of 4

# A forbidden word is forbidden as it is written; in another case it is broken where its pieces are words.
aff FORBIDDENWORD Z|WORDCHARS -
dic 3|foo|bar|foo-bar/Z
text foo-bar FOO-BAR Foo-bar
1 1 0 7 foo-bar|1 of 3

# A forbidden word bars its own forms, in each case of them, and not those compounds in which it stands.
aff FORBIDDENWORD Z|COMPOUNDFLAG X|SFX S Y 1|SFX S 0 s .
dic 5|bar/S|bars/Z|foo/X|baz/X|foobaz/Z
text bar bars Bars foobaz bazfoo
1 1 4 8 bars|1 9 13 Bars|1 14 20 foobaz|3 of 5
dic 4|foo/X|bar/XS|foobar/ZS|barfoo/Z
text foobar foobars Foobar FOOBAR foobarfoo foofoobar foofoobars barbar BARFOO barfoos
1 1 0 6 foobar|1 7 14 foobars|1 15 21 Foobar|1 22 28 FOOBAR|1 67 73 BARFOO|1 74 81 barfoos|6 of 10
dic 3|foo/X|bar/X|Foobar/Z
text foobar Foobar FOOBAR Barfoo
1 1 7 13 Foobar|1 of 4

# A forbidden entry is no part, and another entry of its word is one.
aff FORBIDDENWORD Z|COMPOUNDFLAG X
dic 4|foo/X|bar/XZ|baz/XZ|baz/X
text foobar barfoo foobarfoo foobaz bazfoo foobazfoo baz Foobar Foobaz
1 1 0 6 foobar|1 7 13 barfoo|1 14 23 foobarfoo|1 48 51 baz|1 52 58 Foobar|5 of 9

# A sound derivation of a forbidden word bars the other entries of its form, also where it could not stand as a word
# itself. One that is not sound bars none.
aff NEEDAFFIX n|CIRCUMFIX c|FORBIDDENWORD f|WARN w|FORBIDWARN|ONLYINCOMPOUND o|PFX U Y 1|PFX U 0 un|SFX S Y 1|\
    SFX S 0 s|SFX E Y 1|SFX E 0 e/nS|SFX G Y 1|SFX G 0 t/c|PFX G Y 1|PFX G 0 ge/c|SFX I Y 1|SFX I 0 i/o
dic 17|stem/nfE|stem|steme|stemes|mach/GUf|macht|gemach|unmacht|gemacht|bad/fS|bads|rare/wSf|rares|part/of|part|\
    foot/If|footi
text stem steme macht gemach unmacht stemes gemacht bads rares part footi
1 1 32 38 stemes|1 39 46 gemacht|1 47 51 bads|1 52 57 rares|1 58 62 part|1 63 68 footi|6 of 11

# Forbidden entries that allow no affix bar their own words alone.
aff FORBIDDENWORD N|SFX S Y 1|SFX S 0 s|PFX U Y 1|PFX U 0 un
dic 4|cat/S|cats/N|dot/SU|undot/N
text cat cats dots undot undots catss
1 1 4 8 cats|1 14 19 undot|1 27 32 catss|3 of 6

# Those that allow affixes bar all forms that they have, and no other entry's.
aff FORBIDDENWORD N|SFX S Y 1|SFX S 0 s|PFX U Y 1|PFX U 0 un
dic 5|cat/NS|uncat|dot/U|dot/NSU|hat/SU
text cat cats uncat dot dots undot undots hat hats unhats
1 1 0 3 cat|1 4 8 cats|1 15 18 dot|1 19 23 dots|1 24 29 undot|1 30 36 undots|6 of 10

# So do those that allow a prefix, with the suffixes that the prefix allows, and with second suffixes.
aff FORBIDDENWORD N|PFX P Y 1|PFX P 0 un/S|SFX S Y 1|SFX S 0 s|SFX A Y 1|SFX A 0 er/S
dic 7|do/NP|undos|dos|go/NA|gos|goer|goers
text do undo undos dos go gos goer goers
1 1 0 2 do|1 3 7 undo|1 8 13 undos|1 18 20 go|1 25 29 goer|1 30 35 goers|6 of 8

fault aff 2 BadFlag: FLAG num|FORBIDDENWORD 65001
fault aff 1 MissingField: FORBIDDENWORD
";
