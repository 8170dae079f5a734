/// AF: flags by the place of their list in a table.
pub const ROWS: &str = "
# Flags of entries by aliases.
aff PFX A Y 1|PFX A 0 re .|SFX B Y 2|SFX B 0 ed [^y]|SFX B y ied y|AF 2|AF B|AF AB
dic 3|hello|try/1|work/2
text hello tried reworked retry worked
1 1 21 26 retry|1 of 5

# Aliases: their flags in any order, by the type of flags of the file, among other lines; the flags of options are none.
aff AF 2|AF ABA|AF C|NEEDAFFIX A
dic 2|foo/1|bar/2
text foo bar
1 1 0 3 foo|1 of 2

aff AF 002 x|#|AF 1,2,3||FLAG num|AF 7 # 8|NEEDAFFIX 3
dic 2|foo/1|bar/2
text foo bar
1 1 0 3 foo|1 of 2

aff AF 002 x|#|AF 1,2,3||FLAG num|AF 7 # 8|NEEDAFFIX 7|FORBIDDENWORD 8
dic 2|foo/1|bar/2
text foo bar
1 1 4 7 bar|1 of 2

aff AF 1|AF AaBb|FLAG long|NEEDAFFIX Bb
dic 2|foo/1|bar
text foo bar
1 1 0 3 foo|1 of 2

aff AF 2|WARN !|AF A||SET UTF-8|PSEUDOROOT B|AF B
dic 2|foo/1|bar/2
text foo bar
1 1 4 7 bar|1 of 2

aff AF 2 # two|WORDCHARS -|AF XY|# between|WARN Y|AF Z|FORBIDWARN|
dic 2|foo/1|bar/2
text foo bar
1 1 0 3 foo|1 of 2

aff AF 0
dic 2|foo/|bar
text foo bar
0 0 of 2

# Aliases stand for the flags of a rule, and never for that of a class.
aff AF 3|AF BA|AF C|AF 7|SFX 7 Y 3|SFX 7 0 s/1|SFX 7 0 t/2 .|SFX 7 0 u/|SFX A Y 1|SFX A 0 a|SFX B Y 1|SFX B 0 b|SFX C Y 1|SFX C 0 c
dic 1|w/3
text ws|wt|wu|wsa|wsb|wsc|wtc|wta|wua
1 6 0 3 wsc|8 0 3 wta|9 0 3 wua|3 of 9

# The alias of an entry.
aff AF 2|AF BA|AF C|NEEDAFFIX A
dic 5|one/1|two/02|three/1 po:noun|four/|five
text one two three four five
1 1 0 3 one|1 8 13 three|2 of 5

# Ordinals of aliases: the flags of the second have no meaning.
aff FLAG long|AF 2|AF Aa|AF bB|SFX Aa Y 1|SFX Aa 0 s
dic 4|b/|c/1|d/001|f/2
text b bs cs ds f fs
1 1 2 4 bs|1 13 15 fs|2 of 6
fault dic 2 BadAlias: 1|foo/0
fault dic 2 BadAlias: 1|foo/3
fault dic 2 BadAlias: 1|foo/x
fault dic 2 BadAlias: 1|foo/1,2
fault dic 2 BadAlias: 1|foo/+1
fault dic 2 BadAlias: 1|foo/18446744073709551617

# In a file without one alias a field is empty.
aff AF 0
dic 1|foo/
text foo
0 0 of 1
fault dic 2 BadAlias: 1|foo/0
fault dic 2 BadAlias: 1|foo/1
fault dic 2 BadAlias: 1|foo/Aa

# The header.
fault aff 1 BadNumber: AF x|AF A|AF
fault aff 1 BadNumber: AF many
fault aff 1 BadNumber: AF -1
fault aff 1 BadNumber: AF +1
fault aff 1 BadNumber: AF 1a
fault aff 1 BadNumber: AF 0x1
fault aff 1 BadNumber: AF 1_0
fault aff 1 BadNumber: AF \u{663}
fault aff 1 BadNumber: AF 18446744073709551616
fault aff 1 BadNumber: AF 4294967296
fault aff 1 BadNumber: AF 99999999999999999999
fault aff 1 TooMany: AF 65001|AF A
fault aff 1 TooMany: AF 4294967295
fault aff 1 TableShort: AF 65000|AF A
fault aff 1 TableShort: AF 2|AF A
fault aff 1 TableShort: AF 2|AF
# The rows, and the lines past them.
fault aff 3 MissingField: AF 2|AF A|AF|AF B
fault aff 3 Twice: AF 1|AF A|AF
fault aff 3 Twice: AF 0||AF A
fault aff 4 BadFlag: FLAG long|AF 2|AF Aa|AF AaB|AF Bb
fault aff 2 BadFlag: AF 1|AF 1,,2|FLAG num
fault aff 1 MissingField: AF
fault aff 1 BadNumber: AF x
fault aff 1 TooMany: AF 65001
fault aff 1 TooMany: AF 4294967295|AF A
# A table that the end of the file cuts off.
fault aff 3 TableShort: SET UTF-8||AF 3|AF A|AF B
fault aff 3 Twice: AF 1|AF A|AF B
fault aff 2 Twice: AF 0|AF
# A row without its field counts as a row.
fault aff 2 MissingField: AF 2|AF|AF B
fault aff 3 BadFlag: FLAG long|AF 1|AF abc

aff AF 2|AF BA|AF C
fault dic 2 BadAlias: 1|foo/0
fault dic 2 BadAlias: 1|foo/3
fault dic 2 BadAlias: 1|foo/A

aff AF 0
fault dic 2 BadAlias: 1|foo/1
fault dic 2 BadAlias: 1|foo/A
fault dic 2 BadAlias: 1|foo/X

aff AF 2|AF B|AF AB|SFX B Y 0
fault dic 4 BadAlias: 3|hello|try/1|work/3

aff AF 1|AF X
fault dic 2 BadAlias: 1|foo/0
fault dic 2 BadAlias: 1|foo/2
";
