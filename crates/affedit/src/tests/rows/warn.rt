/// WARN and FORBIDWARN: rare words, which may be refused.
pub const ROWS: &str = "
aff WARN W
dic 1|foo/W
text foo
0 0 of 1

aff WARN W|FORBIDWARN
dic 2|foo/W|bar
text foo bar
1 1 0 3 foo|1 of 2

# Blanks before and behind the fields of a line.
aff   WARN  !  |FORBIDWARN|FORBIDWARN again
dic 2|foo/!|bar
text foo bar
1 1 0 3 foo|1 of 2

# A rare word, which may be refused.
aff WARN W|COMPOUNDFLAG X
dic 3|foo/X|bar/XW|baz/WX
text foobar barfoo foobarfoo bar bazbar
0 0 of 5
aff WARN W|FORBIDWARN|COMPOUNDFLAG X
1 1 0 6 foobar|1 7 13 barfoo|1 14 23 foobarfoo|1 24 27 bar|1 28 34 bazbar|5 of 5

# Rare words are right unless they are refused.
aff WARN w|SFX S Y 1|SFX S 0 s
dic 1|rare/wS
text rare rares
0 0 of 2

fault aff 2 BadFlag: FLAG long|WARN a
fault aff 2 Twice: WARN A|WARN A
# A second line that is also ill is one too many first.
fault aff 2 Twice: WARN A|WARN ab
fault aff 2 Twice: WARN a|WARN ab
";
