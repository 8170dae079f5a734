/// Lines of an .aff file that say nothing, and names that are no directive's.
pub const ROWS: &str = "
aff #SFX A Y 0
dic 1|work
text work
0 0 of 1

# Lines that say nothing, whatever ends them, and names that are no option's.
aff \u{feff}
dic 1|foo|
text foo
0 0 of 1

aff | \t\r|# SET latin1|#SET|
dic 1|foo
text foo
0 0 of 1

aff \u{feff}SET utf-8\r|TRY esian\r|set|SETS x|KEY|FLAGS|PFXX|sfx A|WORDCHARSX a|
dic 1|foo
text foo
0 0 of 1

# Blanks before a line, and a second field.
aff  set x|\tSET\tutf-8 more|UNKNOWN|
dic   12 words| a b |\tx| \t|ok po:noun|c\td
text ok c a
1 1 5 6 a|1 of 3
";
