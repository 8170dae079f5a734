/// ONLYINCOMPOUND: entries and affixes that stand in compounds alone.
pub const ROWS: &str = "
aff ONLYINCOMPOUND c
dic 2|foo/c|bar/C
text foo bar
1 1 0 3 foo|1 of 2

# A part that is no word alone, one that needs an affix, and an affix that stands in compounds only.
aff COMPOUNDFLAG X|ONLYINCOMPOUND O|NEEDAFFIX N|SFX S Y 1|SFX S 0 s|SFX T Y 1|SFX T 0 t/O
dic 4|foo/X|bar/XO|baz/XNS|qux/XT
text bar foobar barfoo barbar foobaz foobazs bazfoo bazs fooqux fooquxt quxt quxtfoo
1 1 0 3 bar|1 25 31 foobaz|1 40 46 bazfoo|1 67 71 quxt|1 72 79 quxtfoo|5 of 12

# A letter that links parts.
aff COMPOUNDFLAG X|COMPOUNDPERMITFLAG P|ONLYINCOMPOUND O|SFX S Y 1|SFX S 0 s/PO
dic 2|arbeit/XS|tag/X
text arbeits arbeitstag arbeittag tagarbeits arbeitsarbeitstag Arbeitstag ARBEITSTAG
1 1 0 7 arbeits|1 of 7

# With aliases the flag of an option is no ordinal.
fault aff 3 BadFlag: AF 1|AF XY|ONLYINCOMPOUND 1,2
fault aff 1 MissingField: ONLYINCOMPOUND
fault aff 1 BadFlag: ONLYINCOMPOUND ab
";
