/// PFX and SFX: the lines of affix classes.
pub const ROWS: &str = "
aff SET UTF-8|TRY esianrtolc|REP 2|REP f ph|REP ph f|PFX A Y 1|PFX A 0 re .|SFX B Y 2|SFX B 0 ed [^y]|SFX B y ied y
dic 3|hello|try/B|work/AB
text hello tried reworked retry worked
1 1 21 26 retry|1 of 5
text tryed tried
1 1 0 5 tryed|1 of 2

# A class that does not cross.
aff PFX P N 1|PFX P 0 un .|SFX S Y 1|SFX S 0 s .
dic 1|do/PS
text undo dos undos
1 1 9 14 undos|1 of 3

# A class without rules.
aff PFX A Y 0
dic 1|foo/A
text foo
0 0 of 1

# A prefix and a suffix class of one flag, between one another and other lines, with flags and conditions.
aff SFX A Y 2|PFX A N 1|SFX A y ied/BC [^aeiou]y|TRY abc|PFX A 0 un .|SFX A 0 ed|SFX B N 1|SFX B 0 s|SFX C N 1|SFX C 0 t|
dic 2|try/A|play/A
text tried|untry|untried|plaied|played|trieds|triedt|tryeds
1 3 0 7 untried|4 0 6 plaied|8 0 6 tryeds|3 of 8

# The rules of two classes, between one another.
aff SFX A Y 1|SFX B N 1|SFX B 0 b|SFX A 0 a
dic 2|foo/A|bar/B
text fooa foob barb bara
1 1 5 9 foob|1 15 19 bara|2 of 4

# Tabs, leading zeros, and fields behind the condition.
aff WORDCHARS #|\tSFX\tA\tN  001  po:noun|SFX A 0 s # po:noun
dic 2|foo#/A|bar/A
text foo#s bars
1 1 6 10 bars|1 of 2

# A slash that a backslash precedes parts nothing; in what is stripped it means nothing.
aff WORDCHARS /\\|SFX A N 3|SFX A \\/ a\\/b/C .|SFX A 0 /B|SFX A 0 c/|SFX C N 1|SFX C 0 d .|SFX B N 1|SFX B 0 e .
dic 1|x\\\\//A
text xa/b|x\\/c|xa/bd|x\\/e|xc|x\\/d
1 5 0 2 xc|6 0 4 x\\/d|2 of 6

# Flags are all that follows the first slash.
aff SFX A N 1|SFX A 0 s/b/c ..|SFX b N 1|SFX b 0 t|SFX c N 1|SFX c 0 u|SFX / N 1|SFX / 0 v
dic 2|ab/A|a/A
text abs as abst absu absv
1 1 4 6 as|1 of 5

# Flags of all types.
aff FLAG long|SFX Aa Y 1|SFX Aa 0 s/AaBb x|SFX Bb Y 1|SFX Bb 0 t
dic 2|ax/Aa|ay/Aa
text axs ays axst axt
1 1 4 7 ays|1 13 16 axt|2 of 4

aff FLAG num|SFX 1001 Y 1|SFX 1001 0 s/65000,1 .|SFX 65000 Y 1|SFX 65000 0 t|SFX 1 Y 1|SFX 1 0 u
dic 1|a/1001
text as ast asu at
1 1 11 13 at|1 of 4

aff FLAG UTF-8|PFX \u{e4} Y 1|PFX \u{e4} 0 \u{f6}/\u{fc} \u{e9}|SFX \u{fc} Y 1|SFX \u{fc} 0 s
dic 2|\u{e9}a/\u{e4}|ea/\u{e4}
text \u{f6}\u{e9}a \u{f6}ea \u{f6}\u{e9}as
1 1 6 10 \u{f6}ea|1 of 3

aff FLAG num|SFX 65000 Y 0
dic 1|a
text a
0 0 of 1

# What a rule adds goes to its first slash that no backslash precedes. A backslash stands for itself where no slash
# follows, also before the one that escapes the slash. Flags are all that stands behind the slash.
aff WORDCHARS /\\12345|SFX S Y 11|SFX S ee /|SFX S e /A|SFX S 0 ab|SFX S 0 cd/|SFX S 0 ef/A/B|SFX S 0 gh//A|\
    SFX S 0 i\\/j/A\\/|SFX S 0 \\//A|SFX S 0 \\\\/A|SFX S 0 k\\l\\|SFX S 0 \u{e4}\\\u{2019}/\u{1f600}|SFX A Y 1|\
    SFX A 0 1|SFX B Y 1|SFX B 0 2|SFX / Y 1|SFX / 0 3|SFX \\ Y 1|SFX \\ 0 4|SFX \u{1f600} Y 1|SFX \u{1f600} 0 5
dic 1|tree/S
text tr tr1 tre tre1 tre2 treeab treeab1 treecd treecd1 treeef treeef1 treeef2 treeef3 treeef4
1 1 3 6 tr1|1 16 20 tre2|1 28 35 treeab1|1 43 50 treecd1|1 82 89 treeef4|5 of 14
text treegh treegh1 treegh2 treegh3 treei/j treei/j1 treei/j2 treei/j3 treei/j4 treei\\/j tree/ tree/1 tree/3 tree\\1
1 1 15 22 treegh2|1 48 56 treei/j2|1 75 83 treei\\/j|1 97 103 tree/3|1 104 110 tree\\1|5 of 14
text tree\\/A tree\\/A1 tree\\\\1 treek\\l\\ treek\\l treekl tree\u{e4}\\\u{2019}5 tree\u{e4}\\\u{2019}1
1 1 8 16 tree\\/A1|1 17 24 tree\\\\1|1 34 41 treek\\l|1 42 48 treekl|1 61 72 tree\u{e4}\\\u{2019}1|5 of 8

fault aff 4 BadAlias: AF 1|AF XY|SFX A Y 1|SFX A 0 s/2 .
fault aff 1 MissingField: SFX
fault aff 1 MissingField: PFX A
fault aff 1 MissingField: SFX A Y
fault aff 1 MissingField: SFX AA Y
fault aff 1 MissingField: SFX A|SFX A 0 s|SFX A 0 [
# A line with missing fields counts as a rule, and is looked at past the rules too.
fault aff 2 MissingField: SFX A Y 1|SFX A 0
fault aff 2 MissingField: SFX A Y 0|SFX A
fault aff 3 Twice: SFX A Y 1|SFX A 0 s|SFX A 0 t
fault aff 3 Twice: PFX A Y 0|SFX A Y 0|PFX A Y 0
fault aff 2 Twice: PFX A Y 0|PFX A 0 s [
fault aff 1 TableShort: SFX A Y 3|SFX A 0 s|SFX A 0 t
# The lines of another class are not those of this one.
fault aff 2 TableShort: SFX B Y 0|SFX A Y 1|PFX A Y 0
fault aff 2 TableShort: PFX A Y 1|SFX A Y 1|PFX A 0 a
# A line whose flag is none is of no class.
fault aff 1 TableShort: SFX A Y 1|SFX AA 0 s
fault aff 3 BadFlag: SFX A Y 1|SFX A 0 t|SFX AA 0 s [
fault aff 1 BadFlag: SFX AA Y x
fault aff 1 BadCross: SFX A y 0
fault aff 1 BadCross: SFX A YN 1|SFX A 0 s
fault aff 1 TableShort: SFX A Q 1
fault aff 1 BadNumber: SFX A Q x
fault aff 1 BadNumber: SFX A Y -1|SFX A 0 s
fault aff 1 BadNumber: SFX S Y 4294967296
fault aff 1 BadNumber: SFX S Y 99999999999
fault aff 1 TooMany: SFX S Y 4294967295
fault aff 1 TooMany: SFX S Y 4000000000
fault aff 1 TooMany: SFX S Y 200001
fault aff 1 TableShort: SFX S Y 200000
# The lower line, whatever its cause.
fault aff 1 BadCross: PFX B Q 0|SFX A
# Flags of each type, and aliases, which stand for the flags of a rule and never for that of a class.
fault aff 2 BadFlag: FLAG num|SFX 65001 Y 0
fault aff 2 BadFlag: FLAG num|SFX 0 Y 0
fault aff 2 BadFlag: FLAG num|SFX 1,2 Y 0
fault aff 2 BadFlag: FLAG long|SFX A Y 0
fault aff 3 BadFlag: FLAG num|SFX 1 Y 1|SFX 1 0 s/65001 [
fault aff 3 BadFlag: FLAG long|SFX Aa Y 1|SFX Aa 0 s/AaB
fault aff 4 BadAlias: AF 1|AF AB|SFX A Y 1|SFX A 0 s/2
fault aff 4 BadAlias: AF 1|AF AB|SFX A Y 1|SFX A 0 s/0
fault aff 4 BadAlias: AF 1|AF AB|SFX A Y 1|SFX A 0 s/B [
fault aff 3 BadFlag: SET UTF-8|FLAG num|PFX 65001 Y 0
fault aff 2 TableShort: SET UTF-8|SFX A Y 3|SFX A 0 s .|SFX A 0 t .
fault aff 4 Twice: SFX S Y 2|SFX S 0 s .|SFX S 0 t .|SFX S 0 u .
fault aff 1 BadCross: SFX S X 0
";
