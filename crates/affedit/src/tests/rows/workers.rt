/// A check by workers, which share the lines of the text.
pub const ROWS: &str = "
# What is printed does not depend on how many they are: a line has its number in the whole text.
aff SET UTF-8|TRY esianrtolc|REP 2|REP f ph|REP ph f|PFX A Y 1|PFX A 0 re .|SFX B Y 2|SFX B 0 ed [^y]|SFX B y ied y
dic 3|hello|try/B|work/AB
text hello tried reworked retry worked
workers 4
1 1 21 26 retry|1 of 5
text retry||hello|retry tried|worked retry|retry
workers 1
1 1 0 5 retry|4 0 5 retry|5 7 12 retry|6 0 5 retry|4 of 7
workers 2
1 1 0 5 retry|4 0 5 retry|5 7 12 retry|6 0 5 retry|4 of 7
workers 3
1 1 0 5 retry|4 0 5 retry|5 7 12 retry|6 0 5 retry|4 of 7
workers 7
1 1 0 5 retry|4 0 5 retry|5 7 12 retry|6 0 5 retry|4 of 7
workers 16
1 1 0 5 retry|4 0 5 retry|5 7 12 retry|6 0 5 retry|4 of 7

# No line, and lines of which one has nearly all bytes.
dic 1|a
workers 16
0 0 of 0
text a|@2000 a @|b|a
workers 4
1 3 0 1 b|1 of 2003

# A line that is not UTF-8 is told before the lines are shared, and so is their number.
dic 1|hello
text hello|@xff@
workers 4
4 doc 2
text 20001*hello|
workers 4
8 limit 20000
";
