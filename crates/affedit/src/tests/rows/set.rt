/// SET, and bytes that are no text.
pub const ROWS: &str = "
# A second field that is none of it.
aff SET UTF-8 # yes|WORDCHARS -
dic 1|foo
text foo
0 0 of 1

fault aff 1 NotUtf8: @xff@
fault aff 1 NotUtf8: # a comment with a bad byte @xff@
fault aff 2 NotUtf8: SET UTF-8|@xff@|SET
# What stands past a line that is not UTF-8 is not looked at, what stands before it is.
fault aff 1 OtherEncoding: SET latin1|@xff@
fault aff 2 NotUtf8: FLAG bad|@xff@
fault aff 1 OtherEncoding: SET ISO8859-1
fault aff 1 OtherEncoding: SET UTF8
fault aff 1 MissingField: SET
fault aff 3 MissingField: |#| SET \r
fault aff 2 Twice: SET UTF-8|SET UTF-8
fault aff 3 Twice: SET UTF-8||SET UTF-8
fault aff 3 MissingField: SET UTF-8|TRY a|SET
fault aff 2 OtherEncoding: SET UTF-8|SET latin1
fault aff 2 OtherEncoding: \u{feff}# latin\r|SET utf8\r
fault aff 1 OtherEncoding: SET UTF-8x
fault aff 3 MissingField: ||SET \t\r
# A second line that lacks its field lacks it first.
fault aff 2 MissingField: SET UTF-8|SET
fault aff 2 OtherEncoding: SET UTF-8|SET KOI8-R
fault aff 2 NotUtf8: SET UTF-8|# a comment @xff@
fault aff 2 NotUtf8: |@xff@
fault aff 2 NotUtf8: TRY abc|KEY q@xff@
# The lower line of the two.
fault aff 2 Twice: SET UTF-8|SET UTF-8|@xff@
# A line behind one that is not UTF-8 is not looked at.
fault aff 1 NotUtf8: @xff@|SET latin1

# A line that is no text goes before the faults of later passes.
dic 2|hello|2nd|
fault aff 2 NotUtf8: # x|@xff@|SFX A Y 0|
fault aff 2 NotUtf8: COMPLEXPREFIXES|@xff@|
# A slash in two bytes, half of a surrogate pair, and what is past the last character.
fault aff 1 NotUtf8: @xc0af@|
fault aff 3 NotUtf8: #||x@xeda080@y|
fault aff 1 NotUtf8: @xf4908080@|
";
