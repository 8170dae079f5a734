/// Words and numbers of a hundred characters and more, and words of many pieces.
pub const ROWS: &str = "
# A word that no parts write, of which there are many that begin it; and one of as many characters as a word may have.
aff COMPOUNDFLAG X|COMPOUNDMIN 1
dic 2|a/X|aa/X
text @99 a@b
1 1 0 100 @99 a@b|1 of 1
text @100 a@
0 0 of 1
# One character more, also one that is a dot; and one more that is ignored.
text @101 a@
1 1 0 101 @101 a@|1 of 1
aff WORDCHARS .~|IGNORE ~|COMPOUNDFLAG X|COMPOUNDMIN 1
text @99 a@. @100 a@. ~@100 a@ @101 a@
1 1 101 202 @100 a@.|1 305 406 @101 a@|2 of 4
# Characters are counted, and not bytes.
aff COMPOUNDFLAG X|COMPOUNDMIN 1
dic 2|a/X|\u{e9}/X
text @99 a@\u{e9}
0 0 of 1

# A word of a hundred characters, and one of more.
dic 2|a|@100 \u{e4}@
text @100 \u{e4}@
0 0 of 1
dic 2|a|@101 \u{e4}@
text @101 \u{e4}@
1 1 0 202 @101 \u{e4}@|1 of 1

# A number may be longer.
aff WORDCHARS 0123456789|
dic 2|a|@101 7@
text @101 7@
0 0 of 1

# Words of many pieces.
aff WORDCHARS -|
dic 2|a|c
text @49 a-@a
0 0 of 1
text @49 a-@b
1 1 0 99 @49 a-@b|1 of 1
text @99 -@a
0 0 of 1
text @99 -@b
1 1 0 100 @99 -@b|1 of 1
";
