/// The words of the command line.
pub const ROWS: &str = "
# Words of no form.
words
2 affedit: words
words check a.aff
2 affedit: words
words check a b c d
2 affedit: words
words Check a b c
2 affedit: words
words edit a
2 affedit: words
words Edit a b
2 affedit: words
file a SET UTF-8|# words|WORDCHARS 0123456789|
file b 2|hello|2nd|
words edit a b c
2 affedit: words
# They are refused before any file is loaded, so that no load can fail.
loads 1 2 3
words team a b
2 affedit: words
words check a b
2 affedit: words

# A number of workers has one or two digits, and no number is above 16. Options come once, workers first.
file a WORDCHARS 0123456789
file b 2|hello|2nd
file c hello 2nd wurk
file own wurk
words check a b c --workers 0
1 1 10 14 wurk|1 of 3
words check a b c --workers 00
1 1 10 14 wurk|1 of 3
words check a b c --workers 04
1 1 10 14 wurk|1 of 3
words check a b c --workers 16
1 1 10 14 wurk|1 of 3
words check a b c --workers 16 --own own
0 0 of 3
words check a b c --workers 17
2 affedit: words
words check a b c --workers 016
2 affedit: words
words check a b c --workers 99
2 affedit: words
words check a b c --workers +4
2 affedit: words
words check a b c --workers four
2 affedit: words
words check a b c --workers
2 affedit: words
words check a b c --workers 4 4
2 affedit: words
words check a b c --workers 4 --workers 4
2 affedit: words
words check a b c --own own --workers 4
2 affedit: words
words check a b c --own own --own own
2 affedit: words
words check a b c --workers 4 --own
2 affedit: words
words check a b --workers 4 c
2 affedit: words
words check --workers 4 a b c
2 affedit: words
words make 1 4 --workers 4
2 affedit: words
words edit a b --workers 0
0
words edit a b --workers 16
0
words edit a b --workers 17
2 affedit: words
words edit a b --workers four
2 affedit: words
words edit a b --own own --workers 0
2 affedit: words
";
