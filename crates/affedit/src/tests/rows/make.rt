/// The words `make SEED WORDS`: dictionaries and texts that are made.
pub const ROWS: &str = "
words make 1 4
1 entries 4|words 4|marks 1

words make 0 2
0 entries 2|words 2|marks 0

words make 18446744073709551615 4
1 entries 4|words 4|marks 4

words make 7 1
0 entries 1|words 1|marks 0

words make 3 10
1 entries 10|words 10|marks 4

words make 3 11
1 entries 11|words 11|marks 6

words make 000000000000000000000000000001 0000000004
1 entries 4|words 4|marks 1

words make 1 0
2 affedit: words
words make 1 50001
2 affedit: words
words make 1 4294967297
2 affedit: words
words make 18446744073709551616 4
2 affedit: words
words make 1 18446744073709551617
2 affedit: words
words make +1 4
2 affedit: words
words make 1 +4
2 affedit: words
words make 1 4x
2 affedit: words
words make 1 
2 affedit: words
words make 1
2 affedit: words
words make 1 4 5
2 affedit: words
words Make 1 4
2 affedit: words
";
