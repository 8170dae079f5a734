/// Which spellings of a dictionary a written case stands for.
pub const ROWS: &str = "
# A compound in capitals, and one that begins with a capital.
aff COMPOUNDFLAG X
dic 5|foo/X|bar/X|Baz/X|\u{e4}pf/X|QUX/X
text Foobar FOOBAR fooBar FooBar FOObar fOOBAR Bazfoo BAZFOO bazfoo fooBaz FooBaz FOOBAZ foobaz \u{c4}pffoo \
    \u{c4}PF\u{c4}PF foo\u{c4}pf
1 1 14 20 fooBar|1 21 27 FooBar|1 28 34 FOObar|1 35 41 fOOBAR|1 56 62 bazfoo|1 77 83 FOOBAZ|1 84 90 foobaz|\
    1 108 115 foo\u{c4}pf|8 of 16
text fooQUX FooQUX FOOQUX QUXfoo QUXFOO QUXQUX Quxfoo
1 1 14 20 FOOQUX|1 28 34 QUXFOO|1 42 48 Quxfoo|3 of 7
aff COMPOUNDRULE 1|COMPOUNDRULE ab
dic 3|foo/a|bar/b|Baz/a
text Foobar FOOBAR fooBar Bazbar BAZBAR bazbar
1 1 14 20 fooBar|1 35 41 bazbar|2 of 6

# Entries in small letters. A title case letter has no case, although it has a folding; where the folding is two
# characters there is no simple one; U+212A is the sign of the kelvin; Cherokee folds upwards, and so is not lowered.
aff WORDCHARS 0123456789-|BREAK 0
dic 14|tea|mccoy|i|i\u{307}|a-1|4x|\u{1c6}|\u{1c6}a|gro\u{df}|k|\u{ab70}|\u{ab70}\u{ab70}|\u{ab70}a|\u{10428}\u{10428}
text tea Tea TEA tEA McCoy I A-1 4X \u{1c5} \u{1c5}A \u{1c5}a \u{130} GRO\u{1e9e} \u{212a}
1 1 12 15 tEA|1 16 21 McCoy|1 31 33 \u{1c5}|1 34 37 \u{1c5}A|1 38 41 \u{1c5}a|1 42 44 \u{130}|6 of 14
text \u{ab70} \u{13a0} \u{13a0}\u{13a0} \u{13a0}\u{ab70} \u{ab70}A \u{10400}\u{10400}
1 1 4 7 \u{13a0}|1 8 14 \u{13a0}\u{13a0}|1 15 21 \u{13a0}\u{ab70}|1 22 26 \u{ab70}A|4 of 6

# Entries with a capital at the front.
aff WORDCHARS 0123456789-|BREAK 0
dic 10|Tea|Mccoy|\u{1c5}a|\u{130}a|Gro\u{df}|K|\u{13a0}|\u{13a0}a|\u{13a0}\u{ab70}|\u{10400}\u{10428}
text tea Tea TEA tEA McCoy \u{1c5}A \u{1c5}a \u{130}A GRO\u{1e9e} \u{212a}
1 1 0 3 tea|1 12 15 tEA|1 16 21 McCoy|1 41 44 \u{212a}|4 of 10
text \u{ab70} \u{13a0} \u{13a0}A \u{13a0}\u{13a0} \u{13a0}\u{ab70} \u{10400}\u{10400}
1 1 0 3 \u{ab70}|1 13 19 \u{13a0}\u{13a0}|2 of 6

# Entries with a small letter at the front.
aff WORDCHARS 0123456789-|BREAK 0
dic 6|tEA|mcCoy|\u{1c6}A|gRO\u{1e9e}|\u{13a0}\u{13a0}|\u{10428}\u{10400}
text tea Tea TEA tEA McCoy MCCOY \u{1c5}A GRO\u{1e9e} \u{13a0}\u{ab70} \u{10400}\u{10400}
1 1 0 3 tea|1 4 7 Tea|1 22 27 MCCOY|1 28 31 \u{1c5}A|1 39 45 \u{13a0}\u{ab70}|5 of 10

# Entries in capitals stand for themselves alone.
aff WORDCHARS 0123456789-|BREAK 0
dic 13|TEA|McCoy|I|A-1|4X|\u{1c4}|\u{1c5}A|\u{130}|\u{130}A|GRO\u{1e9e}|\u{212a}|\u{13a0}\u{13a0}|\u{10400}\u{10400}
text tea Tea TEA tEA McCoy mcCoy Mccoy MCCOY I i A-1 a-1 4X 4x \u{1c5} \u{1c5}A \u{1c5}a \u{130}
1 1 0 3 tea|1 4 7 Tea|1 12 15 tEA|1 22 27 mcCoy|1 28 33 Mccoy|1 34 39 MCCOY|1 42 43 i|1 48 51 a-1|1 55 57 4x|\
    1 58 60 \u{1c5}|1 65 68 \u{1c5}a|11 of 18
text \u{130}A \u{130}a GRO\u{1e9e} gro\u{df} \u{212a} k K \u{13a0}\u{13a0} \u{ab70}\u{ab70} \u{10400}\u{10400} \
    \u{10428}\u{10428}
1 1 4 7 \u{130}a|1 15 20 gro\u{df}|1 25 26 k|1 27 28 K|1 36 42 \u{ab70}\u{ab70}|1 52 60 \u{10428}\u{10428}|6 of 11

# No capital stands for a title case letter, and no word in capitals for one with another capital inside.
dic 2|\u{1c5}|tEa
text \u{1c5} \u{1c4} \u{1c6} tEa TEA Tea tea
1 1 3 5 \u{1c4}|1 6 8 \u{1c6}|1 13 16 TEA|1 17 20 Tea|1 21 24 tea|5 of 7
";
