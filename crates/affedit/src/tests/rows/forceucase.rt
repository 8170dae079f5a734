/// FORCEUCASE: a last part that asks for a capital at the front of the word.
pub const ROWS: &str = "
aff FORCEUCASE U|COMPOUNDFLAG X
dic 2|foo/X|straat/XU
text foostraat Foostraat
1 1 0 9 foostraat|1 of 2

# A last part that asks for a capital at the front of the word.
aff COMPOUNDFLAG X|FORCEUCASE U|CHECKCOMPOUNDCASE|CHECKCOMPOUNDPATTERN 1|CHECKCOMPOUNDPATTERN oo ba
dic 4|foo/X|bar/X|Baz/X|straat/XU
text foobar barfoo fooBaz foostraat Foostraat
1 1 0 6 foobar|1 14 20 fooBaz|1 21 30 foostraat|3 of 5
# It asks for none at another place or alone, and an affix asks for none.
aff COMPOUNDFLAG X|FORCEUCASE U|SFX S Y 1|SFX S 0 s/U|SFX T Y 1|SFX T 0 t
dic 3|foo/X|straat/XUT|bar/XS
text straatfoo foostraat Foostraat FOOSTRAAT fooStraat FooStraat foostraatfoo straatstraat Straatstraat
1 1 10 19 foostraat|1 40 49 fooStraat|1 50 59 FooStraat|1 73 85 straatstraat|4 of 9
text foostraatt Foostraatt foobars straat straatt Straat FOOSTRAATT fOOSTRAAT
1 1 0 10 foostraatt|1 63 72 fOOSTRAAT|2 of 8
# An entry in capitals, and another entry of the word that asks for none.
aff COMPOUNDFLAG X|FORCEUCASE U
dic 6|Foo/X|\u{c4}bc/X|bar/X|straat/XU|weg/XU|weg/X
text Foostraat foostraat FOOSTRAAT barweg Barweg Barstraat barstraat \u{c4}bcstraat \u{e4}bcstraat barstraatweg \
    barFoostraat
1 1 10 19 foostraat|1 54 63 barstraat|1 75 85 \u{e4}bcstraat|1 99 111 barFoostraat|4 of 11
# Beside an entry that keeps its case.
aff COMPOUNDFLAG X|FORCEUCASE U|KEEPCASE K
dic 3|foo/X|straat/XUK|Bar/X
text foostraat Foostraat Barstraat BARSTRAAT
1 1 0 9 foostraat|1 10 19 Foostraat|1 30 39 BARSTRAAT|3 of 4
# In a rule, between break points, and before dots.
aff WORDCHARS -.|COMPOUNDRULE 1|COMPOUNDRULE ab*|FORCEUCASE U
dic 3|foo/a|straat/bU|bar/b
text foostraat Foostraat foobar foobar-foostraat foobar-Foostraat Foobar-foostraat Foostraatbar foostraatbar \
    Foostraat.
1 1 0 9 foostraat|1 27 43 foobar-foostraat|1 61 77 Foobar-foostraat|3 of 9

fault aff 1 MissingField: FORCEUCASE
fault aff 1 BadFlag: FORCEUCASE AB
fault aff 2 Twice: FORCEUCASE A|FORCEUCASE A
";
