/// KEEPCASE: entries that stand in their own case alone.
pub const ROWS: &str = "
aff KEEPCASE K
dic 2|Paris|kg/K
text Paris PARIS paris kg Kg KG
1 1 12 17 paris|1 21 23 Kg|1 24 26 KG|3 of 6

aff KEEPCASE K
dic 3|Paris|kg/K|kg
text Paris PARIS paris kg Kg KG
1 1 12 17 paris|1 of 6

# An entry that keeps its case is no part where the word is written in another one, and another entry of its word is.
aff COMPOUNDFLAG X|KEEPCASE K
dic 5|foo/X|bar/XK|qux/XK|qux/X|Baz/XK
text foobar Foobar FOOBAR barfoo Barfoo barbar fooqux Fooqux FOOQUX Bazfoo BAZFOO fooBaz FooBaz
1 1 7 13 Foobar|1 14 20 FOOBAR|1 28 34 Barfoo|1 70 76 BAZFOO|1 84 90 FooBaz|5 of 13
aff COMPOUNDFLAG X|KEEPCASE K|SFX S Y 1|SFX S 0 s
dic 2|foo/X|bar/XKS
text foobars Foobars bars Bars
1 1 8 15 Foobars|1 21 25 Bars|2 of 4

# Between an entry that keeps its case and one that asks for a capital at the front, both as parts.
aff COMPOUNDFLAG X|KEEPCASE K|FORCEUCASE U
dic 6|foo/X|bar/X|baz|qux/XK|straat/XU|Foo/X
text foobar Foobar foofoobar Foofoobar foobaz Foobaz fooba Fooba
1 1 34 40 foobaz|1 41 47 Foobaz|1 48 53 fooba|1 54 59 Fooba|4 of 8
text fooqux Fooqux Barqux foostraat Foostraat straatfoo Straatfoo quxstraat Quxstraat
1 1 14 20 Barqux|1 21 30 foostraat|1 61 70 quxstraat|1 71 80 Quxstraat|4 of 9

fault aff 1 BadFlag: KEEPCASE ab
fault aff 3 Twice: KEEPCASE A||KEEPCASE B
";
