/// CHECKSHARPS: SS may stand for ß in a word without small letters, also for entries that keep their case.
pub const ROWS: &str = "
aff CHECKSHARPS|KEEPCASE K
dic 3|m\u{fc}\u{df}ig/K|Aussto\u{df}|gross
text m\u{fc}\u{df}ig M\u{fc}\u{df}ig M\u{dc}SSIG M\u{dc}\u{1e9e}IG AUSSTOSS GROSS
1 1 24 32 M\u{dc}\u{1e9e}IG|1 of 6
aff KEEPCASE K
1 1 8 15 M\u{fc}\u{df}ig|1 16 23 M\u{dc}SSIG|1 24 32 M\u{dc}\u{1e9e}IG|1 33 41 AUSSTOSS|4 of 6

# Pairs are found from left to right and do not overlap: in SSS the first two are one, in SSSS there are two.
aff CHECKSHARPS
dic 5|flu\u{df}sand|bas\u{df}a|la\u{df}\u{df}a|das\u{df}sa|fa\u{df}ssa
text FLUSSSAND BASSSA LASSSSA DASSSSA FASSSSA
1 1 10 16 BASSSA|1 25 32 DASSSSA|2 of 5

# Each of the first five pairs stands for itself or for ß, the sixth for itself alone.
aff CHECKSHARPS
dic 5|@5 a\u{df}@assa|@6 b\u{df}@b|@5 css@c\u{df}c|@5 d\u{df}@d|e\u{df}esse\u{df}esse\u{df}esse
text @6 ASS@A @6 BSS@B @6 CSS@C @5 DSS@D @6 ESS@E
1 1 20 39 @6 BSS@B|1 40 59 @6 CSS@C|2 of 5

# A pair that begins the word: as ß it leaves no first character to keep, and behind the first S of SSS there is no pair.
aff CHECKSHARPS
dic 4|\u{df}olo|S\u{df}ala|Ssabe\u{df}|\u{df}uru\u{df}
text SSOLO SSSALA SSABESS SSURUSS
1 1 6 12 SSSALA|1 of 4

# In a word with a small letter SS is SS, and ß is a small letter.
aff CHECKSHARPS
dic 1|stra\u{df}e
text STRASSE Strasse strasse STRASSe STRA\u{df}E Stra\u{df}e
1 1 8 15 Strasse|1 16 23 strasse|1 24 31 STRASSe|1 32 39 STRA\u{df}E|4 of 6
# U+1E9E is the capital of ß for an entry that does not keep its case, with the switch and without it.
text STRA\u{1e9e}E STRASSE Stra\u{1e9e}e
1 1 17 25 Stra\u{1e9e}e|1 of 3
aff FORBIDWARN
1 1 9 16 STRASSE|1 17 25 Stra\u{1e9e}e|2 of 3

# An entry that keeps its case and holds ß: with a capital at its front, and in capitals with SS alone.
aff CHECKSHARPS|KEEPCASE K
dic 3|gro\u{df}ma\u{df}/K|\u{df}/K|Ha\u{df}/K
text GROSSMASS GRO\u{1e9e}MASS Gro\u{df}ma\u{df} GROSSma\u{df} SS \u{1e9e} \u{df}
1 1 10 20 GRO\u{1e9e}MASS|1 31 40 GROSSma\u{df}|1 44 47 \u{1e9e}|3 of 7
text HASS Ha\u{df} ha\u{df} Hass
1 1 10 14 ha\u{df}|1 15 19 Hass|2 of 4
# One that does not hold it stands in its own case alone, whatever its affixes add; one that does may lose it by them.
aff CHECKSHARPS|KEEPCASE K|SFX S Y 1|SFX S 0 \u{df}|SFX T Y 1|SFX T \u{df} ss
dic 4|kg/K|gross/K|gro/KS|ma\u{df}/KT
text kg Kg KG gross Gross GROSS gro\u{df} Gro\u{df} mass Mass MASS
1 1 3 5 Kg|1 6 8 KG|1 15 20 Gross|1 21 26 GROSS|1 33 38 Gro\u{df}|5 of 11

# A forbidden word is no right spelling, and bars no other one; the word as it is written bars itself.
aff CHECKSHARPS|FORBIDDENWORD Z
dic 7|stra\u{df}e/Z|strasse|fu\u{df}|fuss/Z|MASS/Z|ma\u{df}|ro\u{df}/Z
text STRASSE FUSS MASS ROSS
1 1 13 17 MASS|1 18 22 ROSS|2 of 4

# A compound in capitals. In it an entry that keeps its case is no part of a word in another one, with ß or without.
aff CHECKSHARPS|COMPOUNDFLAG X|KEEPCASE K
dic 3|fu\u{df}/X|ball/X|gro\u{df}/XK
text FUSSBALL Fu\u{df}ball FUSSBALLFUSS GROSSBALL Gro\u{df}ball gro\u{df}ball
1 1 31 40 GROSSBALL|1 41 50 Gro\u{df}ball|2 of 6
# SS across two parts, by a rule; and SSS, which is too much for `fluss` and `sand` by SIMPLIFIEDTRIPLE, and is written for
# `maß` and `sand`.
aff CHECKSHARPS|COMPOUNDRULE 1|COMPOUNDRULE ab
dic 2|haus/a|schuh/b
text HAUSSCHUH Haus\u{df}chuh SCHUHHAUS
1 1 10 20 Haus\u{df}chuh|1 21 30 SCHUHHAUS|2 of 3
aff CHECKSHARPS|COMPOUNDFLAG X|CHECKCOMPOUNDTRIPLE|SIMPLIFIEDTRIPLE
dic 3|fluss/X|sand/X|ma\u{df}/X
text FLUSSAND FLUSSSAND MASSSAND MASSAND
1 1 9 18 FLUSSSAND|1 28 35 MASSAND|2 of 4

# Each piece between break points has a case of its own.
aff CHECKSHARPS|WORDCHARS -
dic 2|fu\u{df}|ball
text FUSS-BALL FUSS-ball Fuss-ball
1 1 20 29 Fuss-ball|1 of 3
";
