/// CIRCUMFIX: a prefix and a suffix that stand together alone.
pub const ROWS: &str = "
aff CIRCUMFIX X|PFX A Y 1|PFX A 0 leg/X .|SFX C Y 2|SFX C 0 obb .|SFX C 0 obb/AX .
dic 1|nagy/C
text nagy nagyobb legnagyobb legnagy
1 1 24 31 legnagy|1 of 4

aff CIRCUMFIX X|PFX A Y 1|PFX A 0 leg/X .|SFX C Y 1|SFX C 0 obb/AX .
dic 1|nagy/C
text nagy nagyobb legnagyobb legnagy
1 1 5 12 nagyobb|1 24 31 legnagy|2 of 4

# Two affixes that stand together in a compound.
aff COMPOUNDFLAG X|COMPOUNDPERMITFLAG P|CIRCUMFIX C|PFX G Y 1|PFX G 0 ge/CP|SFX G Y 1|SFX G 0 t/CP
dic 2|mach/XG|tag/X
text taggemacht gemachttag tagmacht taggemach tagmach machttag gemachtag
1 1 22 30 tagmacht|1 31 40 taggemach|1 49 57 machttag|1 58 67 gemachtag|4 of 7

fault aff 1 BadFlag: CIRCUMFIX ab|FULLSTRIP
";
