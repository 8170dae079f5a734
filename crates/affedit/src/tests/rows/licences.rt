/// Which affixes a word may have, and who licenses them.
pub const ROWS: &str = "
aff SFX Y Y 1|SFX Y 0 s .|SFX X Y 1|SFX X 0 able/Y .
dic 1|drink/X
text drinkable drinkables drinks
1 1 21 27 drinks|1 of 3

aff PFX P Y 1|PFX P 0 un .|SFX S Y 1|SFX S 0 s .|SFX Q Y 1|SFX Q 0 s .|SFX R Y 1|SFX R 0 able/PS .
dic 2|drink/RQ|drink/S
text undrinkable undrinkables drinks undrink
1 1 32 39 undrink|1 of 4

# The prefix licenses the suffix.
aff PFX P Y 1|PFX P 0 un/S .|SFX S Y 1|SFX S 0 s .
dic 1|do/P
text do undo undos dos
1 1 14 17 dos|1 of 4

# Two affixes that license each other from nothing.
aff PFX P Y 1|PFX P 0 un/S .|SFX S Y 1|SFX S 0 s/P .
dic 1|do
text undos
1 1 0 5 undos|1 of 1

# What the entry allows, and a second suffix that the entry alone allows.
aff NEEDAFFIX n|CIRCUMFIX c|FORBIDDENWORD f|WARN w|FORBIDWARN|ONLYINCOMPOUND o|PFX U Y 1|PFX U 0 un|SFX S Y 1|\
    SFX S 0 s|SFX A Y 1|SFX A 0 able/S|PFX P Y 1|PFX P 0 pre/A|SFX B Y 1|SFX B 0 ing/Q|PFX Q Y 1|PFX Q 0 be/B|\
    SFX X N 1|SFX X 0 x|SFX E Y 1|SFX E 0 e/nS|SFX G Y 1|SFX G 0 t/c|PFX G Y 1|PFX G 0 ge/c|SFX I Y 1|SFX I 0 i/o|\
    SFX Y Y 1|SFX Y y ies/U|PFX D Y 1|PFX D un in
dic 10|do/USAX|paid/P|friend|stem/nES|mach/GU|bad/fS|rare/wS|part/oI|foot/I|try/YD
text do undo dos undos doables undoable undoables dosable
1 1 45 52 dosable|1 of 8
# A class that does not cross, a prefix that licenses a suffix, two affixes that license each other from nothing, a
# prefix that a suffix licenses, and a rule that does not fit the word.
text dox undox prepaidable paidable befriending untries intry iny
1 1 4 9 undox|1 22 30 paidable|1 31 42 befriending|1 51 56 intry|1 57 60 iny|5 of 8
# NEEDAFFIX of an entry and of a suffix, CIRCUMFIX of both sides and of one, FORBIDDENWORD, WARN, and ONLYINCOMPOUND
# of an entry and of a suffix.
text stem stems steme stemes gemacht macht gemach unmacht bad bads rare rares part foot footi
1 1 0 4 stem|1 11 16 steme|1 32 37 macht|1 38 44 gemach|1 45 52 unmacht|1 53 56 bad|1 57 61 bads|1 62 66 rare|\
    1 67 72 rares|1 73 77 part|1 83 88 footi|11 of 15

# Where no flag has a meaning, what is licensed stands as a word.
aff PFX U Y 1|PFX U 0 un|SFX S Y 1|SFX S 0 s|SFX A Y 1|SFX A 0 able/S|PFX P Y 1|PFX P 0 pre/A|SFX B Y 1|\
    SFX B 0 ing/Q|PFX Q Y 1|PFX Q 0 be/B|SFX X N 1|SFX X 0 x|SFX E Y 1|SFX E 0 e/nS|SFX G Y 1|SFX G 0 t/c|PFX G Y 1|\
    PFX G 0 ge/c|SFX I Y 1|SFX I 0 i/o|SFX Y Y 1|SFX Y y ies/U|PFX D Y 1|PFX D un in
dic 10|do/USAX|paid/P|friend|stem/nES|mach/GU|bad/fS|rare/wS|part/oI|foot/I|try/YD
text stem steme macht gemach unmacht bads rares part footi dosable undox paidable befriending
1 1 54 61 dosable|1 62 67 undox|1 68 76 paidable|1 77 88 befriending|4 of 13
";
