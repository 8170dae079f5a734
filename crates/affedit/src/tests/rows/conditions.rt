/// Conditions of PFX and SFX: which words a rule is attached to.
pub const ROWS: &str = "
# The condition is longer than the word.
aff SFX C Y 1|SFX C 0 s xyzz
dic 1|zz/C
text zzs
1 1 0 3 zzs|1 of 1

# Each rule adds the capital that names it, to words that its condition fits. No field and a dot alone ask nothing.
aff WORDCHARS -^[].\u{1f600}|BREAK 0|SFX S Y 23|SFX S 0 A|SFX S 0 B .|SFX S 0 C ..|SFX S 0 D .y|SFX S 0 E y|\
    SFX S 0 F [abc]|SFX S 0 G [^abc]|SFX S 0 H [^sxzhy]|SFX S 0 I [aeiou]y|SFX S 0 J -|SFX S 0 K [-]|SFX S 0 L [a-c]|\
    SFX S 0 M ^a|SFX S 0 N [a^]|SFX S 0 O [^^]|SFX S 0 P [.]|SFX S 0 Q [[]|SFX S 0 R a]b|SFX S 0 T []|SFX S 0 U [^]|\
    SFX S 0 V []]|SFX S 0 W [^]]|SFX S 0 X [\u{e4}\u{2019}]\u{1f600}
dic 27|a/S|b/S|c/S|s/S|x/S|z/S|h/S|y/S|ab/S|ba/S|ay/S|ey/S|iy/S|oy/S|uy/S|try/S|b-/S|x^/S|x^a/S|x./S|x[/S|x]/S|a]b/S|\
    \u{e4}\u{1f600}/S|b\u{2019}\u{1f600}/S|a\u{1f600}/S|\u{e4}/S
text aA aB aC abC yD ayD abD yE aE aF bF cF yF aG bG cG yG sH xH zH hH yH aH
1 1 6 8 aC|1 13 15 yD|1 20 23 abD|1 27 29 aE|1 39 41 yF|1 42 44 aG|1 45 47 bG|1 48 50 cG|1 54 56 sH|1 57 59 xH|\
    1 60 62 zH|1 63 65 hH|1 66 68 yH|13 of 23
text ayI eyI iyI oyI uyI tryI aI
1 1 20 24 tryI|1 25 27 aI|2 of 7
# A dash is a dash, and only a `^` at the front of a bracket is no character.
text b-J bJ b-K bK aL b-L cL bL x^aM aM baM aN x^N bN aO x^O
1 1 4 6 bJ|1 11 13 bK|1 24 26 bL|1 32 34 aM|1 35 38 baM|1 46 48 bN|1 52 55 x^O|7 of 16
# The first `]` closes a bracket, and outside it is a character. An empty bracket accepts nothing, an empty `[^]` all.
text x.P aP x[Q aQ a]bR abR bR aT x]T x[T aU x^U aV x]V x[V x]W aW abW
1 1 4 6 aP|1 11 13 aQ|1 19 22 abR|1 23 25 bR|1 26 28 aT|1 29 32 x]T|1 33 36 x[T|1 44 46 aV|1 47 50 x]V|1 51 54 x[V|\
    1 59 61 aW|1 62 65 abW|12 of 18
text \u{e4}\u{1f600}X b\u{2019}\u{1f600}X a\u{1f600}X \u{e4}X
1 1 18 24 a\u{1f600}X|1 25 28 \u{e4}X|2 of 4

# The condition of a prefix stands at the word's front, that of a suffix at its end. One that is longer does not fit.
aff WORDCHARS -|BREAK 0|PFX P Y 12|PFX P 0 A|PFX P 0 B .|PFX P 0 Q ..|PFX P 0 D xyzz|PFX P 0 E [^a][^b]|\
    PFX P 0 F [^y]|PFX P 0 G [^aeiou]y|PFX P 0 M []|PFX P 0 I [^]|PFX P 0 J [a-c]|PFX P 0 K h|PFX P 0 L [^y]a.|\
    SFX S Y 12|SFX S 0 A|SFX S 0 B .|SFX S 0 Q ..|SFX S 0 D xyzz|SFX S 0 E [^a][^b]|SFX S 0 F [^y]|\
    SFX S 0 G [^aeiou]y|SFX S 0 M []|SFX S 0 I [^]|SFX S 0 J [a-c]|SFX S 0 K h|SFX S 0 L [^y]a.
dic 16|a/PS|at/PS|zz/PS|xyzz/PS|c/PS|cat/PS|y/PS|try/PS|tray/PS|b/PS|-b/PS|b-/PS|hat/PS|yat/PS|cats/PS|scat/PS
text Aa aA Aat atA Ba aB Qa aQ Qat atQ Dzz zzD Dxyzz xyzzD Ec cE Etry tryE Eat atE Fa aF Fy yF
1 1 20 22 Qa|1 23 25 aQ|1 34 37 Dzz|1 38 41 zzD|1 54 56 Ec|1 57 59 cE|1 70 73 Eat|1 74 77 atE|1 84 86 Fy|1 87 89 yF|\
    10 of 24
text Gtry tryG Gtray trayG Ma aM Ia aI Jb bJ J-b b-J Khat hatK
1 1 0 4 Gtry|1 10 15 Gtray|1 16 21 trayG|1 22 24 Ma|1 25 27 aM|1 34 36 Jb|1 37 39 bJ|1 53 57 hatK|8 of 14
text La aL Lat atL Lcat catL Lyat yatL Lcats catsL Lscat scatL
1 1 0 2 La|1 3 5 aL|1 6 9 Lat|1 10 13 atL|1 24 28 Lyat|1 29 33 yatL|1 40 45 catsL|1 46 51 Lscat|8 of 12

fault aff 2 BadCondition: SFX A Y 1|SFX A 0 s [ab
fault aff 2 BadCondition: SFX A Y 2|SFX A 0 s [ab|SFX A
# No `]` closes the last bracket.
fault aff 2 BadCondition: SFX S Y 1|SFX S 0 s [
fault aff 2 BadCondition: SFX S Y 1|SFX S 0 s [^
fault aff 2 BadCondition: SFX S Y 1|SFX S 0 s [ab
fault aff 2 BadCondition: SFX S Y 1|SFX S 0 s [a][b
fault aff 2 BadCondition: SFX S Y 1|SFX S 0 s ]a[
";
