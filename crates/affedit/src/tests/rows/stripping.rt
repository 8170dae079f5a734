/// How a word is led back to an entry: by the texts that rules add and strip off, and among the words of all entries.
pub const ROWS: &str = "
# `0` is nothing, and nothing else is.
aff WORDCHARS 01|SFX A N 3|SFX A e 0|SFX A 0 0/A|SFX A 00 11
dic 2|make/A|b00/A
text mak make0 b11 make11 b0011
1 1 4 9 make0|1 14 20 make11|1 21 26 b0011|3 of 5

# What is stripped has to stand there, and the condition sees the word before anything is stripped off.
aff SFX A Y 4|SFX A y ied y|SFX A 0 ed [^y]|SFX A y ies [^aeiou]y|SFX A go went go|SFX B Y 2|SFX B y ied|SFX B 0 s|\
    PFX P Y 4|PFX P 0 re|PFX P d und do|PFX P o x|PFX P \u{e4} \u{fc} .|PFX Q Y 1|PFX Q 0 mis [^d]
dic 9|try/A|walk/A|fly/A|toy/A|go/A|tea/B|do/PQ|\u{e4}/P|\u{e4}b/P
text tried tryed walked walkied flies toies went teas teied teaied redo undo xo misdo \u{fc} \u{fc}b
1 1 6 11 tryed|1 19 26 walkied|1 33 38 toies|1 39 43 went|1 49 54 teied|1 55 61 teaied|1 72 74 xo|1 75 80 misdo|\
    1 81 83 \u{fc}|9 of 16

# A rule is found by what it adds: by an end of that, by nothing, by the whole word, and beside another one that adds the same.
aff FULLSTRIP|SFX A Y 1|SFX A 0 ing|SFX B Y 1|SFX B 0 g|SFX C Y 1|SFX C x 0|SFX D Y 1|SFX D x sing|PFX E Y 1|PFX E \
    0 s|PFX F Y 1|PFX F x sing|PFX G Y 1|PFX G x 0|SFX H Y 2|SFX H 0 ing z|SFX H 0 ing
text sing
dic 1|s/A
0 0 of 1
dic 1|sin/B
0 0 of 1
dic 1|singx/C
0 0 of 1
dic 1|x/D
0 0 of 1
dic 1|ing/E
0 0 of 1
dic 1|x/F
0 0 of 1
dic 1|xsing/G
0 0 of 1
dic 1|s/H
0 0 of 1
dic 2|ng/E|si/A
1 1 0 4 sing|1 of 1

# Texts of one, two and three bytes a character.
aff PFX P Y 1|PFX P 0 \u{e4}|SFX S Y 1|SFX S 0 \u{e4}|SFX T Y 1|SFX T 0 \u{e9}\u{2019}\u{df}|WORDCHARS \u{2019}
dic 2|b/PS|caf/T
text \u{e4}b\u{e4} b\u{e4} \u{e4}b caf\u{e9}\u{2019}\u{df} \u{e4}caf caf\u{e4} b\u{e9}\u{2019}\u{df}
1 1 25 30 \u{e4}caf|1 31 36 caf\u{e4}|1 37 45 b\u{e9}\u{2019}\u{df}|3 of 7

# Rules that add one text and strip off others, and rules that strip off one text and add others.
aff SFX A Y 1|SFX A 0 s|SFX B Y 1|SFX B y s|SFX C Y 1|SFX C ay s|SFX D Y 1|SFX D y 0|PFX E Y 1|PFX E 0 s|PFX F Y 1|\
    PFX F y s|SFX G Y 1|SFX G y es|SFX H Y 1|SFX H 0 s
dic 5|play/BCDG|hat/A|lay/E|yam/F|hut/H
text plas pls pla plaes plays ples pl hats huts has slay sly sam syam say
1 1 19 24 plays|1 25 29 ples|1 30 32 pl|1 43 46 has|1 52 55 sly|1 60 64 syam|1 65 68 say|7 of 15

# Rules that add and strip off the same, and have other conditions and flags.
aff SFX F Y 1|SFX F 0 s [aeiou]t|SFX G Y 1|SFX G 0 s [^aeiou]t|PFX K Y 1|PFX K 0 re d|PFX L Y 1|PFX L 0 re c
dic 11|cat/F|cat/G|belt/G|belt/F|dot/FK|cot/GL|cot/FL|bat/G|felt/F|dent/FK|colt/GK
text cats belts redots recots recot recats bats felts redents recolts colts redent
1 1 31 37 recats|1 38 42 bats|1 43 48 felts|1 49 56 redents|1 57 64 recolts|5 of 12

# Prefixes and suffixes that change nothing are affixes.
aff NEEDAFFIX X|PFX R Y 1|PFX R 0 0|SFX V Y 1|SFX V 0 0|SFX S Y 1|SFX S 0 s
dic 5|run/XR|ran/XV|hop/XRV|sit/X|hit/XRS
text run ran hop sit hit hits runs
1 1 12 15 sit|1 25 29 runs|2 of 7

# A second suffix for which a part of the word is stripped off twice, and none without a first.
aff SFX A Y 1|SFX A y ier/B y|SFX B Y 1|SFX B er est er|SFX C Y 1|SFX C 0 ly/B
dic 2|dry/A|sad/C
text dry drier driest dryest sadly sadlyest drest dryly
1 1 17 23 dryest|1 30 38 sadlyest|1 39 44 drest|1 45 50 dryly|4 of 8

# Each of many entries of one word.
aff SFX S Y 1|SFX S 0 s
dic 1001|1000*run|run/S
text run runs rund
1 1 9 13 rund|1 of 3
dic 1001|run/S|1000*run
1 1 9 13 rund|1 of 3

# Two words that have one hash in the table of entries.
aff SFX S Y 1|SFX S 0 s
dic 1|akaihaalsioa/S
text akaihaalsioa akaihaalsioas eadaaenaaaai eadaaenaaaais
1 1 27 39 eadaaenaaaai|1 40 53 eadaaenaaaais|2 of 4
dic 2|akaihaalsioa/S|eadaaenaaaai
text akaihaalsioa akaihaalsioas eadaaenaaaai eadaaenaaaais
1 1 40 53 eadaaenaaaais|1 of 4
dic 2|eadaaenaaaai|akaihaalsioa/S
1 1 40 53 eadaaenaaaais|1 of 4
dic 4|akaihaalsioa/S|eadaaenaaaai|akaihaalsioa|eadaaenaaaai/S
text akaihaalsioa akaihaalsioas eadaaenaaaai eadaaenaaaais
0 0 of 4
";
