/// Which fault is told where there are several.
pub const ROWS: &str = "
# Four passes, one after another, whatever lines they speak of: the encoding, the type of flags, aliases, and all else.
fault aff 3 OtherEncoding: FLAG what|AF x|SET ISO8859-15
fault aff 4 OtherEncoding: COMPLEXPREFIXES|FLAG wide|AF x|SET latin1
fault aff 4 NotUtf8: NEEDAFFIX|AF 1|FLAG|@xff@
fault aff 3 OtherFlag: AF x|WARN|FLAG wide
fault aff 2 OtherFlag: AF|FLAG double
fault aff 2 OtherFlag: NEEDAFFIX ab|FLAG wide
fault aff 2 MissingField: WARN|AF
fault aff 3 BadFlag: WARN ab|AF 1|AF 1,,2|FLAG num

# In a pass the lowest line goes first, whatever its directive.
fault aff 3 Twice: WARN A|FORBIDDENWORD B|WARN A|FORBIDDENWORD B
fault aff 1 BadFlag: FORBIDDENWORD ab|SFX
fault aff 1 MissingField: SFX|FORBIDDENWORD ab
fault aff 2 BadFlag: SFX A Y 1|WARN ab|SFX A 0 s [a
fault aff 3 BadCondition: WARN a|SFX A Y 1|SFX A 0 s [a|WARN a
fault aff 1 MissingField: WARN|WORDCHARS
fault aff 1 MissingField: WORDCHARS|WARN
fault aff 2 LeftOut: WARN !|SYLLABLENUM|WARN
fault aff 2 MissingField: WARN !|SFX|WARN
fault aff 2 MissingField: TRY x|WARN|REP 1
fault aff 1 MissingField: WORDCHARS|COMPLEXPREFIXES|IGNORE|FORBIDWARN|SFX|TRY|NEEDAFFIX

# A fault of the .aff file goes before those of the .dic file.
fault aff 1 MissingField: WARN
";
