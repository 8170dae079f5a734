/// Directives that are left out.
pub const ROWS: &str = "
fault aff 1 LeftOut: COMPLEXPREFIXES
fault aff 2 LeftOut: SET UTF-8|COMPOUNDSYLLABLE
fault aff 1 LeftOut: COMPLEXPREFIXES\r|SYLLABLENUM x\r
fault aff 2 LeftOut: # SYLLABLENUM| COMPOUNDSYLLABLE 1
fault aff 1 LeftOut: COMPOUNDSYLLABLE
fault aff 1 LeftOut: SYLLABLENUM
fault aff 2 LeftOut: CHECKSHARPS|COMPOUNDSYLLABLE 6 aou
fault aff 2 LeftOut: SIMPLIFIEDTRIPLE|SYLLABLENUM
fault aff 2 LeftOut: SET UTF-8|COMPLEXPREFIXES
";
