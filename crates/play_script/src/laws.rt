//! What holds of all lines.

ghost use Rattle.play_script.specs.Spelling.{SpelledLinesAreRead, SpelledScriptsAreRead};

/// Each line, and each script of lines, has a text that is read as it, where names are one's alone.
pub fn spelled_lines_are_read()
    ensures line { SpelledLinesAreRead }
    ensures script { SpelledScriptsAreRead }
{}
