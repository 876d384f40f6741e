//! Where comments and attributes end.

ghost use Rattle.token_law.specs.Blanks.{AttributesClose, BlockCommentsClose, LineCommentsEnd};

/// A comment that begins with `/*` ends with the least `*/` after these two bytes.
pub fn block_comments_close()
    ensures { BlockCommentsClose }
{}

/// A comment that begins with `//` ends before the least newline after these two bytes, or where
/// the text does.
pub fn line_comments_end()
    ensures { LineCommentsEnd }
{}

/// An attribute ends with the least `*)` after its opening that stands outside its strings.
pub fn attributes_close()
    ensures { AttributesClose }
{}
