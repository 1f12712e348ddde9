//! What holds of all texts and queries.

ghost use Rattle.query_syntax.specs.Forms.{FormsAreReadAgain};
ghost use Rattle.query_syntax.specs.ReadAgain.{TokensAreReadAgain};

/// The canonical text of tokens has those tokens.
pub fn tokens_are_read_again()
    ensures { TokensAreReadAgain }
{}

/// Each query that the grammar allows is read from its tokens.
pub fn forms_are_read_again()
    ensures { FormsAreReadAgain }
{}
